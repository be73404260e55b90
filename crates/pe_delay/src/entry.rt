//! The entries of a delay import name table, and their slots.

ghost use Rattle.std.specs.Prelude.{◌≡◌, ◌+◌, ◌≤◌, ◌<◌, ◌^◌, IsTrue};
ghost use Rattle.pe_layout.specs.Image.{is_inside, number_at};
ghost use Rattle.pe_layout.specs.Layout.{image_of};
ghost use Rattle.pe_tables.specs.Imports.{is_ordinal, lookup_at};
ghost use Rattle.pe_delay.specs.Entries.{entry_at, has_other_bits, name_rva};
ghost use Rattle.pe_delay.specs.Walk.{placed_value, value_of};

use crate::address::rva_of;
use crate::tables::Tables;
use pe_layout::Layout;

/// The RVA of entry `index` of a name table.
pub(crate) fn entry_rva(layout: &Layout, tables: &Tables, index: u32) -> u64
    ensures value { result ≡ (entry_at (image_of layout.now) tables.now index).rva }
    ensures small { result < 2 ^ 63 }
{
    u64::from(tables.names) + u64::from(layout.slot_width()) * u64::from(index)
}

/// The RVA of the slot of entry `index`.
pub(crate) fn slot_rva(layout: &Layout, tables: &Tables, index: u32) -> u64
    ensures value { result ≡ (entry_at (image_of layout.now) tables.now index).slot }
    ensures small { result < 2 ^ 63 }
{
    u64::from(tables.addresses) + u64::from(layout.slot_width()) * u64::from(index)
}

/// Whether the image has all bytes of an entry or of a slot at an RVA.
pub(crate) fn is_inside(layout: &Layout, rva: u64) -> bool
    requires { rva < 2 ^ 63 }
    ensures inside { result ≡ is_inside (image_of layout.now) rva (image_of layout.now).slot_width }
    ensures small { IsTrue result → rva < 2 ^ 31 }
{
    rva + u64::from(layout.slot_width()) <= u64::from(layout.size())
}

/// The number at an RVA of the image, which has the width of a slot.
fn number_at(layout: &Layout, rva: u32) -> u64
    requires { rva + (image_of layout.now).slot_width ≤ (image_of layout.now).size }
    ensures { result ≡ number_at (image_of layout.now).slot_width (image_of layout.now) rva }
{
    if layout.slot_width() == 4 {
        u64::from(layout.u32_at(rva).unwrap())
    } else {
        layout.u64_at(rva).unwrap()
    }
}

/// The value of the entry at an RVA, or `None` if it ends its table: it is 0, or not in the image.
pub(crate) fn value_at(layout: &Layout, rva: u64) -> Option<u64>
    requires { rva < 2 ^ 63 }
    ensures { result ≡ value_of (image_of layout.now) (lookup_at (image_of layout.now) rva 0) }
{
    if !is_inside(layout, rva) {
        return None;
    }
    let value = number_at(layout, rva as u32);
    if value == 0 {
        return None;
    }
    Some(value)
}

/// Whether the top bit of an entry's value is set: it holds an ordinal.
pub(crate) fn is_ordinal(layout: &Layout, value: u64) -> bool
    ensures { result ≡ is_ordinal (image_of layout.now) value }
{
    value >> (8 * layout.slot_width() - 1) == 1
}

/// Whether bits of an entry's value that are to be 0 are not.
pub(crate) fn has_other_bits(layout: &Layout, tables: &Tables, value: u64) -> bool
    ensures { result ≡ has_other_bits (image_of layout.now) tables.now value }
{
    if is_ordinal(layout, value) {
        let top = 1 << (8 * layout.slot_width() - 1);
        return value % top / 0x1_0000 != 0;
    }
    tables.has_rvas && value >> 31 != 0
}

/// The RVA of the name, after its hint, that an entry's value leads to. It may be past the image.
pub(crate) fn name_rva(layout: &Layout, tables: &Tables, value: u64) -> Option<u32>
    ensures { result ≡ name_rva (image_of layout.now) tables.now value }
{
    if tables.has_rvas {
        return Some((value % 0x8000_0000) as u32 + 2);
    }
    let rva = rva_of(layout, value)?;
    Some(rva + 2)
}

/// The value of entry `index` if it does not end the table, no other bits of it are set, and its slot is in the image.
pub(crate) fn placed_value(layout: &Layout, tables: &Tables, index: u32) -> Option<u64>
    ensures { result ≡ placed_value (image_of layout.now) tables.now (entry_at (image_of layout.now) tables.now index) }
{
    let value = value_at(layout, entry_rva(layout, tables, index))?;
    if !is_inside(layout, slot_rva(layout, tables, index))
        || has_other_bits(layout, tables, value)
    {
        return None;
    }
    Some(value)
}
