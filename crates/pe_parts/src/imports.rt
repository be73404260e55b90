//! Whether all that an import table reads is there.

ghost use Rattle.std.specs.Prelude.{◌≡◌, ◌+◌, ◌%◌, ◌^◌, ◌≤◌, ◌==◌, ◌&&◌, ◌||◌, ℕ, IsTrue, List, Option, false, if◌then◌else◌};
ghost use Rattle.pe_layout.specs.Image.{number_at};
ghost use Rattle.pe_layout.specs.Layout.{headers_of, image_of};
ghost use Rattle.pe_tables.specs.Imports.{is_ordinal};
ghost use Rattle.pe_parts.specs.AtHand.{has_text, has_name, has_lookups, has_descriptors, has_imports};
ghost use Rattle.pe_parts.specs.Filled.{HaveLookups, HaveDescriptors, MayHaveImports};
ghost use Rattle.pe_parts.specs.Packed.{AgreeAtHand, IsPieceAtHand};

use crate::held::{field, held_end, holds_text, is_before};
use pe_head::directory_index;
use pe_layout::Layout;

/// How many bytes an import descriptor takes.
const DESCRIPTOR_SIZE: u32 = 20;

/// The value of the lookup table entry at an RVA of the image.
fn value_at(layout: &Layout, rva: u32) -> u64
    requires { rva + (image_of layout.now).slot_width ≤ (image_of layout.now).size }
    ensures { result ≡ number_at (image_of layout.now).slot_width (image_of layout.now) rva }
{
    if layout.slot_width() == 4 {
        u64::from(layout.u32_at(rva).unwrap())
    } else {
        layout.u64_at(rva).unwrap()
    }
}

/// Whether a lookup table entry has an ordinal.
fn is_ordinal(layout: &Layout, value: u64) -> bool
    ensures { result ≡ is_ordinal (image_of layout.now) value }
{
    if layout.slot_width() == 4 {
        value >> 31 == 1
    } else {
        value >> 63 == 1
    }
}

/// Whether the string is there that a lookup table entry with this value has, if it has one.
fn holds_name(layout: &Layout, value: u64) -> bool
    ensures text { IsTrue result → is_ordinal (image_of layout.now) value ≡ false → IsPieceAtHand (headers_of layout.now) (value % 2 ^ 31 + 2) }
    ensures exact { result ≡ has_name (headers_of layout.now) (image_of layout.now) value }
{
    is_ordinal(layout, value) || holds_text(layout, (value % (1 << 31)) as u32 + 2)
}

/// Whether all that a lookup table reads is there, from the entry at an RVA on.
fn holds_lookups(layout: &Layout, first: u32) -> bool
    ensures have { IsTrue result → (b : ℕ → ℕ) (t : ℕ → Option (List ℕ))
        → AgreeAtHand (headers_of layout.now) (image_of layout.now) b t → (n : ℕ) → HaveLookups n (image_of layout.now) b t first }
    ensures exact { result ≡ has_lookups (headers_of layout.now) (image_of layout.now) first }
{
    let width = layout.slot_width();
    let end = held_end(layout, first);
    let mut rva = first;
    while is_before(layout, rva, width, end) {
        let value = value_at(layout, rva);
        if !holds_name(layout, value) {
            return false;
        }
        if value == 0 {
            return true;
        }
        rva += width;
    }
    false
}

/// Whether the name of a module and its lookup table are there, which are at these RVAs.
fn holds_module(layout: &Layout, name: u32, table: u32) -> bool
    ensures text { IsTrue result → IsPieceAtHand (headers_of layout.now) name }
    ensures have { IsTrue result → (b : ℕ → ℕ) (t : ℕ → Option (List ℕ))
        → AgreeAtHand (headers_of layout.now) (image_of layout.now) b t → (n : ℕ) → HaveLookups n (image_of layout.now) b t table }
    ensures exact { result ≡ (has_text (headers_of layout.now) name && has_lookups (headers_of layout.now) (image_of layout.now) table) }
{
    holds_text(layout, name) && holds_lookups(layout, table)
}

/// Whether a descriptor with these fields is null: it ends the import table.
fn is_null(name: u32, addresses: u32) -> bool
    ensures { result ≡ ((name == 0) || (addresses == 0)) }
{
    name == 0 || addresses == 0
}

/// The RVA of a descriptor's lookup table: its address table if it has no other.
fn lookup_table(lookup: u32, addresses: u32) -> u32
    ensures { result ≡ (if lookup == 0 then addresses else lookup) }
{
    if lookup == 0 { addresses } else { lookup }
}

/// Whether all that the import table reads is there, from the descriptor at an RVA on.
fn holds_descriptors(layout: &Layout, first: u32) -> bool
    ensures have { IsTrue result → (b : ℕ → ℕ) (t : ℕ → Option (List ℕ))
        → AgreeAtHand (headers_of layout.now) (image_of layout.now) b t → (n : ℕ) → HaveDescriptors n (image_of layout.now) b t first }
    ensures exact { result ≡ has_descriptors (headers_of layout.now) (image_of layout.now) first }
{
    let end = held_end(layout, first);
    let mut rva = first;
    while is_before(layout, rva, DESCRIPTOR_SIZE, end) {
        let name = field(layout, rva, 12);
        let addresses = field(layout, rva, 16);
        if is_null(name, addresses) {
            return true;
        }
        let table = lookup_table(field(layout, rva, 0), addresses);
        if !holds_module(layout, name, table) {
            return false;
        }
        rva += DESCRIPTOR_SIZE;
    }
    false
}

/// Whether all that the imports of an image depend on is there.
pub(crate) fn holds_imports(layout: &Layout) -> bool
    ensures have { IsTrue result → (b : ℕ → ℕ) (t : ℕ → Option (List ℕ))
        → AgreeAtHand (headers_of layout.now) (image_of layout.now) b t
        → MayHaveImports (image_of layout.now) b t ((image_of layout.now).directory 1) }
    ensures exact { result ≡ has_imports (headers_of layout.now) (image_of layout.now) ((image_of layout.now).directory 1) }
{
    match layout.directory(directory_index::IMPORT) {
        None => true,
        Some(directory) => holds_descriptors(layout, directory.rva),
    }
}
