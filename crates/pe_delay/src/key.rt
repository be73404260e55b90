//! What an entry of a delay import name table imports.

ghost use Rattle.std.specs.Prelude.{◌≡◌, option_map};
ghost use Rattle.pe_view.specs.TextEnds.{AreEndsOf};
ghost use Rattle.pe_layout.specs.Layout.{file_of, image_of};
ghost use Rattle.pe_tables.specs.Key.{key_view};
ghost use Rattle.pe_delay.specs.Entries.{lacks_name};
ghost use Rattle.pe_delay.specs.Walk.{found_key};

use crate::entry::{is_ordinal, name_rva};
use crate::tables::Tables;
use pe_layout::Layout;
use pe_tables::Key;
use pe_view::TextEnds;
use std::alloc::Allocator;

/// The ordinal or name in an entry with this value, or `None` if its name is not there.
pub(crate) fn key_at<'a>(layout: &Layout<'a>, tables: &Tables, value: u64) -> Option<Key<'a>>
    ensures { option_map key_view result ≡ found_key (image_of layout.now) tables.now value }
{
    if is_ordinal(layout, value) {
        return Some(Key::Ordinal((value % 0x1_0000) as u16));
    }
    let name = layout.name_at(name_rva(layout, tables, value)?)?;
    Some(Key::Name(name))
}

/// The same, with the ends of strings that are known.
pub(crate) fn key_kept<'a, A: Allocator + Copy>(
    ends: &mut TextEnds<A>,
    layout: &Layout<'a>,
    tables: &Tables,
    value: u64,
) -> Option<Key<'a>>
    requires { AreEndsOf (file_of layout.now) ends.old }
    ensures known { AreEndsOf (file_of layout.now) ends.new }
    ensures key { option_map key_view result ≡ found_key (image_of layout.now) tables.now value }
{
    if is_ordinal(layout, value) {
        return Some(Key::Ordinal((value % 0x1_0000) as u16));
    }
    let name = layout.text_at(ends, name_rva(layout, tables, value)?)?;
    Some(Key::Name(name.bytes))
}

/// Whether an entry with this value is to hold a name, which is not there.
pub(crate) fn lacks_name<A: Allocator + Copy>(
    ends: &mut TextEnds<A>,
    layout: &Layout,
    tables: &Tables,
    value: u64,
) -> bool
    requires { AreEndsOf (file_of layout.now) ends.old }
    ensures known { AreEndsOf (file_of layout.now) ends.new }
    ensures name { result ≡ lacks_name (image_of layout.now) tables.now value }
{
    key_kept(ends, layout, tables, value).is_none()
}
