//! `read_exports`: the exports of an image, or the first of faults 16 to 22.

ghost use Rattle.std.specs.Prelude.{◌≡◌, ◌<◌, None, Some, IsOk, IsErrOf, option_map, map, All, AllPairs};
ghost use Rattle.std.specs.List.{filter_map, range_with_len};
ghost use Rattle.pe_layout.specs.Layout.{file_of, image_of};
ghost use Rattle.pe_view.specs.Faults.{AnswersOrWants};
ghost use Rattle.pe_view.specs.TextEnds.{AreEndsOf};
ghost use Rattle.pe_tables.specs.Key.{target_view};
ghost use Rattle.pe_tables.specs.Exports.{entry, target_of, named, names_of, by_entry, exports_of};
ghost use Rattle.pe_tables.specs.ExportFaults.{IsInside, each_tests, name_tests, entry_tests, export_tests, HasRows};
ghost use Rattle.pe_tables.specs.ExportsView.{name_view, ordinal_view, exports_view, IsNameOf};
ghost use Rattle.pe_tables.specs.NameIndex.{IsIndexOf};
ghost use Rattle.pe_tables.specs.Forwarders.{AreForwardersOf};
ghost use Rattle.pe_tables.specs.Window.{IsWindowOf};
ghost use Rattle.pe_view.specs.declared.refusal.Refusal.{Refusal};

use crate::error::{TableError, fault_at};
use crate::export_lookup::{Exports, target_by_ordinal};
use crate::export_table::{Table, read_table};
use crate::forwarder::is_forwarder;
use crate::forwarders::Forwarders;
use crate::guesses::Guesses;
use crate::key::Target;
use crate::name_index::NameIndex;
use crate::window::Window;
use pe_head::{Directory, directory_index};
use pe_layout::{Layout, Text};
use pe_view::TextEnds;
use std::alloc::Allocator;

/// A name of the name pointer table.
#[derive(Clone, Copy)]
pub(crate) struct Name<'a> {
    /// Its bytes, and where they are in the file.
    pub text: Text<'a>,
    /// The index of the entry in the export address table, without the ordinal base.
    pub entry: u32,
}

/// Reads name `index`, or returns fault 19 or 20.
fn read_name<'a, A: Allocator + Copy>(
    ends: &mut TextEnds<A>,
    pointers: &mut Window,
    ordinals: &mut Window,
    layout: &Layout<'a>,
    table: &Table,
    index: u32,
) -> Result<Name<'a>, TableError>
    requires known { AreEndsOf (file_of layout.now) ends.old }
    requires pointers { IsWindowOf (image_of layout.now) pointers.old }
    requires ordinals { IsWindowOf (image_of layout.now) ordinals.old }
    requires inside { IsInside (image_of layout.now) table.now }
    requires within { index < table.now.name_count }
    ensures known { AreEndsOf (file_of layout.now) ends.new }
    ensures pointers { IsWindowOf (image_of layout.now) pointers.new }
    ensures ordinals { IsWindowOf (image_of layout.now) ordinals.new }
    ensures exact { AnswersOrWants (name_tests (image_of layout.now) table.now index)
        (λ name. (Some (name_view name) ≡ named (image_of layout.now) table.now index) × IsNameOf (file_of layout.now) table.now.entry_count name) result }
{
    let pointer = table.names + 4 * index;
    let Some(text) = layout.text_at(ends, pointers.u32_at(layout, pointer)) else {
        return Err(fault_at(19, layout, pointer));
    };
    let rva = table.ordinals + 2 * index;
    let entry = u32::from(ordinals.u16_at(layout, rva));
    if entry >= table.entry_count {
        return Err(fault_at(20, layout, rva));
    }
    Ok(Name { text, entry })
}

/// Reads the names, in the order of the name pointer table, or returns the first fault 19 or 20.
fn read_names<'a, A: Allocator + Copy>(
    alloc: A,
    layout: &Layout<'a>,
    table: &Table,
) -> Result<Vec<Name<'a>, A>, TableError>
    requires { IsInside (image_of layout.now) table.now }
    ensures { AnswersOrWants (each_tests (name_tests (image_of layout.now) table.now) table.now.name_count)
        (λ names. (map name_view names.items ≡ names_of (image_of layout.now) table.now) × All (IsNameOf (file_of layout.now) table.now.entry_count) names.items) result }
{
    let mut names = Vec::with_capacity(alloc, table.name_count as usize)?;
    let mut ends = TextEnds::new(alloc);
    let mut pointers = Window::new();
    let mut ordinals = Window::new();
    for index in 0..table.name_count {
        let name = read_name(
            &mut ends,
            &mut pointers,
            &mut ordinals,
            layout,
            table,
            index,
        )?;
        names.push(name)?;
    }
    Ok(names)
}

/// What a value of the export address table exports: nothing if it is 0, or if it points to a forwarder string that is missing or
/// malformed.
fn target_of<'a, A: Allocator + Copy>(
    forwarders: &mut Forwarders<'a, A>,
    layout: &Layout<'a>,
    directory: Directory,
    value: u32,
) -> Option<Target<'a>>
    requires { AreForwardersOf (file_of layout.now) forwarders.old }
    ensures known { AreForwardersOf (file_of layout.now) forwarders.new }
    ensures target { option_map target_view result ≡ target_of (image_of layout.now) directory value }
{
    if value == 0 {
        None
    } else if is_forwarder(directory, value) {
        forwarders.get(layout, value)
    } else {
        Some(Target::Rva(value))
    }
}

/// Reads entry `index` of the export address table, or returns fault 21 or 22.
fn read_entry<'a, A: Allocator + Copy>(
    forwarders: &mut Forwarders<'a, A>,
    addresses: &mut Window,
    layout: &Layout<'a>,
    directory: Directory,
    table: &Table,
    index: u32,
) -> Result<Option<Target<'a>>, TableError>
    requires known { AreForwardersOf (file_of layout.now) forwarders.old }
    requires addresses { IsWindowOf (image_of layout.now) addresses.old }
    requires inside { IsInside (image_of layout.now) table.now }
    requires within { index < table.now.entry_count }
    ensures known { AreForwardersOf (file_of layout.now) forwarders.new }
    ensures addresses { IsWindowOf (image_of layout.now) addresses.new }
    ensures exact { AnswersOrWants (entry_tests (image_of layout.now) directory table.now index)
        (λ target. option_map target_view target ≡ target_of (image_of layout.now) directory (entry (image_of layout.now) table.now index)) result }
{
    let rva = table.addresses + 4 * index;
    let value = addresses.u32_at(layout, rva);
    if value == 0 {
        return Ok(None);
    }
    if !is_forwarder(directory, value) && value >= layout.size() {
        return Err(fault_at(21, layout, rva));
    }
    match target_of(forwarders, layout, directory, value) {
        Some(target) => Ok(Some(target)),
        None => Err(fault_at(22, layout, rva)),
    }
}

/// Reads the exports by ordinal, in the order of the export address table, or returns the first fault 21 or 22.
fn read_ordinals<'a, A: Allocator + Copy>(
    alloc: A,
    layout: &Layout<'a>,
    directory: Directory,
    table: &Table,
) -> Result<Vec<(u64, Target<'a>), A>, TableError>
    requires { IsInside (image_of layout.now) table.now }
    ensures { AnswersOrWants (each_tests (entry_tests (image_of layout.now) directory table.now) table.now.entry_count)
        (λ ordinals. (map ordinal_view ordinals.items ≡ filter_map (by_entry (image_of layout.now) directory table.now) (range_with_len 0 table.now.entry_count))
        × AllPairs (λ export later. export.0 < later.0) ordinals.items) result }
{
    let mut ordinals = Vec::with_capacity(alloc, table.entry_count as usize)?;
    let mut forwarders = Forwarders::new(alloc);
    let mut addresses = Window::new();
    for index in 0..table.entry_count {
        let target = read_entry(
            &mut forwarders,
            &mut addresses,
            layout,
            directory,
            table,
            index,
        )?;
        let Some(target) = target else {
            continue;
        };
        ordinals.push((u64::from(table.ordinal_base) + u64::from(index), target))?;
    }
    Ok(ordinals)
}

/// Reads what the entries export, and from that what the names do, or returns the first fault 21 or 22.
fn read_entries<'a, A: Allocator + Copy>(
    alloc: A,
    layout: &Layout<'a>,
    directory: Directory,
    table: &Table,
    names: &[Name<'a>],
) -> Result<Exports<'a, A>, TableError>
    requires inside { IsInside (image_of layout.now) table.now }
    requires within { All (IsNameOf (file_of layout.now) table.now.entry_count) names.now }
    ensures { AnswersOrWants (each_tests (entry_tests (image_of layout.now) directory table.now) table.now.entry_count)
        (λ exports. (map ordinal_view exports.ordinals.items ≡ filter_map (by_entry (image_of layout.now) directory table.now) (range_with_len 0 table.now.entry_count))
        × IsIndexOf (λ index. target_of (image_of layout.now) directory (entry (image_of layout.now) table.now index)) table.now.ordinal_base (map name_view names.now) exports.names) result }
{
    let ordinals = read_ordinals(alloc, layout, directory, table)?;
    let mut index = NameIndex::with_capacity(alloc, names.len())?;
    for (place, name) in names.iter().enumerate() {
        index.expect(alloc, &names[place..]);
        let ordinal = u64::from(table.ordinal_base) + u64::from(name.entry);
        let target = target_by_ordinal(&ordinals, ordinal);
        index.add(layout, name.text, ordinal, target)?;
    }
    Ok(Exports {
        ordinals,
        names: index,
        guesses: Guesses::none(alloc),
    })
}

/// The exports of an image, or the first of faults 16 to 22.
///
/// An image without the table, or whose table has no name and no entry, has no exports. Nothing is allocated then, nor with one of
/// faults 16 to 18. ("PE Format", The .edata Section.)
pub fn read_exports<'a, A: Allocator + Copy>(
    alloc: A,
    layout: &Layout<'a>,
) -> Result<Exports<'a, A>, TableError>
    ensures exact { AnswersOrWants (export_tests (image_of layout.now)) (λ exports. exports_view exports ≡ exports_of (image_of layout.now)) result }
    ensures absent { (image_of layout.now).directory 0 ≡ None → IsOk result }
    ensures memory { IsErrOf result Refusal.Memory → HasRows (image_of layout.now) ((image_of layout.now).directory 0) }
{
    let Some(directory) = layout.directory(directory_index::EXPORT) else {
        return Ok(Exports::new(alloc));
    };
    let table = read_table(layout, directory.rva)?;
    if table.name_count == 0 && table.entry_count == 0 {
        return Ok(Exports::new(alloc));
    }
    let names = read_names(alloc, layout, &table)?;
    read_entries(alloc, layout, directory, &table, &names)
}
