//! `read_delay_imports`: all delay-loaded imports of an image; and `read_named_delay_imports`, with the RVAs of their names.

ghost use Rattle.std.specs.Prelude.{◌≡◌, ◌≢◌, ◌++◌, ◌≤◌, [], map, true, IfOk, OnErr, OnOk};
ghost use Rattle.pe_view.specs.TextEnds.{AreEndsOf};
ghost use Rattle.pe_layout.specs.Layout.{file_of, image_of};
ghost use Rattle.pe_tables.specs.ImportNames.{AreNamedAt};
ghost use Rattle.pe_tables.specs.ImportView.{import_view};
ghost use Rattle.pe_delay.specs.Descriptors.{delay_descriptors};
ghost use Rattle.pe_delay.specs.Entries.{entry_at, entry_count, imports_by, is_placed, most_after};
ghost use Rattle.pe_delay.specs.Imports.{imports_in, imports_after, delay_imports_of, is_ended_by};
ghost use Rattle.pe_delay.specs.Left.{descriptors_left};
ghost use Rattle.pe_delay.specs.Names.{delay_names_of, name_rva_in, names_after, names_by, names_in};
ghost use Rattle.pe_delay.specs.Tables.{tables_of};
ghost use Rattle.pe_delay.specs.Walk.{AddsImports};

use crate::descriptor::DelayDescriptor;
use crate::descriptors::DelayDescriptors;
use crate::entry::{entry_rva, is_inside, is_ordinal, name_rva, placed_value, value_at};
use crate::tables::{Tables, tables_of};
use crate::walk::{count_entries, import_at, most_after};
use pe_layout::Layout;
use pe_tables::Import;
use pe_view::TextEnds;
use std::alloc::{AllocError, Allocator};

/// Delay-loaded imports, and where their names are.
#[derive(Drop)]
pub struct NamedImports<'a, A: Allocator> {
    /// The imports.
    pub imports: Vec<Import<'a>, A>,
    /// The RVA of the name of each, or 0 for an import by ordinal. Imports with one RVA have one name, which need not be compared.
    pub name_rvas: Vec<u32, A>,
}

/// The RVA of the name of entry `index`, which imports, or 0 if it holds an ordinal.
fn name_place(layout: &Layout, tables: &Tables, index: u32) -> u32
    requires { is_placed (image_of layout.now) tables.now (entry_at (image_of layout.now) tables.now index) ≡ true }
    ensures { result ≡ name_rva_in (image_of layout.now) tables.now (entry_at (image_of layout.now) tables.now index) }
{
    match placed_value(layout, tables, index) {
        Some(value) if !is_ordinal(layout, value) => name_rva(layout, tables, value).unwrap_or(0),
        _ => 0,
    }
}

/// Adds the imports of the first `most` entries of a table, up to the first that does not import.
fn push_imports<'a, A: Allocator + Copy>(
    found: &mut NamedImports<'a, A>,
    ends: &mut TextEnds<A>,
    layout: &Layout<'a>,
    module: &'a [u8],
    tables: &Tables,
    most: u32,
) -> Result<(), AllocError>
    requires { AreEndsOf (file_of layout.now) ends.old }
    ensures known { AreEndsOf (file_of layout.now) ends.new }
    ensures adds { AddsImports (imports_by (image_of layout.now) tables.now «module».entry.now most 0) (map import_view found.old.imports.items) (map import_view found.new.imports.items) result }
    ensures names { OnOk result (found.new.name_rvas.items ≡ found.old.name_rvas.items ++ names_by (image_of layout.now) tables.now most 0) }
{
    let mut index = 0;
    while let Some(import) = import_at(ends, layout, module, tables, index, most) {
        found.imports.push(import)?;
        found.name_rvas.push(name_place(layout, tables, index))?;
        index += 1;
    }
    Ok(())
}

/// Whether entry `index` of a table is 0, which ends it.
fn is_end(layout: &Layout, tables: &Tables, index: u32) -> bool
    ensures { result ≡ is_ended_by (image_of layout.now) (entry_at (image_of layout.now) tables.now index) }
{
    let rva = entry_rva(layout, tables, index);
    is_inside(layout, rva) && value_at(layout, rva).is_none()
}

/// Adds the imports of a descriptor with these tables, of which `count` entries import, where `read` entries of all tables were read
/// before.
fn push_descriptor<'a, A: Allocator + Copy>(
    found: &mut NamedImports<'a, A>,
    ends: &mut TextEnds<A>,
    layout: &Layout<'a>,
    descriptor: &DelayDescriptor,
    tables: &Tables,
    count: u32,
    read: u32,
) -> Result<(), AllocError>
    requires known { AreEndsOf (file_of layout.now) ends.old }
    requires tables { tables.now ≡ tables_of (image_of layout.now) descriptor.now }
    requires count { count ≡ entry_count (image_of layout.now) tables.now read }
    requires few { read ≤ 1048576 }
    ensures known { AreEndsOf (file_of layout.now) ends.new }
    ensures adds { AddsImports (imports_in (image_of layout.now) read descriptor.now) (map import_view found.old.imports.items) (map import_view found.new.imports.items) result }
    ensures names { OnOk result (found.new.name_rvas.items ≡ found.old.name_rvas.items ++ names_in (image_of layout.now) read descriptor.now) }
{
    let Some(module) = descriptor.module_kept(ends, layout) else {
        return Ok(());
    };
    if !is_end(layout, tables, count) {
        return Ok(());
    }
    push_imports(
        found,
        ends,
        layout,
        module,
        tables,
        most_after(layout, read),
    )
}

/// Adds the imports of each descriptor.
fn push_descriptors<'a, A: Allocator + Copy>(
    found: &mut NamedImports<'a, A>,
    ends: &mut TextEnds<A>,
    layout: &Layout<'a>,
) -> Result<(), AllocError>
    requires known { AreEndsOf (file_of layout.now) ends.old }
    ensures adds { AddsImports (delay_imports_of (image_of layout.now)) (map import_view found.old.imports.items) (map import_view found.new.imports.items) result }
    ensures names { OnOk result (found.new.name_rvas.items ≡ found.old.name_rvas.items ++ delay_names_of (image_of layout.now)) }
{
    let mut descriptors = DelayDescriptors::of(layout);
    let mut read = 0;
    while let Some(descriptor) = descriptors.next() {
        let tables = tables_of(layout, &descriptor);
        let count = count_entries(ends, layout, &tables, read);
        push_descriptor(found, ends, layout, &descriptor, &tables, count, read)?;
        read += count;
    }
    Ok(())
}

/// The delay-loaded imports of an image as [`read_delay_imports`] returns them, with the RVAs of their names.
///
/// The error is that no memory is left. It never comes if there is no import.
pub fn read_named_delay_imports<'a, A: Allocator + Copy>(
    alloc: A,
    layout: &Layout<'a>,
) -> Result<NamedImports<'a, A>, AllocError>
    ensures imports { IfOk result (λ found. map import_view found.imports.items ≡ delay_imports_of (image_of layout.now)) }
    ensures names { IfOk result (λ found. found.name_rvas.items ≡ delay_names_of (image_of layout.now)) }
    ensures memory { OnErr result (delay_imports_of (image_of layout.now) ≢ []) }
{
    let mut found = NamedImports {
        imports: Vec::new(alloc),
        name_rvas: Vec::new(alloc),
    };
    let mut ends = TextEnds::new(alloc);
    push_descriptors(&mut found, &mut ends, layout)?;
    Ok(found)
}

/// The delay-loaded imports of an image, in the order of its delay-load directory table: those of each descriptor that has none of the
/// findings 162 to 167. Each borrows its strings from the file. Without the directory there are none. ("PE Format", Delay-Load Import
/// Tables.)
///
/// The error is that no memory is left. It never comes if there is no import.
pub fn read_delay_imports<'a, A: Allocator + Copy>(
    alloc: A,
    layout: &Layout<'a>,
) -> Result<Vec<Import<'a>, A>, AllocError>
    ensures exact { IfOk result (λ imports. map import_view imports.items ≡ delay_imports_of (image_of layout.now)) }
    ensures memory { OnErr result (delay_imports_of (image_of layout.now) ≢ []) }
{
    let found = read_named_delay_imports(alloc, layout)?;
    Ok(found.imports)
}
