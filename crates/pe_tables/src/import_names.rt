//! `import_name_rvas`: the RVAs of the names of an image's imports.

ghost use Rattle.std.specs.Prelude.{◌≡◌, ◌++◌, None, IsOk, IfOk, OnOk, not, option_to_list};
ghost use Rattle.std.specs.List.{filter_map};
ghost use Rattle.pe_layout.specs.Layout.{image_of};
ghost use Rattle.pe_tables.specs.Imports.{descriptor_at, ends_list, lookup_at, lookups_of, ends_table};
ghost use Rattle.pe_tables.specs.ImportNames.{name_rva_of, name_of_lookup, names_in, import_names_at, import_names_of};

use crate::imports::{Descriptor, descriptor_at, is_ordinal, lookup_value};
use pe_head::directory_index;
use pe_layout::Layout;
use std::alloc::{AllocError, Allocator};

/// The RVA of the name, after its hint, to which a lookup entry with this value points, or 0 if it holds an ordinal.
fn name_rva(layout: &Layout, value: u64) -> u32
    ensures { result ≡ name_rva_of (image_of layout.now) value }
{
    if is_ordinal(layout, value) {
        0
    } else {
        (value % 0x8000_0000) as u32 + 2
    }
}

/// Adds the RVA of the name of the lookup entry at an RVA, unless the entry ends its table, and returns whether the table continues
/// after it.
fn push_name<A: Allocator>(
    layout: &Layout,
    rva: u32,
    names: &mut Vec<u32, A>,
) -> Result<bool, AllocError>
    ensures { IfOk result (λ goes_on. (goes_on ≡ not (ends_table (image_of layout.now) (lookup_at (image_of layout.now) rva 0)))
        × (names.new.items ≡ names.old.items ++ option_to_list (name_of_lookup (image_of layout.now) (lookup_at (image_of layout.now) rva 0)))) }
{
    if !layout.contains(rva, u64::from(layout.slot_width())) {
        return Ok(false);
    }
    let value = lookup_value(layout, rva);
    if value == 0 {
        return Ok(false);
    }
    names.push(name_rva(layout, value))?;
    Ok(true)
}

/// Adds the RVAs of the names of a descriptor's lookup table.
fn push_names<A: Allocator>(
    layout: &Layout,
    descriptor: Descriptor,
    names: &mut Vec<u32, A>,
) -> Result<(), AllocError>
    ensures { OnOk result (names.new.items ≡ names.old.items ++ filter_map (name_of_lookup (image_of layout.now)) (lookups_of (image_of layout.now) descriptor)) }
{
    let width = layout.slot_width();
    let mut rva = descriptor.lookup_table();
    while push_name(layout, rva, names)? {
        rva += width;
    }
    Ok(())
}

/// Adds the RVAs of the names of the descriptor at an RVA, unless it ends the list, and returns whether the list continues after
/// it.
fn push_descriptor<A: Allocator>(
    layout: &Layout,
    rva: u32,
    names: &mut Vec<u32, A>,
) -> Result<bool, AllocError>
    ensures { IfOk result (λ goes_on. (goes_on ≡ not (ends_list (image_of layout.now) (descriptor_at (image_of layout.now) rva)))
        × (names.new.items ≡ names.old.items ++ names_in (image_of layout.now) (descriptor_at (image_of layout.now) rva))) }
{
    if !layout.contains(rva, 20) {
        return Ok(false);
    }
    let descriptor = descriptor_at(layout, rva);
    if descriptor.is_null() {
        return Ok(false);
    }
    push_names(layout, descriptor, names)?;
    Ok(true)
}

/// Adds the RVAs of the names of the list of descriptors at an RVA.
fn push_list<A: Allocator>(
    layout: &Layout,
    start: u32,
    names: &mut Vec<u32, A>,
) -> Result<(), AllocError>
    ensures { OnOk result (names.new.items ≡ names.old.items ++ import_names_at (image_of layout.now) start) }
{
    let mut rva = start;
    while push_descriptor(layout, rva, names)? {
        rva += 20;
    }
    Ok(())
}

/// The RVA of the name of each import of an image, in table order, or 0 for an import by ordinal. Imports with the same
/// name RVA have the same name, which need not be compared.
///
/// It reads the table as `read_imports` does, but tests no fault. ("PE Format", Hint/Name Table.)
pub fn import_name_rvas<A: Allocator>(alloc: A, layout: &Layout) -> Result<Vec<u32, A>, AllocError>
    ensures exact { IfOk result (λ names. names.items ≡ import_names_of (image_of layout.now)) }
    ensures absent { (image_of layout.now).directory 1 ≡ None → IsOk result }
{
    let mut names = Vec::new(alloc);
    if let Some(directory) = layout.directory(directory_index::IMPORT) {
        push_list(layout, directory.rva, &mut names)?;
    }
    Ok(names)
}
