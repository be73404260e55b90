//! `read_imports`: the imports of an image, or the first of faults 24 to 32.

ghost use Rattle.std.specs.Prelude.{◌≡◌, ◌≢◌, ◌+◌, ◌≤◌, ◌^◌, ◌<◌, [], ◌∷◌, None, IsTrue, IsOk, IsErrOf, OnOk, map, not, option_to_list};
ghost use Rattle.std.specs.List.{filter_map, flat_map};
ghost use Rattle.pe_layout.specs.Layout.{file_of, image_of};
ghost use Rattle.pe_layout.specs.Image.{number_at};
ghost use Rattle.pe_tables.specs.TableFaults.{goes_past};
ghost use Rattle.pe_view.specs.Faults.{AnswersOrWants};
ghost use Rattle.pe_view.specs.TextEnds.{AreEndsOf};
ghost use Rattle.pe_tables.specs.Imports.{is_null, ends_list, descriptor_at, descriptors_of, lookup_at, lookup_table, lookups_of, ends_table, is_ordinal, key_of, import_of, module_of, imports_in, imports_of};
ghost use Rattle.pe_tables.specs.ImportFaults.{key_tests, slot_tests, lookup_tests, lookups_tests, module_tests, descriptor_tests, descriptors_tests, import_tests};
ghost use Rattle.pe_tables.specs.ImportView.{import_view};
ghost use Rattle.pe_tables.specs.ImportReading.{read_of, IsIndexed, Reads};
ghost use Rattle.pe_tables.specs.Key.{key_view};
ghost use Rattle.pe_view.specs.declared.refusal.Refusal.{Refusal};

use crate::error::{TableError, fault_at};
use crate::import::Import;
use crate::key::Key;
use pe_head::directory_index;
use pe_layout::Layout;
use pe_ranges::Ranges;
use pe_view::TextEnds;
use std::alloc::{AllocError, Allocator};

/// The most imports of an image.
const IMPORT_LIMIT: usize = 1_048_576;

/// An import descriptor ("PE Format", Import Directory Table).
#[derive(Clone, Copy)]
pub(crate) struct Descriptor {
    /// Its RVA.
    pub rva: u32,
    /// The RVA of the lookup table, or 0.
    pub lookup: u32,
    pub time_stamp: u32,
    /// The RVA of the module's name.
    pub name: u32,
    /// The RVA of the address table.
    pub addresses: u32,
}

impl Descriptor {
    /// Whether it ends the list: it has no name, or no import address table.
    pub fn is_null(self) -> bool
        ensures { result ≡ is_null self }
    {
        self.name == 0 || self.addresses == 0
    }

    /// The RVA of the lookup table: that of the address table if there is none.
    pub fn lookup_table(self) -> u32
        ensures { result ≡ lookup_table self }
    {
        if self.lookup == 0 {
            self.addresses
        } else {
            self.lookup
        }
    }
}

/// The imports read so far, and the bytes of their slots: the entries of the import address table.
#[derive(Drop)]
pub(crate) struct FoundImports<'a, A: Allocator> {
    pub imports: Vec<Import<'a>, A>,
    pub slots: Ranges<A>,
}

impl<'a, A: Allocator + Copy> FoundImports<'a, A> {
    /// Adds an import, whose slot has `width` bytes as all others have.
    fn add(&mut self, import: Import<'a>, width: u32) -> Result<(), AllocError>
        requires { IsIndexed width self.old }
        ensures { OnOk result (Reads width self.old self.new (import_view import.entry ∷ [])) }
    {
        self.slots.add(import.slot, width)?;
        self.imports.push(import)?;
        Ok(())
    }
}

/// The value of the lookup entry at an RVA of the image, which has the width of a slot.
#[inline]
pub(crate) fn lookup_value(layout: &Layout, rva: u32) -> u64
    requires { rva + (image_of layout.now).slot_width ≤ (image_of layout.now).size }
    ensures { result ≡ number_at (image_of layout.now).slot_width (image_of layout.now) rva }
{
    if layout.slot_width() == 4 {
        u64::from(layout.u32_at(rva).unwrap())
    } else {
        layout.u64_at(rva).unwrap()
    }
}

/// Whether the top bit of a lookup entry's value is set: it holds an ordinal.
#[inline]
pub(crate) fn is_ordinal(layout: &Layout, value: u64) -> bool
    ensures { result ≡ is_ordinal (image_of layout.now) value }
{
    value >> (8 * layout.slot_width() - 1) == 1
}

/// The ordinal or name in the lookup entry at an RVA with this value, or fault 27 or 28. The hint before a name is not read.
fn read_key<'a, A: Allocator + Copy>(
    ends: &mut TextEnds<A>,
    layout: &Layout<'a>,
    rva: u32,
    value: u64,
) -> Result<Key<'a>, TableError>
    requires { AreEndsOf (file_of layout.now) ends.old }
    ensures known { AreEndsOf (file_of layout.now) ends.new }
    ensures exact { AnswersOrWants (key_tests (image_of layout.now) rva value) (λ key. key_view key ≡ key_of (image_of layout.now) value) result }
    ensures no_memory { result ≢ Err Refusal.Memory }
{
    if is_ordinal(layout, value) {
        return Ok(Key::Ordinal((value % 0x1_0000) as u16));
    }
    let Some(name) = layout.text_at(ends, (value % 0x8000_0000) as u32 + 2) else {
        return Err(fault_at(27, layout, rva));
    };
    if value >> 31 != 0 {
        return Err(fault_at(28, layout, rva));
    }
    Ok(Key::Name(name.bytes))
}

/// Tests faults 29 to 31 of the slot of the lookup entry at an RVA.
fn check_slot<A: Allocator + Copy>(
    layout: &Layout,
    found: &FoundImports<A>,
    rva: u32,
    slot: u32,
) -> Result<(), TableError>
    requires { IsIndexed (image_of layout.now).slot_width found.now }
    ensures exact { AnswersOrWants (slot_tests (image_of layout.now) (read_of found.now) rva slot) (λ _. Unit {0}) result }
    ensures no_memory { result ≢ Err Refusal.Memory }
{
    let width = layout.slot_width();
    if !layout.contains(slot, u64::from(width)) {
        return Err(fault_at(29, layout, rva));
    }
    if found.slots.meets(slot, width) {
        return Err(fault_at(30, layout, rva));
    }
    if found.imports.len() == IMPORT_LIMIT {
        return Err(fault_at(31, layout, rva));
    }
    Ok(())
}

/// Reads the lookup entry at an RVA, with its slot, or returns the first of faults 26 to 31; says whether the table continues after
/// it.
fn read_lookup<'a, A: Allocator + Copy>(
    ends: &mut TextEnds<A>,
    layout: &Layout<'a>,
    found: &mut FoundImports<'a, A>,
    module: &'a [u8],
    rva: u32,
    slot: u32,
) -> Result<bool, TableError>
    requires known { AreEndsOf (file_of layout.now) ends.old }
    requires indexed { IsIndexed (image_of layout.now).slot_width found.old }
    ensures known { AreEndsOf (file_of layout.now) ends.new }
    ensures exact { AnswersOrWants (lookup_tests (image_of layout.now) (read_of found.old) (lookup_at (image_of layout.now) rva slot))
        (λ goes_on. (goes_on ≡ not (ends_table (image_of layout.now) (lookup_at (image_of layout.now) rva slot)))
        × Reads (image_of layout.now).slot_width found.old found.new (option_to_list (import_of (image_of layout.now) «module».entry.now (lookup_at (image_of layout.now) rva slot)))) result }
    ensures memory { IsErrOf result Refusal.Memory → IsTrue (goes_past 31 (lookup_tests (image_of layout.now) (read_of found.old) (lookup_at (image_of layout.now) rva slot))) }
{
    let width = layout.slot_width();
    if !layout.contains(rva, u64::from(width)) {
        return Err(fault_at(26, layout, rva));
    }
    let value = lookup_value(layout, rva);
    if value == 0 {
        return Ok(false);
    }
    let key = read_key(ends, layout, rva, value)?;
    check_slot(layout, found, rva, slot)?;
    found.add(Import { module, key, slot }, width)?;
    Ok(true)
}

/// Reads the lookup entries of a descriptor that names this module, or returns the first of faults 26 to 31.
fn read_lookups<'a, A: Allocator + Copy>(
    ends: &mut TextEnds<A>,
    layout: &Layout<'a>,
    found: &mut FoundImports<'a, A>,
    module: &'a [u8],
    descriptor: Descriptor,
) -> Result<(), TableError>
    requires known { AreEndsOf (file_of layout.now) ends.old }
    requires indexed { IsIndexed (image_of layout.now).slot_width found.old }
    ensures known { AreEndsOf (file_of layout.now) ends.new }
    ensures exact { AnswersOrWants (lookups_tests (image_of layout.now) «module».entry.now (read_of found.old) (lookups_of (image_of layout.now) descriptor))
        (λ _. Reads (image_of layout.now).slot_width found.old found.new (filter_map (import_of (image_of layout.now) «module».entry.now) (lookups_of (image_of layout.now) descriptor))) result }
    ensures memory { IsErrOf result Refusal.Memory → IsTrue (goes_past 31 (lookups_tests (image_of layout.now) «module».entry.now (read_of found.old) (lookups_of (image_of layout.now) descriptor))) }
{
    let width = layout.slot_width();
    let mut rva = descriptor.lookup_table();
    let mut slot = descriptor.addresses;
    while read_lookup(ends, layout, found, module, rva, slot)? {
        rva += width;
        slot += width;
    }
    Ok(())
}

/// The descriptor at an RVA of the image.
pub(crate) fn descriptor_at(layout: &Layout, rva: u32) -> Descriptor
    requires inside { rva + 20 ≤ (image_of layout.now).size }
    requires small { rva + 20 < 2 ^ 32 }
    ensures { result ≡ descriptor_at (image_of layout.now) rva }
{
    Descriptor {
        rva,
        lookup: layout.u32_at(rva).unwrap(),
        time_stamp: layout.u32_at(rva + 4).unwrap(),
        name: layout.u32_at(rva + 12).unwrap(),
        addresses: layout.u32_at(rva + 16).unwrap(),
    }
}

/// The name of the module of a descriptor, or fault 25 or 32.
fn module_name<'a, A: Allocator + Copy>(
    ends: &mut TextEnds<A>,
    layout: &Layout<'a>,
    descriptor: Descriptor,
) -> Result<&'a [u8], TableError>
    requires known { AreEndsOf (file_of layout.now) ends.old }
    requires small { descriptor.rva + 20 < 2 ^ 32 }
    ensures known { AreEndsOf (file_of layout.now) ends.new }
    ensures exact { AnswersOrWants (module_tests (image_of layout.now) descriptor) (λ name. name.now ≡ module_of (image_of layout.now) descriptor) result }
    ensures no_memory { result ≢ Err Refusal.Memory }
{
    let Some(name) = layout.text_at(ends, descriptor.name) else {
        return Err(fault_at(25, layout, descriptor.rva + 12));
    };
    if descriptor.lookup == 0 && descriptor.time_stamp != 0 {
        return Err(fault_at(32, layout, descriptor.rva));
    }
    Ok(name.bytes)
}

/// Reads the descriptor at an RVA and its lookup entries, or returns the first of faults 24 to 32; says whether the list continues
/// after it.
fn read_descriptor<'a, A: Allocator + Copy>(
    ends: &mut TextEnds<A>,
    layout: &Layout<'a>,
    found: &mut FoundImports<'a, A>,
    rva: u32,
) -> Result<bool, TableError>
    requires known { AreEndsOf (file_of layout.now) ends.old }
    requires indexed { IsIndexed (image_of layout.now).slot_width found.old }
    ensures known { AreEndsOf (file_of layout.now) ends.new }
    ensures exact { AnswersOrWants (descriptor_tests (image_of layout.now) (read_of found.old) (descriptor_at (image_of layout.now) rva))
        (λ goes_on. (goes_on ≡ not (ends_list (image_of layout.now) (descriptor_at (image_of layout.now) rva)))
        × Reads (image_of layout.now).slot_width found.old found.new (imports_in (image_of layout.now) (descriptor_at (image_of layout.now) rva))) result }
    ensures memory { IsErrOf result Refusal.Memory → IsTrue (goes_past 31 (descriptor_tests (image_of layout.now) (read_of found.old) (descriptor_at (image_of layout.now) rva))) }
{
    if !layout.contains(rva, 20) {
        return Err(fault_at(24, layout, rva));
    }
    let descriptor = descriptor_at(layout, rva);
    if descriptor.is_null() {
        return Ok(false);
    }
    let module = module_name(ends, layout, descriptor)?;
    read_lookups(ends, layout, found, module, descriptor)?;
    Ok(true)
}

/// Reads the descriptors from an RVA on, or returns the first of faults 24 to 32.
fn read_descriptors<'a, A: Allocator + Copy>(
    ends: &mut TextEnds<A>,
    layout: &Layout<'a>,
    found: &mut FoundImports<'a, A>,
    start: u32,
) -> Result<(), TableError>
    requires known { AreEndsOf (file_of layout.now) ends.old }
    requires indexed { IsIndexed (image_of layout.now).slot_width found.old }
    requires none { read_of found.old ≡ [] }
    ensures known { AreEndsOf (file_of layout.now) ends.new }
    ensures exact { AnswersOrWants (descriptors_tests (image_of layout.now) [] (descriptors_of (image_of layout.now) start))
        (λ _. read_of found.new ≡ flat_map (imports_in (image_of layout.now)) (descriptors_of (image_of layout.now) start)) result }
    ensures memory { IsErrOf result Refusal.Memory → IsTrue (goes_past 31 (descriptors_tests (image_of layout.now) [] (descriptors_of (image_of layout.now) start))) }
{
    let mut rva = start;
    while read_descriptor(ends, layout, found, rva)? {
        rva += 20;
    }
    Ok(())
}

/// The imports of an image, in the order of its import table, or the first of faults 24 to 32.
///
/// Each borrows its strings from the file. An image without the table has no imports, and nothing is allocated for it. Before the
/// first lookup entry without a fault, memory is allocated only to remember where long strings end. The directory's Size is not
/// used. ("PE Format", The .idata Section.)
pub fn read_imports<'a, A: Allocator + Copy>(
    alloc: A,
    layout: &Layout<'a>,
) -> Result<Vec<Import<'a>, A>, TableError>
    ensures exact { AnswersOrWants (import_tests (image_of layout.now)) (λ imports. map import_view imports.items ≡ imports_of (image_of layout.now)) result }
    ensures absent { (image_of layout.now).directory 1 ≡ None → IsOk result }
    ensures memory { IsErrOf result Refusal.Memory → IsTrue (goes_past 31 (import_tests (image_of layout.now))) }
{
    let Some(directory) = layout.directory(directory_index::IMPORT) else {
        return Ok(Vec::new(alloc));
    };
    let mut found = FoundImports {
        imports: Vec::new(alloc),
        slots: Ranges::new(alloc),
    };
    let mut ends = TextEnds::new(alloc);
    read_descriptors(&mut ends, layout, &mut found, directory.rva)?;
    let FoundImports { imports, slots: _ } = found;
    Ok(imports)
}
