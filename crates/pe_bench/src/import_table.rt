//! The import table of a synthetic module ("PE Format", The .idata Section).

use crate::chance::{Chance, push_name};
use crate::module_names::push_module;
use crate::numbers::{align, next_rva, push_address, push_u16, push_u32};
use crate::shape::{Module, Shape};
use std::alloc::Global;

/// The parts of an import table.
#[derive(Drop)]
pub(crate) struct ImportParts {
    pub(crate) descriptors: Vec<u8>,
    pub(crate) lookups: Vec<u8>,
    pub(crate) texts: Vec<u8>,
}

impl ImportParts {
    pub(crate) fn new(alloc: Global) -> ImportParts {
        ImportParts {
            descriptors: Vec::new(alloc),
            lookups: Vec::new(alloc),
            texts: Vec::new(alloc),
        }
    }

    /// The table: descriptors, an empty one after them, lookup tables, slots and strings.
    pub(crate) fn table(&self, alloc: Global) -> Option<ImportTable> {
        let mut bytes = Vec::new(alloc);
        bytes.extend_from_slice(&self.descriptors).ok()?;
        bytes.extend_from_slice(&[0; 20]).ok()?;
        let descriptors = u32::try_from(bytes.len()).ok()?;
        bytes.extend_from_slice(&self.lookups).ok()?;
        bytes.extend_from_slice(&self.lookups).ok()?;
        bytes.extend_from_slice(&self.texts).ok()?;
        align(&mut bytes)?;
        Some(ImportTable { bytes, descriptors })
    }
}

/// An import table, and the place of its slots.
#[derive(Drop)]
pub(crate) struct ImportTable {
    /// Its bytes, from its descriptors on.
    pub(crate) bytes: Vec<u8>,
    /// How many of these are descriptors.
    pub(crate) descriptors: u32,
}

/// The RVAs of the parts of an import table.
#[derive(Clone, Copy)]
pub(crate) struct Places {
    pub(crate) lookups: u32,
    pub(crate) slots: u32,
    pub(crate) texts: u32,
}

/// The RVAs of the parts of an import table at an RVA.
pub(crate) fn places_of(shape: Shape, rva: u32) -> Option<Places> {
    let width = if shape.is_wide { 8 } else { 4 };
    let descriptors = shape.imported.checked_add(1)?.checked_mul(20)?;
    let size = shape
        .imports
        .checked_add(1)?
        .checked_mul(width)?
        .checked_mul(shape.imported)?;
    let lookups = rva.checked_add(descriptors)?;
    let slots = lookups.checked_add(size)?;
    Some(Places {
        lookups,
        slots,
        texts: slots.checked_add(size)?,
    })
}

/// Appends an import: one in sixteen by ordinal, the others by name.
fn push_import(
    parts: &mut ImportParts,
    chance: &mut Chance,
    texts: u32,
    shape: Shape,
    module: Module,
    from: u32,
) -> Option<()> {
    let number = chance.below(shape.exports);
    if number % 16 == 7 {
        let flag = if shape.is_wide { 1 << 63 } else { 1 << 31 };
        let ordinal = (u64::from(number) + 1) % 65536;
        return push_address(&mut parts.lookups, shape.is_wide, flag | ordinal);
    }
    let hint = next_rva(texts, &parts.texts)?;
    push_address(&mut parts.lookups, shape.is_wide, u64::from(hint))?;
    push_u16(&mut parts.texts, number)?;
    push_name(&mut parts.texts, module.seed, from, number)?;
    parts.texts.push(0).ok()
}

/// Appends the descriptor of the imports from a module, whose lookup entries come next, and the module's name.
pub(crate) fn push_descriptor(parts: &mut ImportParts, places: Places, from: u32) -> Option<()> {
    let name = next_rva(places.texts, &parts.texts)?;
    push_module(&mut parts.texts, from)?;
    parts.texts.extend_from_slice(b".dll\0").ok()?;
    let lookups = next_rva(places.lookups, &parts.lookups)?;
    let slots = next_rva(places.slots, &parts.lookups)?;
    for field in [lookups, 0, 0, name, slots] {
        push_u32(&mut parts.descriptors, field)?;
    }
    Some(())
}

/// Appends the imports from a module: its descriptor, its lookup entries and their strings.
fn push_imported(
    parts: &mut ImportParts,
    chance: &mut Chance,
    places: Places,
    shape: Shape,
    module: Module,
    from: u32,
) -> Option<()> {
    push_descriptor(parts, places, from)?;
    for _ in 0..shape.imports {
        push_import(parts, chance, places.texts, shape, module, from)?;
    }
    push_address(&mut parts.lookups, shape.is_wide, 0)
}

/// The import table of a module, for an RVA.
pub(crate) fn import_table(
    alloc: Global,
    shape: Shape,
    module: Module,
    rva: u32,
) -> Option<ImportTable> {
    let places = places_of(shape, rva)?;
    let mut chance = Chance::new(module.own_seed() ^ 0x1397);
    let mut parts = ImportParts::new(alloc);
    for step in 0..shape.imported {
        let from = module.next(step.saturating_add(1));
        push_imported(&mut parts, &mut chance, places, shape, module, from)?;
    }
    parts.table(alloc)
}
