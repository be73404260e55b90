//! Tables of a module that no linker writes, but an attacker may: names that are ends of one string, each export a forwarder to
//! the next, and a block for each base relocation, the last page first.

use crate::chance::Chance;
use crate::export_table::push_directory;
use crate::import_table::{ImportParts, ImportTable, places_of, push_descriptor};
use crate::module_names::push_module;
use crate::numbers::{next_rva, push_address, push_u16, push_u32};
use crate::shape::{Module, Shape};
use pe_tables::{Fixup, FixupKind};
use std::alloc::Global;

/// How many bytes a name is longer than the next one.
const STEP: u32 = 4;

/// Appends the string whose ends are the names of a module's exports, and its zero byte.
fn push_shared(texts: &mut Vec<u8>, shape: Shape, seed: u64, module: u32) -> Option<()> {
    let mut chance = Chance::new(seed ^ u64::from(module));
    for _ in 0..shape.exports.saturating_mul(STEP) {
        texts.push(b'a' + (chance.next() >> 59) as u8 % 26).ok()?;
    }
    texts.push(0).ok()
}

/// Appends a number in five digits.
fn push_digits(texts: &mut Vec<u8>, number: u32) -> Option<()> {
    for power in [10_000, 1_000, 100, 10, 1] {
        texts.push(b'0' + (number / power % 10) as u8).ok()?;
    }
    Some(())
}

/// Appends for each export the RVA of its forwarder to the next ordinal, in the next module, and its string. The last export is
/// code.
fn push_chain(
    table: &mut Vec<u8>,
    texts: &mut Vec<u8>,
    rva: u32,
    shape: Shape,
    module: Module,
) -> Option<()> {
    for number in 1..shape.exports {
        push_u32(table, next_rva(rva, texts)?)?;
        push_module(texts, module.next(1))?;
        texts.extend_from_slice(b".#").ok()?;
        push_digits(texts, number.checked_add(1)?)?;
        texts.push(0).ok()?;
    }
    push_u32(table, shape.code_rva)
}

/// Appends the RVA of each export's name, and its ordinal.
fn push_names(table: &mut Vec<u8>, texts: u32, exports: u32) -> Option<()> {
    for number in 0..exports {
        push_u32(table, texts.checked_add(number.checked_mul(STEP)?)?)?;
    }
    for number in 0..exports {
        push_u16(table, number)?;
    }
    Some(())
}

/// The export table of a module, for an RVA.
pub(crate) fn awkward_exports(
    alloc: Global,
    shape: Shape,
    module: Module,
    rva: u32,
) -> Option<Vec<u8>> {
    let rva_of_texts = rva
        .checked_add(40)?
        .checked_add(shape.exports.checked_mul(10)?)?;
    let mut texts = Vec::new(alloc);
    push_shared(&mut texts, shape, module.seed, module.number)?;
    let name = next_rva(rva_of_texts, &texts)?;
    push_module(&mut texts, module.number)?;
    texts.push(0).ok()?;
    let mut table = Vec::new(alloc);
    push_directory(&mut table, rva, name, shape.exports)?;
    push_chain(&mut table, &mut texts, rva_of_texts, shape, module)?;
    push_names(&mut table, rva_of_texts, shape.exports)?;
    table.extend_from_slice(&texts).ok()?;
    Some(table)
}

/// The import table of a module, for an RVA: names of the next module's exports, as ends of one string.
pub(crate) fn awkward_imports(
    alloc: Global,
    shape: Shape,
    module: Module,
    rva: u32,
) -> Option<ImportTable> {
    let one = Shape {
        imported: 1,
        ..shape
    };
    let places = places_of(one, rva)?;
    let from = module.next(1);
    let mut chance = Chance::new(module.own_seed() ^ 0x1397);
    let mut parts = ImportParts::new(alloc);
    push_descriptor(&mut parts, places, from)?;
    let texts = next_rva(places.texts, &parts.texts)?;
    push_u16(&mut parts.texts, 0)?;
    push_shared(&mut parts.texts, shape, module.seed, from)?;
    for _ in 0..shape.imports {
        let hint = texts.checked_add(chance.below(shape.exports).checked_mul(STEP)?)?;
        push_address(&mut parts.lookups, shape.is_wide, u64::from(hint))?;
    }
    push_address(&mut parts.lookups, shape.is_wide, 0)?;
    parts.table(alloc)
}

/// A base relocation table with a block for each fixup, the last one first.
pub(crate) fn awkward_fixups(alloc: Global, fixups: &[Fixup]) -> Option<Vec<u8>> {
    let mut table = Vec::new(alloc);
    for fixup in fixups.iter().rev() {
        let kind = match fixup.kind {
            FixupKind::Bits64 => 10,
            _ => 3,
        };
        push_u32(&mut table, fixup.field - fixup.field % 4096)?;
        push_u32(&mut table, 12)?;
        push_u16(&mut table, kind * 4096 + fixup.field % 4096)?;
        push_u16(&mut table, 0)?;
    }
    Some(table)
}
