//! The export table of a synthetic module ("PE Format", The .edata Section).

use crate::chance::{Chance, push_name};
use crate::module_names::push_module;
use crate::numbers::{next_rva, push_u16, push_u32};
use crate::shape::{Module, Shape};
use std::alloc::Global;

/// The parts of an export table after its directory.
#[derive(Drop)]
struct Parts {
    addresses: Vec<u8>,
    names: Vec<u8>,
    ordinals: Vec<u8>,
    texts: Vec<u8>,
}

/// Appends the string of a forwarder to an export of the next module, with its zero byte.
fn push_forwarder(texts: &mut Vec<u8>, module: Module, number: u32) -> Option<()> {
    let next = module.next(1);
    push_module(texts, next)?;
    texts.push(b'.').ok()?;
    push_name(texts, module.seed, next, number)?;
    texts.push(0).ok()
}

/// Appends an export: its name, its ordinal, and its RVA or its forwarder's string.
fn push_export(
    parts: &mut Parts,
    chance: &mut Chance,
    texts: u32,
    shape: Shape,
    module: Module,
    number: u32,
) -> Option<()> {
    push_u32(&mut parts.names, next_rva(texts, &parts.texts)?)?;
    push_name(&mut parts.texts, module.seed, module.number, number)?;
    parts.texts.push(0).ok()?;
    push_u16(&mut parts.ordinals, number)?;
    if shape.is_forwarder(module, number) {
        push_u32(&mut parts.addresses, next_rva(texts, &parts.texts)?)?;
        push_forwarder(&mut parts.texts, module, number)
    } else {
        push_u32(
            &mut parts.addresses,
            shape.code_rva.checked_add(chance.below(shape.code))?,
        )
    }
}

/// Appends the directory of an export table at an RVA.
pub(crate) fn push_directory(table: &mut Vec<u8>, rva: u32, name: u32, exports: u32) -> Option<()> {
    let addresses = rva.checked_add(40)?;
    let size = exports.checked_mul(4)?;
    let names = addresses.checked_add(size)?;
    let ordinals = names.checked_add(size)?;
    let fields = [
        0, 0, 0, name, 1, exports, exports, addresses, names, ordinals,
    ];
    for field in fields {
        push_u32(table, field)?;
    }
    Some(())
}

/// The export table of a module, for an RVA.
pub(crate) fn export_table(
    alloc: Global,
    shape: Shape,
    module: Module,
    rva: u32,
) -> Option<Vec<u8>> {
    let mut chance = Chance::new(module.own_seed());
    let mut parts = Parts {
        addresses: Vec::new(alloc),
        names: Vec::new(alloc),
        ordinals: Vec::new(alloc),
        texts: Vec::new(alloc),
    };
    let texts = rva
        .checked_add(40)?
        .checked_add(shape.exports.checked_mul(10)?)?;
    push_module(&mut parts.texts, module.number)?;
    parts.texts.push(0).ok()?;
    for number in 0..shape.exports {
        push_export(&mut parts, &mut chance, texts, shape, module, number)?;
    }
    let mut table = Vec::new(alloc);
    push_directory(&mut table, rva, texts, shape.exports)?;
    table.extend_from_slice(&parts.addresses).ok()?;
    table.extend_from_slice(&parts.names).ok()?;
    table.extend_from_slice(&parts.ordinals).ok()?;
    table.extend_from_slice(&parts.texts).ok()?;
    Some(table)
}
