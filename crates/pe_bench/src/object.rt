//! The file of a synthetic object, as a compiler writes it: sections of functions, their relocations, and symbols.

use crate::chance::{Chance, push_bytes, push_name};
use coff_object::{ObjSection, Object, RawData, Relocation, Symbol, SymbolSection, write_object};
use std::alloc::Global;

/// The sizes of an object's parts.
#[derive(Clone, Copy)]
pub(crate) struct ObjectShape {
    /// How many sections it has, fewer than 65,000.
    pub(crate) sections: u32,
    /// The size of each section in bytes.
    pub(crate) bytes: u32,
    /// How many relocations each section has.
    pub(crate) relocations: u32,
    /// How many symbols it has, at most 65,536.
    pub(crate) symbols: u32,
}

/// The names of an object's symbols.
fn names_of(alloc: Global, shape: ObjectShape, seed: u64) -> Option<Vec<Vec<u8>>> {
    let mut names = Vec::with_capacity(alloc, shape.symbols as usize).ok()?;
    for number in 0..shape.symbols {
        let mut name = Vec::new(alloc);
        name.extend_from_slice(b"_ZN").ok()?;
        push_name(&mut name, seed, 0, number % 65536)?;
        names.push(name).ok()?;
    }
    Some(names)
}

/// The relocations of a section.
fn relocations_of(
    alloc: Global,
    shape: ObjectShape,
    chance: &mut Chance,
) -> Option<Vec<Relocation>> {
    let mut relocations = Vec::with_capacity(alloc, shape.relocations as usize).ok()?;
    for _ in 0..shape.relocations {
        relocations
            .push(Relocation {
                address: chance.below(shape.bytes),
                symbol: chance.below(shape.symbols),
                kind: 4,
            })
            .ok()?;
    }
    Some(relocations)
}

/// The sections of an object, which share their bytes.
fn sections_of<'a>(
    alloc: Global,
    shape: ObjectShape,
    chance: &mut Chance,
    names: &'a [Vec<u8>],
    raw: &'a [u8],
) -> Option<Vec<ObjSection<'a, Global>>> {
    let mut sections = Vec::with_capacity(alloc, shape.sections as usize).ok()?;
    for number in 0..shape.sections {
        let named = names.get(number as usize)?;
        let name = if number % 4 == 0 {
            b".text"
        } else {
            named.as_slice()
        };
        sections
            .push(ObjSection {
                name,
                virtual_size: 0,
                virtual_address: 0,
                raw: RawData::Bytes(raw),
                flags: 0x6030_0020,
                relocations: relocations_of(alloc, shape, chance)?,
            })
            .ok()?;
    }
    Some(sections)
}

/// The section of a symbol; one in three is undefined.
fn section_of(shape: ObjectShape, chance: &mut Chance) -> SymbolSection {
    if chance.below(3) == 0 {
        return SymbolSection::Undefined;
    }
    SymbolSection::Section((1 + chance.below(shape.sections) % 65_000) as u16)
}

/// The symbols of an object: one in eight has an auxiliary record.
fn symbols_of<'a>(
    alloc: Global,
    shape: ObjectShape,
    chance: &mut Chance,
    names: &'a [Vec<u8>],
) -> Option<Vec<Symbol<'a>>> {
    let mut symbols = Vec::with_capacity(alloc, names.len()).ok()?;
    for name in names {
        let has_record = chance.below(8) == 0;
        let aux: &'a [u8] = if has_record { &[7; 18] } else { &[] };
        symbols
            .push(Symbol {
                name,
                value: chance.below(65536),
                section: section_of(shape, chance),
                kind: 0x20,
                class: 2,
                aux,
            })
            .ok()?;
    }
    Some(symbols)
}

/// The file of an object.
pub(crate) fn object(alloc: Global, shape: ObjectShape, seed: u64) -> Option<Vec<u8>> {
    let mut chance = Chance::new(seed);
    let names = names_of(alloc, shape, seed)?;
    let mut raw = Vec::new(alloc);
    push_bytes(&mut raw, &mut chance, shape.bytes as usize)?;
    let object = Object {
        machine: 0x8664,
        time_stamp: 0x6500_0000,
        characteristics: 0,
        optional: &[],
        sections: sections_of(alloc, shape, &mut chance, &names, &raw)?,
        symbols: symbols_of(alloc, shape, &mut chance, &names)?,
    };
    write_object(alloc, &object).ok()
}
