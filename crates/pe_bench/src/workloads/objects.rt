//! The workload `objects`: objects written, read back, and shown by each engine.

use crate::digest::Digest;
use crate::object::{ObjectShape, object};
use crate::texts::{Engine, read_text};
use coff_object::{ObjSection, RawData, Symbol, SymbolSection, read_object};
use std::alloc::Global;

/// An object of a large source, compiled with a section for each function.
const SHAPE: ObjectShape = ObjectShape {
    sections: 400,
    bytes: 256,
    relocations: 24,
    symbols: 3000,
};

/// Mixes in a section's name, numbers, bytes and relocations.
fn read_section(digest: &mut Digest, section: &ObjSection<Global>) {
    digest.bytes(section.name);
    digest.number(u64::from(section.virtual_size));
    digest.number(u64::from(section.virtual_address));
    digest.number(u64::from(section.flags));
    match section.raw {
        RawData::Bytes(bytes) => digest.bytes(bytes),
        RawData::Absent(size) => digest.number(u64::from(size)),
    }
    for relocation in &section.relocations {
        digest.number(u64::from(relocation.address));
        digest.number(u64::from(relocation.symbol));
        digest.number(u64::from(relocation.kind));
    }
}

/// The section number of a symbol in a file.
fn section_number(section: SymbolSection) -> u16 {
    match section {
        SymbolSection::Undefined => 0,
        SymbolSection::Absolute => 0xffff,
        SymbolSection::Debug => 0xfffe,
        SymbolSection::Section(number) => number,
    }
}

/// Mixes in a symbol's name, value, section, type, class and auxiliary records.
fn read_symbol(digest: &mut Digest, symbol: &Symbol) {
    digest.bytes(symbol.name);
    digest.number(u64::from(symbol.value));
    digest.number(u64::from(section_number(symbol.section)));
    digest.number(u64::from(symbol.kind));
    digest.number(u64::from(symbol.class));
    digest.bytes(symbol.aux);
}

/// Mixes in an object as `read_object` returns it, with its sections and symbols as lists.
fn read_lists(alloc: Global, digest: &mut Digest, file: &[u8]) -> Option<()> {
    let object = read_object(alloc, file).ok()?;
    for section in &object.sections {
        read_section(digest, section);
    }
    for symbol in &object.symbols {
        read_symbol(digest, symbol);
    }
    Some(())
}

/// Writes an object, reads it, and mixes in the output of each engine for it.
pub(crate) fn run_objects(alloc: Global, digest: &mut Digest, seed: u64) -> Option<()> {
    let file = object(alloc, SHAPE, seed)?;
    digest.bytes(&file);
    read_lists(alloc, digest, &file)?;
    for engine in [Engine::Object, Engine::Page, Engine::Json] {
        read_text(alloc, digest, engine, &file)?;
    }
    Some(())
}
