//! The object in O1, and comparison of objects.

use coff_object::{
    ObjSection, Object, ObjectError, RawData, Relocation, Symbol, SymbolSection, read_object,
};
use pe_view::Fault;
use std::alloc::{Allocator, Global};
use std::process::Abort;

/// The symbols of O1.
pub(super) const O1_SYMBOLS: [Symbol<'static>; 4] = [
    Symbol {
        name: b".file",
        value: 0,
        section: SymbolSection::Debug,
        kind: 0,
        class: 103,
        aux: b"a.c\x00\x00\x00\x00\x00\x00\x00\x00\x00\x00\x00\x00\x00\x00\x00",
    },
    Symbol {
        name: b"abcdefgh",
        value: 0,
        section: SymbolSection::Section(1),
        kind: 0x20,
        class: 2,
        aux: b"",
    },
    Symbol {
        name: b"abcdefghi",
        value: 0,
        section: SymbolSection::Undefined,
        kind: 0,
        class: 2,
        aux: b"",
    },
    Symbol {
        name: b"",
        value: 7,
        section: SymbolSection::Absolute,
        kind: 0,
        class: 3,
        aux: b"",
    },
];

/// A list of these items.
pub(super) fn list<T: Drop, const N: usize>(
    rt: &impl Abort,
    alloc: Global,
    items: [T; N],
) -> Vec<T> {
    Vec::from_array(alloc, items).expect(rt, "memory")
}

/// The section of O1 with another name.
fn o1_section(rt: &impl Abort, alloc: Global, name: &'static [u8]) -> ObjSection<'static, Global> {
    let relocation = Relocation {
        address: 1,
        symbol: 3,
        kind: 4,
    };
    ObjSection {
        name,
        virtual_size: 0,
        virtual_address: 0,
        raw: RawData::Bytes(b"\xe8\x00\x00\x00\x00\xc3"),
        flags: 0x6000_0020,
        relocations: list(rt, alloc, [relocation]),
    }
}

/// An object for a machine with these sections and symbols.
pub(super) fn with_sections<'a>(
    machine: u16,
    sections: Vec<ObjSection<'a, Global>>,
    symbols: Vec<Symbol<'a>>,
) -> Object<'a, Global> {
    Object {
        machine,
        time_stamp: 0,
        characteristics: 0,
        optional: b"",
        sections,
        symbols,
    }
}

/// The object in O1, with another name of its section.
pub(super) fn o1(rt: &impl Abort, alloc: Global, name: &'static [u8]) -> Object<'static, Global> {
    with_sections(
        0x8664,
        list(rt, alloc, [o1_section(rt, alloc, name)]),
        list(rt, alloc, O1_SYMBOLS),
    )
}

/// The fields of a section except for its relocations.
type Fields<'a> = (&'a [u8], u32, u32, RawData<'a>, u32);

fn fields_of<'a, A: Allocator>(section: &ObjSection<'a, A>) -> Fields<'a> {
    (
        section.name,
        section.virtual_size,
        section.virtual_address,
        section.raw,
        section.flags,
    )
}

/// Whether two sections are equal.
fn same_section<A: Allocator, B: Allocator>(
    one: &ObjSection<'_, A>,
    other: &ObjSection<'_, B>,
) -> bool {
    fields_of(one) == fields_of(other) && one.relocations.as_slice() == other.relocations.as_slice()
}

/// Whether two lists of sections are equal.
fn same_sections<A: Allocator, B: Allocator>(
    one: &[ObjSection<'_, A>],
    other: &[ObjSection<'_, B>],
) -> bool {
    if one.len() != other.len() {
        return false;
    }
    for index in 0..one.len() {
        if !same_section(&one[index], &other[index]) {
            return false;
        }
    }
    true
}

/// The numbers of an object's header.
fn numbers_of<A: Allocator>(object: &Object<'_, A>) -> (u16, u32, u16) {
    (object.machine, object.time_stamp, object.characteristics)
}

/// Whether two objects are equal.
pub(super) fn same_object<A: Allocator, B: Allocator>(
    one: &Object<'_, A>,
    other: &Object<'_, B>,
) -> bool {
    if !same_sections(one.sections.as_slice(), other.sections.as_slice()) {
        return false;
    }
    if one.symbols.as_slice() != other.symbols.as_slice() {
        return false;
    }
    one.optional == other.optional && numbers_of(one) == numbers_of(other)
}

/// Whether a file is read as this object.
pub(super) fn reads_as(
    rt: &impl Abort,
    alloc: Global,
    file: &[u8],
    object: &Object<'_, Global>,
) -> bool {
    let found = read_object(alloc, file).expect(rt, "an object");
    same_object(&found, object)
}

/// The fault of an error, if it is one.
pub(super) fn fault_of(error: Option<ObjectError>) -> Option<Fault> {
    match error {
        Some(ObjectError::Fault(fault)) => Some(fault),
        _ => None,
    }
}
