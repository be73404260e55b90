//! Big objects that `coff_object` writes, and reads back.

use super::o1::{O1_SYMBOLS, fault_of, list};
use crate::tests::asserts::{assert_holds, has_pieces};
use coff_object::{
    BigObject, BigSection, BigSymbol, ObjSection, RawData, needs_big_form, read_big_object,
    write_big_object,
};
use pe_vectors::files::Piece;
use pe_view::{Fault, Place};
use std::alloc::Global;
use std::process::Abort;

/// Sections without names, bytes and relocations.
fn empty_sections(
    rt: &impl Abort,
    alloc: Global,
    count: usize,
) -> Vec<ObjSection<'static, Global>> {
    let mut sections = Vec::new(alloc);
    for _ in 0..count {
        let section = ObjSection {
            name: b"",
            virtual_size: 0,
            virtual_address: 0,
            raw: RawData::Absent(0),
            flags: 0,
            relocations: Vec::new(alloc),
        };
        sections.push(section).expect(rt, "memory");
    }
    sections
}

/// A symbol of the section with this number.
fn symbol_of(number: u32) -> BigSymbol<'static> {
    BigSymbol {
        name: b"f",
        value: 0x1122_3344,
        section: BigSection::Section(number),
        kind: 0x5566,
        class: 0x77,
        aux: b"0123456789abcdefghij",
    }
}

/// An object with this many sections, and a symbol of the section with this number.
fn numbered(
    rt: &impl Abort,
    alloc: Global,
    count: usize,
    number: u32,
) -> BigObject<'static, Global> {
    BigObject {
        machine: 0x8664,
        time_stamp: 0x8765_4321,
        characteristics: 0,
        optional: b"",
        sections: empty_sections(rt, alloc, count),
        symbols: list(rt, alloc, [symbol_of(number)]),
    }
}

/// Whether a file is read as this many sections and these symbols.
fn reads_as(rt: &impl Abort, alloc: Global, file: &[u8], object: &BigObject<'_, Global>) -> bool {
    let found = read_big_object(alloc, file).expect(rt, "a big object");
    found.sections.len() == object.sections.len()
        && found.symbols.as_slice() == object.symbols.as_slice()
        && found.machine == object.machine
        && found.time_stamp == object.time_stamp
}

/// The header of an object with 70,000 sections, and its symbols and strings after these.
const WRITTEN: &[Piece] = &[
    (
        0,
        b"\x00\x00\xff\xff\x02\x00\x64\x86\x21\x43\x65\x87\
        \xc7\xa1\xba\xd1\xee\xba\xa9\x4b\xaf\x20\xfa\xf6\x6a\xa4\xdc\xb8\
        \x00\x00\x00\x00\x00\x00\x00\x00\x00\x00\x00\x00\x00\x00\x00\x00\
        \x70\x11\x01\x00\xb8\xb9\x2a\x00\x02\x00\x00\x00",
    ),
    (
        0x2a_b9b8,
        b"f\x00\x00\x00\x00\x00\x00\x00\x44\x33\x22\x11\x70\x11\x01\x00\x66\x55\x77\x01\
        0123456789abcdefghij\
        \x04\x00\x00\x00",
    ),
];

#[test]
fn a_big_object_of_70000_sections_is_written_and_read_back(rt: HostRuntime) {
    let object = numbered(&rt, rt.alloc(), 70_000, 70_000);
    let file = write_big_object(rt.alloc(), &object).expect(&rt, "a file");
    assert_holds(&rt, 0, file.len() == 56 + 70_000 * 40 + 2 * 20 + 4);
    assert_holds(&rt, 1, has_pieces(&file, WRITTEN));
    assert_holds(&rt, 2, reads_as(&rt, rt.alloc(), &file, &object));
}

/// Whether an object with this many sections, and a symbol of the section with this number, needs the big form.
fn needs(rt: &impl Abort, alloc: Global, count: usize, number: u32) -> bool {
    let object = numbered(rt, alloc, count, number);
    needs_big_form(object.sections.as_slice(), object.symbols.as_slice())
}

#[test]
fn an_object_needs_the_big_form_for_its_numbers(rt: HostRuntime) {
    for (count, number, expected) in [
        (65_535, 65_533, false),
        (65_535, 65_534, true),
        (65_536, 1, true),
        (0, 0xffff_ffff, true),
    ] {
        assert_holds(
            &rt,
            count,
            needs(&rt, rt.alloc(), count, number) == expected,
        );
    }
    let sections = empty_sections(&rt, rt.alloc(), 1);
    assert_holds(&rt, 1, !needs_big_form(sections.as_slice(), &O1_SYMBOLS));
}

/// Whether an object is refused by fault 85.
fn is_refused(alloc: Global, object: &BigObject<'_, Global>) -> bool {
    let fault = Fault {
        number: 85,
        image: 0,
        place: Place::Item(0),
    };
    fault_of(write_big_object(alloc, object).err()) == Some(fault)
}

#[test]
fn what_a_big_object_does_not_store_is_refused(rt: HostRuntime) {
    let mut object = numbered(&rt, rt.alloc(), 1, 1);
    assert_holds(&rt, 0, !is_refused(rt.alloc(), &object));
    object.characteristics = 4;
    assert_holds(&rt, 1, is_refused(rt.alloc(), &object));
    object.characteristics = 0;
    object.optional = b"a";
    assert_holds(&rt, 2, is_refused(rt.alloc(), &object));
    object.optional = b"";
    object.symbols = list(&rt, rt.alloc(), [symbol_of(2)]);
    assert_holds(&rt, 3, is_refused(rt.alloc(), &object));
}
