//! Objects that `coff_object` writes, and reads back.

use super::o1::{fault_of, list, o1, reads_as, with_sections};
use crate::tests::asserts::{assert_holds, has_pieces};
use coff_object::{
    ObjSection, Object, ObjectError, RawData, Relocation, Symbol, SymbolSection, write_object,
};
use pe_vectors::files::Piece;
use pe_vectors::objects::O1;
use pe_view::{Fault, Place};
use std::alloc::Global;
use std::process::Abort;

/// The content of an object of one section, with one relocation, and of one symbol.
#[derive(Clone, Copy)]
struct Parts<'a> {
    machine: u16,
    optional: &'a [u8],
    section: &'a [u8],
    raw: RawData<'a>,
    flags: u32,
    /// The symbol index of the relocation.
    target: u32,
    symbol: &'a [u8],
    number: SymbolSection,
    aux: &'a [u8],
}

/// Parts without a fault.
const FINE: Parts<'static> = Parts {
    machine: 0x14c,
    optional: b"",
    section: b".text",
    raw: RawData::Bytes(b"\x90"),
    flags: 0x20,
    target: 0,
    symbol: b"f",
    number: SymbolSection::Section(1),
    aux: b"",
};

/// A section with these relocations.
fn section<'a>(
    name: &'a [u8],
    raw: RawData<'a>,
    flags: u32,
    relocations: Vec<Relocation>,
) -> ObjSection<'a, Global> {
    ObjSection {
        name,
        virtual_size: 0x1234_5678,
        virtual_address: 0x9abc_def0,
        raw,
        flags,
        relocations,
    }
}

/// The section of these parts.
fn section_of<'a>(rt: &impl Abort, alloc: Global, parts: &Parts<'a>) -> ObjSection<'a, Global> {
    let relocation = Relocation {
        address: 0x0102_0304,
        symbol: parts.target,
        kind: 0x0506,
    };
    let relocations = list(rt, alloc, [relocation]);
    section(parts.section, parts.raw, parts.flags, relocations)
}

/// The symbol of these parts.
fn symbol_of<'a>(parts: &Parts<'a>) -> Symbol<'a> {
    Symbol {
        name: parts.symbol,
        value: 0x1122_3344,
        section: parts.number,
        kind: 0x5566,
        class: 0x77,
        aux: parts.aux,
    }
}

/// The object of these parts.
fn object_of<'a>(rt: &impl Abort, alloc: Global, parts: &Parts<'a>) -> Object<'a, Global> {
    Object {
        machine: parts.machine,
        time_stamp: 0x8765_4321,
        characteristics: 0xa1b2,
        optional: parts.optional,
        sections: list(rt, alloc, [section_of(rt, alloc, parts)]),
        symbols: list(rt, alloc, [symbol_of(parts)]),
    }
}

/// A symbol with nothing but a name and a section.
fn named<'a>(name: &'a [u8], section: SymbolSection) -> Symbol<'a> {
    Symbol {
        name,
        value: 0,
        section,
        kind: 0,
        class: 2,
        aux: b"",
    }
}

/// A section without relocations: its name, raw data and flags.
type Bare<'a> = (&'a [u8], RawData<'a>, u32);

/// Sections without relocations.
fn sections_of<'a>(
    rt: &impl Abort,
    alloc: Global,
    bare: &[Bare<'a>],
) -> Vec<ObjSection<'a, Global>> {
    let mut sections = Vec::new(alloc);
    for (name, raw, flags) in bare {
        sections
            .push(section(name, *raw, *flags, Vec::new(alloc)))
            .expect(rt, "memory");
    }
    sections
}

/// Appends an undefined symbol with this name.
fn push_symbol<'a>(rt: &impl Abort, symbols: &mut Vec<Symbol<'a>>, name: &'a [u8]) {
    symbols
        .push(named(name, SymbolSection::Undefined))
        .expect(rt, "memory");
}

/// Undefined symbols with these names.
fn symbols_of<'a>(rt: &impl Abort, alloc: Global, names: &[&'a [u8]]) -> Vec<Symbol<'a>> {
    let mut symbols = Vec::new(alloc);
    for name in names {
        push_symbol(rt, &mut symbols, name);
    }
    symbols
}

/// An object with these sections and symbols.
fn bare_object<'a>(
    rt: &impl Abort,
    alloc: Global,
    bare: &[Bare<'a>],
    names: &[&'a [u8]],
) -> Object<'a, Global> {
    with_sections(
        0,
        sections_of(rt, alloc, bare),
        symbols_of(rt, alloc, names),
    )
}

/// Asserts the fault of a call in a case, by number and item; `None` means no fault.
fn assert_fault(
    rt: &impl Abort,
    case: usize,
    error: Option<ObjectError>,
    expected: Option<(u16, u32)>,
) {
    assert_holds(rt, case, error.is_some() == expected.is_some());
    let fault = match expected {
        Some((number, item)) => Some(Fault {
            number,
            image: 0,
            place: Place::Item(item),
        }),
        None => None,
    };
    assert_holds(rt, case, fault_of(error) == fault);
}

/// Asserts that an object is written and read back equal, and returns its file.
fn read_back(rt: &impl Abort, alloc: Global, case: usize, object: &Object<'_, Global>) -> Vec<u8> {
    let file = write_object(alloc, object).expect(rt, "an object's file");
    assert_holds(rt, case, reads_as(rt, alloc, &file, object));
    file
}

/// Asserts that an object is written and read back equal, and asserts the file's length and pieces.
fn assert_written(
    rt: &impl Abort,
    alloc: Global,
    object: &Object<'_, Global>,
    len: usize,
    pieces: &[Piece],
) {
    let file = read_back(rt, alloc, 0, object);
    assert_holds(rt, len, file.len() == len && has_pieces(&file, pieces));
}

/// Asserts the same for an object of sections without relocations.
fn assert_bare(
    rt: &impl Abort,
    alloc: Global,
    bare: &[Bare],
    names: &[&[u8]],
    len: usize,
    pieces: &[Piece],
) {
    let object = bare_object(rt, alloc, bare, names);
    assert_written(rt, alloc, &object, len, pieces);
}

#[test]
fn o1_is_written_and_read_back(rt: HostRuntime) {
    let object = o1(&rt, rt.alloc(), b".text$long");
    assert_written(&rt, rt.alloc(), &object, O1.len(), &[(0, O1)]);
}

#[test]
fn an_object_of_nothing_is_a_header(rt: HostRuntime) {
    assert_bare(&rt, rt.alloc(), &[], &[], 20, &[(0, &[0; 20])]);
}

/// O1 with a section named `/4`: the section's name, the name of the symbol `abcdefghi`, and the string table.
const SLASH: &[Piece] = &[
    (20, b"/4\x00\x00\x00\x00\x00\x00"),
    (130, b"\x00\x00\x00\x00\x07\x00\x00\x00"),
    (166, b"\x11\x00\x00\x00/4\x00abcdefghi\x00"),
];

#[test]
fn a_section_name_with_a_slash_stands_in_the_string_table(rt: HostRuntime) {
    let object = o1(&rt, rt.alloc(), b"/4");
    assert_written(&rt, rt.alloc(), &object, 183, SLASH);
}

/// Parts of which each takes bytes of the file.
const EACH_PART: Parts<'static> = Parts {
    optional: b"\xa0\xa1\xa2",
    raw: RawData::Bytes(b"\xb0\xb1"),
    symbol: b"a long name",
    aux: b"0123456789abcdefgh",
    target: 1,
    ..FINE
};

/// The file of these parts.
const EACH_PART_WRITTEN: &[u8] =
    b"\x4c\x01\x01\x00\x21\x43\x65\x87\x4b\x00\x00\x00\x02\x00\x00\x00\x03\x00\xb2\xa1\
    \xa0\xa1\xa2\
    .text\x00\x00\x00\x78\x56\x34\x12\xf0\xde\xbc\x9a\x02\x00\x00\x00\x3f\x00\x00\x00\
    \x41\x00\x00\x00\x00\x00\x00\x00\x01\x00\x00\x00\x20\x00\x00\x00\
    \xb0\xb1\
    \x04\x03\x02\x01\x01\x00\x00\x00\x06\x05\
    \x00\x00\x00\x00\x04\x00\x00\x00\x44\x33\x22\x11\x01\x00\x66\x55\x77\x01\
    0123456789abcdefgh\
    \x10\x00\x00\x00a long name\x00";

#[test]
fn each_part_stands_behind_the_one_before(rt: HostRuntime) {
    let object = object_of(&rt, rt.alloc(), &EACH_PART);
    let pieces = [(0, EACH_PART_WRITTEN)];
    assert_written(&rt, rt.alloc(), &object, EACH_PART_WRITTEN.len(), &pieces);
}

/// Sections, some with names equal to those of symbols.
const EQUAL_SECTIONS: &[Bare] = &[
    (b"second long", RawData::Absent(5), 0x80),
    (b"/", RawData::Absent(0), 0),
    (b"second long", RawData::Absent(0), 0),
];

const EQUAL_SYMBOLS: &[&[u8]] = &[b"first long", b"second long", b"first long", b"/"];

/// The string table, and names of sections and symbols that are not in it or refer to it.
const EQUAL_TEXTS: &[Piece] = &[
    (212, b"\x1d\x00\x00\x00second long\x00/\x00first long\x00"),
    (60, b"/16\x00\x00\x00\x00\x00"),
    (140, b"\x00\x00\x00\x00\x12\x00\x00\x00"),
    (194, b"/\x00\x00\x00\x00\x00\x00\x00"),
];

#[test]
fn equal_texts_stand_once_in_order_of_first_use(rt: HostRuntime) {
    let len = 20 + 3 * 40 + 4 * 18 + 29;
    assert_bare(
        &rt,
        rt.alloc(),
        EQUAL_SECTIONS,
        EQUAL_SYMBOLS,
        len,
        EQUAL_TEXTS,
    );
}

/// The pointer to the symbol table, which is empty, and the strings after it.
const STRINGS: &[Piece] = &[
    (8, b"\x3c\x00\x00\x00\x00\x00\x00\x00"),
    (60, b"\x06\x00\x00\x00/\x00"),
];

#[test]
fn strings_without_symbols_have_a_pointer(rt: HostRuntime) {
    let sections: &[Bare] = &[(b"/", RawData::Absent(9), 0)];
    assert_bare(&rt, rt.alloc(), sections, &[], 66, STRINGS);
}

/// The parts of an object, and its first fault, by number and item.
type Case = (Parts<'static>, Option<(u16, u32)>);

/// Cases of faults 81 and 85.
const FORMS: &[Case] = &[
    (FINE, None),
    // 81: zero bytes in names, of sections before those of symbols
    (
        Parts {
            section: b"a\x00b",
            ..FINE
        },
        Some((81, 0)),
    ),
    (
        Parts {
            section: b"\x00",
            ..FINE
        },
        Some((81, 0)),
    ),
    (
        Parts {
            symbol: b"a name of many bytes\x00",
            ..FINE
        },
        Some((81, 1)),
    ),
    (
        Parts {
            section: b"\x00",
            symbol: b"\x00",
            ..FINE
        },
        Some((81, 0)),
    ),
    (
        Parts {
            symbol: b"\x00",
            target: 9,
            ..FINE
        },
        Some((81, 1)),
    ),
    // 85: a file of another kind
    (
        Parts {
            machine: 0x5a4d,
            ..FINE
        },
        Some((85, 0)),
    ),
    (
        Parts {
            machine: 0x3c21,
            ..FINE
        },
        None,
    ),
    (Parts { machine: 0, ..FINE }, None),
    // bytes that are not in the file
    (
        Parts {
            raw: RawData::Bytes(b""),
            ..FINE
        },
        Some((85, 0)),
    ),
    (
        Parts {
            raw: RawData::Absent(0),
            ..FINE
        },
        None,
    ),
    (
        Parts {
            flags: 0x80,
            ..FINE
        },
        Some((85, 0)),
    ),
    (
        Parts {
            flags: 0x7f,
            ..FINE
        },
        None,
    ),
    (
        Parts {
            flags: 0x80,
            raw: RawData::Absent(7),
            ..FINE
        },
        None,
    ),
    (
        Parts {
            raw: RawData::Absent(u32::MAX),
            ..FINE
        },
        None,
    ),
    // section numbers
    (
        Parts {
            number: SymbolSection::Section(0),
            ..FINE
        },
        Some((85, 0)),
    ),
    (
        Parts {
            number: SymbolSection::Section(2),
            ..FINE
        },
        Some((85, 0)),
    ),
    (
        Parts {
            number: SymbolSection::Section(0xfffe),
            ..FINE
        },
        Some((85, 0)),
    ),
    (
        Parts {
            number: SymbolSection::Undefined,
            ..FINE
        },
        None,
    ),
    (
        Parts {
            number: SymbolSection::Absolute,
            ..FINE
        },
        None,
    ),
    (
        Parts {
            number: SymbolSection::Debug,
            ..FINE
        },
        None,
    ),
    // the relocation's symbol index, which counts auxiliary records
    (Parts { target: 1, ..FINE }, Some((85, 0))),
    (
        Parts {
            target: 1,
            aux: &[1; 18],
            ..FINE
        },
        None,
    ),
    (
        Parts {
            target: 2,
            aux: &[1; 18],
            ..FINE
        },
        Some((85, 0)),
    ),
];

/// Asserts the fault of writing an object in a case; without a fault it is read back equal.
fn assert_form(
    rt: &impl Abort,
    alloc: Global,
    case: usize,
    parts: &Parts,
    expected: Option<(u16, u32)>,
) {
    let object = object_of(rt, alloc, parts);
    assert_fault(rt, case, write_object(alloc, &object).err(), expected);
    if expected.is_none() {
        read_back(rt, alloc, case, &object);
    }
}

/// A number of bytes, and the fault, by number and item.
type Length = (usize, Option<(u16, u32)>);

/// The size of the optional header.
const OPTIONAL: &[Length] = &[(65_535, None), (65_536, Some((85, 0)))];

/// The size of the symbol's auxiliary records, 18 bytes each.
const AUXILIARY: &[Length] = &[
    (17, Some((85, 0))),
    (18, None),
    (19, Some((85, 0))),
    (4_590, None),
    (4_608, Some((85, 0))),
];

/// Asserts the fault of writing an optional header of this size.
fn assert_optional(rt: &impl Abort, alloc: Global, length: Length) {
    let optional = Vec::from_elem(alloc, 7, length.0).expect(rt, "memory");
    let parts = Parts {
        optional: &optional,
        ..FINE
    };
    assert_form(rt, alloc, length.0, &parts, length.1);
}

/// Asserts the fault of writing auxiliary records of this size.
fn assert_auxiliary(rt: &impl Abort, alloc: Global, length: Length) {
    let aux = Vec::from_elem(alloc, 1, length.0).expect(rt, "memory");
    let parts = Parts { aux: &aux, ..FINE };
    assert_form(rt, alloc, length.0, &parts, length.1);
}

/// Asserts the fault of writing in each case.
fn assert_forms(rt: &impl Abort, alloc: Global, cases: &[Case]) {
    for (index, (parts, expected)) in cases.iter().enumerate() {
        assert_form(rt, alloc, index, parts, *expected);
    }
}

#[test]
fn objects_without_a_form_are_refused(rt: HostRuntime) {
    assert_forms(&rt, rt.alloc(), FORMS);
    for length in OPTIONAL {
        assert_optional(&rt, rt.alloc(), *length);
    }
    for length in AUXILIARY {
        assert_auxiliary(&rt, rt.alloc(), *length);
    }
}

/// This many relocations.
fn relocations(rt: &impl Abort, alloc: Global, count: u32) -> Vec<Relocation> {
    let mut relocations = Vec::new(alloc);
    for address in 0..count {
        let relocation = Relocation {
            address,
            symbol: 0,
            kind: 0,
        };
        relocations.push(relocation).expect(rt, "memory");
    }
    relocations
}

/// The fault of writing a section with this many relocations, after one without.
fn crowded(rt: &impl Abort, alloc: Global, count: u32) -> Option<ObjectError> {
    let sections = [
        section(b"", RawData::Absent(0), 0, Vec::new(alloc)),
        section(b"", RawData::Absent(0), 0, relocations(rt, alloc, count)),
    ];
    let symbols = symbols_of(rt, alloc, &[b"f"]);
    let object = with_sections(0, list(rt, alloc, sections), symbols);
    write_object(alloc, &object).err()
}

#[test]
fn a_section_has_at_most_65534_relocations(rt: HostRuntime) {
    for (case, count, expected) in [(0, 65_534, None), (1, 65_535, Some((83, 1)))] {
        assert_fault(&rt, case, crowded(&rt, rt.alloc(), count), expected);
    }
}

/// The result of writing a section with a name of this length, and another whose name needs the string table.
fn long_named(rt: &impl Abort, alloc: Global, length: usize) -> Result<Vec<u8>, ObjectError> {
    let long = Vec::from_elem(alloc, b'a', length).expect(rt, "memory");
    let sections: &[Bare] = &[
        (&long, RawData::Absent(0), 0),
        (b"/", RawData::Absent(0), 0),
    ];
    write_object(alloc, &bare_object(rt, alloc, sections, &[]))
}

/// Asserts that the offset of the second of these names has 7 digits, or the fault.
fn assert_long_name(rt: &impl Abort, alloc: Global, length: usize, expected: Option<(u16, u32)>) {
    match long_named(rt, alloc, length) {
        Ok(file) => {
            assert_holds(rt, length, has_pieces(&file, &[(60, b"/9999999")]));
            assert_fault(rt, length, None, expected);
        }
        Err(error) => assert_fault(rt, length, Some(error), expected),
    }
}

#[test]
fn the_offset_of_a_sections_name_has_at_most_7_digits(rt: HostRuntime) {
    // The second name is after the size field, the first name and its zero byte: at the first's length plus 5.
    for (length, expected) in [(9_999_994, None), (9_999_995, Some((82, 1)))] {
        assert_long_name(&rt, rt.alloc(), length, expected);
    }
}

/// A number of equal sections.
fn repeated<'a>(
    rt: &impl Abort,
    alloc: Global,
    bare: Bare<'a>,
    count: usize,
) -> Vec<ObjSection<'a, Global>> {
    let all = Vec::from_elem(alloc, bare, count).expect(rt, "memory");
    sections_of(rt, alloc, &all)
}

#[test]
fn a_file_of_4_gib_is_not_written(rt: HostRuntime) {
    let bytes = Vec::from_elem(rt.alloc(), 1, 0x10_0000).expect(&rt, "memory");
    let part = (b"".as_slice(), RawData::Bytes(&bytes), 0);
    let sections = repeated(&rt, rt.alloc(), part, 0x1000);
    let object = with_sections(0, sections, Vec::new(rt.alloc()));
    let error = write_object(rt.alloc(), &object).err();
    assert_fault(&rt, 0, error, Some((84, 0)));
}

/// The fault of writing this many sections, and a symbol of the section with this number.
fn numbered(
    rt: &impl Abort,
    alloc: Global,
    machine: u16,
    count: usize,
    number: u16,
) -> Option<ObjectError> {
    let sections = repeated(rt, alloc, (b"", RawData::Absent(0), 0), count);
    let symbols = list(rt, alloc, [named(b"f", SymbolSection::Section(number))]);
    let object = with_sections(machine, sections, symbols);
    write_object(alloc, &object).err()
}

#[test]
fn an_object_has_at_most_65535_sections(rt: HostRuntime) {
    for (machine, count, number, expected) in [
        (0, 65_533, 0xfffd, None),
        (0, 65_534, 0xfffe, Some((85, 0))),
        (0, 65_535, 1, Some((85, 0))),
        (1, 65_535, 1, None),
        (1, 65_536, 1, Some((85, 0))),
    ] {
        let error = numbered(&rt, rt.alloc(), machine, count, number);
        assert_fault(&rt, count, error, expected);
    }
}
