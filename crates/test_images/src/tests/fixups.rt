//! Base relocation tables that `pe_tables` writes, and a long one that is read back.

use super::cases::{layout_of, with_data};
use crate::tests::asserts::assert_holds;
use pe_tables::FixupKind::{self, Bits32, Bits64, High, Low};
use pe_tables::{Fixup, ascending, encode_fixups, read_fixups};
use pe_vectors::files::Piece;
use std::alloc::Global;
use std::process::Abort;

/// A fixup by the RVA of its entry, the RVA of its field and the field's kind.
type Row = (u32, u32, FixupKind);

/// A fixup of a row.
fn fixup((entry, field, kind): Row) -> Fixup {
    Fixup { entry, field, kind }
}

/// The fixups of rows.
fn fixups(rt: &impl Abort, alloc: Global, rows: &[Row]) -> Vec<Fixup> {
    let mut fixups = Vec::new(alloc);
    for row in rows {
        fixups.push(fixup(*row)).expect(rt, "memory");
    }
    fixups
}

/// Fixups, and the bytes of their table.
const ENCODED: &[(&[Row], &[u8])] = &[
    (&[], &[]),
    (
        &[
            (0, 0x1008, Bits32),
            (0, 0x1010, Bits32),
            (0, 0x3004, Bits32),
        ],
        &[
            0x00, 0x10, 0x00, 0x00, 0x0c, 0x00, 0x00, 0x00, 0x08, 0x30, 0x10, 0x30, 0x00, 0x30,
            0x00, 0x00, 0x0c, 0x00, 0x00, 0x00, 0x04, 0x30, 0x00, 0x00,
        ],
    ),
    (
        &[(0, 0x1ffc, Bits64), (0, 0x2004, Bits32)],
        &[
            0x00, 0x10, 0x00, 0x00, 0x0c, 0x00, 0x00, 0x00, 0xfc, 0xaf, 0x00, 0x00, 0x00, 0x20,
            0x00, 0x00, 0x0c, 0x00, 0x00, 0x00, 0x04, 0x30, 0x00, 0x00,
        ],
    ),
    (
        &[(0, 0x100a, High), (0, 0x1100, Low)],
        &[
            0x00, 0x10, 0x00, 0x00, 0x0c, 0x00, 0x00, 0x00, 0x0a, 0x10, 0x00, 0x21,
        ],
    ),
    (
        &[(0, 0xffff_ffff, Bits32)],
        &[
            0x00, 0xf0, 0xff, 0xff, 0x0c, 0x00, 0x00, 0x00, 0xff, 0x3f, 0x00, 0x00,
        ],
    ),
];

#[test]
fn tables_are_encoded(rt: HostRuntime) {
    for (index, (rows, bytes)) in ENCODED.iter().enumerate() {
        let fixups = fixups(&rt, rt.alloc(), rows);
        assert!(rt; ascending(&fixups));
        let encoded = encode_fixups(rt.alloc(), &fixups).expect(&rt, "memory");
        assert_holds(&rt, index, *encoded == **bytes);
    }
}

/// Fixups, and whether their fields ascend.
const ORDERS: &[(&[Row], bool)] = &[
    (&[(0, 0x1008, Bits32), (0, 0x1008, Bits64)], false),
    (
        &[(0, 0, Bits32), (0, 0x1008, Bits32), (0, 0x1007, Bits32)],
        false,
    ),
    (&[(9, 0, Bits32), (8, 1, Bits64)], true),
];

#[test]
fn fields_that_do_not_ascend(rt: HostRuntime) {
    for (index, (rows, expected)) in ORDERS.iter().enumerate() {
        let fixups = fixups(&rt, rt.alloc(), rows);
        assert_holds(&rt, index, ascending(&fixups) == *expected);
    }
}

/// The number of fixups of the long table.
const MANY: u32 = 1_000_000;

/// The fixups of the long table.
fn many_fixups(rt: &impl Abort, alloc: Global) -> Vec<Fixup> {
    let mut many = Vec::new(alloc);
    for index in 0..MANY {
        many.push(fixup((0, 4 * index, Bits32)))
            .expect(rt, "memory");
    }
    many
}

/// A file with the table of fixups: 976 blocks of 1,024 entries and one of 576, of 0x1ea308 bytes.
fn encoded_file(rt: &impl Abort, alloc: Global, fixups: &[Fixup]) -> Vec<u8> {
    assert!(rt; ascending(fixups));
    let table = encode_fixups(alloc, fixups).expect(rt, "memory");
    let pieces: &[Piece] = &[
        (0x92, &[0x80]),
        (0xe0, &[0x00, 0x10, 0x00, 0x00, 0x08, 0xa3, 0x1e, 0x00]),
    ];
    with_data(rt, alloc, pieces, &table)
}

/// Whether two lists have the same fields and kinds.
fn same_fields(found: &[Fixup], expected: &[Fixup]) -> bool {
    if found.len() != expected.len() {
        return false;
    }
    for index in 0..found.len() {
        let (found, expected) = (&found[index], &expected[index]);
        if found.field != expected.field || found.kind != expected.kind {
            return false;
        }
    }
    true
}

#[test]
fn a_table_of_a_million_fixups(rt: HostRuntime) {
    let many = many_fixups(&rt, rt.alloc());
    let file = encoded_file(&rt, rt.alloc(), &many);
    let found = read_fixups(rt.alloc(), &layout_of(&rt, &file), &[]).expect(&rt, "fixups");
    assert_holds(&rt, 0, same_fields(&found, &many));
}
