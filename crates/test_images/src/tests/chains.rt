//! Chains of forwarders, byte by byte.

use crate::tests::asserts::assert_holds;
use pe_vectors::files::{Piece, put_pieces};
use pe_vectors::vf;

/// The number of forwarders of VF, and the pieces that it has for them.
const CHAINS: &[(u32, &[Piece])] = &[
    (0, &[(0x234, &[0x01]), (0x248, &[0x04, 0x10])]),
    (
        1,
        &[
            (0x234, &[0x02]),
            (0x248, &[0x00, 0x12, 0x00, 0x00, 0x04, 0x10]),
            (0x400, b"f.#2"),
        ],
    ),
    (
        9,
        &[
            (0x234, &[0x0a]),
            (0x248, &[0x00, 0x12, 0x00, 0x00, 0x08, 0x12]),
            (0x250, &[0x10, 0x12, 0x00, 0x00, 0x18, 0x12]),
            (0x258, &[0x20, 0x12, 0x00, 0x00, 0x28, 0x12]),
            (0x260, &[0x30, 0x12, 0x00, 0x00, 0x38, 0x12]),
            (0x268, &[0x40, 0x12, 0x00, 0x00, 0x04, 0x10]),
            (0x400, b"f.#2\0\0\0\0f.#3\0\0\0\0f.#4"),
            (0x418, b"f.#5\0\0\0\0f.#6\0\0\0\0f.#7"),
            (0x430, b"f.#8\0\0\0\0f.#9\0\0\0\0f.#10"),
        ],
    ),
];

#[test]
fn a_chain_has_its_forwarders_and_then_its_export(rt: HostRuntime) {
    for (index, (forwarders, pieces)) in CHAINS.iter().enumerate() {
        assert!(rt; *forwarders <= 65);
        let file = vf(rt.alloc(), *forwarders).expect(&rt, "a file");
        let mut expected = vf(rt.alloc(), 0).expect(&rt, "a file");
        put_pieces(&mut expected, pieces).expect(&rt, "pieces in the file");
        assert_holds(&rt, index, *file.as_slice() == *expected.as_slice());
    }
}

/// Bytes of the longest chain: its number of entries; its entries 63 to 65; its last two forwarders.
const LONGEST: &[(usize, &[u8])] = &[
    (0x234, &[0x42, 0x00, 0x00, 0x00]),
    (
        0x344,
        &[
            0xf8, 0x13, 0x00, 0x00, 0x00, 0x14, 0x00, 0x00, 0x04, 0x10, 0x00, 0x00, 0x00,
        ],
    ),
    (0x5f8, b"f.#65\0\0\0f.#66\0\0\0\0"),
];

#[test]
fn the_longest_chain_has_66_entries(rt: HostRuntime) {
    let file = vf(rt.alloc(), 65).expect(&rt, "memory");
    for (index, (offset, bytes)) in LONGEST.iter().enumerate() {
        assert!(rt; *offset < 0x700 && bytes.len() < 0x100);
        assert_holds(
            &rt,
            index,
            file.get(*offset..*offset + bytes.len()) == Some(*bytes),
        );
    }
}
