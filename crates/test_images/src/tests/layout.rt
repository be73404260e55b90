//! Laid-out images in `pe_layout`: numbers, directories, and the layout's own properties.

use super::cases::{IMAGE, layout_of};
use crate::tests::asserts::assert_holds;
use pe_head::Directory;
use pe_layout::Layout;
use pe_vectors::files::{Piece, Vector, changed_file, file_of, put_pieces};
use std::process::Abort;

#[test]
fn a_slot_has_four_bytes_in_pe32_and_eight_in_pe32_plus(rt: HostRuntime) {
    for (vector, width) in [(Vector::V2, 4), (Vector::V3, 8)] {
        let file = file_of(rt.alloc(), vector).expect(&rt, "memory");
        assert_holds(&rt, 0, layout_of(&rt, &file).slot_width() == width);
    }
}

#[test]
fn a_layout_shows_its_headers_and_its_number(rt: HostRuntime) {
    let file = file_of(rt.alloc(), Vector::V1).expect(&rt, "memory");
    let layout = layout_of(&rt, &file);
    assert_holds(&rt, 0, layout.image() == IMAGE);
    assert_holds(&rt, 0, layout.headers().image_base == 0x1000_0000);
}

/// V2 with `.reloc` at the end of `.data`, and the last byte of the headers not zero.
const TOUCHING: &[Piece] = &[(0x1ff, &[0x7f]), (0x16c, &[0x10, 0x10])];

/// An RVA, and the numbers of 2, 4 and 8 bytes there.
type Numbers = (u32, Option<u16>, Option<u32>, Option<u64>);

/// V2 with adjacent sections: numbers across the headers' end, in a gap, into `.data`, from it into `.reloc`, and after that.
const CROSSING: &[Numbers] = &[
    (0x1fd, Some(0), Some(0x007f_0000), Some(0x007f_0000)),
    (0x1ff, Some(0x7f), Some(0x7f), Some(0x7f)),
    (0x800, Some(0), Some(0), Some(0)),
    (
        0xffe,
        Some(0),
        Some(0x0100_0000),
        Some(0x0504_0302_0100_0000),
    ),
    (
        0x1004,
        Some(0x0504),
        Some(0x0706_0504),
        Some(0x1000_1008_0706_0504),
    ),
    (
        0x100c,
        Some(0x0d0c),
        Some(0x0f0e_0d0c),
        Some(0x0000_1000_0f0e_0d0c),
    ),
    (
        0x100f,
        Some(0x000f),
        Some(0x0010_000f),
        Some(0x0000_0c00_0010_000f),
    ),
    (0x1018, Some(0x3008), Some(0x3008), Some(0x3008)),
];

/// V1 with the end of the image at that of `.data`, at 0x1010.
const AT_THE_END: &[Numbers] = &[
    (
        0x1008,
        Some(0x0908),
        Some(0x0b0a_0908),
        Some(0x0f0e_0d0c_0b0a_0908),
    ),
    (0x1009, Some(0x0a09), Some(0x0c0b_0a09), None),
    (0x100c, Some(0x0d0c), Some(0x0f0e_0d0c), None),
    (0x100d, Some(0x0e0d), None, None),
    (0x100e, Some(0x0f0e), None, None),
    (0x100f, None, None, None),
    (0x1010, None, None, None),
    (0xffff_fff8, None, None, None),
    (0xffff_fffc, None, None, None),
    (0xffff_fffe, None, None, None),
    (0xffff_ffff, None, None, None),
];

/// V1 in the largest image, of 2^31 bytes.
const AT_THE_LARGEST_END: &[Numbers] = &[
    (0x7fff_fff8, Some(0), Some(0), Some(0)),
    (0x7fff_fff9, Some(0), Some(0), None),
    (0x7fff_fffc, Some(0), Some(0), None),
    (0x7fff_fffd, Some(0), None, None),
    (0x7fff_ffff, None, None, None),
    (0x8000_0000, None, None, None),
];

/// A changed file, and its numbers.
const NUMBERS: &[(Vector, &[Piece], &[Numbers])] = &[
    (Vector::V2, TOUCHING, CROSSING),
    (Vector::V1, &[(0x90, &[0x10, 0x10, 0x00, 0x00])], AT_THE_END),
    (Vector::V1, LARGEST, AT_THE_LARGEST_END),
];

/// Asserts the numbers of a layout.
fn assert_numbers(rt: &impl Abort, layout: &Layout, numbers: &[Numbers]) {
    for (rva, two, four, eight) in numbers {
        assert_holds(rt, *rva as usize, layout.u16_at(*rva) == *two);
        assert_holds(rt, *rva as usize, layout.u32_at(*rva) == *four);
        assert_holds(rt, *rva as usize, layout.u64_at(*rva) == *eight);
    }
}

#[test]
fn numbers_cross_pieces_and_end_with_the_image(rt: HostRuntime) {
    for (vector, pieces, numbers) in NUMBERS {
        let file = changed_file(rt.alloc(), *vector, pieces).expect(&rt, "a changed file");
        assert_numbers(&rt, &layout_of(&rt, &file), numbers);
    }
}

/// Sets the largest SizeOfImage, 2^31.
const LARGEST: &[Piece] = &[(0x90, &[0x00, 0x00, 0x00, 0x80])];

/// Changes of V2, the index of a directory, and its RVA and Size; `None` if it is absent.
type Present = (&'static [Piece], usize, Option<(u32, u32)>);

/// V2 has directory 5 only.
const DIRECTORIES: &[Present] = &[
    (&[], 5, Some((0x2000, 0x0c))),
    (&[], 0, None),
    (&[], 15, None),
    (&[], 16, None),
    (&[], 0xffff_ffff_ffff_ffff, None),
    // one that the headers do not hold
    (&[(0xb4, &[0x06])], 5, Some((0x2000, 0x0c))),
    (&[(0xb4, &[0x05])], 5, None),
    // RVA 0
    (&[(0xe0, &[0x00, 0x00])], 5, None),
    (&[(0xbc, &[0x60])], 0, None),
    // Size 0, which makes only number 5 absent
    (&[(0xe4, &[0x01])], 5, Some((0x2000, 1))),
    (&[(0xe4, &[0x00])], 5, None),
    (&[(0xb8, &[0x20, 0x10])], 0, Some((0x1020, 0))),
    (&[(0xc0, &[0x20, 0x10])], 1, Some((0x1020, 0))),
    (&[(0xd8, &[0x00, 0x06])], 4, Some((0x600, 0))),
    (
        &[(0x130, &[0x01, 0x00, 0x00, 0x00, 0x02])],
        15,
        Some((1, 2)),
    ),
];

/// Whether a directory has this RVA and Size, or both are absent.
fn is_directory(found: Option<Directory>, expected: Option<(u32, u32)>) -> bool {
    match (found, expected) {
        (Some(found), Some((rva, size))) => found.rva == rva && found.size == size,
        (None, None) => true,
        _ => false,
    }
}

#[test]
fn a_directory_is_present_where_the_headers_hold_it_and_its_rva_is_not_0(rt: HostRuntime) {
    for (case, (pieces, index, expected)) in DIRECTORIES.iter().enumerate() {
        let file = changed_file(rt.alloc(), Vector::V2, pieces).expect(&rt, "a changed file");
        let found = layout_of(&rt, &file).directory(*index);
        assert_holds(&rt, case, is_directory(found, *expected));
    }
}

/// A small image: headers up to 0x16e, then two adjacent sections, an empty one, one without raw data, one whose raw data begins
/// in the headers' last two bytes, and an empty one at the image's end, 0x19a; there are gaps before, between and after them.
const SMALL: &[Piece] = &[
    (0x00, &[0x4d, 0x5a]),
    (0x04, &[0x50, 0x45, 0x00, 0x00, 0x4c, 0x01, 0x06]),
    (0x18, &[0x60, 0x00, 0x02, 0x21, 0x0b, 0x01]),
    (0x3c, &[0x04]),
    (0x54, &[0x9a, 0x01, 0x00, 0x00, 0x6e, 0x01]),
    // the sections: VirtualSize, VirtualAddress, SizeOfRawData, PointerToRawData
    (
        0x084,
        &[
            0x08, 0, 0, 0, 0x72, 0x01, 0, 0, 0x08, 0, 0, 0, 0x04, 0, 0, 0,
        ],
    ),
    (
        0x0ac,
        &[
            0x0c, 0, 0, 0, 0x7a, 0x01, 0, 0, 0x05, 0, 0, 0, 0x70, 0x01, 0, 0,
        ],
    ),
    (
        0x0d4,
        &[
            0x00, 0, 0, 0, 0x88, 0x01, 0, 0, 0x00, 0, 0, 0, 0x70, 0x01, 0, 0,
        ],
    ),
    (
        0x0fc,
        &[
            0x06, 0, 0, 0, 0x88, 0x01, 0, 0, 0x10, 0, 0, 0, 0x00, 0, 0, 0,
        ],
    ),
    (
        0x124,
        &[
            0x04, 0, 0, 0, 0x90, 0x01, 0, 0, 0x10, 0, 0, 0, 0x6c, 0x01, 0, 0,
        ],
    ),
    (
        0x14c,
        &[
            0x00, 0, 0, 0, 0x9a, 0x01, 0, 0, 0x00, 0, 0, 0, 0x00, 0, 0, 0,
        ],
    ),
    (0x16c, b"abcdefghijklmnopqrst"),
];

#[test]
fn byte_and_bytes_give_what_fill_gives(rt: HostRuntime) {
    let mut file = [0; 0x180];
    put_pieces(&mut file, SMALL).expect(&rt, "pieces in the file");
    let layout = layout_of(&rt, &file);
    let mut image = [0xee; 0x19a];
    assert_holds(&rt, 0, layout.fill(0, &mut image));
    let bytes = layout.bytes(rt.alloc()).expect(&rt, "memory");
    assert_holds(&rt, 1, bytes.as_slice() == image.as_slice());
    for (rva, byte) in image.iter().enumerate() {
        assert_holds(&rt, rva, layout.byte(rva as u32) == Some(*byte));
    }
    assert_holds(&rt, 0x19a, layout.byte(0x19a).is_none());
}
