//! `View`: numbers, slices and strings of a file of twelve bytes.

use crate::tests::asserts::assert_holds;
use pe_view::View;
use std::process::Abort;

/// A file of twelve different bytes.
const FILE: &[u8; 12] = b"\x4d\x5a\x90\x00\x03\xff\x80\x7f\x01\x00\x02\xfe";

#[test]
fn a_view_shows_its_file(rt: HostRuntime) {
    for (case, (file, len)) in [(FILE.as_slice(), 12), (&[], 0)].iter().enumerate() {
        let view = View::new(file);
        assert_holds(&rt, case, view.len() == *len);
        assert_holds(&rt, case, view.is_empty() == (*len == 0));
    }
}

/// An offset, and the numbers of 2, 4 and 8 bytes there.
type Numbers = (u64, Option<u16>, Option<u32>, Option<u64>);

/// Asserts the numbers of the file.
fn assert_numbers(rt: &impl Abort, numbers: &[Numbers]) {
    let view = View::new(FILE);
    for (offset, two, four, eight) in numbers {
        assert_holds(rt, *offset as usize, view.u16_at(*offset) == *two);
        assert_holds(rt, *offset as usize, view.u32_at(*offset) == *four);
        assert_holds(rt, *offset as usize, view.u64_at(*offset) == *eight);
    }
}

const INSIDE: &[Numbers] = &[
    (
        0,
        Some(0x5a4d),
        Some(0x0090_5a4d),
        Some(0x7f80_ff03_0090_5a4d),
    ),
    (
        3,
        Some(0x0300),
        Some(0x80ff_0300),
        Some(0x0200_017f_80ff_0300),
    ),
    (5, Some(0x80ff), Some(0x017f_80ff), None),
];

#[test]
fn numbers_have_their_lowest_byte_first(rt: HostRuntime) {
    assert_numbers(&rt, INSIDE);
}

const AT_THE_END: &[Numbers] = &[
    (
        4,
        Some(0xff03),
        Some(0x7f80_ff03),
        Some(0xfe02_0001_7f80_ff03),
    ),
    (5, Some(0x80ff), Some(0x017f_80ff), None),
    (8, Some(0x0001), Some(0xfe02_0001), None),
    (9, Some(0x0200), None, None),
    (10, Some(0xfe02), None, None),
    (11, None, None, None),
];

#[test]
fn a_number_that_passes_the_end_is_none(rt: HostRuntime) {
    assert_numbers(&rt, AT_THE_END);
}

/// An offset, a length or an end, and the bytes there.
type Part = (u64, u64, Option<&'static [u8]>);

/// Asserts the slices of a file by their lengths.
fn assert_slices(rt: &impl Abort, file: &[u8], parts: &[Part]) {
    let view = View::new(file);
    for (case, (offset, len, expected)) in parts.iter().enumerate() {
        assert_holds(rt, case, view.slice(*offset, *len) == *expected);
    }
}

/// Asserts the strings of a file by their ends.
fn assert_texts(rt: &impl Abort, file: &[u8], parts: &[Part]) {
    let view = View::new(file);
    for (case, (offset, end, expected)) in parts.iter().enumerate() {
        assert_holds(rt, case, view.until_zero(*offset, *end) == *expected);
    }
}

#[test]
fn no_offset_wraps(rt: HostRuntime) {
    for back in 0..10u64 {
        let offset = u64::MAX - back;
        assert_numbers(&rt, &[(offset, None, None, None)]);
        let slices = [(offset, 1, None), (1, offset, None), (offset, offset, None)];
        assert_slices(&rt, FILE, &slices);
        let texts = [
            (1, offset, None),
            (offset, 12, None),
            (offset, u64::MAX, None),
        ];
        assert_texts(&rt, FILE, &texts);
    }
}

/// The slices of the file.
const SLICES: &[Part] = &[
    (4, 3, Some(b"\x03\xff\x80")),
    (0, 12, Some(FILE)),
    (12, 0, Some(b"")),
    (0, 13, None),
    (12, 1, None),
    (13, 0, None),
];

#[test]
fn a_slice_is_a_part_of_the_file(rt: HostRuntime) {
    assert_slices(&rt, FILE, SLICES);
}

/// A file of two strings that end, and one that does not.
const TEXTS: &[u8] = b"ab\x00cd\x00e";

const ENDED: &[Part] = &[
    (0, 7, Some(b"ab")),
    (0, 3, Some(b"ab")),
    (1, 7, Some(b"b")),
    (2, 3, Some(b"")),
    (3, 7, Some(b"cd")),
];

#[test]
fn a_text_ends_before_the_first_zero_byte(rt: HostRuntime) {
    assert_texts(&rt, TEXTS, ENDED);
}

const NOT_ENDED: &[Part] = &[
    (0, 2, None),
    (0, 8, None),
    (2, 2, None),
    (3, 2, None),
    (6, 7, None),
    (7, 7, None),
];

#[test]
fn a_text_without_a_zero_byte_before_its_end_is_none(rt: HostRuntime) {
    assert_texts(&rt, TEXTS, NOT_ENDED);
}
