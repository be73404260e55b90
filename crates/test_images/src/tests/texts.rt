//! Long strings, many of which may share their end, found with the ends of earlier ones.

ghost use Rattle.std.specs.Prelude.{◌<◌, ◌*◌};

use super::cases::{layout_of, with_data};
use crate::tests::asserts::{assert_holds, assert_number};
use linked_list_allocator::LocalHeap;
use pe_vectors::files::put_pieces;
use pe_view::{TextEnds, View};
use std::alloc::{Allocator, Global};
use std::process::Abort;
use std::test::Fail;

/// Appends a byte many times.
fn push_bytes(rt: &impl Abort, bytes: &mut Vec<u8>, byte: u8, count: usize) {
    for _ in 0..count {
        bytes.push(byte).expect(rt, "memory");
    }
}

/// A byte, and how often it is repeated.
type Run = (u8, usize);

/// Appends runs of bytes.
fn push_runs(rt: &impl Abort, bytes: &mut Vec<u8>, runs: &[Run]) {
    for (byte, count) in runs {
        push_bytes(rt, bytes, *byte, *count);
    }
}

/// The bytes of runs.
fn text_of(rt: &impl Abort, alloc: Global, runs: &[Run]) -> Vec<u8> {
    let mut text = Vec::new(alloc);
    push_runs(rt, &mut text, runs);
    text
}

/// A file of 3,000 bytes: 100 zeros, 900 `a`, a zero, 999 `b`, a zero, and 999 `c`.
const FILE: &[Run] = &[
    (0, 100),
    (b'a', 900),
    (0, 1),
    (b'b', 999),
    (0, 1),
    (b'c', 999),
];

/// An offset and an end, and the length of the string between them and its letter.
type Text = (u64, u64, Option<(usize, u8)>);

/// The strings of the file of runs.
const RUNS: &[Text] = &[
    (500, 3000, Some((500, b'a'))),
    (100, 3000, Some((900, b'a'))),
    (700, 3000, Some((300, b'a'))),
    (999, 3000, Some((1, b'a'))),
    (1000, 3000, Some((0, b'-'))),
    (50, 3000, Some((0, b'-'))),
    // an end before the zero byte
    (100, 900, None),
    (100, 1000, None),
    (100, 1001, Some((900, b'a'))),
    (1001, 2000, None),
    (1500, 2000, None),
    (1100, 1900, None),
    (1200, 2001, Some((800, b'b'))),
    (1001, 2900, Some((999, b'b'))),
    (1050, 3000, Some((950, b'b'))),
    // no zero byte up to the end of the file
    (2001, 3000, None),
    (2500, 3000, None),
    (2100, 2900, None),
    // past the end of the file
    (100, 3001, None),
    (900, 100, None),
    (u64::MAX, u64::MAX, None),
    (100, u64::MAX, None),
];

/// Whether a string has this length and letter, or there is none.
fn is_text(found: Option<&[u8]>, expected: Option<(usize, u8)>) -> bool {
    match (found, expected) {
        (Some(bytes), Some((count, letter))) => {
            bytes.len() == count && bytes.iter().all(|byte| *byte == letter)
        }
        (None, None) => true,
        _ => false,
    }
}

/// Element `index` of the sequence that counts from 0 up to `count - 1` and then back to 0.
fn there_and_back(index: usize, count: usize) -> usize
    requires { index < 2 * count }
    ensures { result < count }
{
    if index < count {
        index
    } else {
        count - 1 - (index - count)
    }
}

/// Reads all strings, in this order and then back, with the ends of earlier ones.
fn assert_runs<A: Allocator + Copy>(rt: &impl Abort, alloc: A, file: &[u8]) {
    let view = View::new(file);
    let mut ends = TextEnds::new(alloc);
    for index in 0..2 * RUNS.len() {
        let (offset, end, text) = RUNS[there_and_back(index, RUNS.len())];
        let found = ends.until_zero(view, offset, end);
        assert_holds(rt, offset as usize, is_text(found, text));
        assert_holds(
            rt,
            end as usize,
            is_text(view.until_zero(offset, end), text),
        );
    }
}

#[test]
fn texts_are_found_by_those_before_them(rt: HostRuntime) -> Result<(), Fail> {
    let file = text_of(&rt, rt.alloc(), FILE);
    assert_runs(&rt, rt.alloc(), &file);
    // if memory runs out, they are searched again
    let heap = LocalHeap::new(rt.alloc(), 64)?;
    assert_runs(&rt, &heap, &file);
    Ok(())
}

/// A section of 0xd00 bytes: 600 `a`, a zero, and 2,727 `b`, followed by zero fill of 0x100 bytes.
fn two_texts(rt: &impl Abort, alloc: Global) -> Vec<u8> {
    let data = text_of(rt, alloc, &[(b'a', 600), (0, 1), (b'b', 2727)]);
    let mut file = with_data(rt, alloc, &[], &data);
    // VirtualSize
    put_pieces(&mut file, &[(0x141, &[0x0e])]).expect(rt, "pieces in the file");
    file
}

/// An RVA, and the length of the string there, its letter, and the file offset of its end.
const IMAGE_TEXTS: &[(u32, usize, u8, u64)] = &[
    (0x1100, 344, b'a', 0x458),
    (0x1000, 600, b'a', 0x458),
    (0x1001, 599, b'a', 0x458),
    (0x1257, 1, b'a', 0x458),
    (0x1300, 2560, b'b', 0xf00),
    (0x1259, 2727, b'b', 0xf00),
    (0x1cff, 1, b'b', 0xf00),
];

#[test]
fn a_text_of_an_image_ends_where_its_like_does(rt: HostRuntime) {
    let file = two_texts(&rt, rt.alloc());
    let layout = layout_of(&rt, &file);
    let mut ends = TextEnds::new(rt.alloc());
    for index in 0..2 * IMAGE_TEXTS.len() {
        let (rva, len, letter, end) = IMAGE_TEXTS[there_and_back(index, IMAGE_TEXTS.len())];
        let text = layout.text_at(&mut ends, rva).expect(&rt, "a text");
        assert_holds(
            &rt,
            rva as usize,
            is_text(Some(text.bytes), Some((len, letter))),
        );
        assert_number(&rt, rva as usize, text.end, end);
    }
}
