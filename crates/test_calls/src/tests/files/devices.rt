//! The devices of tests: a reader and a writer over memory, which work in steps and fail.

use crate::tests::asserts::{assert_holds, assert_number};
use pe_text::{Failed, Sink, Source};
use pe_vectors::{StepReader, StepWriter};
use std::process::Abort;

/// Whether a read returned these bytes, or failed.
fn has_given(buffer: &[u8], given: Result<usize, Failed>, expected: Option<&[u8]>) -> bool {
    match (given, expected) {
        (Ok(count), Some(bytes)) => buffer.get(..count) == Some(bytes),
        (Err(Failed), None) => true,
        _ => false,
    }
}

/// What each read of `abcdefg` by 3 bytes returns, the second of which fails, and the failures then.
const READS: &[(Option<&[u8]>, u64)] = &[
    (Some(b"abc"), 0),
    (None, 1),
    (Some(b"def"), 1),
    (Some(b"g"), 1),
    (Some(b""), 1),
    (Some(b""), 1),
];

/// Whether a read of at most 4 bytes returns these, or fails.
fn reads(rt: &impl Abort, reader: &mut StepReader, expected: Option<&[u8]>) -> bool {
    assert!(rt; reader.failures() < 5);
    let mut buffer = [0; 4];
    let given = reader.read(&mut buffer);
    has_given(&buffer, given, expected)
}

#[test]
fn a_reader_gives_its_bytes_in_steps(rt: HostRuntime) {
    let mut reader = StepReader::new(b"abcdefg", 3, Some(1));
    for (index, (expected, failures)) in READS.iter().enumerate() {
        assert_holds(&rt, index, reads(&rt, &mut reader, *expected));
        assert_number(&rt, index, reader.failures(), *failures);
    }
}

/// What each write of `abcd` by 3 bytes returns, the second of which fails and the fourth of which finds no room, and the bytes
/// taken then.
const WRITES: &[(Result<usize, Failed>, &[u8])] = &[
    (Ok(3), b"abc"),
    (Err(Failed), b"abc"),
    (Ok(2), b"abcab"),
    (Err(Failed), b"abcab"),
];

/// What a write of a piece returns.
fn written(rt: &impl Abort, writer: &mut StepWriter, piece: &[u8]) -> Result<usize, Failed> {
    assert!(rt; writer.failures() < 5);
    writer.write(piece)
}

#[test]
fn a_writer_takes_steps_until_its_room_is_full(rt: HostRuntime) {
    let mut writer = StepWriter::new(rt.alloc(), 5, 3, Some(1)).expect(&rt, "memory");
    for (index, (answer, taken)) in WRITES.iter().enumerate() {
        assert_holds(&rt, index, written(&rt, &mut writer, b"abcd") == *answer);
        assert_holds(&rt, index, writer.taken() == *taken);
    }
    assert_number(&rt, 0, writer.failures(), 2);
    assert_holds(&rt, 0, written(&rt, &mut writer, b"") == Ok(0));
}
