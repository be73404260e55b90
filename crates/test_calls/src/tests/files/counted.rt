//! Readers and writers of std as devices.

use crate::tests::asserts::{assert_holds, assert_number};
use pe_text::{Counted, Failed, Sink, Source};

#[test]
fn a_reader_gives_its_bytes_and_then_none(rt: HostRuntime) {
    let mut source = Counted::new(&b"abc"[..]);
    let mut buffer = [0; 2];
    for (index, piece) in [&b"ab"[..], b"c", b"", b""].iter().enumerate() {
        assert!(rt; source.failures() == 0);
        let count = source.read(&mut buffer).expect(&rt, "a read");
        assert_holds(&rt, index, buffer.get(..count) == Some(*piece));
    }
}

/// A piece, what a writer with room for three bytes returns, and the failures before.
const WRITES: &[(&[u8], Result<usize, Failed>, u64)] = &[
    (b"abcd", Ok(3), 0),
    (b"", Ok(0), 0),
    (b"abcd", Err(Failed), 0),
    (b"abcd", Err(Failed), 1),
    (b"", Ok(0), 2),
];

#[test]
fn a_writer_that_takes_nothing_fails_each_time(rt: HostRuntime) {
    let mut room = [0; 3];
    let mut sink = Counted::new(&mut room[..]);
    for (index, (piece, answer, failures)) in WRITES.iter().enumerate() {
        assert!(rt; sink.failures() < 5);
        assert_number(&rt, index, sink.failures(), *failures);
        assert_holds(&rt, index, sink.write(piece) == *answer);
    }
}
