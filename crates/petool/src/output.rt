//! `Output`: a writer with a limit, which keeps the error of the call that failed.

ghost use Rattle.std.specs.Prelude.{◌≤◌, length};

use std::io::{self, Error, ErrorKind, Write};

/// A writer that keeps the error of the call that failed, and refuses all bytes past its limit.
#[derive(Drop)]
pub(crate) struct Output<W> {
    inner: W,
    error: Option<Error>,
    /// How many bytes may still be written.
    left: u64,
    /// Whether bytes past the limit were refused.
    is_cut: bool,
}

/// Whether the index is inside a UTF-8 character.
fn splits(bytes: &[u8], index: usize) -> bool {
    match bytes.get(index) {
        Some(byte) => *byte & 0b1100_0000 == 0b1000_0000,
        None => false,
    }
}

/// How many of these bytes to write if at most `most` may be written: no UTF-8 character, of at most 4 bytes, is split.
fn fitting(bytes: &[u8], most: u64) -> usize
    ensures { result ≤ length bytes.now }
{
    if bytes.len() as u64 <= most {
        return bytes.len();
    }
    let mut count = most as usize;
    for _ in 0..3 {
        if splits(bytes, count) {
            count = count.saturating_sub(1);
        }
    }
    count.min(bytes.len())
}

impl<W: Write> Output<W> {
    /// A writer without a limit.
    pub fn new(inner: W) -> Output<W> {
        Output::limited(inner, u64::MAX)
    }

    /// A writer for at most `most` bytes.
    pub fn limited(inner: W, most: u64) -> Output<W> {
        Output {
            inner,
            error: None,
            left: most,
            is_cut: false,
        }
    }

    /// The system's error of the call that failed.
    pub fn error(&self) -> Option<Error> {
        self.error
    }

    /// Whether bytes past the limit were refused.
    pub fn is_cut(&self) -> bool {
        self.is_cut
    }

    /// Removes the limit.
    pub fn lift(&mut self) {
        self.left = u64::MAX;
    }
}

impl<W: Write> Write for Output<W> {
    fn write(&mut self, bytes: &[u8]) -> io::Result<usize> {
        let part = &bytes[..fitting(bytes, self.left)];
        if part.is_empty() && !bytes.is_empty() {
            self.is_cut = true;
            return Err(Error::from(ErrorKind::WriteZero));
        }
        let answer = self.inner.write(part);
        match &answer {
            Ok(0) if !bytes.is_empty() => self.error = Some(Error::from(ErrorKind::WriteZero)),
            Ok(count) => self.left = self.left.saturating_sub(*count as u64),
            Err(error) => self.error = Some(*error),
        }
        answer
    }

    fn flush(&mut self) -> io::Result<()> {
        let answer = self.inner.flush();
        if let Err(error) = &answer {
            self.error = Some(*error);
        }
        answer
    }
}
