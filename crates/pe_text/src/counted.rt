//! `Counted`: a reader or a writer of std as a `Source` or a `Sink`.

ghost use Rattle.std.specs.Prelude.{◌≡◌, [], false};

use crate::device::{Failed, Sink, Source};
use crate::told::Told;
use std::io::{Read, Write};

/// A reader or a writer of std as a [`Source`] or a [`Sink`].
///
/// It records its bytes, whether its end was seen and how often it failed, from the result of each call. The list of bytes is for
/// contracts alone and takes no memory.
#[derive(Drop)]
pub struct Counted<T> {
    inner: T,
    told: Told,
    ended: bool,
    failures: u64,
}

impl<T> Counted<T> {
    ghost use Rattle.pe_text.specs.Counted.{bytes_told, has_ended, failures_of};

    /// A device that has returned and taken no bytes, has not ended and has not failed.
    pub fn new(inner: T) -> Counted<T>
        ensures bytes { bytes_told result ≡ [] }
        ensures ended { has_ended result ≡ false }
        ensures failures { failures_of result ≡ 0 }
    {
        Counted {
            inner,
            told: Told::new(),
            ended: false,
            failures: 0,
        }
    }
}

impl<T: Read> Source for Counted<T> {
    ghost use Rattle.pe_text.specs.Counted.{bytes_told, has_ended, failures_of};

    ghost given = { λ counted. bytes_told counted };

    ghost ended = { λ counted. has_ended counted };

    ghost failures = { λ counted. failures_of counted };

    fn read(&mut self, buffer: &mut [u8]) -> Result<usize, Failed> {
        match self.inner.read(buffer) {
            Ok(count) => {
                if count == 0 && !buffer.is_empty() {
                    self.ended = true;
                }
                self.told.add(&buffer[..count]);
                Ok(count)
            }
            Err(_) => {
                self.failures += 1;
                Err(Failed)
            }
        }
    }

    fn failures(&self) -> u64 {
        self.failures
    }
}

impl<T: Write> Sink for Counted<T> {
    ghost use Rattle.pe_text.specs.Counted.{bytes_told, failures_of};

    ghost taken = { λ counted. bytes_told counted };

    ghost failures = { λ counted. failures_of counted };

    fn write(&mut self, piece: &[u8]) -> Result<usize, Failed> {
        match self.inner.write(piece) {
            Ok(count) if count > 0 || piece.is_empty() => {
                self.told.add(&piece[..count]);
                Ok(count)
            }
            _ => {
                self.failures += 1;
                Err(Failed)
            }
        }
    }

    fn failures(&self) -> u64 {
        self.failures
    }
}
