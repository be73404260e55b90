//! `PartSource`: a source that is read at any offset; and `Placed`, a reader of std that can seek as one.

ghost use Rattle.std.specs.Prelude.{◌≡◌, ◌-◌, ◌^◌, ◌<◌, ◌≤◌, ℕ, List, [], length, IfOk};
ghost use Rattle.pe_reach.specs.Parts.{Part};

use crate::told_parts::ToldParts;
use pe_text::Failed;
use std::io::{Read, Seek, SeekFrom};

/// What an engine reads parts of a file from.
///
/// A source counts its failures: a call fails exactly if the count rises, by one. Contracts see the parts that it has returned so
/// far, each with its file offset.
pub trait PartSource {
    ghost use Rattle.pe_text.specs.Device.{Counts};
    ghost use Rattle.pe_reach.specs.Parts.{GrowsByPart};

    // the parts that it has returned so far
    ghost parts: { Self → List Part };

    // how often it has failed
    ghost failures: { Self → ℕ };

    /// Reads bytes at a file offset into the beginning of the buffer, and returns how many. 0 bytes, for a non-empty buffer, say
    /// that the file ends there or before.
    fn read_at(&mut self, offset: u64, buffer: &mut [u8]) -> Result<usize, Failed>
        requires { failures self.old < 2 ^ 64 - 1 }
        ensures fits { IfOk result (λ count. count ≤ length buffer.new) }
        ensures parts { GrowsByPart offset (parts self.old) (parts self.new) result buffer.new }
        ensures failures { Counts (failures self.old) (failures self.new) result };
}

/// A reader of std that can seek as a [`PartSource`].
///
/// It records its parts and how often it failed, from the result of each call. The list of parts is for contracts alone and takes no
/// memory.
#[derive(Drop)]
pub struct Placed<T> {
    inner: T,
    told: ToldParts,
    failures: u64,
}

impl<T> Placed<T> {
    ghost use Rattle.pe_reach.specs.Placed.{parts_told, failures_of};

    /// A source that has returned no part and has not failed.
    pub fn new(inner: T) -> Placed<T>
        ensures parts { parts_told result ≡ [] }
        ensures failures { failures_of result ≡ 0 }
    {
        Placed {
            inner,
            told: ToldParts::new(),
            failures: 0,
        }
    }
}

impl<T: Read + Seek> PartSource for Placed<T> {
    ghost use Rattle.pe_reach.specs.Placed.{parts_told, failures_of};

    ghost parts = { λ placed. parts_told placed };

    ghost failures = { λ placed. failures_of placed };

    fn read_at(&mut self, offset: u64, buffer: &mut [u8]) -> Result<usize, Failed> {
        if self.inner.seek(SeekFrom::Start(offset)).is_err() {
            self.failures += 1;
            return Err(Failed);
        }
        match self.inner.read(buffer) {
            Ok(count) => {
                self.told.add(offset, &buffer[..count]);
                Ok(count)
            }
            Err(_) => {
                self.failures += 1;
                Err(Failed)
            }
        }
    }
}
