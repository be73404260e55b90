//! `Source` and `Sink`: what engines read from and write to.

ghost use Rattle.std.specs.Prelude.{◌≡◌, ◌-◌, ◌^◌, ◌<◌, ◌≤◌, ℕ, Bool, ◌||◌, List, length, IfOk};

use thiserror::Error;

/// A read or a write that failed.
#[derive(Clone, Copy, Debug, PartialEq, Eq, Error)]
#[error("a read or a write failed")]
pub struct Failed;

/// What an engine reads from.
///
/// A source counts its failures: a call fails exactly if the count rises, by one. Contracts see the bytes that it has returned so
/// far, and whether its end was seen.
pub trait Source {
    ghost use Rattle.pe_text.specs.Device.{Counts, GrowsBy, sees_end};

    // the bytes that it has returned so far
    ghost given: { Self → List ℕ };

    // whether its end was seen: a read into a non-empty buffer returned 0
    ghost ended: { Self → Bool };

    // how often it has failed
    ghost failures: { Self → ℕ };

    /// Reads bytes into the beginning of the buffer, and returns how many. 0 bytes, for a non-empty buffer, are the end.
    fn read(&mut self, buffer: &mut [u8]) -> Result<usize, Failed>
        requires { failures self.old < 2 ^ 64 - 1 }
        ensures fits { IfOk result (λ count. count ≤ length buffer.new) }
        ensures given { GrowsBy (given self.old) (given self.new) result buffer.new }
        ensures ended { ended self.new ≡ (ended self.old || sees_end result (length buffer.new)) }
        ensures failures { Counts (failures self.old) (failures self.new) result };

    /// How many reads have failed.
    fn failures(&self) -> u64
        ensures { result ≡ failures self.now };
}

/// What an engine writes to.
///
/// A sink counts its failures: a call fails exactly if the count rises, by one. Contracts see the bytes that it has taken so far.
pub trait Sink {
    ghost use Rattle.pe_text.specs.Device.{Counts, GrowsBy};

    // the bytes that it has taken so far
    ghost taken: { Self → List ℕ };

    // how often it has failed
    ghost failures: { Self → ℕ };

    /// Takes bytes from the beginning of the piece, and returns how many; to take none of a non-empty piece is a failure.
    fn write(&mut self, piece: &[u8]) -> Result<usize, Failed>
        requires { failures self.old < 2 ^ 64 - 1 }
        ensures fits { IfOk result (λ count. count ≤ length piece.now) }
        ensures some { IfOk result (λ count. 0 < length piece.now → 0 < count) }
        ensures taken { GrowsBy (taken self.old) (taken self.new) result piece.now }
        ensures failures { Counts (failures self.old) (failures self.new) result };

    /// How many writes have failed.
    fn failures(&self) -> u64
        ensures { result ≡ failures self.now };
}
