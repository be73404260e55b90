//! Guesses of a name's index in a list of exports.

use crate::key::Target;
use std::alloc::Allocator;

/// The most guesses of a string.
const PLACES: usize = 4;

/// An empty place.
const NONE: u32 = u32::MAX;

/// Guesses of names' indexes among exports, by some of their bytes. The caller compares the name at the index, so that a wrong
/// guess costs only time.
///
/// There are two to four places for each name, of 4 bytes.
#[derive(Drop)]
pub(crate) struct Guesses<A: Allocator> {
    /// The indexes of up to [`PLACES`] names whose marks have the same upper bits, by these bits.
    buckets: Vec<[u32; PLACES], A>,
    /// How many low bits of a mark are not part of the bucket's number.
    shift: u32,
}

/// The 8 bytes of a string from an index on as a number, or 0 if there are fewer.
fn word_at(text: &[u8], index: usize) -> u64 {
    match text.get(index..).and_then(|rest| rest.first_chunk::<8>()) {
        Some(bytes) => u64::from_le_bytes(*bytes),
        None => 0,
    }
}

/// All bytes of a short string as a number.
fn short_word(text: &[u8]) -> u64 {
    text.iter()
        .fold(0, |word, byte| word << 8 | u64::from(*byte))
}

/// A number that two strings seldom share: of the length and the first, the middle and the last bytes, spread by a product with the
/// golden ratio (Fibonacci hashing).
fn mark(text: &[u8]) -> u64 {
    let len = text.len();
    let word = if len < 8 {
        short_word(text)
    } else {
        word_at(text, 0)
            ^ word_at(text, len / 2 - 4).rotate_left(21)
            ^ word_at(text, len - 8).rotate_left(42)
    };
    (word ^ len as u64).wrapping_mul(0x9e37_79b9_7f4a_7c15)
}

impl<A: Allocator + Copy> Guesses<A> {
    /// No guesses. Allocates nothing.
    pub(crate) fn none(alloc: A) -> Guesses<A> {
        Guesses {
            buckets: Vec::new(alloc),
            shift: 0,
        }
    }

    /// Whether there are none.
    pub(crate) fn is_empty(&self) -> bool {
        self.buckets.is_empty()
    }

    /// The bucket of a string.
    fn bucket_of(&self, text: &[u8]) -> usize {
        mark(text).checked_shr(self.shift).unwrap_or(0) as usize
    }

    /// Notes a name's index, if its bucket has a place left.
    fn note(&mut self, name: &[u8], index: u32) {
        let bucket = self.bucket_of(name);
        let Some(places) = self.buckets.get_mut(bucket) else {
            return;
        };
        if let Some(free) = places.iter().position(|noted| *noted == NONE) {
            places[free] = index;
        }
    }

    /// Guesses for the names of these exports; none if memory runs out.
    pub(crate) fn of(alloc: A, exports: &[(&[u8], Target)]) -> Guesses<A> {
        let mut guesses = Guesses::none(alloc);
        let Some(bits) = exports.len().checked_ilog2() else {
            return guesses;
        };
        let buckets = 1_usize.checked_shl(bits).unwrap_or(0);
        if guesses.buckets.resize(buckets, [NONE; PLACES]).is_err() {
            return guesses;
        }
        guesses.shift = u64::BITS.saturating_sub(bits);
        for (index, (name, _)) in exports.iter().enumerate() {
            guesses.note(name, u32::try_from(index).unwrap_or(NONE));
        }
        guesses
    }

    /// The guesses of a name's index.
    pub(crate) fn get(&self, name: &[u8]) -> [u32; PLACES] {
        match self.buckets.get(self.bucket_of(name)) {
            Some(places) => *places,
            None => [NONE; PLACES],
        }
    }
}
