//! Guesses of where to begin a search in a list ordered by key.

use crate::ordered::{FEW, Order};
use std::alloc::{AllocError, Allocator};

/// The entry for a range of keys for which no guess helps.
const NONE: u32 = u32::MAX;

/// Guesses of how many items of an ordered list come before a key, made for a run of its items. A search tests a guess before it
/// begins there, so that a wrong one costs only time.
///
/// The keys are divided into ranges whose size is a power of two. There are at most twice as many ranges as items, and each takes
/// 4 bytes.
#[derive(Drop)]
pub(crate) struct Hints<A: Allocator> {
    /// The lowest key.
    first: u64,
    /// The size of a range is 2 to this power.
    shift: u32,
    /// How many items of the list come before each range, or [`NONE`] for a range with too many items to be compared one by one.
    /// Empty if there are few items, or if memory ran out.
    guesses: Vec<u32, A>,
    /// The guess for a key past the last range.
    beyond: u32,
}

/// The power of two with which there are about as many ranges as items, and at most twice as many.
fn shift_of(range: u64, items: usize) -> u32 {
    match range.checked_div(items as u64) {
        Some(share) => share.checked_ilog2().unwrap_or(0),
        None => 0,
    }
}

/// An index of the list in 32 bits, or [`NONE`].
fn place(index: usize) -> u32 {
    u32::try_from(index).unwrap_or(NONE)
}

impl<A: Allocator + Copy> Hints<A> {
    /// Guesses for these items, ordered by key, which come after `start` others in their list.
    pub(crate) fn of<O: Order<T>, T>(alloc: A, items: &[T], start: usize) -> Hints<A> {
        let mut hints = Hints {
            first: 0,
            shift: 0,
            guesses: Vec::new(alloc),
            beyond: place(start),
        };
        if items.len() >= FEW {
            hints.beyond = NONE;
            let _ = hints.count::<O, T>(items, place(start));
        }
        hints
    }

    /// The number of a key's range.
    fn stretch(&self, key: u64) -> usize {
        let behind = key.saturating_sub(self.first);
        behind.checked_shr(self.shift).unwrap_or(0) as usize
    }

    /// Counts how many items come before each range, `start` of them before these. The error is out of memory.
    fn count<O: Order<T>, T>(&mut self, items: &[T], start: u32) -> Result<(), AllocError> {
        let (Some(first), Some(last)) = (items.first(), items.last()) else {
            return Ok(());
        };
        let (first, last) = (O::key(first), O::key(last));
        self.first = first;
        self.shift = shift_of(last.saturating_sub(first), items.len());
        let stretches = self.stretch(last).saturating_add(1);
        self.guesses.reserve_exact(stretches)?;
        let mut before = start;
        for item in items {
            self.note(O::key(item), before)?;
            before = before.saturating_add(1);
        }
        self.beyond = before;
        Ok(())
    }

    /// Counts the next item, with how many come before it. Items must come in order.
    fn note(&mut self, key: u64, before: u32) -> Result<(), AllocError> {
        let stretch = self.stretch(key);
        let Some(guess) = self.guesses.get_mut(stretch) else {
            return self.guesses.resize(stretch.saturating_add(1), before);
        };
        let earlier = before.saturating_sub(*guess);
        if earlier.saturating_add(1) as usize >= FEW {
            *guess = NONE;
        }
        Ok(())
    }

    /// A guess of how many items come before a key: those before its range. `None` if the range has too many items to be compared
    /// one by one.
    fn guess(&self, key: u64) -> Option<usize> {
        let guess = match self.guesses.get(self.stretch(key)) {
            Some(guess) => *guess,
            None => self.beyond,
        };
        if guess == NONE {
            return None;
        }
        Some(guess as usize)
    }
}

/// The guess for a key of an image, from the guesses of all images.
pub(crate) fn guess_of<A: Allocator + Copy>(
    hints: &[Hints<A>],
    number: u16,
    key: u64,
) -> Option<usize> {
    match hints.get(number as usize) {
        Some(own) => own.guess(key),
        None => None,
    }
}
