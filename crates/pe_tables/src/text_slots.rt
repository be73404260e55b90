//! `TextSlots`: places for strings that are to come, in the order of their bytes.

ghost use Rattle.std.specs.Prelude.{◌≡◌, ◌<◌, ℕ, List, [], Option, None, IfOk, IsTrue, length, slice_index_or, true};
ghost use Rattle.std.specs.Borrow.{Bor};
ghost use Rattle.std.specs.Str.{bytes_eq};
ghost use Rattle.pe_tables.specs.TextMap.{IsPlace, TextsAscend, found};

use crate::exports::Name;
use crate::key::Target;
use crate::name_order::{add_place, in_order};
use crate::text_map::TextMap;
use crate::text_run::position;
use std::alloc::{AllocError, Allocator};

/// What each of some strings exports, once it was added, by the string.
///
/// Strings that are to come are sorted once, so that each is then found where it was put, without a search: n strings take n log n
/// comparisons of up to 255 bytes, most of which are of the first 8.
#[derive(Drop)]
pub(crate) struct TextSlots<'a, A: Allocator> {
    /// Each string once, in order, with what was added for it.
    slots: Vec<(&'a [u8], Option<Option<Target<'a>>>), A>,
    /// Where the strings are, in the order in which they come. It serves as a guess, which is tested.
    places: Vec<usize, A>,
    /// How many strings came.
    came: usize,
    ghost ascending: { TextsAscend slots.items },
}

/// Whether a string is at a place.
fn is_at<'a>(slots: &[(&[u8], Option<Option<Target<'a>>>)], place: usize, text: &[u8]) -> bool
    ensures within { IsTrue result → place < length slots.now }
    ensures same { IsTrue result → (slot : Bor (List ℕ) × Option (Option Target)) → bytes_eq text.now (slice_index_or slots.now place slot).0.now ≡ true }
{
    match slots.get(place) {
        Some(slot) => text == slot.0,
        None => false,
    }
}

impl<'a, A: Allocator + Copy> TextSlots<'a, A> {
    ghost use Rattle.pe_tables.specs.TextSlots.{AreSlotsOf, Fills};

    /// No places. Allocates nothing.
    pub fn new(alloc: A) -> TextSlots<'a, A>
        ensures { result.slots.items ≡ [] }
    {
        TextSlots {
            slots: Vec::new(alloc),
            places: Vec::new(alloc),
            came: 0,
        }
    }

    /// Whether there are no places.
    pub fn is_empty(&self) -> bool
        ensures { IsTrue result → self.now.slots.items ≡ [] }
    {
        self.slots.is_empty()
    }

    /// Places for the names of less than a block, each with what a map has for it.
    pub fn for_names(
        alloc: A,
        map: &TextMap<'a, A>,
        names: &[Name<'a>],
    ) -> Result<TextSlots<'a, A>, AllocError>
        ensures { IfOk result (λ slots. AreSlotsOf map.now slots) }
    {
        let order = in_order(alloc, names)?;
        let mut slots = Vec::with_capacity(alloc, order.len())?;
        let mut places = vec![in alloc; 0; order.len()]?;
        for upcoming in &order {
            add_place(&mut slots, map, upcoming.text)?;
            if let Some(place) = places.get_mut(upcoming.index) {
                *place = slots.len().saturating_sub(1);
            }
        }
        Ok(TextSlots {
            slots,
            places,
            came: 0,
        })
    }

    /// What was added for a string, if it has a place.
    #[inline]
    pub fn get(&self, text: &[u8]) -> Option<Option<Option<Target<'a>>>>
        ensures { result ≡ found text.now self.now.slots.items }
    {
        if self.slots.is_empty() {
            return None;
        }
        match position(self.slots.as_slice(), text) {
            Some(place) => Some(self.slots[place].1),
            None => None,
        }
    }

    /// The place of the string that comes next, if it has one.
    fn next_place(&mut self, text: &[u8]) -> Option<usize>
        ensures same { self.new.slots ≡ self.old.slots }
        ensures place { IsPlace text.now self.old.slots.items result }
    {
        let guess = self.places.get(self.came).copied().unwrap_or(0);
        self.came = self.came.wrapping_add(1);
        if is_at(self.slots.as_slice(), guess, text) {
            return Some(guess);
        }
        position(self.slots.as_slice(), text)
    }

    /// Adds the string that comes next, unless it was added before, and returns whether it is new, or `None` if it has no place.
    #[inline]
    pub fn add(&mut self, text: &[u8], target: Option<Target<'a>>) -> Option<bool>
        ensures { Fills text.now target.entry self.old self.new result }
    {
        if self.slots.is_empty() {
            return None;
        }
        let place = self.next_place(text)?;
        if self.slots[place].1.is_some() {
            return Some(false);
        }
        self.slots[place].1 = Some(target);
        Some(true)
    }
}
