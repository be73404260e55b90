//! The names of an export table in the order of their bytes.

ghost use Rattle.pe_tables.specs.TextMap.{TextsAscend};
ghost use Rattle.pe_tables.specs.TextSlots.{HoldAs};

use crate::exports::Name;
use crate::key::Target;
use crate::long_texts::BLOCK;
use crate::text_map::TextMap;
use crate::text_run::all_before;
use std::alloc::{AllocError, Allocator};
use std::cmp::Ordering;

/// A string that is to come.
#[derive(Clone, Copy)]
pub(crate) struct Upcoming<'a> {
    /// Its first 8 bytes as a number that is ordered as they are.
    start: u64,
    pub text: &'a [u8],
    /// How many strings come before it.
    pub index: usize,
}

/// The first 8 bytes of a string as a number that is ordered as they are; a shorter string is followed by zeros.
fn start_of(text: &[u8]) -> u64 {
    let mut bytes = [0; 8];
    for (byte, of_text) in bytes.iter_mut().zip(text) {
        *byte = *of_text;
    }
    u64::from_be_bytes(bytes)
}

/// The order of two strings. Most differ in their first 8 bytes.
fn compared(one: &Upcoming, other: &Upcoming) -> Ordering {
    match one.start.cmp(&other.start) {
        Ordering::Equal => one.text.cmp(other.text),
        order => order,
    }
}

/// The names of less than a block, in order.
pub(crate) fn in_order<'a, A: Allocator>(
    alloc: A,
    names: &[Name<'a>],
) -> Result<Vec<Upcoming<'a>, A>, AllocError> {
    let mut order = Vec::with_capacity(alloc, names.len())?;
    for name in names {
        let text = name.text.bytes;
        if text.len() < BLOCK {
            let index = order.len();
            order.push(Upcoming {
                start: start_of(text),
                text,
                index,
            })?;
        }
    }
    order.sort_unstable_by(|one, other| compared(one, other));
    Ok(order)
}

/// Adds a place for a string that comes after those that have one, with what a map has for the string.
pub(crate) fn add_place<'a, A: Allocator + Copy>(
    slots: &mut Vec<(&'a [u8], Option<Option<Target<'a>>>), A>,
    map: &TextMap<'a, A>,
    text: &'a [u8],
) -> Result<(), AllocError>
    requires ascend { TextsAscend slots.old.items }
    requires hold { HoldAs map.now slots.old.items }
    ensures ascend { TextsAscend slots.new.items }
    ensures hold { HoldAs map.now slots.new.items }
{
    if all_before(slots.as_slice(), text) {
        slots.push((text, map.get(text)))?;
    }
    Ok(())
}
