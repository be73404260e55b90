//! Truncated and changed files, on which both spaces and the slow checker must agree.

use crate::edits::edited_file;
use crate::numbers::number_of;
use crate::sets::{SetCase, read_set, set_of};
use crate::spaces::both::{first_error, print_error};
use pe_space::{Policy, SetEntry};
use pe_vectors::slow_first;
use std::alloc::Global;
use std::rt::Files;

/// Whether all agree on a set of one file.
fn agree_in_file(alloc: Global, file: &[u8], base: u64) -> bool {
    let set = [SetEntry {
        name: b"s.dll",
        file,
        base,
    }];
    first_error(alloc, &set, Policy::Known).is_some()
}

/// Prints for how many lengths of a truncated file all agree. The words are the base and the file.
pub(crate) fn print_cut<R: Files + Print + AllocGlobal>(rt: &R, words: &str) -> Option<()> {
    let (base, name) = words.split_once(" ")?;
    let (base, file) = (number_of(base)?, edited_file(rt, name)?);
    let mut sets = 0_u32;
    for len in 0..file.len() {
        if agree_in_file(rt.alloc(), &file[..len], base) {
            sets = sets.saturating_add(1);
        }
    }
    println!(rt; "{sets} files are judged alike").ok()
}

/// For how many of two files all agree, in which the byte at a place is 0 and 255.
fn changes_at(alloc: Global, file: &mut Vec<u8>, base: u64, place: usize) -> Option<u32> {
    let before = *file.get(place)?;
    let mut sets = 0_u32;
    for value in [0, 255] {
        *file.get_mut(place)? = value;
        sets = sets.saturating_add(u32::from(agree_in_file(alloc, file, base)));
    }
    *file.get_mut(place)? = before;
    Some(sets)
}

/// Prints for how many changed files all agree, each with a byte of a range as 0 or as 255.
fn print_changes<R: Print + AllocGlobal>(
    rt: &R,
    file: &mut Vec<u8>,
    base: u64,
    from: u64,
    to: u64,
) -> Option<()> {
    let mut sets = 0_u32;
    for place in from..to {
        let more = changes_at(rt.alloc(), file, base, usize::try_from(place).ok()?)?;
        sets = sets.saturating_add(more);
    }
    println!(rt; "{sets} files are judged alike").ok()
}

/// Prints for how many files all agree in which a byte of a range is 0, and 255. The words are the base, the first place, the
/// place after the last, and the file.
pub(crate) fn print_changed<R: Files + Print + AllocGlobal>(rt: &R, words: &str) -> Option<()> {
    let (base, words) = words.split_once(" ")?;
    let (from, words) = words.split_once(" ")?;
    let (to, name) = words.split_once(" ")?;
    let (base, from, to) = (number_of(base)?, number_of(from)?, number_of(to)?);
    let mut file = edited_file(rt, name)?;
    print_changes(rt, &mut file, base, from, to)
}

/// Prints the result of the slow checker for a set, without the spaces.
fn print_slow_of<R: Print + AllocGlobal>(rt: &R, set: &[SetEntry], policy: Policy) -> Option<()> {
    match slow_first(rt.alloc(), set, policy).ok()? {
        Some(error) => print_error(rt, error),
        None => println!(rt; "no fault").ok(),
    }
}

/// Prints the result of the slow checker for the set of a case.
fn print_slow_case<R: Print + AllocGlobal>(rt: &R, case: &SetCase) -> Option<()> {
    let set = set_of(rt.alloc(), &case.members)?;
    print_slow_of(rt, &set, case.policy)
}

/// Prints the result of the slow checker for the set in the words.
pub(crate) fn print_slow<R: Files + Print + AllocGlobal>(rt: &R, words: &str) -> Option<()> {
    let case = read_set(rt, words)?;
    print_slow_case(rt, &case)
}
