//! Sets of one file under many names.

use crate::edits::edited_file;
use crate::spaces::commands::print_answers;
use pe_space::Policy;
use pe_vectors::members::{names_of, repeated};
use std::rt::Files;

/// Prints the first error of a set of one file under many names, or the replies to commands. The words are the number of names,
/// the index of the name that another repeats, and the index of that other; then `for` and the file, and `:` and the commands.
pub(crate) fn print_many<R: Files + Print + AllocGlobal>(rt: &R, words: &str) -> Option<()> {
    let (numbers, words) = words.split_once(" for ")?;
    let (name, words) = words.split_once(" : ")?;
    let (count, repeat) = numbers.split_once(" ")?;
    let (from, to) = repeat.split_once(" ")?;
    let names = names_of(rt.alloc(), usize::from_str_radix(count, 10).ok()?).ok()?;
    let file = edited_file(rt, name)?;
    let mut set = repeated(rt.alloc(), &names, &file).ok()?;
    let name_again = set.get(usize::from_str_radix(from, 10).ok()?)?.name;
    set.get_mut(usize::from_str_radix(to, 10).ok()?)?.name = name_again;
    let mut commands = Vec::new(rt.alloc());
    for word in words.split(" ") {
        commands.push(word).ok()?;
    }
    print_answers(rt, &set, Policy::Strict, &commands)
}
