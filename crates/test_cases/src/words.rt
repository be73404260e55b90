//! The cases of words: `fault` prints a fault in words, `words` reads a command line, and `has` tests whether the message for a
//! command line contains a string.

mod command_lines;
mod faults;

use crate::words::command_lines::{print_has, print_words};
use crate::words::faults::print_fault;

/// Runs a case, or returns `None` if the line is not one.
pub(crate) fn run_words<R: Print + AllocGlobal>(rt: &R, kind: &str, rest: &str) -> Option<()> {
    match kind {
        "fault" => print_fault(rt, rest),
        "words" => print_words(rt, rest),
        "has" => print_has(rt, rest),
        _ => None,
    }
}
