//! Runs the cases in the files `words` and `sets`, and prints the result of each, which must equal the stored output.
//!
//! Each line is a case: a word for its kind, and then its arguments. Those of `words` are faults in words and command lines; those
//! of `sets` run on a set, with both kinds of space and with the slow checker. Empty lines and lines that begin with `#` are
//! comments. What the program petool prints for files and sets is tested by `bindings/python`.
//!
//! A word `len=400` truncates a file, or pads it with zeros, to 0x400 bytes, and a word `0x3c=ffffffff` writes bytes over it. A
//! word `10000000=a.dll=v1.dll` puts the file `v1.dll` into a set, as the module `a.dll` at a base; the changes after it are to
//! that file. For many equal bytes, `6d*70000` repeats one byte, and `*70000.dll` is a name of that many letters `m` and the
//! ending.
#![tactic(auto)]

mod edits;
mod fault_line;
mod numbers;
mod sets;
mod spaces;
mod words;

use crate::spaces::run_space;
use crate::words::run_words;
use std::rt::Files;
use std::{fs, io};

/// The files that list the cases.
const LISTS: [&str; 2] = ["words", "sets"];

/// Runs the case of a line, and reports if it cannot be run.
fn run_case<R: Files + Print + AllocGlobal>(rt: &R, list: &str, line: &str) -> io::Result<()> {
    if line.is_empty() || line.starts_with("#") {
        return Ok(());
    }
    println!(rt; "== {line}")?;
    let (kind, rest) = line.split_once(" ").unwrap_or((line, ""));
    let done = match list {
        "sets" => run_space(rt, kind, rest),
        _ => run_words(rt, kind, rest),
    };
    match done {
        Some(()) => Ok(()),
        None => println!(rt; "not run, or not agreed"),
    }
}

/// Runs the cases of a list.
fn run_list<R: Files + Print + AllocGlobal>(rt: &R, list: &str) -> io::Result<()> {
    let cases = fs::read_to_string(rt, list)?;
    for line in cases.lines() {
        run_case(rt, list, line)?;
    }
    Ok(())
}

fn main(rt: HostRuntime) -> io::Result<()> {
    for list in LISTS {
        run_list(&rt, list)?;
    }
    Ok(())
}
