//! The cases of sets in both kinds of space, and in a slow checker that shares no code with them: the result, if all agree.
//!
//! `space` and the words of a set print its fault, or the replies to commands in order: `byte:ADDRESS`, `window:ADDRESS:COUNT`,
//! `move:IMAGE:BASE`, `base:IMAGE`. `buffer` prints a buffer of four bytes after such a window, `binds` the bindings; `many` and
//! two numbers check a set of a file under many names, one of which repeats another. `whole`, `edges`, `random` and `return`
//! compare the two spaces of a set window by window, and after moves. `cut` and `changed` and a base check a file truncated to
//! each length, and with each byte of a range as 0 and as 255; `slow` runs the slow checker only.

mod both;
mod commands;
mod damaged;
mod many;
mod moves;
mod questions;
mod windows;

use crate::spaces::commands::print_replies;
use crate::spaces::damaged::{print_changed, print_cut, print_slow};
use crate::spaces::many::print_many;
use crate::spaces::questions::{Question, print_question};
use std::rt::Files;

/// Runs a case of a set, or returns `None` if the line is not one or not all agree.
pub(crate) fn run_space<R: Files + Print + AllocGlobal>(
    rt: &R,
    kind: &str,
    rest: &str,
) -> Option<()> {
    match kind {
        "space" => print_replies(rt, rest),
        "buffer" => print_question(rt, Question::Buffers, rest),
        "binds" => print_question(rt, Question::Bindings, rest),
        "whole" => print_question(rt, Question::Whole, rest),
        "edges" => print_question(rt, Question::Edges, rest),
        "random" => print_question(rt, Question::Random, rest),
        "return" => print_question(rt, Question::Returns, rest),
        _ => run_damaged(rt, kind, rest),
    }
}

/// Runs a case of many files.
fn run_damaged<R: Files + Print + AllocGlobal>(rt: &R, kind: &str, rest: &str) -> Option<()> {
    match kind {
        "many" => print_many(rt, rest),
        "cut" => print_cut(rt, rest),
        "changed" => print_changed(rt, rest),
        "slow" => print_slow(rt, rest),
        _ => None,
    }
}
