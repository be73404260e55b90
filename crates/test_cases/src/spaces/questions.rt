//! What the cases compare of both spaces of a set without a fault.

use crate::sets::{SetCase, read_set, set_of};
use crate::spaces::both::{Both, opened};
use crate::spaces::commands::print_buffer;
use crate::spaces::moves::{print_random, print_returned};
use crate::spaces::windows::{print_edge, print_whole};
use pe_space::{Binding, Policy, SetEntry, Space};
use std::rt::Files;

/// What to compare.
#[derive(Clone, Copy)]
pub(crate) enum Question {
    /// The bindings, which must be equal.
    Bindings,
    /// The base and the size of each image.
    Whole,
    /// The number of random steps with equal results.
    Random,
    /// The buffer of the window of each word.
    Buffers,
    /// The number of equal windows around the address of each word.
    Edges,
    /// Whether the move of each word, and the one back, restore every byte.
    Returns,
}

/// Prints bindings.
fn print_each<R: Print>(rt: &R, bindings: &[Binding]) -> Option<()> {
    for binding in bindings {
        println!(rt; "{binding:?}").ok()?;
    }
    Some(())
}

/// Prints the bindings of both spaces, if they are equal.
fn print_bindings<R: Print>(rt: &R, both: &Both) -> Option<()> {
    if *both.mapped.bindings() != *both.filed.bindings() {
        return None;
    }
    print_each(rt, both.mapped.bindings())
}

/// Compares both spaces as a word says.
fn ask_word<R: Print + AllocGlobal>(
    rt: &R,
    question: Question,
    both: &mut Both,
    word: &str,
) -> Option<()> {
    match question {
        Question::Buffers => print_buffer(rt, both, word),
        Question::Edges => print_edge(rt, both, word),
        _ => print_returned(rt, both, word),
    }
}

/// Compares both spaces as each word says.
fn ask_words<R: Print + AllocGlobal>(
    rt: &R,
    question: Question,
    both: &mut Both,
    words: &[&str],
) -> Option<()> {
    for word in words {
        ask_word(rt, question, both, word)?;
    }
    Some(())
}

/// Compares both spaces.
fn ask<R: Print + AllocGlobal>(
    rt: &R,
    question: Question,
    both: &mut Both,
    words: &[&str],
) -> Option<()> {
    match question {
        Question::Bindings => print_bindings(rt, both),
        Question::Whole => print_whole(rt, both),
        Question::Random => print_random(rt, both),
        _ => ask_words(rt, question, both, words),
    }
}

/// Compares both spaces of a set.
fn ask_set<R: Print + AllocGlobal>(
    rt: &R,
    question: Question,
    set: &[SetEntry],
    policy: Policy,
    words: &[&str],
) -> Option<()> {
    let mut both = opened(rt.alloc(), set, policy)?;
    ask(rt, question, &mut both, words)
}

/// Compares both spaces of the set of a case.
fn ask_case<R: Print + AllocGlobal>(rt: &R, question: Question, case: &SetCase) -> Option<()> {
    let set = set_of(rt.alloc(), &case.members)?;
    ask_set(rt, question, &set, case.policy, &case.others)
}

/// Compares both spaces of the set in the words, with the other words.
pub(crate) fn print_question<R: Files + Print + AllocGlobal>(
    rt: &R,
    question: Question,
    words: &str,
) -> Option<()> {
    let case = read_set(rt, words)?;
    ask_case(rt, question, &case)
}
