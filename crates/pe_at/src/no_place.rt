//! `NoPlace`: what is said of a spot that has no place.

ghost use Rattle.pe_text.specs.TextWriter.{IsReady};
ghost use Rattle.pe_page.specs.Page.{AddsSome};

use arrayvec::ArrayVec;
use pe_text::Part::{Decimal, Hex, Text};
use pe_text::{Sink, TextWriter, write_parts};

/// How many sections of one name are told by their numbers; an object may have more than 65,535 of them.
const TOLD: usize = 16;

/// The sections that a name is that of.
#[derive(Drop)]
pub(crate) struct SameName {
    /// The numbers of the first of them.
    numbers: ArrayVec<usize, TOLD>,
    /// How many come after these.
    more: usize,
}

impl SameName {
    /// No section.
    pub fn new() -> SameName {
        SameName {
            numbers: ArrayVec::new(),
            more: 0,
        }
    }

    /// Adds the section with a number.
    pub fn add(&mut self, number: usize) {
        if self.numbers.try_push(number).is_err() {
            self.more = self.more.saturating_add(1);
        }
    }

    /// Whether they are two or more.
    pub fn are_several(&self) -> bool {
        self.numbers.len() > 1
    }
}

/// What is said of a spot that has no place.
#[derive(Drop)]
pub(crate) enum NoPlace {
    /// These words.
    Words(&'static [u8]),
    /// At this offset: several sections have the name.
    Several(SameName, u32),
}

/// What comes before the number at an index, of `count` numbers and `more` that are not told.
fn before_number(index: usize, count: usize, more: usize) -> &'static [u8] {
    if index == 0 {
        b"sections "
    } else if more == 0 && index.saturating_add(1) == count {
        b" and "
    } else {
        b", "
    }
}

/// Adds the numbers of sections.
fn write_numbers<W: Sink>(text: &mut TextWriter<W>, numbers: &[usize], more: usize)
    requires { IsReady W.failures text.old }
    ensures { AddsSome W.taken W.failures text.old text.new }
{
    for (index, number) in numbers.iter().enumerate() {
        let before = before_number(index, numbers.len(), more);
        write_parts(text, &[Text(before), Decimal(*number as u64)]);
    }
}

/// Adds how many sections more have the name, if there are some.
fn write_more<W: Sink>(text: &mut TextWriter<W>, more: usize)
    requires { IsReady W.failures text.old }
    ensures { AddsSome W.taken W.failures text.old text.new }
{
    if more > 0 {
        write_parts(
            text,
            &[Text(b" and "), Decimal(more as u64), Text(b" more")],
        );
    }
}

/// Adds the line of the sections that have one name, and how the place at this offset of the first of them is named:
/// `sections 1 and 4 have this name: 1+2 is the place in the first`.
fn write_several<W: Sink>(text: &mut TextWriter<W>, same: &SameName, offset: u32)
    requires { IsReady W.failures text.old }
    ensures { AddsSome W.taken W.failures text.old text.new }
{
    let numbers = same.numbers.as_slice();
    let first = numbers.first().copied().unwrap_or(0);
    write_numbers(text, numbers, same.more);
    write_more(text, same.more);
    write_parts(
        text,
        &[
            Text(b" have this name: "),
            Decimal(first as u64),
            Text(b"+"),
            Hex(u64::from(offset), 1),
            Text(b" is the place in the first\n"),
        ],
    );
}

impl NoPlace {
    /// Adds the line of it.
    pub fn write<W: Sink>(&self, text: &mut TextWriter<W>)
        requires { IsReady W.failures text.old }
        ensures { AddsSome W.taken W.failures text.old text.new }
    {
        match self {
            NoPlace::Words(words) => text.text(words),
            NoPlace::Several(same, offset) => write_several(text, same, *offset),
        }
    }
}
