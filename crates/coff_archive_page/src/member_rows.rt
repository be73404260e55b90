//! The members of an archive, a row each.

ghost use Rattle.pe_text.specs.TextWriter.{IsReady};
ghost use Rattle.pe_page.specs.Page.{AddsSome};

use crate::contents::Contents;
use crate::fault_rows::write_contents_fault;
use crate::machine_cells::{machine_cells, machine_width};
use crate::members::ShownMember;
use coff_archive::{Import, MemberNames};
use pe_page::Cell::{self, Plain};
use pe_page::{decimal_width, write_cells, write_heading};
use pe_text::Part::{Decimal, Hex8, Text};
use pe_text::{ShowOptions, Sink, TextWriter};
use std::alloc::Allocator;

/// The widths of the columns of members.
#[derive(Clone, Copy)]
struct Widths {
    number: usize,
    size: usize,
    kind: usize,
    machine: usize,
}

/// The width of the column of the numbers of so many members.
pub(crate) fn number_width(count: usize) -> usize {
    decimal_width(count as u64).max(4)
}

/// The widths of the columns of these members.
fn widths_of(members: &[ShownMember]) -> Widths {
    let mut widths = Widths {
        number: number_width(members.len()),
        size: 6,
        kind: 4,
        machine: 0,
    };
    for shown in members {
        let contents = shown.contents;
        widths.size = widths.size.max(decimal_width(shown.member.size));
        widths.kind = widths.kind.max(contents.words().len());
        widths.machine = widths.machine.max(machine_width(contents.machine()));
    }
    widths
}

/// The name of a member, or that it has none.
pub(crate) fn name_cell(name: Option<&[u8]>) -> Cell<'_> {
    match name {
        Some(name) => Cell::Name(name),
        None => Plain(Text(b"(no name)")),
    }
}

/// Adds what an import object imports: a name or an ordinal, and the DLL.
fn write_import<W: Sink>(text: &mut TextWriter<W>, import: &Import)
    requires { IsReady W.failures text.old }
    ensures { AddsSome W.taken W.failures text.old text.new }
{
    let [first, second] = match import.import_name() {
        Some(name) => [Plain(Text(b"  ")), Cell::Name(name)],
        None => [
            Plain(Text(b"  ordinal ")),
            Plain(Decimal(u64::from(import.ordinal))),
        ],
    };
    write_cells(
        text,
        &[
            first,
            second,
            Plain(Text(b" from ")),
            Cell::Module(import.module),
        ],
    );
}

/// Adds what a member imports, if it is an import object.
fn write_imported<W: Sink>(text: &mut TextWriter<W>, contents: Contents)
    requires { IsReady W.failures text.old }
    ensures { AddsSome W.taken W.failures text.old text.new }
{
    if let Contents::Import(import) = contents {
        write_import(text, &import);
    }
}

/// Adds the columns of a member before what it imports.
fn write_columns<W: Sink>(
    text: &mut TextWriter<W>,
    widths: &Widths,
    number: usize,
    shown: &ShownMember,
    name: Option<&[u8]>,
)
    requires { IsReady W.failures text.old }
    ensures { AddsSome W.taken W.failures text.old text.new }
{
    let [machine, digits, blanks] = machine_cells(shown.contents.machine(), widths.machine);
    write_cells(
        text,
        &[
            Cell::Right(number as u64, widths.number),
            Plain(Text(b"  0x")),
            Plain(Hex8(shown.member.offset)),
            Plain(Text(b"  ")),
            Cell::Right(shown.member.size, widths.size),
            Plain(Text(b"  ")),
            Cell::Column(shown.contents.words(), widths.kind),
            Plain(Text(b"  ")),
            machine,
            digits,
            blanks,
            name_cell(name),
        ],
    );
}

/// Adds the row of a member, and below it why it is no object.
fn write_member<W: Sink>(
    text: &mut TextWriter<W>,
    widths: &Widths,
    number: usize,
    shown: &ShownMember,
    name: Option<&[u8]>,
)
    requires { IsReady W.failures text.old }
    ensures { AddsSome W.taken W.failures text.old text.new }
{
    write_columns(text, widths, number, shown, name);
    write_imported(text, shown.contents);
    text.text(b"\n");
    let column = widths.number.saturating_add(2);
    write_contents_fault(
        text,
        column,
        shown.member.contents(),
        shown.contents.fault(),
    );
}

/// Adds a row for each member, with its number, which counts from 1. After a failed write there are no more.
pub(crate) fn write_members<'a, A: Allocator, W: Sink>(
    text: &mut TextWriter<W>,
    options: &ShowOptions,
    members: &[ShownMember<'a>],
    names: &MemberNames<'a, A>,
)
    requires { IsReady W.failures text.old }
    ensures { AddsSome W.taken W.failures text.old text.new }
{
    let widths = widths_of(members);
    write_heading(text, options, b"Members", members.len());
    let mut number: usize = 0;
    for shown in members {
        if text.has_failed() {
            return;
        }
        number = number.saturating_add(1);
        write_member(text, &widths, number, shown, names.name(shown.member));
    }
}
