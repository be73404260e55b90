//! The symbols of an archive's linker member, by the members that they name.

ghost use Rattle.std.specs.Prelude.{◌<◌, ◌≤◌, length};
ghost use Rattle.pe_text.specs.TextWriter.{IsReady};
ghost use Rattle.pe_page.specs.Page.{AddsSome};

use crate::member_rows::{name_cell, number_width};
use crate::member_symbols::MemberSymbol;
use crate::members::ShownMember;
use coff_archive::MemberNames;
use pe_page::Cell::{self, Plain};
use pe_page::{blanks, write_cells, write_heading, write_name};
use pe_text::Part::Text;
use pe_text::{ShowOptions, Sink, TextWriter};
use std::alloc::Allocator;

/// Whether two symbols name one member.
fn same_member(symbol: &MemberSymbol, other: &MemberSymbol) -> bool {
    symbol.member == other.member
}

/// How many symbols from the first on name the same member.
fn group_len(symbols: &[MemberSymbol]) -> usize
    ensures some { 0 < length symbols.now → 0 < result }
    ensures within { result ≤ length symbols.now }
{
    let len = match symbols.chunk_by(same_member).next() {
        Some(group) => group.len(),
        None => 0,
    };
    len.max(1).min(symbols.len())
}

/// Adds the row of a member, with its number and how many symbols name it; or the row of those that name none.
fn write_group_head<'a, A: Allocator, W: Sink>(
    text: &mut TextWriter<W>,
    members: &[ShownMember<'a>],
    names: &MemberNames<'a, A>,
    index: usize,
    count: usize,
)
    requires { IsReady W.failures text.old }
    ensures { AddsSome W.taken W.failures text.old text.new }
{
    let width = number_width(members.len());
    let (number, name) = match members.get(index) {
        Some(shown) => (
            Cell::Right(index.saturating_add(1) as u64, width),
            name_cell(names.name(shown.member)),
        ),
        None => (Cell::Blanks(width), Plain(Text(b"no member"))),
    };
    write_cells(
        text,
        &[
            number,
            Plain(Text(b"  ")),
            name,
            Plain(Text(b" (")),
            Cell::Count(count as u64),
            Plain(Text(b")\n")),
        ],
    );
}

/// Adds a row for each symbol, behind so many blanks. After a failed write there are no more.
fn write_names<W: Sink>(text: &mut TextWriter<W>, column: usize, symbols: &[MemberSymbol])
    requires { IsReady W.failures text.old }
    ensures { AddsSome W.taken W.failures text.old text.new }
{
    for symbol in symbols {
        if text.has_failed() {
            return;
        }
        text.text(blanks(column));
        write_name(text, symbol.name);
        text.text(b"\n");
    }
}

/// Adds the symbols that name one member, or none, under its row.
fn write_group<'a, A: Allocator, W: Sink>(
    text: &mut TextWriter<W>,
    members: &[ShownMember<'a>],
    names: &MemberNames<'a, A>,
    symbols: &[MemberSymbol],
)
    requires { IsReady W.failures text.old }
    ensures { AddsSome W.taken W.failures text.old text.new }
{
    let index = match symbols.first() {
        Some(symbol) => symbol.member,
        None => members.len(),
    };
    write_group_head(text, members, names, index, symbols.len());
    let column = number_width(members.len()).saturating_add(4);
    write_names(text, column, symbols);
}

/// Adds the symbols under their members, in the order of the members and in that of the linker member, and those that name no member
/// last; if the options select them. After a failed write there are no more.
pub(crate) fn write_symbols<'a, A: Allocator, W: Sink>(
    text: &mut TextWriter<W>,
    options: &ShowOptions,
    members: &[ShownMember<'a>],
    names: &MemberNames<'a, A>,
    symbols: &[MemberSymbol],
)
    requires { IsReady W.failures text.old }
    ensures { AddsSome W.taken W.failures text.old text.new }
{
    if !options.symbols {
        return;
    }
    write_heading(text, options, b"Symbols", symbols.len());
    let mut at = 0;
    while at < symbols.len() {
        if text.has_failed() {
            return;
        }
        let len = group_len(&symbols[at..]);
        write_group(text, members, names, &symbols[at..at + len]);
        at += len;
    }
}
