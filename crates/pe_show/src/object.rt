//! The page of a COFF object.

ghost use Rattle.std.specs.Prelude.{◌≡◌, ◌<◌, length, IfOk, OnErr};
ghost use Rattle.coff_read.specs.EitherObject.{form_in, form_of};
ghost use Rattle.coff_read.specs.FormFaults.{object_tests};
ghost use Rattle.pe_text.specs.TextWriter.{IsReady};
ghost use Rattle.pe_page.specs.Page.{AddsSome};
ghost use Rattle.pe_text.specs.Outcome.{IsOutcomeOf};
ghost use Rattle.pe_show.specs.Words.{object_text};

use crate::fault::write_refusal;
use crate::header_rows::{kind_of, write_flag_row, write_stamp};
use crate::object_sections::{write_relocations, write_sections};
use crate::symbols::write_symbols;
use coff_read::{EitherObject, FileSection};
use pe_head::FlagKind;
use pe_page::Cell::{self, Plain};
use pe_page::{Page, SymbolNames, read_sections, write_cells, write_title};
use pe_reach::ViewFile;
use pe_text::Part::Text;
use pe_text::{Outcome, Sink, TextWriter};
use std::alloc::{AllocError, Allocator};

/// Adds the rows of an object's header.
fn write_header<W: Sink>(text: &mut TextWriter<W>, page: &Page, object: &EitherObject)
    requires { IsReady W.failures text.old }
    ensures { AddsSome W.taken W.failures text.old text.new }
{
    write_stamp(text, object.time_stamp(), false);
    write_flag_row(
        text,
        page,
        b"  Flags       ",
        FlagKind::File,
        object.characteristics(),
    );
    write_cells(
        text,
        &[
            Plain(Text(b"  Symbols      ")),
            Cell::Count(object.symbol_count() as u64),
            Plain(Text(b"\n")),
        ],
    );
}

/// What an object is, before the machine that it is for.
fn kind_words(object: &EitherObject) -> &'static [u8]
    ensures { result.now ≡ object_text (form_of object.now) }
{
    if object.is_big() {
        b"/bigobj object for "
    } else {
        b"COFF object for "
    }
}

/// Adds the page of an accepted object.
fn write_object<A: Allocator + Copy, W: Sink>(
    alloc: A,
    text: &mut TextWriter<W>,
    page: &Page,
    object: &EitherObject,
    sections: &[FileSection],
    names: &SymbolNames<A>,
    len: u64,
)
    requires { IsReady W.failures text.old }
    ensures { AddsSome W.taken W.failures text.old text.new }
{
    let machine = object.machine();
    let kind = kind_of(kind_words(object), machine);
    write_title(text, page, Outcome::Done, kind, len);
    write_header(text, page, object);
    write_sections(text, page, sections);
    write_relocations(text, page.options, object, sections, names);
    write_symbols(alloc, text, page.options, object, sections);
}

/// Adds the page of a refused object.
pub(crate) fn write_refused<W: Sink>(
    text: &mut TextWriter<W>,
    page: &Page,
    outcome: Outcome,
    file: ViewFile,
)
    requires { IsReady W.failures text.old }
    ensures { AddsSome W.taken W.failures text.old text.new }
{
    let kind = [Text(b"COFF object, "), Text(b""), Text(b""), Text(b"")];
    write_title(text, page, outcome, kind, file.len());
    write_refusal(text, page.options, outcome, file);
}

/// Checks an object's file, and adds its page. It returns out of memory only before it adds the first byte; an allocation that
/// fails later only costs time.
pub(crate) fn show_object<A: Allocator + Copy, W: Sink>(
    alloc: A,
    page: &Page,
    text: &mut TextWriter<W>,
    file: &[u8],
) -> Result<Outcome, AllocError>
    requires { IsReady W.failures text.old }
    ensures judged { IfOk result (IsOutcomeOf (object_tests (form_in file.now) file.now)) }
    ensures adds { IfOk result (λ _. AddsSome W.taken W.failures text.old text.new) }
    ensures same { text.new.writer.ghost_name ≡ text.old.writer.ghost_name }
    ensures adds_none { OnErr result (text.new ≡ text.old) }
    ensures reads { OnErr result (0 < length file.now) }
{
    let len = file.len() as u64;
    match EitherObject::new(file) {
        Ok(object) => {
            let sections = read_sections(alloc, &object)?;
            let names = SymbolNames::new(alloc, &object, page.options.relocations)?;
            write_object(alloc, text, page, &object, &sections, &names, len);
            Ok(Outcome::Done)
        }
        Err(fault) => {
            let outcome = Outcome::Refused(fault);
            write_refused(text, page, outcome, ViewFile::whole(file));
            Ok(outcome)
        }
    }
}
