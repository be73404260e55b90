//! The page of an archive.

ghost use Rattle.std.specs.Prelude.{◌≡◌, ◌<◌, length, IfOk, OnErr};
ghost use Rattle.pe_text.specs.TextWriter.{IsReady};
ghost use Rattle.pe_page.specs.Page.{AddsSome};
ghost use Rattle.coff_archive_page.specs.ArchiveJudged.{archive_outcome};

use crate::fault_rows::write_refusal;
use crate::finding_rows::write_findings;
use crate::member_rows::write_members;
use crate::shown_archive::{ShownArchive, read_shown};
use crate::symbol_rows::write_symbols;
use coff_archive::open_archive;
use coff_lines::outcome_by;
use pe_page::Cell::{self, Plain};
use pe_page::{Kind, Page, write_cells, write_title};
use pe_text::Part::Text;
use pe_text::{Outcome, Sink, TextWriter};
use std::alloc::{AllocError, Allocator};

/// What an archive is.
fn archive_kind(is_thin: bool) -> Kind {
    let words: &[u8] = if is_thin {
        b"thin archive, "
    } else {
        b"archive, "
    };
    [Text(words), Text(b""), Text(b""), Text(b"")]
}

/// Adds the rows of how many members and symbols an archive has.
fn write_counts<W: Sink>(text: &mut TextWriter<W>, members: usize, symbols: usize)
    requires { IsReady W.failures text.old }
    ensures { AddsSome W.taken W.failures text.old text.new }
{
    write_cells(
        text,
        &[
            Plain(Text(b"\n  Members      ")),
            Cell::Count(members as u64),
            Plain(Text(b"\n  Symbols      ")),
            Cell::Count(symbols as u64),
            Plain(Text(b"\n")),
        ],
    );
}

/// Adds the page of an archive.
fn write_archive<A: Allocator, W: Sink>(
    text: &mut TextWriter<W>,
    page: &Page,
    outcome: Outcome,
    shown: &ShownArchive<A>,
    file: &[u8],
)
    requires { IsReady W.failures text.old }
    ensures { AddsSome W.taken W.failures text.old text.new }
{
    let options = page.options;
    let members = shown.checked.members.as_slice();
    let symbols = shown.symbols.as_slice();
    write_title(
        text,
        page,
        outcome,
        archive_kind(shown.is_thin),
        file.len() as u64,
    );
    write_counts(text, members.len(), shown.symbol_count);
    write_members(text, options, members, &shown.names);
    write_symbols(text, options, members, &shown.names, symbols);
    write_findings(text, options, shown.findings.as_slice(), members);
    write_refusal(text, options, outcome, file);
}

/// Adds the page of a file that is no archive.
fn write_refused<W: Sink>(text: &mut TextWriter<W>, page: &Page, outcome: Outcome, file: &[u8])
    requires { IsReady W.failures text.old }
    ensures { AddsSome W.taken W.failures text.old text.new }
{
    write_title(text, page, outcome, [Text(b""); 4], file.len() as u64);
    write_refusal(text, page.options, outcome, file);
}

/// Checks an archive's file, and adds its page. It allocates only before it adds the first byte.
pub(crate) fn show_file<A: Allocator + Copy, W: Sink>(
    alloc: A,
    page: &Page,
    text: &mut TextWriter<W>,
    file: &[u8],
) -> Result<Outcome, AllocError>
    requires { IsReady W.failures text.old }
    ensures judged { IfOk result (λ outcome. outcome ≡ archive_outcome file.now) }
    ensures adds { IfOk result (λ _. AddsSome W.taken W.failures text.old text.new) }
    ensures same { text.new.writer.ghost_name ≡ text.old.writer.ghost_name }
    ensures adds_none { OnErr result (text.new ≡ text.old) }
    ensures reads { OnErr result (0 < length file.now) }
{
    match open_archive(file) {
        Ok(archive) => {
            let shown = read_shown(alloc, &archive, page.options)?;
            let outcome = outcome_by(shown.checked.fault);
            write_archive(text, page, outcome, &shown, file);
            Ok(outcome)
        }
        Err(fault) => {
            let outcome = Outcome::Refused(fault);
            write_refused(text, page, outcome, file);
            Ok(outcome)
        }
    }
}
