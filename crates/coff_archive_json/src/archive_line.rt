//! The archive's own line: its first fault, its kind, and its symbols.

ghost use Rattle.std.specs.Prelude.{◌≡◌, option_map};
ghost use Rattle.coff_archive.specs.ArchiveFile.{file_of, is_thin};
ghost use Rattle.pe_json.specs.Listed.{more};
ghost use Rattle.pe_text.specs.TextWriter.{IsReady, Adds};
ghost use Rattle.coff_archive_json.specs.ArchiveLine.{format_members, archive_members, archive_line};
ghost use Rattle.coff_archive_json.specs.Line.{alone, verdict};

use crate::line::{begin, write_verdict};
use crate::symbols::write_symbols_if;
use coff_archive::{Archive, Linker};
use pe_text::{Sink, TextWriter};
use pe_view::Fault;

/// The member that says which kind of archive it is.
fn format_member(thin: bool) -> &'static [u8]
    ensures { result.now ≡ more (format_members thin) }
{
    if thin {
        b",\"format\":\"thin archive\""
    } else {
        b",\"format\":\"archive\""
    }
}

/// Adds the kind of an archive, and the symbols of its linker members.
fn write_members<W: Sink>(text: &mut TextWriter<W>, archive: &Archive)
    requires { IsReady W.failures text.old }
    ensures { Adds W.taken W.failures text.old text.new (more (archive_members (is_thin archive.now) (file_of archive.now))) }
{
    text.text(format_member(archive.is_thin()));
    write_symbols_if(
        text,
        b",\"first_linker_member\":[",
        archive.symbols(Linker::First),
    );
    write_symbols_if(
        text,
        b",\"second_linker_member\":[",
        archive.symbols(Linker::Second),
    );
}

/// Adds the line of an archive whose members have this first fault, or none.
pub(crate) fn write_archive_line<W: Sink>(
    text: &mut TextWriter<W>,
    name: &[u8],
    archive: &Archive,
    fault: &Option<Fault>,
)
    requires { IsReady W.failures text.old }
    ensures { Adds W.taken W.failures text.old text.new (archive_line name.now (is_thin archive.now) (file_of archive.now) fault.now) }
{
    begin(text, name);
    write_verdict(text, fault);
    write_members(text, archive);
    text.text(b"}");
    text.text(b"\n");
}
