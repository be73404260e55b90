//! The lines of an archive: its members in file order, and the archive itself.

ghost use Rattle.std.specs.Prelude.{◌≡◌};
ghost use Rattle.std.specs.List.{flat_map};
ghost use Rattle.pe_view.specs.Faults.{first_standing};
ghost use Rattle.coff_archive.specs.ArchiveFile.{file_of, is_thin};
ghost use Rattle.coff_archive.specs.Front.{names_of};
ghost use Rattle.coff_archive.specs.Members.{members};
ghost use Rattle.coff_archive.specs.MemberView.{read_view};
ghost use Rattle.coff_lines.specs.ArchiveLines.{read_tests, archive_fault};
ghost use Rattle.pe_text.specs.TextWriter.{IsReady, Adds};
ghost use Rattle.coff_archive_json.specs.ArchiveJson.{read_line, archive_lines};

use crate::archive_line::write_archive_line;
use crate::line::write_refused_line;
use crate::member_line::write_member;
use coff_archive::{Archive, Member};
use pe_text::{Sink, TextWriter};
use pe_view::Fault;

/// Adds the line of what a walk over the members reads. The result is its first fault.
fn write_read<W: Sink>(
    text: &mut TextWriter<W>,
    name: &[u8],
    archive: &Archive,
    read: Result<Member, Fault>,
) -> Option<Fault>
    requires { IsReady W.failures text.old }
    ensures fault { result ≡ first_standing (read_tests (is_thin archive.now) (names_of (is_thin archive.now) (file_of archive.now)) (read_view read.entry)) }
    ensures adds { Adds W.taken W.failures text.old text.new
        (read_line name.now (is_thin archive.now) (names_of (is_thin archive.now) (file_of archive.now)) (read_view read.entry)) }
{
    match read {
        Ok(member) => write_member(text, name, archive, member),
        Err(fault) => {
            write_refused_line(text, name, &fault);
            Some(fault)
        }
    }
}

/// Adds the lines of all members. The result is the first fault of all.
fn write_members<W: Sink>(text: &mut TextWriter<W>, name: &[u8], archive: &Archive) -> Option<Fault>
    requires { IsReady W.failures text.old }
    ensures fault { result ≡ first_standing (flat_map (read_tests (is_thin archive.now) (names_of (is_thin archive.now) (file_of archive.now))) (members (is_thin archive.now) (file_of archive.now))) }
    ensures adds { Adds W.taken W.failures text.old text.new
        (flat_map (read_line name.now (is_thin archive.now) (names_of (is_thin archive.now) (file_of archive.now))) (members (is_thin archive.now) (file_of archive.now))) }
{
    let mut first = None;
    let mut members = archive.members();
    while let Some(read) = members.next() {
        let fault = write_read(text, name, archive, read);
        first = first.or(fault);
    }
    first
}

/// Adds the lines of an archive. The result is the first fault of its members.
#[tactic(auto, unfolding(crate::specs::ArchiveJson::archive_lines, coff_lines::specs::ArchiveLines::archive_fault))]
pub(crate) fn write_archive<W: Sink>(
    text: &mut TextWriter<W>,
    name: &[u8],
    archive: &Archive,
) -> Option<Fault>
    requires { IsReady W.failures text.old }
    ensures fault { result ≡ archive_fault (is_thin archive.now) (file_of archive.now) }
    ensures adds { Adds W.taken W.failures text.old text.new (archive_lines name.now (is_thin archive.now) (file_of archive.now)) }
{
    let first = write_members(text, name, archive);
    write_archive_line(text, name, archive, &first);
    first
}
