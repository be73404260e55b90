//! The lines of an archive's dump: its members, and what each of them holds.

ghost use Rattle.std.specs.Prelude.{◌≡◌, true, Ok, option_map};
ghost use Rattle.pe_head.specs.Names.{name_in, machine_names};
ghost use Rattle.std.specs.List.{flat_map};
ghost use Rattle.pe_view.specs.Faults.{first_standing};
ghost use Rattle.coff_archive.specs.ArchiveFile.{file_of, is_thin};
ghost use Rattle.coff_archive.specs.Front.{names_of};
ghost use Rattle.coff_archive.specs.Imports.{is_import, import_tests, import_of};
ghost use Rattle.coff_archive.specs.ImportView.{import_view};
ghost use Rattle.coff_archive.specs.Members.{members};
ghost use Rattle.coff_archive.specs.MemberView.{member_view, read_view};
ghost use Rattle.coff_lines.specs.ArchiveLines.{lines_or, line_of, name_words, member_line, imported_words, kind_name, import_line, is_refused, contents_tests, contents_text, read_tests, read_text, kind_line, archive_lines, archive_fault};
ghost use Rattle.coff_lines.specs.EitherReport.{either_tests, either_text};
ghost use Rattle.pe_text.specs.TextWriter.{IsReady, Adds};

use crate::member_faults::{member_fault, name_fault};
use crate::object_lines::{write_name as write_type_name, write_object};
use coff_archive::{Archive, Import, Member, import_object, is_import};
use coff_read::EitherObject;
use pe_head::machine_name;
use pe_text::Part::{Decimal, Hex8, Quoted, Text};
use pe_text::{Sink, TextWriter, write_fault_line, write_parts};
use pe_view::Fault;

/// Adds the name of a member, or that it has none.
fn write_name<W: Sink>(line: &mut TextWriter<W>, name: Option<&[u8]>)
    requires { IsReady W.failures line.old }
    ensures { Adds W.taken W.failures line.old line.new (name_words (option_map (λ name. name.now) name.entry)) }
{
    match name {
        Some(name) => line.quoted(name),
        None => line.text(b"unnamed"),
    }
}

/// Adds the line of a member. After a failed write its name is not looked for: it may be as long as the file, and that of each member.
#[tactic(auto, unfolding(crate::specs::ArchiveLines::member_line))]
fn write_member<W: Sink>(line: &mut TextWriter<W>, archive: &Archive, member: Member)
    requires { IsReady W.failures line.old }
    ensures { Adds W.taken W.failures line.old line.new (member_line (names_of (is_thin archive.now) (file_of archive.now)) (member_view member.entry)) }
{
    if line.has_failed() {
        return;
    }
    line.text(b"member ");
    write_name(line, archive.name(member));
    write_parts(
        line,
        &[
            Text(b" offset 0x"),
            Hex8(member.offset),
            Text(b" size "),
            Decimal(member.size),
            Text(b"\n"),
        ],
    );
}

/// Adds the name that an import object imports and its hint, or its ordinal.
fn write_imported<W: Sink>(line: &mut TextWriter<W>, name: Option<&[u8]>, ordinal: u16)
    requires { IsReady W.failures line.old }
    ensures { Adds W.taken W.failures line.old line.new (imported_words (option_map (λ name. name.now) name.entry) ordinal) }
{
    match name {
        Some(name) => write_parts(
            line,
            &[
                Text(b" name "),
                Quoted(name),
                Text(b" hint "),
                Decimal(ordinal as u64),
            ],
        ),
        None => write_parts(line, &[Text(b" ordinal "), Decimal(ordinal as u64)]),
    }
}

/// What is imported.
pub fn kind_name(kind: u8) -> &'static [u8]
    ensures { result.now ≡ kind_name kind }
{
    match kind {
        0 => b"code",
        1 => b"data",
        2 => b"const",
        _ => b"other",
    }
}

/// Adds the line of a short import object.
#[tactic(auto, unfolding(crate::specs::ArchiveLines::import_line))]
fn write_import<W: Sink>(line: &mut TextWriter<W>, import: &Import)
    requires { IsReady W.failures line.old }
    ensures { Adds W.taken W.failures line.old line.new (import_line (import_view import.now)) }
{
    line.text(b"import ");
    line.quoted(import.symbol);
    line.text(b" module ");
    line.quoted(import.module);
    write_imported(line, import.import_name(), import.ordinal);
    line.text(b" type ");
    line.decimal(import.kind as u64);
    line.text(b" ");
    line.text(kind_name(import.kind));
    line.text(b" machine 0x");
    line.hex(4, import.machine as u64);
    write_type_name(line, machine_name(import.machine));
    line.text(b"\n");
}

/// Adds the line of the short import object that bytes hold, or that of its first finding, which is the result.
fn write_import_of<W: Sink>(text: &mut TextWriter<W>, bytes: &[u8], offset: u64) -> Option<Fault>
    requires ready { IsReady W.failures text.old }
    requires import { is_import bytes.now ≡ true }
    ensures fault { result ≡ first_standing (import_tests offset bytes.now) }
    ensures adds { Adds W.taken W.failures text.old text.new (lines_or (import_line (import_of bytes.now)) (first_standing (import_tests offset bytes.now))) }
{
    match import_object(bytes, offset) {
        Ok(import) => {
            write_import(text, &import);
            None
        }
        Err(fault) => {
            write_fault_line(text, &fault);
            Some(fault)
        }
    }
}

/// Adds the dump of the object of either form that bytes hold, or the line of its first fault, and tells whether there is one.
fn write_object_of<W: Sink>(text: &mut TextWriter<W>, bytes: &[u8]) -> bool
    requires { IsReady W.failures text.old }
    ensures refused { result ≡ is_refused bytes.now }
    ensures adds { Adds W.taken W.failures text.old text.new (lines_or (either_text bytes.now) (first_standing (either_tests bytes.now))) }
{
    match EitherObject::new(bytes) {
        Ok(object) => {
            write_object(text, &object);
            false
        }
        Err(fault) => {
            write_fault_line(text, &fault);
            true
        }
    }
}

/// Adds what a member holds, or the line of its first fault. The result is finding 307 of an object that has a fault, and the first
/// finding of an import object. The archive's own members are not read, nor are those of a thin archive, whose bytes are in other files.
#[tactic(auto, unfolding(crate::specs::ArchiveLines::contents_tests, crate::specs::ArchiveLines::contents_text))]
fn write_contents<W: Sink>(text: &mut TextWriter<W>, thin: bool, member: Member) -> Option<Fault>
    requires { IsReady W.failures text.old }
    ensures fault { result ≡ first_standing (contents_tests thin (member_view member.entry)) }
    ensures adds { Adds W.taken W.failures text.old text.new (contents_text thin (member_view member.entry)) }
{
    if member.is_special() {
        return None;
    }
    if thin {
        return None;
    }
    let contents = member.contents();
    if is_import(contents) {
        return write_import_of(text, contents, member.offset);
    }
    if write_object_of(text, contents) {
        return Some(member_fault(307, member.offset));
    }
    None
}

/// Adds the line of a fault, if there is one.
fn write_fault_if<W: Sink>(text: &mut TextWriter<W>, fault: &Option<Fault>)
    requires { IsReady W.failures text.old }
    ensures { Adds W.taken W.failures text.old text.new (line_of fault.now) }
{
    if let Some(fault) = fault {
        write_fault_line(text, fault);
    }
}

/// Adds the line of a member and what it holds. The result is its first fault.
fn write_whole_member<W: Sink>(
    text: &mut TextWriter<W>,
    archive: &Archive,
    member: Member,
) -> Option<Fault>
    requires { IsReady W.failures text.old }
    ensures fault { result ≡ first_standing (read_tests (is_thin archive.now) (names_of (is_thin archive.now) (file_of archive.now)) (Ok (member_view member.entry))) }
    ensures adds { Adds W.taken W.failures text.old text.new (read_text (is_thin archive.now) (names_of (is_thin archive.now) (file_of archive.now)) (Ok (member_view member.entry))) }
{
    let nameless = name_fault(archive, member);
    write_member(text, archive, member);
    write_fault_if(text, &nameless);
    let refused = write_contents(text, archive.is_thin(), member);
    nameless.or(refused)
}

/// Adds what a walk over the members reads. The result is its first fault.
fn write_read<W: Sink>(
    text: &mut TextWriter<W>,
    archive: &Archive,
    read: Result<Member, Fault>,
) -> Option<Fault>
    requires { IsReady W.failures text.old }
    ensures fault { result ≡ first_standing (read_tests (is_thin archive.now) (names_of (is_thin archive.now) (file_of archive.now)) (read_view read.entry)) }
    ensures adds { Adds W.taken W.failures text.old text.new (read_text (is_thin archive.now) (names_of (is_thin archive.now) (file_of archive.now)) (read_view read.entry)) }
{
    match read {
        Ok(member) => write_whole_member(text, archive, member),
        Err(fault) => {
            write_fault_line(text, &fault);
            Some(fault)
        }
    }
}

/// Adds the lines of all members. The result is the first fault of all.
fn write_members<W: Sink>(text: &mut TextWriter<W>, archive: &Archive) -> Option<Fault>
    requires { IsReady W.failures text.old }
    ensures fault { result ≡ first_standing (flat_map (read_tests (is_thin archive.now) (names_of (is_thin archive.now) (file_of archive.now))) (members (is_thin archive.now) (file_of archive.now))) }
    ensures adds { Adds W.taken W.failures text.old text.new (flat_map (read_text (is_thin archive.now) (names_of (is_thin archive.now) (file_of archive.now))) (members (is_thin archive.now) (file_of archive.now))) }
{
    let mut first = None;
    let mut members = archive.members();
    while let Some(read) = members.next() {
        let fault = write_read(text, archive, read);
        first = first.or(fault);
    }
    first
}

/// The first line of an archive's dump.
fn kind_line(thin: bool) -> &'static [u8]
    ensures { result.now ≡ kind_line thin }
{
    if thin {
        b"thin archive\n"
    } else {
        b"archive\n"
    }
}

/// Adds the lines of an archive's dump. The result is the first fault of its members.
#[tactic(auto, unfolding(crate::specs::ArchiveLines::archive_lines, crate::specs::ArchiveLines::archive_fault))]
pub(crate) fn write_archive<W: Sink>(text: &mut TextWriter<W>, archive: &Archive) -> Option<Fault>
    requires { IsReady W.failures text.old }
    ensures fault { result ≡ archive_fault (is_thin archive.now) (file_of archive.now) }
    ensures adds { Adds W.taken W.failures text.old text.new (archive_lines (is_thin archive.now) (file_of archive.now)) }
{
    text.text(kind_line(archive.is_thin()));
    let first = write_members(text, archive);
    text.text(b"end\n");
    first
}
