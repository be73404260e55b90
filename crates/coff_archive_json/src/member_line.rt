//! The line of a member: its header, whether it has a fault, and what it holds.

ghost use Rattle.std.specs.Prelude.{◌≡◌, true, Ok, codes, option_map};
ghost use Rattle.pe_view.specs.Faults.{first_standing};
ghost use Rattle.coff_archive.specs.ArchiveFile.{file_of, is_thin};
ghost use Rattle.coff_archive.specs.Front.{names_of};
ghost use Rattle.coff_archive.specs.Imports.{is_import, import_tests, import_of};
ghost use Rattle.coff_archive.specs.MemberView.{member_view};
ghost use Rattle.coff_read.specs.EitherObject.{form_in};
ghost use Rattle.coff_lines.specs.ArchiveLines.{is_refused, contents_tests, read_tests};
ghost use Rattle.pe_json.specs.CertificateRows.{name_if};
ghost use Rattle.pe_json.specs.Listed.{more};
ghost use Rattle.pe_json.specs.ObjectLine.{object_members};
ghost use Rattle.pe_text.specs.TextWriter.{IsReady, Adds};
ghost use Rattle.coff_archive_json.specs.ImportMembers.{import_members};
ghost use Rattle.coff_archive_json.specs.Line.{alone};
ghost use Rattle.coff_archive_json.specs.MemberLine.{header_members, numbers_of, import_refusal, object_refusal, own_refusal, held_members, told, member_line};

use crate::import::write_import;
use crate::line::{begin, write_first_fault, write_verdict};
use coff_archive::{Archive, Member, import_object, is_import};
use coff_lines::{member_fault, name_fault};
use coff_read::EitherObject;
use pe_detail::{Detail, fault_detail};
use pe_json::{write_name, write_number, write_object_members};
use pe_text::{Sink, TextWriter};
use pe_view::{Fault, View};

/// Adds the name of a member, if it has one.
fn write_name_if<W: Sink>(text: &mut TextWriter<W>, name: Option<&[u8]>)
    requires { IsReady W.failures text.old }
    ensures { Adds W.taken W.failures text.old text.new (more (name_if (codes "member") (option_map (λ name. name.now) name.entry))) }
{
    if let Some(name) = name {
        write_name(text, b",\"member\":\"", b",\"member_hex\":\"", name);
    }
}

/// Adds what the header of a member tells. After a failed write its name is not looked for: it may be as long as the file, and that of
/// each member.
fn write_header<W: Sink>(text: &mut TextWriter<W>, archive: &Archive, member: Member)
    requires { IsReady W.failures text.old }
    ensures { Adds W.taken W.failures text.old text.new
        (more (header_members (names_of (is_thin archive.now) (file_of archive.now)) (member_view member.entry))) }
{
    if text.has_failed() {
        return;
    }
    write_name_if(text, archive.name(member));
    write_number(text, b",\"offset\":", member.offset);
    write_number(text, b",\"size\":", member.size);
}

/// Adds whether a short import object has a fault, after one of its member if there is one, and what it holds. The result is its own.
fn write_import_object<W: Sink>(
    text: &mut TextWriter<W>,
    first: &Option<Fault>,
    bytes: &[u8],
    offset: u64,
) -> Option<Fault>
    requires ready { IsReady W.failures text.old }
    requires import { is_import bytes.now ≡ true }
    ensures fault { result ≡ first_standing (import_tests offset bytes.now) }
    ensures adds { Adds W.taken W.failures text.old text.new
        (more (told (option_map alone first.now) (import_refusal offset bytes.now) (import_members (import_of bytes.now)))) }
{
    match import_object(bytes, offset) {
        Ok(import) => {
            write_verdict(text, first);
            write_import(text, &import);
            None
        }
        Err(fault) => {
            write_first_fault(text, first, &fault, None);
            Some(fault)
        }
    }
}

/// The numbers that the rule of an object's fault compares.
#[tactic(auto, unfolding(crate::specs::MemberLine::numbers_of))]
fn numbers_of(bytes: &[u8], fault: &Fault) -> Option<Detail>
    ensures { result ≡ numbers_of bytes.now fault.now }
{
    fault_detail(View::new(bytes), bytes.len() as u64, fault)
}

/// Adds whether an object has a fault, after one of its member if there is one, and what it holds. The result tells whether it has one.
fn write_object<W: Sink>(text: &mut TextWriter<W>, first: &Option<Fault>, bytes: &[u8]) -> bool
    requires { IsReady W.failures text.old }
    ensures refused { result ≡ is_refused bytes.now }
    ensures adds { Adds W.taken W.failures text.old text.new
        (more (told (option_map alone first.now) (object_refusal bytes.now) (object_members (form_in bytes.now) bytes.now))) }
{
    match EitherObject::new(bytes) {
        Ok(object) => {
            write_verdict(text, first);
            write_object_members(text, &object);
            false
        }
        Err(fault) => {
            write_first_fault(text, first, &fault, numbers_of(bytes, &fault));
            true
        }
    }
}

/// Adds whether a member has a fault, the first of which is that of its name if there is one, and what it holds. The result is finding
/// 307 of an object that has a fault, and the first finding of an import object. The archive's own members are not read, nor are those of
/// a thin archive, whose bytes are in other files.
#[tactic(auto, unfolding(coff_lines::specs::ArchiveLines::contents_tests))]
fn write_contents<W: Sink>(
    text: &mut TextWriter<W>,
    first: &Option<Fault>,
    thin: bool,
    member: Member,
) -> Option<Fault>
    requires { IsReady W.failures text.old }
    ensures fault { result ≡ first_standing (contents_tests thin (member_view member.entry)) }
    ensures adds { Adds W.taken W.failures text.old text.new
        (more (told (option_map alone first.now) (own_refusal thin (member_view member.entry)) (held_members thin (member_view member.entry)))) }
{
    if member.is_special() {
        write_verdict(text, first);
        return None;
    }
    if thin {
        write_verdict(text, first);
        return None;
    }
    let contents = member.contents();
    if is_import(contents) {
        return write_import_object(text, first, contents, member.offset);
    }
    if write_object(text, first, contents) {
        return Some(member_fault(307, member.offset));
    }
    None
}

/// Adds the line of a member. The result is its first fault, as [`coff_lines::dump_archive`] counts them.
pub(crate) fn write_member<W: Sink>(
    text: &mut TextWriter<W>,
    name: &[u8],
    archive: &Archive,
    member: Member,
) -> Option<Fault>
    requires { IsReady W.failures text.old }
    ensures fault { result ≡ first_standing (read_tests (is_thin archive.now) (names_of (is_thin archive.now) (file_of archive.now)) (Ok (member_view member.entry))) }
    ensures adds { Adds W.taken W.failures text.old text.new
        (member_line name.now (is_thin archive.now) (names_of (is_thin archive.now) (file_of archive.now)) (member_view member.entry)) }
{
    let nameless = name_fault(archive, member);
    begin(text, name);
    write_header(text, archive, member);
    let refused = write_contents(text, &nameless, archive.is_thin(), member);
    text.text(b"}");
    text.text(b"\n");
    nameless.or(refused)
}
