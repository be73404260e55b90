//! `extract_member`: what a member of an archive holds, by its name.

ghost use Rattle.std.specs.Prelude.{◌≡◌, Ok, Some};
ghost use Rattle.coff_archive.specs.ArchiveFile.{file_of, is_thin};
ghost use Rattle.coff_archive.specs.MemberView.{member_view};
ghost use Rattle.coff_lines.specs.MemberFile.{held_contents, member_in, member_file, told};

use coff_archive::{Archive, Member, open_archive};
use pe_view::Fault;

/// What became of a member that was asked for.
#[derive(Clone, Copy, Debug, PartialEq, Eq)]
pub enum MemberFile<'a> {
    /// What it holds, behind its name if that stands in its first bytes.
    Found(&'a [u8]),
    /// The archive has no such member.
    Missing,
    /// It is a file of its own, whose name a thin archive holds.
    Elsewhere,
    /// The file has fault 1 or 300, or finding 301 to 303 ends the walk over its members before that one.
    Refused(Fault),
}

/// What a member holds, unless it is a file of its own.
fn held_contents<'a>(thin: bool, member: Member<'a>) -> MemberFile<'a>
    ensures { told result ≡ Some (Ok (held_contents thin (member_view member.entry))) }
{
    if thin && !member.is_special() {
        return MemberFile::Elsewhere;
    }
    MemberFile::Found(member.contents())
}

/// What member `index` of those with this name holds.
fn member_in<'a>(archive: &Archive<'a>, name: &[u8], index: u64) -> MemberFile<'a>
    ensures { told result ≡ member_in (is_thin archive.now) (file_of archive.now) name.now index }
{
    match archive.find(name, index) {
        Some(Ok(member)) => held_contents(archive.is_thin(), member),
        Some(Err(fault)) => MemberFile::Refused(fault),
        None => MemberFile::Missing,
    }
}

/// What member `index`, from 0, of those members of an archive holds that have this name, in file order, the archive's own among them.
/// It takes the time of the members' headers, and for each of them at most that of `name`; and no memory.
pub fn extract_member<'a>(file: &'a [u8], name: &[u8], index: u64) -> MemberFile<'a>
    ensures { told result ≡ member_file file.entry.now name.now index }
{
    match open_archive(file) {
        Ok(archive) => member_in(&archive, name, index),
        Err(fault) => MemberFile::Refused(fault),
    }
}
