//! The members of an archive, each checked once.

ghost use Rattle.std.specs.Prelude.{◌≡◌, Ok, IfOk};
ghost use Rattle.pe_view.specs.Faults.{first_standing};
ghost use Rattle.coff_archive.specs.ArchiveFile.{file_of, is_thin};
ghost use Rattle.coff_archive.specs.Front.{names_of};
ghost use Rattle.coff_archive.specs.MemberView.{member_view, read_view};
ghost use Rattle.coff_lines.specs.ArchiveLines.{read_tests, archive_fault};

use crate::contents::{Contents, check_contents};
use coff_archive::{Archive, Member};
use coff_lines::name_fault;
use pe_view::Fault;
use std::alloc::{AllocError, Allocator};

/// A member, and what it is.
#[derive(Clone, Copy)]
pub(crate) struct ShownMember<'a> {
    pub member: Member<'a>,
    pub contents: Contents<'a>,
}

/// A member, and the first fault for which the archive is refused by it.
#[derive(Clone, Copy)]
struct CheckedMember<'a> {
    shown: ShownMember<'a>,
    fault: Option<Fault>,
}

/// The members of an archive, and the first fault of all.
#[derive(Drop)]
pub(crate) struct CheckedMembers<'a, A: Allocator> {
    pub members: Vec<ShownMember<'a>, A>,
    pub fault: Option<Fault>,
}

/// Checks the member of an index.
fn check_member<'a>(archive: &Archive, index: usize, member: Member<'a>) -> CheckedMember<'a>
    ensures { result.fault ≡ first_standing (read_tests (is_thin archive.now) (names_of (is_thin archive.now) (file_of archive.now)) (Ok (member_view member.entry))) }
{
    let nameless = name_fault(archive, member);
    let checked = check_contents(archive, index, member);
    CheckedMember {
        shown: ShownMember {
            member,
            contents: checked.contents,
        },
        fault: nameless.or(checked.fault),
    }
}

/// Puts what a walk over the members reads behind the others. The result is its first fault.
fn add_read<'a, A: Allocator>(
    archive: &Archive,
    members: &mut Vec<ShownMember<'a>, A>,
    read: Result<Member<'a>, Fault>,
) -> Result<Option<Fault>, AllocError>
    ensures { IfOk result (λ fault. fault ≡ first_standing (read_tests (is_thin archive.now) (names_of (is_thin archive.now) (file_of archive.now)) (read_view read.entry))) }
{
    match read {
        Ok(member) => {
            let checked = check_member(archive, members.len(), member);
            members.push(checked.shown)?;
            Ok(checked.fault)
        }
        Err(fault) => Ok(Some(fault)),
    }
}

/// The members of an archive in file order.
#[tactic(auto, unfolding(coff_lines::specs::ArchiveLines::archive_fault))]
pub(crate) fn check_members<'a, A: Allocator>(
    alloc: A,
    archive: &Archive<'a>,
) -> Result<CheckedMembers<'a, A>, AllocError>
    ensures { IfOk result (λ checked. checked.fault ≡ archive_fault (is_thin archive.entry.now) (file_of archive.entry.now)) }
{
    let mut members = Vec::new(alloc);
    let mut first = None;
    let mut walk = archive.members();
    while let Some(read) = walk.next() {
        let fault = add_read(archive, &mut members, read)?;
        first = first.or(fault);
    }
    Ok(CheckedMembers {
        members,
        fault: first,
    })
}
