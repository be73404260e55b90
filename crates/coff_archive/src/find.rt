//! `Archive::is_named` and `Archive::find`: the members by their names.

ghost use Rattle.std.specs.Prelude.{◌≡◌, None, Some, option_map, if◌then◌else◌};
ghost use Rattle.std.specs.Option.{option_or};
ghost use Rattle.coff_archive.specs.MemberView.{read_view};
ghost use Rattle.coff_archive.specs.Named.{is_fault};

use crate::archive::Archive;
use crate::member::Member;
use crate::names::{NamePlace, inside_name, is_long_name, is_name, place_of, short_name};
use pe_view::Fault;

/// A fault that ends a walk, after one that did before.
fn fault_after<'a>(
    before: Option<Result<Member<'a>, Fault>>,
    read: Result<Member<'a>, Fault>,
) -> Option<Result<Member<'a>, Fault>>
    ensures { option_map read_view result ≡ option_or (option_map read_view before.entry) (if is_fault (read_view read.entry) then Some (read_view read.entry) else None) }
{
    match (before, read) {
        (None, Err(fault)) => Some(Err(fault)),
        (before, _) => before,
    }
}

impl<'a> Archive<'a> {
    ghost use Rattle.coff_archive.specs.ArchiveFile.{file_of, is_thin};
    ghost use Rattle.coff_archive.specs.Front.{names_of};
    ghost use Rattle.coff_archive.specs.Members.{members};
    ghost use Rattle.coff_archive.specs.MemberView.{member_view};
    ghost use Rattle.coff_archive.specs.Named.{is_named, reads_named, named_at};

    /// Whether one of the members has this name. Of a long name no more is read than this name is long.
    pub fn is_named(&self, member: Member<'a>, name: &[u8]) -> bool
        ensures { result ≡ is_named (names_of (is_thin self.now) (file_of self.now)) name.now (member_view member.entry) }
    {
        match place_of(member.field) {
            NamePlace::Field => short_name(member.field) == name,
            NamePlace::Long(offset) => is_long_name(self.names, self.names_end, offset, name),
            NamePlace::Inside(len) => is_name(inside_name(member.bytes, len), name),
        }
    }

    /// Whether a walk reads a member with this name.
    fn reads_named(&self, read: Result<Member<'a>, Fault>, name: &[u8]) -> bool
        ensures { result ≡ reads_named (names_of (is_thin self.now) (file_of self.now)) name.now (read_view read.entry) }
    {
        match read {
            Ok(member) => self.is_named(member, name),
            Err(_) => false,
        }
    }

    /// Member `index`, from 0, of those that have this name, in file order, the archive's own among them; where there are not so many,
    /// the finding 301 to 303 that ends the walk over them, or `None` if none does. It takes the time of the walk, and for each member at
    /// most that of `name`.
    pub fn find(&self, name: &[u8], index: u64) -> Option<Result<Member<'a>, Fault>>
        ensures { option_map read_view result ≡ named_at (names_of (is_thin self.now) (file_of self.now)) name.now index (members (is_thin self.now) (file_of self.now)) }
    {
        let mut left = index;
        let mut fault = None;
        let mut members = self.members();
        while let Some(read) = members.next() {
            if self.reads_named(read, name) {
                if left == 0 {
                    return Some(read);
                }
                left -= 1;
            }
            fault = fault_after(fault, read);
        }
        fault
    }
}
