//! `Members`: an iterator over the members of an archive, which takes no memory.

ghost use Rattle.std.specs.Prelude.{◌≤◌};
ghost use Rattle.pe_view.specs.View.{size_of};

use crate::header::{even_from, member_at};
use crate::member::{HEADER_LEN, Member};
use pe_view::{Fault, View};

/// The members of an archive in file order, the archive's own among them. A header with one of findings 301 to 303 ends them: then
/// the finding comes last. Each member is at least 60 bytes further on, so all take the time of their headers.
#[derive(Clone, Copy, Drop)]
pub struct Members<'a> {
    pub(crate) file: View<'a>,
    pub(crate) thin: bool,
    pub(crate) at: u64,
    ghost inside: { at ≤ size_of file },
}

impl<'a> Iterator for Members<'a> {
    ghost use Rattle.std.specs.Iterator.{YieldsFirstBy, item_count};
    ghost use Rattle.coff_archive.specs.MemberView.{read_view};
    ghost use Rattle.coff_archive.specs.MembersLeft.{members_left};

    type Item = Result<Member<'a>, Fault>;

    ghost next_gives = { YieldsFirstBy read_view members_left };

    ghost remaining = { item_count members_left };

    fn next(&mut self) -> Option<Result<Member<'a>, Fault>> {
        if self.at >= self.file.len() {
            return None;
        }
        match member_at(self.file, self.thin, self.at) {
            Ok(member) => {
                self.at = even_from(self.file, self.at + HEADER_LEN + member.bytes.len() as u64);
                Some(Ok(member))
            }
            Err(fault) => {
                self.at = self.file.len();
                Some(Err(fault))
            }
        }
    }
}
