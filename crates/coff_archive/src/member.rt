//! `Member`: a member of an archive.

ghost use Rattle.std.specs.Prelude.{◌≡◌, length};

use crate::header::is_special;
use crate::names::{NamePlace, place_of};

/// How many bytes the header of a member has.
pub const HEADER_LEN: u64 = 60;

/// How many bytes the name field of a header has.
pub const NAME_FIELD_LEN: u64 = 16;

/// A member of an archive ("PE Format", Archive Member Headers).
#[derive(Clone, Copy, Debug, PartialEq, Eq)]
pub struct Member<'a> {
    /// The file offset of its header.
    pub offset: u64,
    /// The name field of the header, as it is: [`Archive::name`](crate::Archive::name) gives the name.
    pub field: &'a [u8],
    /// How many bytes the header gives it.
    pub size: u64,
    /// Those of them that the file holds: all, or none of a member of a thin archive.
    pub bytes: &'a [u8],
    pub ghost whole: { length field.now ≡ 16 },
}

impl<'a> Member<'a> {
    ghost use Rattle.coff_archive.specs.Members.{is_special};
    ghost use Rattle.coff_archive.specs.MemberView.{member_view};
    ghost use Rattle.coff_archive.specs.Names.{contents_of};

    /// Whether the archive keeps the member for itself, as linker members and long names.
    pub fn is_special(&self) -> bool
        ensures { result ≡ is_special (member_view self.now).field }
    {
        is_special(self.field)
    }

    /// The bytes of the member behind its name, if that stands in its first bytes.
    pub fn contents(&self) -> &'a [u8]
        ensures { result.now ≡ contents_of (member_view self.now) }
    {
        match place_of(self.field) {
            NamePlace::Inside(len) if len <= self.bytes.len() as u64 => &self.bytes[len as usize..],
            NamePlace::Inside(_) => &[],
            _ => self.bytes,
        }
    }
}
