//! `NewMember`: a member of an archive to be written.

/// A member of an archive to be written. Its header has date 0, user 0, group 0 and mode 644, so the same members give the same
/// bytes.
#[repr(C)]
#[derive(Clone, Copy, Debug, PartialEq, Eq)]
pub struct NewMember<'a> {
    /// The name, which may have `/` in it, but not at its end.
    pub name: &'a [u8],
    /// What the member holds: an object, a short import object, or anything else.
    pub bytes: &'a [u8],
}
