//! `LibrarySymbol`: a public symbol of a member.

/// A public symbol, and the index of the member that defines it, counted from 0.
#[derive(Clone, Copy)]
pub(crate) struct LibrarySymbol<'a> {
    pub name: &'a [u8],
    pub member: u32,
}
