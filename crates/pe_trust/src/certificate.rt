//! `Certificate`: an entry of the certificate table; and `Certificates`, which are those of a file.

ghost use Rattle.std.specs.Prelude.{◌+◌, ◌^◌, ◌<◌, ◌≤◌};
ghost use Rattle.pe_view.specs.View.{size_of};

use pe_view::View;

/// An entry of the certificate table ("PE Format", The Attribute Certificate Table).
#[derive(Clone, Copy, Debug)]
pub struct Certificate<'a> {
    /// Where the entry begins in the file.
    pub offset: u64,
    /// How many bytes it has, its header of 8 included.
    pub length: u32,
    /// The version of its form.
    pub revision: u16,
    /// What its bytes are: 2 is PKCS #7.
    pub kind: u16,
    /// The bytes behind its header of 8 bytes.
    pub bytes: &'a [u8],
}

/// The entries of the certificate table that lie whole in it, up to the first that does not.
#[derive(Clone, Copy, Drop)]
pub struct Certificates<'a> {
    pub(crate) file: View<'a>,
    pub(crate) at: u64,
    pub(crate) end: u64,
    ghost inside: { end ≤ size_of file },
    ghost small: { end < 2 ^ 33 },
    ghost near: { at < 2 ^ 33 + 8 },
}
