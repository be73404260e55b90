//! `Entry`: an entry of a directory of the resource tree.

ghost use Rattle.std.specs.Prelude.{◌≡◌, ◌<◌, ◌^◌, length};
ghost use Rattle.pe_resources.specs.Entry.{entry_in, is_text, is_directory, offset_of};

use pe_view::View;

/// An entry of a directory of the resource tree ("PE Format", Resource Directory Entries).
#[derive(Clone, Copy, Debug, PartialEq, Eq)]
pub struct Entry {
    /// An id, or with its top bit set the offset of a text.
    pub name: u32,
    /// The offset of a data entry, or with its top bit set of a directory.
    pub target: u32,
}

impl Entry {
    /// The entry that 8 bytes are.
    #[inline]
    pub(crate) fn of(bytes: &[u8]) -> Entry
        requires { length bytes.now ≡ 8 }
        ensures { result ≡ entry_in bytes.now }
    {
        let row = View::new(bytes);
        Entry {
            name: row.u32_at(0).unwrap(),
            target: row.u32_at(4).unwrap(),
        }
    }

    /// Whether a text names it.
    pub fn is_text(self) -> bool
        ensures { result ≡ is_text self }
    {
        self.name >= 0x8000_0000
    }

    /// Whether it leads to a directory.
    pub fn is_directory(self) -> bool
        ensures { result ≡ is_directory self }
    {
        self.target >= 0x8000_0000
    }

    /// The offset of what it leads to.
    pub fn offset(self) -> u32
        ensures value { result ≡ offset_of self.target }
        ensures small { result < 2 ^ 31 }
    {
        self.target % 0x8000_0000
    }

    /// The offset of its name's text.
    pub(crate) fn name_offset(self) -> u32
        ensures value { result ≡ offset_of self.name }
        ensures small { result < 2 ^ 31 }
    {
        self.name % 0x8000_0000
    }
}
