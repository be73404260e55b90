//! `Standing`: where a search is, at a key of an image, in the order in which maps store it.

ghost use Rattle.std.specs.Prelude.{◌≡◌};
ghost use Rattle.pe_tables.specs.Key.{key_view};
ghost use Rattle.pe_set.specs.StandView.{stand_view, stand_of};

use pe_tables::Key;

/// Where a search is, at a key of an image, in the order in which maps store it.
#[derive(Clone, Copy, PartialEq, Eq, PartialOrd, Ord)]
pub(crate) struct Standing<'a> {
    /// The image's number.
    pub image: usize,
    /// 1 more than the ordinal; 0 for a name.
    pub number: u32,
    /// The length of the name in bytes. It comes before the name, so that names of different lengths, such as ends of one string,
    /// are compared without reading them.
    pub len: usize,
    /// The name; empty for an ordinal.
    pub name: &'a [u8],
}

impl<'a> Standing<'a> {
    /// At a key of an image.
    pub fn at(image: usize, key: Key<'a>) -> Standing<'a>
        ensures { stand_view result ≡ stand_of (image, key_view key.entry) }
    {
        let (number, name) = match key {
            Key::Ordinal(ordinal) => (u32::from(ordinal) + 1, &b""[..]),
            Key::Name(name) => (0, name),
        };
        Standing {
            image,
            number,
            len: name.len(),
            name,
        }
    }
}
