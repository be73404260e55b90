//! `Block`: a block of version information, and where its parts are.

ghost use Rattle.std.specs.Prelude.{◌≡◌, ◌+◌, ◌*◌, ◌-◌, ◌/◌, ◌≤◌, ◌<◌, ◌^◌};
ghost use Rattle.pe_view.specs.View.{bytes_of, size_of};
ghost use Rattle.pe_view.specs.Number.{part};
ghost use Rattle.pe_version.specs.Blocks.{word, aligned};
ghost use Rattle.pe_version.specs.Parts.{units_before_zero};

use crate::blocks::Blocks;
use pe_view::View;

/// The key of the block that holds tables of strings: `StringFileInfo`, in UTF-16.
const STRING_FILE_INFO: &[u8] = b"S\0t\0r\0i\0n\0g\0F\0i\0l\0e\0I\0n\0f\0o\0";

/// The number in the two bytes at an offset.
pub(crate) fn word(view: View, at: u32) -> u16
    requires { at + 2 ≤ size_of view }
    ensures { result ≡ word (bytes_of view.entry) at }
{
    view.u16_at(u64::from(at)).unwrap()
}

/// The next multiple of 4.
pub(crate) fn aligned(at: u32) -> u32
    requires { at < 2 ^ 31 }
    ensures { result ≡ aligned at }
{
    at.next_multiple_of(4)
}

/// How many of the `count` UTF-16 units at an offset come before the first that is 0.
fn units_before_zero(view: View, at: u32, count: u32) -> u32
    requires whole { at + 2 * count ≤ size_of view }
    requires small { at + 2 * count < 2 ^ 16 }
    ensures value { result ≡ units_before_zero (bytes_of view.entry) at count }
    ensures few { result ≤ count }
{
    for index in 0..count {
        if word(view, at + 2 * index) == 0 {
            return index;
        }
    }
    count
}

/// A block of version information: so many bytes from an offset on.
#[derive(Clone, Copy, Debug)]
pub(crate) struct Block<'a> {
    pub view: View<'a>,
    pub start: u32,
    pub end: u32,
    ghost some: { start + 6 ≤ end },
    ghost inside: { end ≤ size_of view },
    ghost small: { end < 2 ^ 16 },
}

impl<'a> Block<'a> {
    ghost use Rattle.pe_version.specs.Block.{key_in, has_key_end, body_of, is_string_file_info, value_in, place_of};

    /// How many UTF-16 units there are after the three numbers.
    fn unit_count(self) -> u32
        ensures { result ≡ (self.entry.end - (self.entry.start + 6)) / 2 }
    {
        (self.end - (self.start + 6)) / 2
    }

    /// How many units the key has.
    fn key_units(self) -> u32
        ensures value { result ≡ units_before_zero (bytes_of self.entry.view) (self.entry.start + 6) ((self.entry.end - (self.entry.start + 6)) / 2) }
        ensures few { result ≤ (self.entry.end - (self.entry.start + 6)) / 2 }
    {
        units_before_zero(self.view, self.start + 6, self.unit_count())
    }

    /// The units of the key.
    pub fn key(self) -> &'a [u8]
        ensures { result.now ≡ key_in (bytes_of self.entry.view) (place_of self.entry) }
    {
        let len = 2 * u64::from(self.key_units());
        self.view.slice(u64::from(self.start) + 6, len).unwrap()
    }

    /// Whether a zero ends the key.
    pub fn has_key_end(self) -> bool
        ensures { result ≡ has_key_end (bytes_of self.entry.view) (place_of self.entry) }
    {
        self.key_units() < self.unit_count()
    }

    /// Where the value begins, or the first block in this one, or this one's end if there is neither.
    fn body(self) -> u32
        ensures value { result ≡ body_of (bytes_of self.entry.view) (place_of self.entry) }
        ensures bound { result ≤ self.entry.end }
    {
        aligned(self.start + 8 + 2 * self.key_units()).min(self.end)
    }

    /// Whether it holds tables of strings.
    pub fn is_string_file_info(self) -> bool
        ensures { result ≡ is_string_file_info (bytes_of self.entry.view) (place_of self.entry) }
    {
        self.key() == STRING_FILE_INFO
    }

    /// The blocks in it, if it has no value.
    pub fn children(self) -> Blocks<'a>
        ensures view { result.view ≡ self.entry.view }
        ensures start { result.at ≡ body_of (bytes_of self.entry.view) (place_of self.entry) }
        ensures end { result.end ≡ self.entry.end }
    {
        Blocks {
            view: self.view,
            at: self.body(),
            end: self.end,
        }
    }

    /// The units of the value, before the first that is 0: no more than the block says it has.
    pub fn value(self) -> &'a [u8]
        ensures { result.now ≡ value_in (bytes_of self.entry.view) (place_of self.entry) }
    {
        let body = self.body();
        let said = u32::from(word(self.view, self.start + 2));
        let count = units_before_zero(self.view, body, said.min((self.end - body) / 2));
        self.view
            .slice(u64::from(body), 2 * u64::from(count))
            .unwrap()
    }
}
