//! `RichPair` and `RichHeader`: what a Rich header holds, and where it is.

ghost use Rattle.std.specs.Prelude.{◌+◌, ◌*◌, ◌^◌, ◌<◌, ◌≤◌};
ghost use Rattle.pe_view.specs.View.{size_of};

use pe_view::View;

/// How many of an image's objects one version of a tool made.
#[derive(Clone, Copy, Debug, PartialEq, Eq)]
pub struct RichPair {
    /// The number of the tool.
    pub product: u16,
    /// The number of its build.
    pub build: u16,
    /// How many objects it made.
    pub count: u32,
}

/// The Rich header of an image's file: which tools made the image. Offsets count words of 4 bytes.
#[derive(Clone, Copy, Debug)]
pub struct RichHeader<'a> {
    pub(crate) file: View<'a>,
    pub(crate) start: u32,
    pub(crate) mark: u32,
    pub(crate) key: u32,
    ghost inside: { 4 * mark + 8 ≤ size_of file },
    ghost before: { start < mark },
    ghost small: { mark < 2 ^ 30 },
}
