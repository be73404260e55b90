//! `Blocks`: blocks of version information, one after the other.

ghost use Rattle.std.specs.Prelude.{◌≤◌, ◌<◌, ◌^◌};
ghost use Rattle.pe_view.specs.View.{bytes_of, size_of};

use crate::block::{Block, aligned, word};
use pe_view::View;

/// Blocks one after the other, each at a multiple of 4, up to the first place where no whole block is.
#[derive(Clone, Copy, Debug)]
pub(crate) struct Blocks<'a> {
    pub view: View<'a>,
    pub at: u32,
    pub end: u32,
    ghost inside: { end ≤ size_of view },
    ghost small: { end < 2 ^ 16 },
    ghost near: { at < 2 ^ 18 },
}

impl<'a> Blocks<'a> {
    ghost use Rattle.std.specs.Prelude.{◌≡◌};
    ghost use Rattle.pe_version.specs.Blocks.{is_block};
    ghost use Rattle.pe_version.specs.Steps.{StepsTo};

    /// No blocks of these bytes.
    pub fn none(view: View<'a>) -> Blocks<'a>
        ensures view { result.view ≡ view.entry }
        ensures start { result.at ≡ 0 }
        ensures end { result.end ≡ 0 }
    {
        Blocks {
            view,
            at: 0,
            end: 0,
        }
    }

    /// Whether a whole block is at the offset that was reached.
    pub fn is_block(self) -> bool
        ensures { result ≡ is_block (bytes_of self.entry.view) self.entry.end self.entry.at }
    {
        if self.at + 6 > self.end {
            return false;
        }
        let len = u32::from(word(self.view, self.at));
        len >= 6 && self.at + len <= self.end
    }

    /// The next block. `None` changes nothing.
    pub fn next(&mut self) -> Option<Block<'a>>
        ensures { StepsTo self.old result self.new }
    {
        if !self.is_block() {
            return None;
        }
        let start = self.at;
        let end = start + u32::from(word(self.view, start));
        self.at = aligned(end);
        Some(Block {
            view: self.view,
            start,
            end,
        })
    }
}
