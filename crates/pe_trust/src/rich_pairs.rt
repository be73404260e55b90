//! The pairs of a Rich header, and what its key is to be.

ghost use Rattle.std.specs.Prelude.{◌≡◌, ◌+◌, ◌*◌, ◌%◌, ◌^◌, ◌<◌, ◌≤◌, None, Some, if◌then◌else◌, nat_lt, option_map};
ghost use Rattle.pe_view.specs.View.{bytes_of, size_of};
ghost use Rattle.pe_trust.specs.Rich.{bytes_sum, pair_at, pair_count, pair_words, pairs_sum, rich_sum};
ghost use Rattle.pe_trust.specs.RichView.{pair_view, rich_view};

use crate::rich::word;
use crate::rich_words::{RichHeader, RichPair};
use crate::sum::{all_bytes, byte_without};

/// The offset of e_lfanew in the MS-DOS header.
const E_LFANEW: u64 = 0x3c;

/// The sum of the first bytes of a file, each rotated left by its offset, without those of e_lfanew.
fn bytes_sum(bytes: &[u8], count: u32) -> u32
    ensures { result ≡ bytes_sum bytes.now count % 2 ^ 32 }
{
    let mut sum: u32 = 0;
    for offset in 0..count {
        let byte = byte_without(bytes, E_LFANEW, u64::from(offset)) as u32;
        sum = sum.wrapping_add(byte.rotate_left(offset));
    }
    sum
}

impl<'a> RichHeader<'a> {
    /// The file offset of `DanS`, with which the header begins.
    pub fn offset(&self) -> u64
        ensures { result ≡ 4 * (rich_view self.now).start }
    {
        4 * u64::from(self.start)
    }

    /// The key, with which all of the header is exclusive-or'ed.
    pub fn key(&self) -> u32
        ensures { result ≡ (rich_view self.now).key }
    {
        self.key
    }

    /// The number of pairs.
    pub fn len(&self) -> u32
        ensures { result ≡ pair_count (rich_view self.now) }
    {
        self.mark.saturating_sub(self.start + 4) / 2
    }

    /// Both words of pair `index`.
    fn words(&self, index: u32) -> (u32, u32)
        requires { index < pair_count (rich_view self.now) }
        ensures { result ≡ pair_words (bytes_of self.now.file) (rich_view self.now) index }
    {
        let first = self.start + 4 + 2 * index;
        (
            word(self.file, first) ^ self.key,
            word(self.file, first + 1) ^ self.key,
        )
    }

    /// Pair `index`, counted from 0, or `None` if there is none.
    pub fn get(&self, index: u32) -> Option<RichPair>
        ensures { option_map pair_view result ≡ (if nat_lt index (pair_count (rich_view self.now)) then Some (pair_at (bytes_of self.now.file) (rich_view self.now) index) else None) }
    {
        if index >= self.len() {
            return None;
        }
        let (tool, count) = self.words(index);
        Some(RichPair {
            product: (tool / 65536) as u16,
            build: (tool % 65536) as u16,
            count,
        })
    }

    /// The sum of the pairs' first words, each rotated left by its second.
    fn pairs_sum(&self) -> u32
        ensures { result ≡ pairs_sum (bytes_of self.now.file) (rich_view self.now) (pair_count (rich_view self.now)) % 2 ^ 32 }
    {
        let mut sum: u32 = 0;
        for index in 0..self.len() {
            let (tool, count) = self.words(index);
            sum = sum.wrapping_add(tool.rotate_left(count));
        }
        sum
    }

    /// What the key is to be: a sum of the bytes before the header and of its pairs.
    pub fn check_sum(&self) -> u32
        ensures { result ≡ rich_sum (bytes_of self.now.file) (rich_view self.now) }
    {
        let start = 4 * self.start;
        let sum = start.wrapping_add(bytes_sum(all_bytes(self.file), start));
        sum.wrapping_add(self.pairs_sum())
    }
}
