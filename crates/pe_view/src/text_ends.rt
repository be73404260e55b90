//! `TextEnds`: where strings end. Long strings that share bytes are searched once.

ghost use Rattle.std.specs.Prelude.{◌≡◌, ◌≢◌, ◌-◌, ◌^◌, ◌<◌, ◌≤◌, ◌↔◌, ℕ, List, Some, IfSome, IsTrue, option_map};
ghost use Rattle.std.specs.Ordering.{nat_cmp};
ghost use Rattle.std.specs.BTreeMap.{get};
ghost use Rattle.pe_view.specs.View.{bytes_of, size_of};
ghost use Rattle.pe_view.specs.Number.{byte_of};
ghost use Rattle.pe_view.specs.Text.{text_between};
ghost use Rattle.pe_view.specs.TextEnds.{HasNoZero, AreEndsOf};

use crate::view::View;
use std::alloc::Allocator;
use std::collections::BTreeMap;

/// A string shorter than this is searched each time, without a look-up.
const SHORT: u64 = 256;

/// Where the strings of one file end, so that strings that share bytes are not searched again and again.
///
/// It keeps disjoint ranges of the file without a zero byte. Each byte of the file is therefore searched at most once, apart from
/// the first 256 of each string, and a call makes a few look-ups among the ranges (amortized). If an allocation fails, the range
/// is not kept, and is searched again when needed.
#[derive(Drop)]
pub struct TextEnds<A: Allocator> {
    /// Where each range begins, by the offset at which it ends.
    pub(crate) starts: BTreeMap<u64, u64, A>,
}

/// Whether a byte of a file is zero.
fn is_zero(view: View<'_>, offset: u64) -> bool
    requires { offset < size_of view }
    ensures { IsTrue result ↔ (byte_of (bytes_of view.entry) offset ≡ 0) }
{
    view.until_zero(offset, offset + 1).is_some()
}

/// The offset of the first zero byte from `offset` on, or `end` if there is none before it.
fn first_zero(view: View<'_>, offset: u64, end: u64) -> u64
    requires before { offset < end }
    requires inside { end ≤ size_of view }
    requires nonzero { byte_of (bytes_of view) offset ≢ 0 }
    ensures behind { offset < result }
    ensures none { HasNoZero (bytes_of view.entry) offset result }
{
    match view.until_zero(offset, end) {
        Some(text) => offset + text.len() as u64,
        None => end,
    }
}

impl<A: Allocator + Copy> TextEnds<A> {
    /// Knows nothing of the file yet. Allocates nothing.
    pub fn new(alloc: A) -> TextEnds<A>
        ensures { (file : List ℕ) → AreEndsOf file result }
    {
        TextEnds {
            starts: BTreeMap::new(alloc),
        }
    }

    /// The range with the lowest end after `offset`: its start and end.
    fn first_behind(&self, offset: u64) -> Option<(u64, u64)>
        requires { offset < 2 ^ 64 - 1 }
        ensures { IfSome result (λ stretch. (offset < stretch.1) × (get nat_cmp self.now.starts stretch.1 ≡ Some stretch.0)) }
    {
        let (end, start) = self.starts.range(offset + 1..).next()?;
        Some((*start, *end))
    }

    /// An offset after `offset` such that no byte from `offset` up to it is zero.
    fn past(&self, view: View<'_>, offset: u64, end: u64) -> u64
        requires known { AreEndsOf (bytes_of view) self.now }
        requires before { offset < end }
        requires inside { end ≤ size_of view }
        requires nonzero { byte_of (bytes_of view) offset ≢ 0 }
        ensures behind { offset < result }
        ensures none { HasNoZero (bytes_of view.entry) offset result }
    {
        match self.first_behind(offset) {
            None => first_zero(view, offset, end),
            Some((start, stop)) if start <= offset => stop,
            Some((start, _)) => first_zero(view, offset, start.min(end)),
        }
    }

    /// Records that there is no zero byte from `offset` up to `end`, merged with the ranges that overlap these bytes.
    fn keep(&mut self, offset: u64, end: u64)
        requires { offset < 2 ^ 64 - 1 }
        ensures { (file : List ℕ) → AreEndsOf file self.old → HasNoZero file offset end → AreEndsOf file self.new }
    {
        let mut start = offset;
        while let Some((known_start, known_end)) = self.first_behind(offset) {
            if known_end > end {
                break;
            }
            if known_end == end && known_start <= start {
                return;
            }
            start = start.min(known_start);
            self.starts.remove(&known_end);
        }
        if self.starts.insert(end, start).is_err() {
            return;
        }
    }

    /// The offset of the first zero byte from `offset` on if it is before `end`, otherwise an offset that is not before `end`; no
    /// byte from `offset` up to the result is zero.
    fn zero_from(&mut self, view: View<'_>, offset: u64, end: u64) -> u64
        requires known { AreEndsOf (bytes_of view) self.old }
        requires before { offset < end }
        requires inside { end ≤ size_of view }
        ensures known { AreEndsOf (bytes_of view.entry) self.new }
        ensures from { offset ≤ result }
        ensures none { HasNoZero (bytes_of view.entry) offset result }
        ensures zero { result < end → byte_of (bytes_of view.entry) result ≡ 0 }
    {
        let mut zero = offset;
        while zero < end && !is_zero(view, zero) {
            zero = self.past(view, zero, end);
        }
        self.keep(offset, zero);
        zero
    }

    /// The bytes from `offset` up to the first zero byte before `end`, as [`View::until_zero`] returns them.
    ///
    /// All calls must pass a view of the same file.
    pub fn until_zero<'a>(&mut self, view: View<'a>, offset: u64, end: u64) -> Option<&'a [u8]>
        requires { AreEndsOf (bytes_of view) self.old }
        ensures text { option_map (λ bytes. bytes.now) result ≡ text_between (bytes_of view.entry) offset end }
        ensures known { AreEndsOf (bytes_of view.entry) self.new }
    {
        if end < offset || end > view.len() || end - offset < SHORT {
            return view.until_zero(offset, end);
        }
        if let Some(text) = view.until_zero(offset, offset + SHORT) {
            return Some(text);
        }
        let zero = self.zero_from(view, offset, end);
        if zero >= end {
            return None;
        }
        view.slice(offset, zero - offset)
    }
}
