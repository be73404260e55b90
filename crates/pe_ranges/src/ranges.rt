//! `Ranges`: ranges of RVAs, and whether another range has an RVA in common with one of them.

ghost use Rattle.std.specs.Prelude.{◌≡◌, ◌+◌, ◌<◌, ◌≤◌, ◌^◌, ◌↔◌, All, IsTrue, OnOk, [], length, take, filter, nat_lt};
ghost use Rattle.pe_ranges.specs.Ranges.{IsAscending, meets_any, range_end};

use std::alloc::{AllocError, Allocator};
use std::collections::BTreeMap;

/// Ranges of RVAs by their starts, of which no later one ends first.
///
/// The ranges of most tables ascend; then they are all in one run, and only its end is compared with the next one.
#[derive(Drop)]
pub struct Ranges<A: Allocator> {
    /// The ranges that start after all those of the run before them.
    run: Vec<(u32, u32), A>,
    /// The lengths of the other ranges, by their starts.
    others: BTreeMap<u32, u32, A>,
    ghost run_ascending: { IsAscending run.items },
    ghost others_ascending: { IsAscending others.entries },
}

/// Whether all ranges of a run start below an RVA: the last one is compared.
fn all_below(run: &[(u32, u32)], rva: u32) -> bool
    requires { IsAscending run.now }
    ensures { IsTrue result ↔ All (λ range. range.0 < rva) run.now }
{
    match run.last() {
        Some(last) => last.0 < rva,
        None => true,
    }
}

/// Whether no range of a run starts below an RVA: the first one is compared.
fn none_below(run: &[(u32, u32)], rva: u32) -> bool
    requires { IsAscending run.now }
    ensures { IsTrue result → All (λ range. rva ≤ range.0) run.now }
{
    match run.first() {
        Some(first) => rva <= first.0,
        None => true,
    }
}

/// How many ranges of a run start below an RVA, found by halves.
#[cold]
#[inline(never)]
fn search_below(run: &[(u32, u32)], rva: u32) -> usize
    requires { IsAscending run.now }
    ensures within { result ≤ length run.now }
    ensures these { filter (λ range. nat_lt range.0 rva) run.now ≡ take result run.now }
{
    run.partition_point(|range| range.0 < rva)
}

/// How many ranges of a run start below an RVA. Most RVAs come before all ranges or after them, which is tested first.
#[inline]
fn count_below(run: &[(u32, u32)], rva: u32) -> usize
    requires { IsAscending run.now }
    ensures within { result ≤ length run.now }
    ensures these { filter (λ range. nat_lt range.0 rva) run.now ≡ take result run.now }
{
    if all_below(run, rva) {
        run.len()
    } else if none_below(run, rva) {
        0
    } else {
        search_below(run, rva)
    }
}

/// Whether a range ends after an RVA.
fn ends_behind(start: u32, len: u32, rva: u32) -> bool
    ensures { result ≡ nat_lt rva (range_end (start, len)) }
{
    u64::from(rva) < u64::from(start) + u64::from(len)
}

/// Whether some range of a run has an RVA in common with the `len` bytes at `start`.
///
/// Of the ranges that start before these bytes end, the last one ends last, so only that one is compared.
fn run_meets(run: &[(u32, u32)], start: u32, len: u32) -> bool
    requires ascending { IsAscending run.now }
    requires small { start + len < 2 ^ 32 }
    ensures { result ≡ meets_any start len run.now }
{
    let count = count_below(run, start + len);
    if count == 0 {
        return false;
    }
    let (last, last_len) = run[count - 1];
    ends_behind(last, last_len, start)
}

/// Whether one of these ranges has an RVA in common with the `len` bytes at `start`, found as by [`run_meets`].
#[cold]
#[inline(never)]
fn search_others<A: Allocator>(others: &BTreeMap<u32, u32, A>, start: u32, len: u32) -> bool
    requires ascending { IsAscending others.now.entries }
    requires small { start + len < 2 ^ 32 }
    ensures { result ≡ meets_any start len others.now.entries }
{
    let mut before = others.range(..start + len);
    match before.next_back() {
        Some((last, last_len)) => ends_behind(*last, *last_len, start),
        None => false,
    }
}

/// Whether one of these ranges has an RVA in common with the `len` bytes at `start`. Most tables have none of them.
#[inline]
fn others_meet<A: Allocator>(others: &BTreeMap<u32, u32, A>, start: u32, len: u32) -> bool
    requires ascending { IsAscending others.now.entries }
    requires small { start + len < 2 ^ 32 }
    ensures { result ≡ meets_any start len others.now.entries }
{
    !others.is_empty() && search_others(others, start, len)
}

impl<A: Allocator + Copy> Ranges<A> {
    ghost use Rattle.pe_ranges.specs.Ranges.{FitsBeside, Gains};
    ghost use Rattle.pe_ranges.specs.RangesView.{ranges_in};

    /// No ranges. Allocates nothing.
    pub fn new(alloc: A) -> Ranges<A>
        ensures { ranges_in result ≡ [] }
    {
        Ranges {
            run: Vec::new(alloc),
            others: BTreeMap::new(alloc),
        }
    }

    /// Whether some range has an RVA in common with the `len` bytes at `start`.
    #[inline]
    pub fn meets(&self, start: u32, len: u32) -> bool
        requires { start + len < 2 ^ 32 }
        ensures { result ≡ meets_any start len (ranges_in self.now) }
    {
        run_meets(self.run.as_slice(), start, len) || others_meet(&self.others, start, len)
    }

    /// Adds a range, which ends no sooner than those that start before it, no later than those that start after it, and where those
    /// end that start with it.
    #[inline]
    pub fn add(&mut self, start: u32, len: u32) -> Result<(), AllocError>
        requires { All (FitsBeside start len) (ranges_in self.old) }
        ensures { OnOk result (Gains (ranges_in self.old) (ranges_in self.new) (start, len)) }
    {
        if all_below(self.run.as_slice(), start) {
            self.run.push((start, len))?;
        } else {
            self.others.insert(start, len)?;
        }
        Ok(())
    }
}
