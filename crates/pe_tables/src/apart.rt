//! Whether ranges have no RVA in common.

ghost use Rattle.std.specs.Prelude.{◌≤◌, IsTrue, AllPairs};
ghost use Rattle.pe_ranges.specs.Ranges.{AreApart, range_end};

/// Whether each of these ranges begins where the one before it ends, or later.
fn is_rising(ranges: &[(u32, u32)]) -> bool
    ensures { IsTrue result → AllPairs (λ range later. range_end range ≤ later.0) ranges.now }
{
    let mut end = 0_u64;
    for range in ranges {
        if u64::from(range.0) < end {
            return false;
        }
        end = u64::from(range.0) + u64::from(range.1);
    }
    true
}

/// Whether no two of these ranges have an RVA in common: they are sorted by their starts, and each is compared with the next. It
/// takes n log n steps and no memory.
pub(crate) fn are_apart(ranges: &mut [(u32, u32)]) -> bool
    ensures { IsTrue result → AllPairs AreApart ranges.old }
{
    ranges.sort_unstable_by_key(|range| range.0);
    is_rising(ranges)
}
