//! Where a string is looked up first: in up to four slots, which its last bytes and its length choose.

ghost use Rattle.std.specs.Prelude.{◌≡◌, ◌↔◌, ℕ, ◌+◌, ◌-◌, ◌≤◌, ◌<◌, ◌^◌, None, Some, IsTrue, IfSome, length, take, drop, slice_get, slice_index};
ghost use Rattle.coff_object.specs.Slots.{mark, base, offset_at, IsOpen};

use std::hash::{FoldHasher, Hasher};

/// How many of its last bytes choose a string's slots.
const LAST: usize = 256;

/// A number computed from the length and the last 256 bytes of a string, which two strings seldom share.
fn mark(text: &[u8]) -> u64
    ensures { result ≡ mark text.now }
{
    let mut hasher = FoldHasher::default();
    hasher.write(&text[text.len().saturating_sub(LAST)..]);
    let spread = (text.len() as u64).wrapping_mul(0x9e37_79b9_7f4a_7c15);
    hasher.finish().wrapping_add(spread)
}

/// The index of a string's first slot.
pub(crate) fn base(slots: &[u32], text: &[u8]) -> usize
    ensures first { result ≡ base slots.now text.now }
    ensures near { result ≤ length slots.now - 4 }
{
    mark(text) as usize & slots.len().saturating_sub(4)
}

/// The slots from an index on, four at most.
fn window(slots: &[u32], first: usize) -> &[u32]
    ensures { result.now ≡ take 4 (drop first slots.now) }
{
    let rest = &slots[first.min(slots.len())..];
    &rest[..rest.len().min(4)]
}

/// The offset of the entry that a slot names, if it has the string.
fn offset_at(entries: &[(&[u8], u64)], text: &[u8], slot: u32) -> Option<u64>
    ensures { result ≡ offset_at entries.now text.now slot }
{
    let index = slot.checked_sub(1)?;
    let entry = entries.get(index as usize)?;
    if text == entry.0 { Some(entry.1) } else { None }
}

/// The offset of a string by one of its slots.
pub(crate) fn seek(
    entries: &[(&[u8], u64)],
    text: &[u8],
    slots: &[u32],
    first: usize,
) -> Option<u64>
    ensures told { IfSome result (λ offset. (j : ℕ) × (offset_at entries.now text.now (slice_index slots.now (first + j)) ≡ Some offset)) }
    ensures missing { result ≡ None → (j : ℕ) → j < 4 → offset_at entries.now text.now (slice_index slots.now (first + j)) ≡ None }
{
    for slot in window(slots, first) {
        if let Some(offset) = offset_at(entries, text, *slot) {
            return Some(offset);
        }
    }
    None
}

/// Whether a string's last slot is free, and a slot can store the number of the string that comes after `texts` others.
pub(crate) fn is_open(slots: &[u32], first: usize, texts: usize) -> bool
    requires { first + 4 ≤ 2 ^ 64 }
    ensures { IsTrue result ↔ IsOpen slots.now first texts }
{
    texts < u32::MAX as usize && matches!(slots.get(first + 3), Some(0))
}

/// The index of a string's first free slot.
pub(crate) fn free_slot(slots: &[u32], first: usize) -> usize
    requires near { first + 4 ≤ 2 ^ 64 }
    requires open { slice_get slots.now (first + 3) ≡ Some 0 }
    ensures from { first ≤ result }
    ensures near { result < first + 4 }
    ensures free { slice_get slots.now result ≡ Some 0 }
{
    for index in first..first + 3 {
        if matches!(slots.get(index), Some(0)) {
            return index;
        }
    }
    first + 3
}
