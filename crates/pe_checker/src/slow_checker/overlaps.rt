//! Ranges of bytes, and whether two of them overlap.

/// One or more bytes from a place on.
#[derive(Clone, Copy)]
pub(super) struct Span {
    pub start: u64,
    pub len: u64,
}

impl Span {
    /// Whether a place is inside it.
    fn contains(&self, place: u64) -> bool {
        place >= self.start && place - self.start < self.len
    }

    /// Whether it overlaps another one: then one of the two begins inside the other.
    pub fn overlaps(&self, other: &Span) -> bool {
        self.contains(other.start) || other.contains(self.start)
    }

    /// Whether it overlaps one of these.
    pub fn overlaps_any(&self, others: &[Span]) -> bool {
        others.iter().any(|other| self.overlaps(other))
    }
}
