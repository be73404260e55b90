//! Ranges of RVAs, of which no later one ends first, and whether another range has an RVA in common with one of them.
#![tactic(auto)]

mod ranges;

pub use ranges::Ranges;
