//! A slow checker of sets, [`slow_first`], which shares no reader and no search with the crates that it is compared with.
//!
//! ```text
//! let first = slow_first(alloc, &set, Policy::Strict)?;
//! assert_eq!(map(alloc, &set, Policy::Strict).err(), first.map(MapError::Fault));
//! ```
#![tactic(auto)]

mod slow_checker;

pub use slow_checker::slow_first;
