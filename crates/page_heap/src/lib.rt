//! An allocator over memory that a caller lends for one call, for programs that have no `malloc`.
//!
//! [`PageHeap::new`] takes the memory, and a `&PageHeap` is the allocator of the call's collections. It cuts blocks of 16, 32, 64
//! bytes and so on from the front of what is left. A block that is freed is kept in the list of its size, and the next request of
//! that size takes it from there. So a request and a free take a constant number of steps, and blocks take at most twice the bytes
//! that were asked for, and for each size no more than were in use at one time. What doesn't fit is an `AllocError`.
#![tactic(auto)]

mod bytes;
mod chain;
mod class;
mod free_blocks;
mod heap;
mod memory;

pub use heap::PageHeap;
pub use memory::Memory;
