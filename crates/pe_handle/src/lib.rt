//! A space of images as a program in another language holds it: a pointer, and a flag that says whether there is a space.
//!
//! The space is an [`AnySpace`], whose bytes are in memory or in their files. [`Handle::of`] puts an [`Owner`] of it into a handle,
//! and [`Handle::take`] takes the owner out again. A closed handle has none. [`share`] makes another handle of the same space,
//! which another thread may use; as long as both are open, the space is read and not moved.
//!
//! ```text
//! let space = AnySpace::mapped(map(alloc, &set, Policy::Strict)?);
//! let mut handle = Handle::of(Box::new(alloc, Owner::alone(space))?);
//! if let Some(owner) = std::mem::replace(&mut handle, Handle::closed(alloc)).take() {
//!     let first = owner.space().byte(0x1000_0000);
//!     handle = Handle::of(owner);
//! }
//! ```
#![tactic(auto)]

mod any_space;
mod box_parts;
mod handle;
mod owner;
mod owners;
mod storage;

pub use any_space::AnySpace;
pub use handle::{Handle, share};
pub use owner::Owner;
