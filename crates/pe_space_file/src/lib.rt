//! The images of a set as they stand in one address space, each written as a file of its own: SizeOfImage bytes, with its fields
//! relocated to its base and addresses in its bound slots.
//!
//! [`MappedImages`] has the images of an accepted set, and writes one after the other to any sink:
//!
//! ```text
//! let images = MappedImages::open(alloc, &set, Policy::Strict)?;
//! for number in 0..images.count() {
//!     images.write_image(number, &mut writers[number])?;
//! }
//! ```
#![tactic(auto)]

mod address_range;
pub mod laws;
mod mapped_images;

pub use mapped_images::MappedImages;
pub use pe_set::{MapError, Policy, SetEntry};
