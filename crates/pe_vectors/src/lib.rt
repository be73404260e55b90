//! What tests of several crates share: small files, sets of them, devices that fail, and a slow checker of sets.
//!
//! Small image files with known bytes are written piece by piece at the offsets of "PE Format". One of them, VR, is rich: each
//! field in its dump has a value of its own, and each kind of string has bytes that are escaped. So a dump that confuses two
//! values, or does not escape a byte, differs from the expected one. Another, [`vf`], is a chain of any number of forwarders. No
//! writer of petool makes these files, so that a mistake in a writer cannot hide one in a reader:
//!
//! ```text
//! let file = file_of(alloc, Vector::V1)?;
//! assert_eq!(file.len(), 0x400);
//! ```
//!
//! Other modules have pieces of bytes that replace parts of a file ([`files`]), sets of files ([`members`]), an object file
//! ([`objects`]), comparisons ([`same`]), and a source and a sink over memory that work in steps and fail on demand. The checker,
//! [`slow_first`], is in the crate `pe_checker`.
//!
//! No function here stops a test: they return out of memory, and pieces outside their file, as errors, which a test unwraps:
//!
//! ```text
//! let files = files_of(rt.alloc(), &[A, B, C]).expect(&rt, "files");
//! let set = set_of(rt.alloc(), &[A, B, C], &files).expect(&rt, "memory");
//! ```
#![tactic(auto)]

mod devices;
pub mod files;
mod images;
pub mod members;
pub mod objects;
pub mod same;

pub use devices::{StepReader, StepWriter};
pub use images::vf;
pub use pe_checker::slow_first;
