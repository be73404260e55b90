//! The laid-out image of a file, written as a file of its own: SizeOfImage bytes, as emulators and tools of memory forensics load
//! them.
//!
//! [`lay_out_parts`] reads what it writes of a file of a known size, [`lay_out_file`] a whole file from any source, and [`lay_out`] has
//! its bytes at hand:
//!
//! ```text
//! match lay_out(file, u64::MAX, &mut writer)? {
//!     ImageFile::Written => {}
//!     ImageFile::TooLarge(size) => ..,
//!     ImageFile::Refused(fault) => ..,
//! }
//! ```
#![tactic(auto)]

mod copying;
mod engine;
mod image_writer;
mod parts_engine;
mod parts_writer;
mod zeros;

pub use engine::{ImageFile, lay_out, lay_out_file};
pub use parts_engine::lay_out_parts;
