//! A whole image: its headers and sections, its exports, imports and base relocations.
//!
//! [`read_image`] tests a file for each fault of images in the one fixed order, and returns what it read if there is none. All
//! callers that need a whole image read it by this call, so that they agree on which files are accepted:
//!
//! ```text
//! let image = read_image(alloc, file, 0)?;
//! let entry = image.layout.headers().address_of_entry_point;
//! let target = image.exports.by_name(b"CreateFileW");
//! for import in &image.imports {
//!     count += import.module.len();
//! }
//! ```
//!
//! [`lay_out`] and [`read_tables`] read as much of a file as comes before its first fault: its headers and sections, and then each
//! table before the first with a fault.
#![tactic(auto)]

mod image;
mod slots;
mod tables;

pub use image::{Image, lay_out, read_image};
pub use slots::import_at;
pub use tables::{Tables, read_relocations, read_tables};
