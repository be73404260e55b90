//! The lines of an image: one that it is accepted, or one for each header field, directory, section, export, import and fixup.
//!
//! [`check`] and [`dump`] read the image's file, check it and write their output:
//!
//! ```text
//! let mut reader = Counted::new(file);
//! let mut writer = Counted::new(standard_output);
//! let answer = dump(alloc, &mut reader, &mut writer);
//! ```
//!
//! [`check_sized`] and [`dump_sized`] take the file's size too, and read only as much of the file as decides the output;
//! [`check_parts`] and [`dump_parts`] read only its headers and the sections with tables, if these decide it.
//! [`check_text`] and [`dump_text`] write the output for a file that was read. [`sum`] computes its CheckSum, and [`sum_sized`] does
//! of a file of a known size. [`write_key`] adds the name or the ordinal of an import.
#![tactic(auto)]

mod dump_lines;
mod engine;
mod format;
pub mod laws;
mod parts;
mod sized;
mod sum_line;
mod table_lines;

pub use engine::{check, check_text, dump, dump_text};
pub use parts::{check_parts, dump_parts};
pub use sized::{check_sized, dump_sized};
pub use sum_line::{sum, sum_sized, sum_text};
pub use table_lines::write_key;
