//! What an archive of COFF objects holds, as lines of JSON for scripts: a line for each member, and one for the archive.
//!
//! [`archive_json`] reads the archive's file and writes the lines, each one JSON object and a line feed (JSON Lines):
//!
//! ```text
//! let mut reader = Counted::new(file);
//! let mut writer = Counted::new(standard_output);
//! let answer = archive_json(alloc, b"kernel32.lib", &mut reader, &mut writer);
//! ```
//!
//! [`archive_json_text`] writes them for a file that was read. The members of each line are those of docs/JSON.md, and the contracts
//! define each byte. The outcome is that of [`coff_lines::dump_archive`].
//!
//! No memory is taken but for the file's bytes. After a failed write no further name is looked for or read.
#![tactic(auto)]

mod archive_line;
mod engine;
mod import;
pub mod laws;
mod line;
mod lines;
mod member_line;
mod symbols;

pub use engine::{archive_json, archive_json_text};
