//! The dump of a COFF object: a line for each of three header fields, and for each section, relocation, symbol and auxiliary
//! record.
//!
//! [`dump_object`] reads the object's file, checks it and writes the dump:
//!
//! ```text
//! let mut reader = Counted::new(file);
//! let mut writer = Counted::new(standard_output);
//! let answer = dump_object(alloc, &mut reader, &mut writer);
//! ```
//!
//! [`object_text`] writes the dump for a file that was read. [`dump_either_object`] and [`either_object_text`] write that of a big
//! object too. [`dump_archive`] and [`archive_text`] write the dump of an archive of objects of either form: a line for each member,
//! and after it what these write of an object. [`extract_member`] gives what one of them holds. [`create_archive`] writes a new
//! archive. What the other texts of an archive tell in the same words is public too: [`name_fault`],
//! [`member_fault`], [`outcome_by`], [`kind_name`].
#![tactic(auto)]

mod archive_engine;
mod archive_lines;
mod either_engine;
mod engine;
pub mod laws;
mod member_faults;
mod member_file;
mod new_archive;
mod object_lines;

pub use archive_engine::{archive_text, dump_archive};
pub use archive_lines::kind_name;
pub use either_engine::{dump_either_object, either_object_text};
pub use engine::{dump_object, object_text};
pub use member_faults::{member_fault, name_fault, outcome_by};
pub use member_file::{MemberFile, extract_member};
pub use new_archive::create_archive;
