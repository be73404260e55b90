//! The engines of the program `petool`: each reads a file, checks it, and writes its output.
//!
//! An engine runs over any [`Source`] and any [`Sink`]; [`Counted`] makes one of any reader or writer of std. Its contract relates
//! the output to the bytes that it read:
//!
//! ```text
//! let mut reader = Counted::new(file);
//! let mut writer = Counted::new(standard_output);
//! let answer = check(alloc, &mut reader, &mut writer);
//! let exit = status(&answer);
//! ```
//!
//! [`parse_words`] reads the program's command line. The engines of other commands are those of the crates that name what they write,
//! as `pe_show::show`; of what stands in crates below only what the first five commands need is named here too.
#![tactic(auto)]

pub mod laws;
mod object_sized;
mod rebasing;
mod words;

pub use coff_lines::dump_object;
pub use object_sized::{dump_either_object_sized, dump_object_sized};
pub use pe_lines::{check, dump};
pub use pe_map_lines::map_report;
pub use pe_space::{Policy, SetEntry};
pub use pe_text::{Counted, Failed, Outcome, Sink, Source, ToolError, status};
pub use pe_words::{MapFile, WordsError};
pub use rebasing::{rebase, rebase_sized, rebase_summed, rebase_summed_sized};
pub use words::{Job, parse_words};
