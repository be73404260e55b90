//! The command line of the program `petool`: the job that its words describe.
//!
//! [`parse_words`] reads the words after the program's name. The policy of `map` for imports of modules that are not among the
//! files is of the caller's own type; the caller passes its two values:
//!
//! ```text
//! match parse_words(alloc, &words, Policy::Strict, Policy::Known) {
//!     Ok(Job::Check { file }) => check_file(&file),
//!     Ok(Job::Map { policy, window, files }) => map_files(policy, window, &files),
//!     // ..
//!     Err(WordsError::Help(text)) => print(&text),
//! }
//! ```
#![tactic(auto)]

mod archive_words;
mod at_map_words;
mod at_words;
mod builders;
mod commands;
mod file_words;
mod job;
mod layout_words;
mod map_words;
mod rebase_words;
mod resource_words;
mod word_values;
mod words;

pub use job::{AtPlace, Colours, Job, JsonOptions, MapFile, WordsError};
pub use words::parse_words;
