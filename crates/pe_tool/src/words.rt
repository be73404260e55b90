//! `parse_words`: the job of a command line, with the policies of `map`.

use pe_space::Policy;
use pe_words::WordsError;
use std::alloc::Global;

/// The job of a command line; `map` has a policy for imports of modules that are not among the files.
pub type Job = pe_words::Job<Policy>;

/// The job of the words after the program's name.
///
/// `Bad` and `Help` contain clap's own text, or one of its form. `Memory` comes only if an allocation failed.
pub fn parse_words(alloc: Global, words: &[String]) -> Result<Job, WordsError> {
    pe_words::parse_words(alloc, words, Policy::Strict, Policy::Known)
}
