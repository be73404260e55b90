//! The words of the command line, and the message if they cannot be read.

use crate::messages::{STANDARD_OUTPUT, refuse_memory, tell_failure};
use crate::statuses::{BAD_WORDS, DEVICE_FAILED, DONE};
use crate::word_bytes::{bytes_of, string_of};
use pe_page::{ShownName, is_safe_text};
use pe_text::ToolError;
use pe_tool::parse_words;
use pe_words::WordsError;
use std::alloc::{AllocError, AllocFailed, Global};
use std::env::{self, FillError};
use std::io::ErrorKind;
use std::rt::Env;

/// The size of the buffer for a word of the command line, in bytes. Linux passes no longer words.
const WORD_BUFFER: usize = 1 << 17;

/// Why the command line has no words.
pub enum NoWords {
    /// A word is longer than the system passes.
    Unreadable,
    /// Out of memory.
    Memory,
}

impl From<AllocError> for NoWords {
    fn from(_error: AllocError) -> NoWords {
        NoWords::Memory
    }
}

impl<T: Drop> From<AllocFailed<T>> for NoWords {
    fn from(_error: AllocFailed<T>) -> NoWords {
        NoWords::Memory
    }
}

/// The words after the program's name if one of all words is not UTF-8.
fn marked_words<R: Env + Alloc>(rt: &R) -> Result<Vec<String<R::A>, R::A>, NoWords>
where
    R::A: Copy,
{
    let mut buffer = [0; WORD_BUFFER];
    let mut words = Vec::new(rt.alloc());
    for number in 1..usize::MAX {
        match rt.arg(number, &mut buffer) {
            Ok(len) => words.push(string_of(rt.alloc(), &buffer[..len])?)?,
            Err(FillError::NotPresent) => return Ok(words),
            Err(FillError::TooLong) => return Err(NoWords::Unreadable),
        }
    }
    Err(NoWords::Unreadable)
}

/// The words of the command line after the program's name, as strings; [`crate::word_bytes`] says what is in one that is not UTF-8.
pub fn words_of<R: Env + Alloc>(rt: &R) -> Result<Vec<String<R::A>, R::A>, NoWords>
where
    R::A: Copy,
{
    match env::args(rt) {
        Ok(words) => Ok(words.skip(1).collect(rt.alloc())?),
        Err(error) if error.kind() == ErrorKind::OutOfMemory => Err(NoWords::Memory),
        Err(_) => marked_words(rt),
    }
}

/// Reports why there are no words, and returns the exit status.
pub fn refuse_command_line(rt: &impl Eprint, error: NoWords) -> u8 {
    match error {
        NoWords::Unreadable => {
            let _ = eprintln!(rt; "petool: the command line cannot be read");
            BAD_WORDS
        }
        NoWords::Memory => refuse_memory(rt),
    }
}

/// A word as messages show it in quotes of their own: as it is if it may be written to a terminal, otherwise with escapes.
fn shown_word(alloc: Global, word: &str) -> Result<String, AllocError> {
    let bytes = bytes_of(alloc, word)?;
    if is_safe_text(&bytes) {
        return String::from_str(alloc, word);
    }
    let name = ShownName(&bytes);
    let quoted = format!(in alloc; "{name}")?;
    let inner = quoted.as_str().trim_matches('"');
    String::from_str(alloc, inner)
}

/// The words as messages show them.
fn shown_words(alloc: Global, words: &[String]) -> Result<Vec<String>, AllocError> {
    let mut shown = Vec::new(alloc);
    for word in words {
        shown.push(shown_word(alloc, word.as_str())?)?;
    }
    Ok(shown)
}

/// Why words as messages show them describe no job. They describe none if the words themselves don't: an escape makes no value
/// valid, and changes no `-`, `=` or `/`.
fn refusal_of(alloc: Global, shown: &[String]) -> WordsError {
    match parse_words(alloc, shown) {
        Err(error) => error,
        Ok(_) => match String::from_str(alloc, "error: a word cannot be shown\n") {
            Ok(text) => WordsError::Bad(text),
            Err(_) => WordsError::Memory,
        },
    }
}

/// What to print if the words describe no job. The text of an error has words in it, so it is made once more, from the words as
/// messages show them, if one may not be written to a terminal.
fn shown_refusal(alloc: Global, words: &[String], error: WordsError) -> WordsError {
    if words.iter().all(|word| is_safe_text(word.as_bytes())) {
        return error;
    }
    match shown_words(alloc, words) {
        Ok(shown) => refusal_of(alloc, &shown),
        Err(_) => WordsError::Memory,
    }
}

/// Prints why the words describe no job, and returns the exit status.
fn print_refusal(rt: &(impl Print + Eprint), error: WordsError) -> u8 {
    match error {
        WordsError::Help(text) => match print!(rt; "{text}") {
            Ok(()) => DONE,
            Err(error) => {
                tell_failure(rt, STANDARD_OUTPUT, ToolError::Write, Some(error));
                DEVICE_FAILED
            }
        },
        WordsError::Bad(text) => {
            let _ = eprint!(rt; "{text}");
            BAD_WORDS
        }
        WordsError::Memory => refuse_memory(rt),
    }
}

/// Reports why the words describe no job, and returns the exit status.
pub(crate) fn refuse_words<R: Print + Eprint + AllocGlobal>(
    rt: &R,
    words: &[String],
    error: WordsError,
) -> u8 {
    print_refusal(rt, shown_refusal(rt.alloc(), words, error))
}
