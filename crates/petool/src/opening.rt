//! `open_word`: the file that a word of the command line names, opened for reading.

use crate::word_bytes::is_marked;
use std::fs;
use std::io::{self, Error, ErrorKind};
use std::rt::Files;

/// Opens the file that a word names for reading. std has paths as text only, so a word that is not UTF-8 names no file that it
/// opens.
pub(crate) fn open_word<R: Files>(rt: &R, word: &str) -> io::Result<R::File> {
    if is_marked(word) {
        return Err(Error::from(ErrorKind::InvalidInput));
    }
    fs::open(rt, word)
}
