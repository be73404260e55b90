//! The words of `petool at --map`.

use crate::at_words::bad_address;
use crate::job::MapFile;
use crate::map_words::file_of;
use crate::word_values::{BadValue, NoJob, address_of};
use clap::ArgMatches;
use std::alloc::Global;

/// The words of `at --map` as values.
#[derive(Drop)]
pub(crate) struct AtMapWords {
    pub files: Vec<MapFile>,
    pub addresses: Vec<u64>,
}

/// Adds the file or the address of a word: a file's has a `=`.
fn add_word<'a>(alloc: Global, words: &mut AtMapWords, value: &'a str) -> Result<(), NoJob<'a>> {
    if value.contains('=') {
        words.files.push(file_of(alloc, value, false)?)?;
        return Ok(());
    }
    match address_of(value) {
        Some(address) => {
            words.addresses.push(address)?;
            Ok(())
        }
        None => Err(NoJob::Bad(bad_address(value, "not an address of 1 to 16 hexadecimal digits"))),
    }
}

/// Whether there are files and addresses.
fn is_complete(words: &AtMapWords) -> bool {
    !words.files.as_slice().is_empty() && !words.addresses.as_slice().is_empty()
}

/// The words of `at --map` as values.
pub(crate) fn at_map_words<'a>(
    alloc: Global,
    found: &ArgMatches<'a>,
) -> Result<AtMapWords, NoJob<'a>> {
    let mut words = AtMapWords {
        files: Vec::new(alloc),
        addresses: Vec::new(alloc),
    };
    let first = found.get_str("FILE").unwrap_or("");
    add_word(alloc, &mut words, first)?;
    for value in found.get_strs("ADDRESS").unwrap_or(&[]) {
        add_word(alloc, &mut words, value)?;
    }
    if is_complete(&words) {
        return Ok(words);
    }
    Err(NoJob::Bad(BadValue {
        value: first,
        argument: "<FILE>",
        reason: "--map needs a HEX=FILE and an ADDRESS",
    }))
}
