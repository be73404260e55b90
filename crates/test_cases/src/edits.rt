//! Files, and the words that change them.

use crate::numbers::number_of;
use std::alloc::Global;
use std::fs;
use std::rt::Files;

/// The greatest size of a file that a word can set.
const MOST: u64 = 0x2_0000;

/// Writes bytes over a file from an offset on; `None` if they do not fit into it.
fn put(file: &mut [u8], offset: u64, bytes: &[u8]) -> Option<()> {
    let start = usize::try_from(offset).ok()?;
    let end = start.checked_add(bytes.len())?;
    file.get_mut(start..end)?.copy_from_slice(bytes);
    Some(())
}

/// Truncates a file, or pads it with zeros, to this size.
fn resize(file: &mut Vec<u8>, len: u64) -> Option<()> {
    match usize::try_from(len) {
        Ok(len) if len as u64 <= MOST => file.resize(len, 0).ok(),
        _ => None,
    }
}

/// The bytes of pairs of digits; or two digits, `*` and a decimal number, which says how often this byte is repeated.
fn bytes_of_digits(alloc: Global, digits: &str) -> Option<Vec<u8>> {
    let Some((digits, count)) = digits.split_once("*") else {
        return hex::decode(alloc, digits).ok();
    };
    let byte = u8::from_str_radix(digits, 16).ok()?;
    vec![in alloc; byte; usize::from_str_radix(count, 10).ok()?].ok()
}

/// Writes the bytes that digits describe over a file.
fn put_digits(alloc: Global, file: &mut [u8], offset: u64, digits: &str) -> Option<()> {
    put(file, offset, &bytes_of_digits(alloc, digits)?)
}

/// Changes a file as a word says: `len=` and a size truncates it or pads it with zeros; an offset, `=` and digits write bytes over
/// it. `None` if the word has neither form, if the bytes do not fit into the file, or if memory runs out.
pub(crate) fn edit(alloc: Global, file: &mut Vec<u8>, word: &str) -> Option<()> {
    let (place, digits) = word.split_once("=")?;
    match place {
        "len" => resize(file, number_of(digits)?),
        _ => put_digits(alloc, file, number_of(place)?, digits),
    }
}

/// The file that the first word names, with the changes of the others; `None` also if it cannot be read.
pub(crate) fn edited_file<R: Files + AllocGlobal>(rt: &R, words: &str) -> Option<Vec<u8>> {
    let mut words = words.split(" ");
    let mut file = fs::read(rt, words.next()?).ok()?;
    for word in words {
        edit(rt.alloc(), &mut file, word)?;
    }
    Some(file)
}
