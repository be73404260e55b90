//! Words of the command line that are not UTF-8, as strings.
//!
//! A string cannot have such a word's bytes. So a byte that is not part of UTF-8 becomes a zero byte, which no word of a command
//! line has, and the character of the byte's number, U+0080 to U+00FF. All other bytes stay as they are, so that `=` and `/` are
//! found where they are in the word.

ghost use Rattle.std.specs.Prelude.{◌≡◌, ◌<◌, ◌≤◌, ◌∷◌, ◌++◌, ◌==◌, ℕ, List, [], length, drop, All, IfOk, IsOk, string_bytes, false};
ghost use Rattle.std.specs.Cow.{cow_slice_items};
ghost use Rattle.std.specs.List.{list_any};
ghost use Rattle.petool.specs.WordBytes.{word_bytes, Spells};

use std::alloc::{AllocError, Allocator};
use std::borrow::CowSlice;

/// What is before the character of a byte that is not part of UTF-8.
const MARK: char = '\0';

/// How many bytes of a string such a byte takes: the mark and a character of two bytes.
const MARKED_LEN: usize = 3;

/// Adds a byte that is not part of UTF-8 to the string of a word.
fn push_byte<A: Allocator>(word: &mut String<A>, byte: u8) -> Result<(), AllocError>
    ensures { IsOk result → (done : List ℕ) → 0 < byte → Spells (string_bytes word.old) done → Spells (string_bytes word.new) (done ++ byte ∷ []) }
{
    // such bytes are never ASCII, whose characters have no second byte
    if byte.is_ascii() {
        return word.push(char::from(byte));
    }
    word.push(MARK)?;
    word.push(char::from(byte))
}

/// Adds bytes that are not part of UTF-8 to the string of a word.
fn push_bytes<A: Allocator>(word: &mut String<A>, bytes: &[u8]) -> Result<(), AllocError>
    ensures { IsOk result → (done : List ℕ) → All (λ byte. 0 < byte) bytes.now → Spells (string_bytes word.old) done → Spells (string_bytes word.new) (done ++ bytes.now) }
{
    for byte in bytes {
        push_byte(word, *byte)?;
    }
    Ok(())
}

/// The string of the word with these bytes, none of which is zero.
pub(crate) fn string_of<A: Allocator + Copy>(
    alloc: A,
    bytes: &[u8],
) -> Result<String<A>, AllocError>
    ensures { All (λ byte. 0 < byte) bytes.now → IfOk result (λ word. word_bytes (string_bytes word) ≡ bytes.now) }
{
    let mut word = String::new(alloc);
    for chunk in bytes.utf8_chunks() {
        word.push_str(chunk.valid())?;
        push_bytes(&mut word, chunk.invalid())?;
    }
    Ok(word)
}

/// Whether a word is not UTF-8.
pub(crate) fn is_marked(word: &str) -> bool
    ensures mark { result ≡ list_any (λ byte. byte == 0) word.now }
    ensures plain { result ≡ false → word_bytes word.now ≡ word.now }
{
    word.as_bytes().contains(&0)
}

/// The first byte of a word, and how many bytes of the word's string it takes.
fn first_byte(rest: &[u8]) -> (u8, usize)
    requires { 0 < length rest.now }
    ensures some { 0 < result.1 }
    ensures fits { result.1 ≤ length rest.now }
    ensures value { word_bytes rest.now ≡ result.0 ∷ word_bytes (drop result.1 rest.now) }
{
    if rest.len() < MARKED_LEN || rest[0] != 0 {
        return (rest[0], 1);
    }
    let high = rest[1].saturating_sub(0xc2).wrapping_mul(64);
    (rest[2].wrapping_add(high), MARKED_LEN)
}

/// The bytes of a word.
fn unmarked<A: Allocator>(alloc: A, word: &str) -> Result<Vec<u8, A>, AllocError>
    ensures { IfOk result (λ bytes. bytes.items ≡ word_bytes word.now) }
{
    let string = word.as_bytes();
    let mut bytes = Vec::new(alloc);
    let mut at = 0;
    while at < string.len() {
        let (byte, len) = first_byte(&string[at..]);
        bytes.push(byte)?;
        at += len;
    }
    Ok(bytes)
}

/// The bytes of the word with this string.
pub(crate) fn bytes_of<A: Allocator>(
    alloc: A,
    word: &str,
) -> Result<CowSlice<'_, u8, A>, AllocError>
    ensures { IfOk result (λ bytes. cow_slice_items bytes ≡ word_bytes word.now) }
{
    if is_marked(word) {
        Ok(CowSlice::Owned(unmarked(alloc, word)?))
    } else {
        Ok(CowSlice::Borrowed(word.as_bytes()))
    }
}
