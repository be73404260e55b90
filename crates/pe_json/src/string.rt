//! Strings and numbers of a line of JSON, written into its text.

ghost use Rattle.std.specs.Prelude.{◌≡◌, ◌++◌, ◌<◌, ◌≤◌, List, ℕ, codes, decimal, false, flat_map, length, option_map, slice_index, take, true};
ghost use Rattle.std.specs.List.{list_all};
ghost use Rattle.std.specs.Char.{encode_utf8};
ghost use Rattle.std.specs.Str.{is_utf8};
ghost use Rattle.json.specs.Print.{escape_letter, escape_byte, escape, quoted};
ghost use Rattle.pe_text.specs.Text.{hex, hex_at_least};
ghost use Rattle.pe_text.specs.TextWriter.{IsReady, Adds};
ghost use Rattle.pe_json.specs.Shown.{is_hidden, shown, shown_character};
ghost use Rattle.pe_json.specs.Strings.{is_plain, name_value, value_if, number_value_if, wide_value_if};

use pe_text::{Sink, TextWriter};
use std::str;

/// Whether a byte of a string stands for itself, whatever follows it. 0xc2, 0xe2 and 0xef begin characters of which some are hidden.
#[inline]
fn is_plain(byte: u8) -> bool
    ensures { result ≡ is_plain byte }
{
    byte >= 0x20
        && byte != b'"'
        && byte != b'\\'
        && byte != 0x7f
        && byte != 0xc2
        && byte != 0xe2
        && byte != 0xef
}

/// Whether all bytes of a piece stand for themselves: all are looked at, which goes by vectors.
#[inline]
fn is_plain_piece(piece: &[u8; 16]) -> bool
    ensures { result ≡ list_all is_plain piece.now }
{
    let mut all = true;
    for byte in piece {
        all &= is_plain(*byte);
    }
    all
}

fn are_plain_pieces(pieces: &[[u8; 16]]) -> bool
    ensures { result ≡ list_all (list_all is_plain) pieces.now }
{
    pieces.iter().all(|piece| is_plain_piece(piece))
}

fn are_plain_bytes(bytes: &[u8]) -> bool
    ensures { result ≡ list_all is_plain bytes.now }
{
    bytes.iter().all(|byte| is_plain(*byte))
}

/// Whether all bytes of a text stand for themselves, as those of nearly all names do.
fn is_plain_text(text: &[u8]) -> bool
    ensures { result ≡ list_all is_plain text.now }
{
    let (pieces, rest) = text.as_chunks::<16>();
    are_plain_pieces(pieces) && are_plain_bytes(rest)
}

/// The letter of a byte's short escape, or 0 where it has none.
fn escape_letter(byte: u8) -> u8
    ensures { result ≡ escape_letter byte }
{
    match byte {
        b'"' | b'\\' => byte,
        0x08 => b'b',
        0x0c => b'f',
        b'\n' => b'n',
        b'\r' => b'r',
        b'\t' => b't',
        _ => 0,
    }
}

/// Adds a byte of a string, a control character, a quote and a backslash by its shortest escape.
#[tactic(auto, unfolding(json::specs::Print::escape_byte))]
fn write_byte<W: Sink>(text: &mut TextWriter<W>, byte: u8)
    requires { IsReady W.failures text.old }
    ensures { Adds W.taken W.failures text.old text.new (escape_byte byte) }
{
    let letter = escape_letter(byte);
    if letter > 0 {
        text.text(&[b'\\', letter]);
    } else if byte < 0x20 {
        text.text(b"\\u00");
        text.hex(2, byte as u64);
    } else {
        text.text(&[byte]);
    }
}

/// Adds the bytes of a string one by one. It stands apart so that callers hold what stands for itself in line.
#[cold]
#[inline(never)]
fn write_bytes<W: Sink>(text: &mut TextWriter<W>, bytes: &[u8])
    requires { IsReady W.failures text.old }
    ensures { Adds W.taken W.failures text.old text.new (escape bytes.now) }
{
    for byte in bytes {
        write_byte(text, *byte);
    }
}

/// Adds the bytes of a fixed text, with escapes.
fn write_escaped<W: Sink>(text: &mut TextWriter<W>, bytes: &[u8])
    requires { IsReady W.failures text.old }
    ensures { Adds W.taken W.failures text.old text.new (escape bytes.now) }
{
    if is_plain_text(bytes) {
        text.text(bytes);
    } else {
        write_bytes(text, bytes);
    }
}

/// Whether a character of a string is hidden: a terminal or an editor obeys it, or nobody sees it.
#[inline]
fn is_hidden(character: char) -> bool
    ensures { result ≡ is_hidden character }
{
    matches!(character, '\u{7f}'..='\u{9f}' | '\u{2028}'..='\u{202e}' | '\u{2066}'..='\u{2069}' | '\u{feff}')
}

/// Adds a character that is not hidden.
fn write_seen<W: Sink>(text: &mut TextWriter<W>, character: char)
    requires { IsReady W.failures text.old }
    ensures { Adds W.taken W.failures text.old text.new (escape (encode_utf8 character)) }
{
    if character < '\u{80}' {
        write_byte(text, character as u8);
        return;
    }
    let mut bytes = [0; 4];
    text.text(character.encode_utf8(&mut bytes).as_bytes());
}

/// Adds a character of a string.
#[tactic(auto, unfolding(crate::specs::Shown::shown_character))]
pub(crate) fn write_character<W: Sink>(text: &mut TextWriter<W>, character: char)
    requires { IsReady W.failures text.old }
    ensures { Adds W.taken W.failures text.old text.new (shown_character character) }
{
    if is_hidden(character) {
        text.text(b"\\u");
        text.hex(4, character as u64);
    } else {
        write_seen(text, character);
    }
}

/// How many bytes at the beginning stand for themselves.
fn plain_len(bytes: &[u8]) -> usize
    ensures within { result ≤ length bytes.now }
    ensures plain { list_all is_plain (take result bytes.now) ≡ true }
    ensures ends { result < length bytes.now → is_plain (slice_index bytes.now result) ≡ false }
{
    for (place, byte) in bytes.iter().enumerate() {
        if !is_plain(*byte) {
            return place;
        }
    }
    bytes.len()
}

/// Adds what stands for itself at the beginning of a text, and the character after it, and returns what follows.
fn write_run<'a, W: Sink>(text: &mut TextWriter<W>, string: &'a str) -> &'a str
    requires ready { IsReady W.failures text.old }
    requires some { 0 < length string.now }
    ensures adds { (run : List ℕ) × Adds W.taken W.failures text.old text.new run × (shown string.entry.now ≡ run ++ shown result.now) }
    ensures shorter { length result.now < length string.entry.now }
{
    let (run, rest) = string.split_at(plain_len(string.as_bytes()));
    text.text(run.as_bytes());
    let mut characters = rest.chars();
    let Some(character) = characters.next() else {
        return rest;
    };
    write_character(text, character);
    characters.as_str()
}

/// Adds a string in runs. It stands apart so that callers hold what stands for itself in line.
#[cold]
#[inline(never)]
fn write_runs<W: Sink>(text: &mut TextWriter<W>, string: &str)
    requires { IsReady W.failures text.old }
    ensures { Adds W.taken W.failures text.old text.new (shown string.now) }
{
    let mut rest = string;
    while !rest.is_empty() {
        rest = write_run(text, rest);
    }
}

/// Adds the characters of a string, as JSON shows them.
pub(crate) fn write_string<W: Sink>(text: &mut TextWriter<W>, string: &str)
    requires { IsReady W.failures text.old }
    ensures { Adds W.taken W.failures text.old text.new (shown string.now) }
{
    let bytes = string.as_bytes();
    if is_plain_text(bytes) {
        text.text(bytes);
    } else {
        write_runs(text, string);
    }
}

/// Adds two hexadecimal digits for each byte.
pub(crate) fn write_digits<W: Sink>(text: &mut TextWriter<W>, bytes: &[u8])
    requires { IsReady W.failures text.old }
    ensures { Adds W.taken W.failures text.old text.new (flat_map (hex 2) bytes.now) }
{
    for byte in bytes {
        text.hex(2, u64::from(*byte));
    }
}

/// Adds a fixed text in quotes, which is ASCII: no file has a say in it.
#[tactic(auto, unfolding(json::specs::Print::quoted))]
pub fn write_quoted<W: Sink>(text: &mut TextWriter<W>, name: &[u8])
    requires { IsReady W.failures text.old }
    ensures { Adds W.taken W.failures text.old text.new (quoted name.now) }
{
    text.text(b"\"");
    write_escaped(text, name);
    text.text(b"\"");
}

/// Adds a name after one of two keys, each with all that comes before the first byte of the string.
fn write_whole_name<W: Sink>(text: &mut TextWriter<W>, key: &[u8], key_hex: &[u8], name: &[u8])
    requires { IsReady W.failures text.old }
    ensures { Adds W.taken W.failures text.old text.new (name_value (is_utf8 name.now) key.now key_hex.now name.now) }
{
    match str::from_utf8(name) {
        Ok(name) => {
            text.text(key);
            write_string(text, name);
        }
        Err(_) => {
            text.text(key_hex);
            write_digits(text, name);
        }
    }
    text.text(b"\"");
}

/// Adds a name after the first key if it is UTF-8, and else its hexadecimal digits after the second. After a failed write the name
/// is not read: names may be long, and many.
pub fn write_name<W: Sink>(text: &mut TextWriter<W>, key: &[u8], key_hex: &[u8], name: &[u8])
    requires { IsReady W.failures text.old }
    ensures { Adds W.taken W.failures text.old text.new (name_value (is_utf8 name.now) key.now key_hex.now name.now) }
{
    if text.has_failed() {
        return;
    }
    write_whole_name(text, key, key_hex, name);
}

/// Adds a number after its key.
#[inline]
pub fn write_number<W: Sink>(text: &mut TextWriter<W>, key: &[u8], number: u64)
    requires { IsReady W.failures text.old }
    ensures { Adds W.taken W.failures text.old text.new (key.now ++ decimal number) }
{
    text.text(key);
    text.decimal(number);
}

/// Adds a number of 64 bits after its key, as a string of hexadecimal digits. The key ends with what comes before the digits.
#[inline]
pub(crate) fn write_wide<W: Sink>(text: &mut TextWriter<W>, key: &[u8], number: u64)
    requires { IsReady W.failures text.old }
    ensures { Adds W.taken W.failures text.old text.new (key.now ++ (hex_at_least 1 number ++ codes "\"")) }
{
    text.text(key);
    text.hex_at_least(1, number);
    text.text(b"\"");
}

/// Adds a string after its key, if there is one.
pub fn write_text_if<W: Sink>(text: &mut TextWriter<W>, key: &[u8], name: Option<&str>)
    requires { IsReady W.failures text.old }
    ensures { Adds W.taken W.failures text.old text.new (value_if key.now (option_map (λ name. name.now) name.entry)) }
{
    let Some(name) = name else {
        return;
    };
    text.text(key);
    text.text(b"\"");
    write_string(text, name);
    text.text(b"\"");
}

/// Adds a number after its key, if there is one.
pub(crate) fn write_number_if<W: Sink>(text: &mut TextWriter<W>, key: &[u8], number: Option<u64>)
    requires { IsReady W.failures text.old }
    ensures { Adds W.taken W.failures text.old text.new (number_value_if key.now number) }
{
    let Some(number) = number else {
        return;
    };
    write_number(text, key, number);
}

/// Adds a number of 64 bits after its key, as [`write_wide`] does, if there is one.
pub(crate) fn write_wide_if<W: Sink>(text: &mut TextWriter<W>, key: &[u8], number: Option<u64>)
    requires { IsReady W.failures text.old }
    ensures { Adds W.taken W.failures text.old text.new (wide_value_if key.now number) }
{
    let Some(number) = number else {
        return;
    };
    write_wide(text, key, number);
}
