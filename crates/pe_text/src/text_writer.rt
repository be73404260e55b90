//! `TextWriter`: writes numbers and quoted strings to a sink, in pieces of at most 1,024 bytes.

ghost use Rattle.std.specs.Prelude.{◌≡◌, ◌+◌, ◌-◌, ◌^◌, ◌<◌, ◌≤◌, length, take, slice_index_or, [], decimal, flat_map, ℕ, List, true, false};
ghost use Rattle.pe_text.specs.TextWriter.{WritesAll, Finishes};
ghost use Rattle.pe_text.specs.Text.{hex, hex_at_least, is_plain, escaped, quoted};

use crate::device::{Failed, Sink};
use crate::digits::{DIGITS, hex_digits, hex_width};
use arrayvec::ArrayVec;
use itoa::write_digits;

/// The most decimal digits that a number has.
const DECIMAL_DIGITS: usize = 20;

/// The digit of a number below 10.
#[inline]
fn digit(number: u64) -> u8
    requires { number < 10 }
    ensures { result ≡ 48 + number }
{
    b'0' + number as u8
}

/// Writes text to a sink in pieces of at most 1,024 bytes.
///
/// A call adds to the text and allocates nothing; the sink is called only if the array is full, and at the end of the text. After a
/// failed write nothing more is written, and [`TextWriter::finish`] returns an error.
#[derive(Drop)]
pub struct TextWriter<'w, W: Sink> {
    writer: &'w mut W,
    held: ArrayVec<u8, 1024>,
    failed: bool,
}

/// Writes the whole piece, in as many calls as the sink needs.
pub fn write_all<W: Sink>(writer: &mut W, piece: &[u8]) -> Result<(), Failed>
    requires { W.failures writer.old < 2 ^ 64 - 1 }
    ensures { WritesAll (W.taken writer.old) (W.taken writer.new)
        (W.failures writer.old) (W.failures writer.new) result piece.now }
{
    let mut at = 0;
    while at < piece.len() {
        at += writer.write(&piece[at..])?;
    }
    Ok(())
}

/// Whether a byte needs no escape in a quoted string: it is printable, no quote and no backslash.
pub fn is_plain(byte: u8) -> bool
    ensures { result ≡ is_plain byte }
{
    matches!(byte, b' '..=b'~') && byte != b'"' && byte != b'\\'
}

/// How many bytes at the beginning of a quoted string need no escape.
fn plain_len(bytes: &[u8]) -> usize
    ensures within { result ≤ length bytes.now }
    ensures plain { (k d : ℕ) → k < result → is_plain (slice_index_or bytes.now k d) ≡ true }
    ensures other { (d : ℕ) → result < length bytes.now → is_plain (slice_index_or bytes.now result d) ≡ false }
{
    let mut len = 0;
    while len < bytes.len() && is_plain(bytes[len]) {
        len += 1;
    }
    len
}

impl<'w, W: Sink> TextWriter<'w, W> {
    ghost use Rattle.pe_text.specs.TextWriter.{IsFresh, IsReady, Stands, Adds, TellsFailure, TakesNoMore};

    /// A writer whose text goes on after the bytes that the sink has taken.
    pub fn new(writer: &'w mut W) -> TextWriter<'w, W>
        ensures same { result.writer.ghost_name ≡ writer.entry.ghost_name }
        ensures fresh { IsFresh writer.old result }
    {
        TextWriter {
            writer,
            held: ArrayVec::new(),
            failed: false,
        }
    }

    /// Whether a write has failed. Then nothing more is written, so a caller may leave out the rest of its text, and need not read
    /// it.
    #[inline]
    pub fn has_failed(&self) -> bool
        ensures tells { TellsFailure W.taken W.failures self.now result }
        ensures ends { result ≡ true → TakesNoMore W.taken W.failures self.now }
    {
        self.failed
    }

    /// Writes the held bytes and clears them; after a failed write it only clears them.
    fn flush(&mut self)
        requires { IsReady W.failures self.old }
        ensures adds { Adds W.taken W.failures self.old self.new [] }
        ensures empty { self.new.held.items ≡ [] }
    {
        if self.failed {
            self.held.clear();
            return;
        }
        let result = write_all(self.writer, self.held.as_slice());
        self.held.clear();
        self.failed = result.is_err();
    }

    /// Writes the held bytes if there is no room for another.
    fn make_room(&mut self)
        requires { IsReady W.failures self.old }
        ensures adds { Adds W.taken W.failures self.old self.new [] }
        ensures room { length self.new.held.items < 1024 }
    {
        if !self.held.is_full() {
            return;
        }
        self.flush();
    }

    /// Adds as many of the bytes as there is room for, and returns how many.
    fn hold(&mut self, bytes: &[u8]) -> usize
        requires { IsReady W.failures self.old }
        ensures fits { result ≤ length bytes.now }
        ensures some { 0 < length bytes.now → 0 < result }
        ensures adds { Adds W.taken W.failures self.old self.new (take result bytes.now) }
    {
        self.make_room();
        let count = bytes.len().min(self.held.remaining_capacity());
        self.held.try_extend_from_slice(&bytes[..count]).unwrap();
        count
    }

    /// Adds these bytes, all at once if there is room.
    #[inline]
    pub fn text(&mut self, bytes: &[u8])
        requires { IsReady W.failures self.old }
        ensures { Adds W.taken W.failures self.old self.new bytes.now }
    {
        match self.held.try_extend_from_slice(bytes) {
            Ok(()) => {}
            Err(_) => self.text_in_parts(bytes),
        }
    }

    /// Adds these bytes, as many at once as there is room for. It is a separate function so that [`TextWriter::text`], which is
    /// inlined, is short.
    #[cold]
    #[inline(never)]
    fn text_in_parts(&mut self, bytes: &[u8])
        requires { IsReady W.failures self.old }
        ensures { Adds W.taken W.failures self.old self.new bytes.now }
    {
        let mut at = 0;
        while at < bytes.len() {
            at += self.hold(&bytes[at..]);
        }
    }

    /// Adds a number below 100 in decimal.
    #[inline]
    fn two_digits(&mut self, number: u64)
        requires ready { IsReady W.failures self.old }
        requires small { number < 100 }
        ensures { Adds W.taken W.failures self.old self.new (decimal number) }
    {
        if number < 10 {
            self.text(&[digit(number)]);
        } else {
            self.text(&[digit(number / 10), digit(number % 10)]);
        }
    }

    /// Adds a number below 10,000 in decimal. Most numbers are such, and their digits are copied by no call.
    #[inline]
    fn four_digits(&mut self, number: u64)
        requires ready { IsReady W.failures self.old }
        requires small { number < 10000 }
        ensures { Adds W.taken W.failures self.old self.new (decimal number) }
    {
        let ones = digit(number % 10);
        let tens = digit(number / 10 % 10);
        let hundreds = digit(number / 100 % 10);
        if number < 100 {
            self.two_digits(number);
        } else if number < 1000 {
            self.text(&[hundreds, tens, ones]);
        } else {
            self.text(&[digit(number / 1000), hundreds, tens, ones]);
        }
    }

    /// Adds a number in decimal.
    pub fn decimal(&mut self, number: u64)
        requires { IsReady W.failures self.old }
        ensures { Adds W.taken W.failures self.old self.new (decimal number) }
    {
        if number < 10_000 {
            self.four_digits(number);
        } else {
            self.long_decimal(number);
        }
    }

    /// Adds a number in decimal, whatever its length.
    fn long_decimal(&mut self, number: u64)
        requires { IsReady W.failures self.old }
        ensures { Adds W.taken W.failures self.old self.new (decimal number) }
    {
        let mut digits = [0; DECIMAL_DIGITS];
        let start = write_digits(number, &mut digits, DECIMAL_DIGITS);
        self.text(&digits[start..]);
    }

    /// Adds the last `width` hexadecimal digits of a number.
    #[inline(always)]
    pub fn hex(&mut self, width: u8, number: u64)
        requires ready { IsReady W.failures self.old }
        requires width { width ≤ 16 }
        ensures { Adds W.taken W.failures self.old self.new (hex width number) }
    {
        let digits = hex_digits(width as usize, number);
        self.text(&digits[DIGITS - width as usize..]);
    }

    /// Adds a number in `least` hexadecimal digits, or in more if it needs them, and in 16 at most.
    pub fn hex_at_least(&mut self, least: u8, number: u64)
        requires { IsReady W.failures self.old }
        ensures { Adds W.taken W.failures self.old self.new (hex_at_least least number) }
    {
        self.hex(hex_width(number).max(least).min(16), number);
    }

    /// Adds a byte of a quoted string that needs an escape: `\x` and two digits.
    #[tactic(auto, unfolding(crate::specs::Text::escaped))]
    fn escaped(&mut self, byte: u8)
        requires ready { IsReady W.failures self.old }
        requires not_plain { is_plain byte ≡ false }
        ensures { Adds W.taken W.failures self.old self.new (escaped byte) }
    {
        self.text(b"\\x");
        self.hex(2, byte as u64);
    }

    /// Adds bytes from the beginning of a quoted string, and returns how many: all that need no escape, or else one with its
    /// escape.
    fn some_escaped(&mut self, bytes: &[u8]) -> usize
        requires ready { IsReady W.failures self.old }
        requires some { 0 < length bytes.now }
        ensures fits { result ≤ length bytes.now }
        ensures some { 0 < result }
        ensures adds { Adds W.taken W.failures self.old self.new (flat_map escaped (take result bytes.now)) }
    {
        let plain = plain_len(bytes);
        if plain == 0 {
            self.escaped(bytes[0]);
            return 1;
        }
        self.text(&bytes[..plain]);
        plain
    }

    /// Adds the bytes of a quoted string. After a failed write they are not read: strings may be long, and many.
    fn all_escaped(&mut self, bytes: &[u8])
        requires { IsReady W.failures self.old }
        ensures { Adds W.taken W.failures self.old self.new (flat_map escaped bytes.now) }
    {
        if self.failed {
            return;
        }
        let mut at = 0;
        while at < bytes.len() {
            at += self.some_escaped(&bytes[at..]);
        }
    }

    /// Adds a string in double quotes, each byte that is not printable, a quote or a backslash as `\x` and two digits.
    #[tactic(auto, unfolding(crate::specs::Text::quoted))]
    pub fn quoted(&mut self, bytes: &[u8])
        requires { IsReady W.failures self.old }
        ensures { Adds W.taken W.failures self.old self.new (quoted bytes.now) }
    {
        self.text(b"\"");
        self.all_escaped(bytes);
        self.text(b"\"");
    }

    /// Writes the held bytes. The error means that this or an earlier write failed.
    pub fn finish(&mut self) -> Result<(), Failed>
        requires { IsReady W.failures self.old }
        ensures adds { Adds W.taken W.failures self.old self.new [] }
        ensures written { (start text : List ℕ) (count : ℕ) →
            Stands W.taken W.failures self.old start text count →
            Finishes (W.taken self.new.writer.now) (W.failures self.new.writer.now) result start text count }
    {
        self.flush();
        if self.failed { Err(Failed) } else { Ok(()) }
    }
}
