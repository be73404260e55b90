//! Hexadecimal digits, and how many of them a number needs.

ghost use Rattle.std.specs.Prelude.{◌≡◌, ◌-◌, ◌≤◌, ◌<◌, drop};
ghost use Rattle.pe_text.specs.Text.{glyph, hex, hex_width};

/// The most hexadecimal digits that a number has.
pub(crate) const DIGITS: usize = 16;

/// The hexadecimal digits, in lower case.
const GLYPHS: [u8; 16] = *b"0123456789abcdef";

/// A hexadecimal digit, in lower case.
#[inline(always)]
fn hex_digit(digit: u8) -> u8
    requires { digit < 16 }
    ensures { result ≡ glyph digit }
{
    GLYPHS[digit as usize]
}

/// The last `width` hexadecimal digits of a number, at the end of the array. It is inlined, so that callers with a constant width
/// have no loop.
#[inline(always)]
pub(crate) fn hex_digits(width: usize, number: u64) -> [u8; DIGITS]
    requires { width ≤ 16 }
    ensures { drop (16 - width) result ≡ hex width number }
{
    let mut digits = [b'0'; DIGITS];
    for place in 0..width {
        digits[DIGITS - 1 - place] = hex_digit(((number >> (4 * place)) % 16) as u8);
    }
    digits
}

/// How many hexadecimal digits a number has: 1 for 0.
pub fn hex_width(number: u64) -> u8
    ensures value { result ≡ hex_width number }
    ensures bound { result ≤ 16 }
{
    match number.checked_ilog2() {
        Some(bit) => (bit / 4 + 1) as u8,
        None => 1,
    }
}
