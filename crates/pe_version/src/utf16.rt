//! `decode_utf16`: the characters of UTF-16 in bytes.

ghost use Rattle.std.specs.Prelude.{◌≡◌, ◌&&◌, true, false, MatchOption, [], ◌∷◌, unwrap_or};
ghost use Rattle.std.specs.Char.Utf16.{is_high_surrogate, is_low_surrogate, lone_unit_char, surrogate_pair_char, utf16_lossy_chars};
ghost use Rattle.pe_version.specs.Units.{units, characters, starts_pair};
ghost use Rattle.pe_version.specs.UnitsLeft.{characters_left};

/// What stands for a surrogate without a partner.
const REPLACEMENT: char = '\u{fffd}';

/// The characters of UTF-16 in bytes. Nothing is allocated.
#[derive(Clone, Debug, Drop)]
pub struct DecodeUtf16<'a> {
    pub(crate) rest: &'a [u8],
}

/// The characters of UTF-16 in bytes, two a unit, the lower first: U+FFFD for each surrogate without a partner. A last byte without a
/// second is left out.
pub fn decode_utf16(bytes: &[u8]) -> DecodeUtf16<'_>
    ensures { characters_left result ≡ characters bytes.entry.now }
{
    DecodeUtf16 { rest: bytes }
}

/// The first unit, and the bytes after it.
fn first_unit(bytes: &[u8]) -> Option<(u16, &[u8])>
    ensures { MatchOption result (units bytes.now ≡ []) (λ r. units bytes.now ≡ r.0 ∷ units r.1.now) }
{
    if bytes.len() < 2 {
        return None;
    }
    Some((u16::from_le_bytes([bytes[0], bytes[1]]), &bytes[2..]))
}

/// Whether two units are a pair of surrogates.
fn is_pair(high: u16, low: u16) -> bool
    ensures { result ≡ (is_high_surrogate high && is_low_surrogate low) }
{
    (0xd800..0xdc00).contains(&high) && (0xdc00..0xe000).contains(&low)
}

/// The character of a pair of surrogates.
fn pair_char(high: u16, low: u16) -> char
    requires { (is_high_surrogate high && is_low_surrogate low) ≡ true }
    ensures { result ≡ surrogate_pair_char high low }
{
    let code = 0x1_0000 + (u32::from(high) - 0xd800) * 0x400 + (u32::from(low) - 0xdc00);
    char::from_u32(code).unwrap()
}

/// The character of a unit that is in no pair.
fn lone_char(unit: u16) -> char
    ensures { result ≡ unwrap_or (lone_unit_char unit) 0xfffd }
{
    char::from_u32(u32::from(unit)).unwrap_or(REPLACEMENT)
}

/// The character of a unit and the one at the beginning of the bytes, if they are a pair, and the bytes after them.
fn first_pair(high: u16, rest: &[u8]) -> Option<(char, &[u8])>
    ensures { MatchOption result (starts_pair high (units rest.now) ≡ false) (λ r. utf16_lossy_chars (high ∷ units rest.now) ≡ r.0 ∷ characters r.1.now) }
{
    let (low, after) = first_unit(rest)?;
    if !is_pair(high, low) {
        return None;
    }
    Some((pair_char(high, low), after))
}

/// The first character, and the bytes after its units.
fn first_char(bytes: &[u8]) -> Option<(char, &[u8])>
    ensures { MatchOption result (characters bytes.now ≡ []) (λ r. characters bytes.now ≡ r.0 ∷ characters r.1.now) }
{
    let (unit, rest) = first_unit(bytes)?;
    match first_pair(unit, rest) {
        Some(found) => Some(found),
        None => Some((lone_char(unit), rest)),
    }
}

impl<'a> Iterator for DecodeUtf16<'a> {
    ghost use Rattle.std.specs.Iterator.{YieldsFirst, item_count};

    type Item = char;

    ghost next_gives = { YieldsFirst characters_left };

    ghost remaining = { item_count characters_left };

    fn next(&mut self) -> Option<char> {
        let (character, rest) = first_char(self.rest)?;
        self.rest = rest;
        Some(character)
    }
}
