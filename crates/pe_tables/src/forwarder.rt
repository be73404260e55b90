//! The forwarder that a string names: a module and a key, separated by the last dot.

ghost use Rattle.std.specs.Prelude.{◌≡◌, option_map};
ghost use Rattle.pe_tables.specs.Key.{Ordinal, key_view, target_view};
ghost use Rattle.pe_tables.specs.Forwarder.{is_forwarder, ordinal_key, key_of, at_last_dot, forwarder_of};

use crate::key::{Key, Target};
use bstr::ByteSlice;
use pe_head::Directory;

/// Whether an address is that of a forwarder string: it lies in the export directory itself.
pub(crate) fn is_forwarder(directory: Directory, rva: u32) -> bool
    ensures { result ≡ is_forwarder directory rva }
{
    rva >= directory.rva && rva - directory.rva < directory.size
}

/// The ordinal that decimal digits write, if 16 bits hold it.
fn ordinal_of(digits: &[u8]) -> Option<u16>
    ensures { option_map Ordinal result ≡ ordinal_key digits.now }
{
    if digits.is_empty() {
        return None;
    }
    let mut ordinal = 0u32;
    for digit in digits {
        if !digit.is_ascii_digit() {
            return None;
        }
        ordinal = ordinal * 10 + u32::from(*digit - b'0');
        if ordinal > u32::from(u16::MAX) {
            return None;
        }
    }
    Some(ordinal as u16)
}

/// The key that a string names: `#` and decimal digits are an ordinal, any other string that is not empty is a name.
fn key_of<'a>(text: &'a [u8]) -> Option<Key<'a>>
    ensures { option_map key_view result ≡ key_of text.now }
{
    match text.split_first() {
        None => None,
        Some((b'#', digits)) => Some(Key::Ordinal(ordinal_of(digits)?)),
        Some(_) => Some(Key::Name(text)),
    }
}

/// A string before its last dot and after it.
fn at_last_dot<'a>(text: &'a [u8]) -> Option<(&'a [u8], &'a [u8])>
    ensures { option_map (λ sides. (sides.0.now, sides.1.now)) result ≡ at_last_dot text.now }
{
    match text.rfind_byte(b'.') {
        None => None,
        Some(dot) => Some((&text[..dot], &text[dot + 1..])),
    }
}

/// The forwarder that a string names: a module and a key, separated by the last dot.
pub(crate) fn forwarder_of<'a>(text: &'a [u8]) -> Option<Target<'a>>
    ensures { option_map target_view result ≡ forwarder_of text.now }
{
    let (module, key) = at_last_dot(text)?;
    if module.is_empty() {
        return None;
    }
    let key = key_of(key)?;
    Some(Target::Forward { module, key })
}
