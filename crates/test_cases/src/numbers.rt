//! Numbers and bytes in hexadecimal digits.

use std::alloc::Global;

/// The number in hexadecimal digits, with or without `0x` before them.
pub(crate) fn number_of(word: &str) -> Option<u64> {
    let digits = word.strip_prefix("0x").unwrap_or(word);
    u64::from_str_radix(digits, 16).ok()
}

/// Appends the byte of two hexadecimal digits, and returns the string after them.
fn push_digits<'a>(bytes: &mut Vec<u8>, text: &'a str) -> Option<&'a str> {
    let (digits, rest) = text.split_at_checked(2)?;
    let byte = u8::from_str_radix(digits, 16).ok()?;
    bytes.push(byte).ok()?;
    Some(rest)
}

/// The bytes of a string in which `\x` and two hexadecimal digits are a byte; `None` also if memory runs out.
pub(crate) fn bytes_of(alloc: Global, text: &str) -> Option<Vec<u8>> {
    let mut bytes = Vec::new(alloc);
    for (index, part) in text.split("\\x").enumerate() {
        let rest = if index > 0 {
            push_digits(&mut bytes, part)?
        } else {
            part
        };
        bytes.extend_from_slice(rest.as_bytes()).ok()?;
    }
    Some(bytes)
}

/// The bytes of a module's name: `*`, a decimal number of letters `m`, a dot and an ending; otherwise as for [`bytes_of`].
pub(crate) fn name_of(alloc: Global, text: &str) -> Option<Vec<u8>> {
    let Some(rest) = text.strip_prefix("*") else {
        return bytes_of(alloc, text);
    };
    let (count, ending) = rest.split_once(".")?;
    let mut name = vec![in alloc; b'm'; usize::from_str_radix(count, 10).ok()?].ok()?;
    name.extend_from_slice(b".").ok()?;
    name.extend_from_slice(ending.as_bytes()).ok()?;
    Some(name)
}
