//! The string of a forwarder, split into a module's name and the key of an export.

use std::alloc::{AllocError, Global};

/// The key of an export.
#[derive(Drop, PartialEq, Eq)]
pub(super) enum Wanted {
    Ordinal(u16),
    Name(Vec<u8>),
}

/// A module's name, with `.dll`, and the export to search in it.
#[derive(Drop)]
pub(super) struct Forwarder {
    pub module: Vec<u8>,
    pub wanted: Wanted,
}

/// The forwarder in a string, which is split at its last dot; `None` if it does not have the form of one.
pub(super) fn split_forwarder(alloc: Global, text: &[u8]) -> Result<Option<Forwarder>, AllocError> {
    let Some((left, right)) = split_at_last_dot(text) else {
        return Ok(None);
    };
    if left.is_empty() || right.is_empty() {
        return Ok(None);
    }
    let Some(wanted) = wanted_by(alloc, right)? else {
        return Ok(None);
    };
    let module = module_name(alloc, left)?;
    Ok(Some(Forwarder { module, wanted }))
}

/// The parts of a string before and after its last dot.
fn split_at_last_dot(text: &[u8]) -> Option<(&[u8], &[u8])> {
    let mut last_dot = None;
    for (index, byte) in text.iter().enumerate() {
        if *byte == b'.' {
            last_dot = Some(index);
        }
    }
    let dot = last_dot?;
    Some((text.get(..dot)?, text.get(dot.saturating_add(1)..)?))
}

/// The module's name on a forwarder's left side: `.dll` is added if it has no dot.
fn module_name(alloc: Global, left: &[u8]) -> Result<Vec<u8>, AllocError> {
    let mut module = Vec::from_slice(alloc, left)?;
    if !left.contains(&b'.') {
        module.extend_from_slice(b".dll")?;
    }
    Ok(module)
}

/// The key on a forwarder's right side: `#` begins an ordinal, and all else is a name.
fn wanted_by(alloc: Global, right: &[u8]) -> Result<Option<Wanted>, AllocError> {
    let Some((b'#', digits)) = right.split_first() else {
        return Ok(Some(Wanted::Name(Vec::from_slice(alloc, right)?)));
    };
    Ok(ordinal(digits).map(Wanted::Ordinal))
}

/// The number in one or more decimal digits; `None` for anything else, and above 65,535.
fn ordinal(digits: &[u8]) -> Option<u16> {
    if digits.is_empty() {
        return None;
    }
    let mut value: u32 = 0;
    for byte in digits {
        let digit = match byte {
            b'0'..=b'9' => *byte - b'0',
            _ => return None,
        };
        value = value.saturating_mul(10).saturating_add(u32::from(digit));
    }
    u16::try_from(value).ok()
}
