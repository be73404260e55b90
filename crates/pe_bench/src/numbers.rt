//! Little-endian numbers appended to bytes, and RVAs of such bytes.

/// Appends a number of 2 bytes.
pub(crate) fn push_u16(bytes: &mut Vec<u8>, number: u32) -> Option<()> {
    let [low, high, ..] = number.to_le_bytes();
    bytes.extend_from_slice(&[low, high]).ok()
}

/// Appends a number of 4 bytes.
pub(crate) fn push_u32(bytes: &mut Vec<u8>, number: u32) -> Option<()> {
    bytes.extend_from_slice(&number.to_le_bytes()).ok()
}

/// Appends a number of 4 bytes, or of 8 if `is_wide`.
pub(crate) fn push_address(bytes: &mut Vec<u8>, is_wide: bool, number: u64) -> Option<()> {
    let all = number.to_le_bytes();
    let width = if is_wide { 8 } else { 4 };
    bytes.extend_from_slice(&all[..width]).ok()
}

/// The RVA of the next byte to append, if the first one is at `rva`.
pub(crate) fn next_rva(rva: u32, bytes: &[u8]) -> Option<u32> {
    rva.checked_add(u32::try_from(bytes.len()).ok()?)
}

/// Pads bytes with zeros to a multiple of 16.
pub(crate) fn align(bytes: &mut Vec<u8>) -> Option<()> {
    let missing = (16 - bytes.len() % 16) % 16;
    bytes.extend_from_slice(&[0; 16][..missing]).ok()
}
