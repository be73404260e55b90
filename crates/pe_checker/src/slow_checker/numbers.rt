//! Little-endian numbers from single bytes.

/// Bytes by place: those of a file at its offsets, or those of a laid-out image at its RVAs.
pub(super) trait ByteSource {
    /// The byte at a place; 0 if there is none.
    fn byte(&self, place: u64) -> u8;

    /// The number in the 2 bytes from a place on.
    fn u16_at(&self, place: u64) -> u16 {
        u16::from_le_bytes([self.byte(place), self.byte(place.saturating_add(1))])
    }

    /// The number in the 4 bytes from a place on.
    fn u32_at(&self, place: u64) -> u32 {
        let low = self.u16_at(place);
        let high = self.u16_at(place.saturating_add(2));
        u32::from(low) | u32::from(high) << 16
    }

    /// The number in the 8 bytes from a place on.
    fn u64_at(&self, place: u64) -> u64 {
        let low = self.u32_at(place);
        let high = self.u32_at(place.saturating_add(4));
        u64::from(low) | u64::from(high) << 32
    }
}

/// A file.
#[derive(Clone, Copy)]
pub(super) struct File<'a> {
    pub bytes: &'a [u8],
}

impl File<'_> {
    /// Its length in bytes.
    pub fn len(&self) -> u64 {
        self.bytes.len() as u64
    }
}

impl ByteSource for File<'_> {
    fn byte(&self, place: u64) -> u8 {
        let Ok(index) = usize::try_from(place) else {
            return 0;
        };
        self.bytes.get(index).copied().unwrap_or(0)
    }
}
