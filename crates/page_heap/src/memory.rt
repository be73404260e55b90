//! Memory that a caller lends.

ghost use Rattle.std.specs.Prelude.{◌≡◌, ◌%◌, ◌+◌, ◌≤◌};

use crate::bytes::Bytes;

/// Memory that a caller lends: an address and a length, both multiples of 16. Nobody else may use it from then on.
#[repr(C)]
#[derive(Drop)]
pub struct Memory {
    bytes: Bytes,
    size: usize,
    ghost whole: { bytes.size ≡ size },
    ghost units: { size % 16 ≡ 0 },
}

impl Memory {
    /// How many bytes there are.
    pub(crate) fn size(&self) -> usize
        ensures { result ≡ self.now.size }
    {
        self.size
    }

    /// The first `size` bytes, and what is behind them.
    pub(crate) fn split(self, size: usize) -> (Bytes, Memory)
        requires units { size % 16 ≡ 0 }
        requires within { size ≤ self.size }
        ensures { (result.0.size ≡ size) × (size + result.1.size ≡ self.size) }
    {
        let Memory { bytes, size: all } = self;
        let (front, bytes) = bytes.split(size);
        let size = all - size;
        (front, Memory { bytes, size })
    }
}
