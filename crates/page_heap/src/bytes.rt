//! A run of bytes that nobody else uses.

ghost use Rattle.std.specs.Prelude.{◌≡◌, ℕ, ◌+◌, ◌%◌, ◌≤◌};
ghost use Rattle.page_heap.specs.Ownership.{bytes_at};

use std::marker::Model;

/// A run of bytes that nobody else uses, from an address that is a multiple of 16.
#[repr(C)]
#[derive(Drop)]
pub struct Bytes {
    pub(crate) ptr: *mut u8,
    pub ghost size: { ℕ },
}

impl Model for Bytes {
    ghost also_owns = { λ b. bytes_at b.ptr b.size };
}

impl Bytes {
    /// The first `at` bytes, and those behind them.
    pub(crate) fn split(self, at: usize) -> (Bytes, Bytes)
        requires aligned { at % 16 ≡ 0 }
        requires within { at ≤ self.size }
        ensures { (result.0.size ≡ at) × (at + result.1.size ≡ self.size) }
    {
        let Bytes { ptr } = self;
        let behind = unsafe { ptr.add(at) };
        (Bytes { ptr }, Bytes { ptr: behind })
    }
}
