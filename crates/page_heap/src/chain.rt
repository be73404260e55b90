//! Freed blocks of one size, each of which begins with the address of the next.

ghost use Rattle.std.specs.Prelude.{◌≡◌, ℕ, ◌+◌, ◌%◌, ◌<◌, ◌≤◌};
ghost use Rattle.page_heap.specs.Ownership.{chain};

use crate::bytes::Bytes;
use std::marker::Model;
use std::ptr::null_mut;

/// Freed blocks of one size, the one that was freed last first.
#[derive(Drop)]
pub(crate) struct Chain {
    first: *mut u8,
    ghost size: { ℕ },
    ghost count: { ℕ },
}

impl Model for Chain {
    ghost also_owns = { λ c. chain c.size c.count c.first };
}

impl Chain {
    /// No blocks, each of which would have `size` bytes.
    pub(crate) fn new(_size: usize) -> Chain
        ensures { (result.size ≡ _size) × (result.count ≡ 0) }
    {
        Chain { first: null_mut() }
    }

    /// These blocks, and this one before them.
    pub(crate) fn push(self, block: Bytes) -> Chain
        requires { (block.size ≡ self.size) × (16 ≤ self.size) × (self.size % 16 ≡ 0) }
        ensures { (result.size ≡ self.size) × (result.count ≡ self.count + 1) }
    {
        let Chain { first: next } = self;
        let Bytes { ptr } = block;
        unsafe {
            (ptr as *mut *mut u8).write(next);
        }
        Chain { first: ptr }
    }

    /// The first block, and the others.
    pub(crate) fn pop(self) -> (Bytes, Chain)
        requires { 0 < self.count }
        ensures { (result.0.size ≡ self.size) × (result.1.size ≡ self.size) × (result.1.count + 1 ≡ self.count) }
    {
        let Chain { first: ptr } = self;
        let next = unsafe { (ptr as *mut *mut u8).read() };
        (Bytes { ptr }, Chain { first: next })
    }
}
