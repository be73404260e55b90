//! `Parts`: what an object that is to be written consists of, plain or big.

use coff_read::ObjSection;
use std::alloc::Allocator;

/// An object that is to be written plain, or big if `BIG`; `S` is what its symbols are.
#[derive(Clone, Copy)]
pub(crate) struct Parts<'o, 'a, A: Allocator, S, const BIG: bool> {
    /// The processor that the object is for.
    pub machine: u16,
    /// When the object was created.
    pub time_stamp: u32,
    /// Flags of the object.
    pub characteristics: u16,
    /// The bytes of the optional header.
    pub optional: &'a [u8],
    /// The sections, in table order.
    pub sections: &'o [ObjSection<'a, A>],
    /// The symbols, in table order.
    pub symbols: &'o [S],
}
