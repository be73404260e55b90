//! `BigObject`: the contents of a big object's file, with its sections and symbols as lists.

use crate::big_symbol::BigSymbol;
use crate::section::ObjSection;
use std::alloc::Allocator;

/// A big object (`/bigobj`), whose sections are counted in 32 bits. Its names and raw data borrow from the file.
///
/// A big object's file has no Characteristics and no optional header: read from a file they are 0 and empty, and an object with
/// others is not written as a big one.
#[derive(Drop)]
pub struct BigObject<'a, A: Allocator> {
    /// The processor that the object is for.
    pub machine: u16,
    /// When the object was created, as stored in the file.
    pub time_stamp: u32,
    /// Flags of the object, which a big one does not store: 0.
    pub characteristics: u16,
    /// The bytes of the optional header, which a big object does not store: none.
    pub optional: &'a [u8],
    /// The sections, in table order.
    pub sections: Vec<ObjSection<'a, A>, A>,
    /// The symbols, in table order.
    pub symbols: Vec<BigSymbol<'a>, A>,
}
