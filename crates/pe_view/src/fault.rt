//! `Fault`: the rule that a file breaks, in which image and where; and `Place`.

/// Where a fault is.
#[derive(Clone, Copy, Debug, PartialEq, Eq)]
pub enum Place {
    /// A file offset, in bytes.
    File(u64),
    /// An address relative to the image base, in bytes.
    Rva(u32),
    /// An address in the address space that images are mapped into, in bytes.
    Address(u64),
    /// The index of an item of a list.
    Item(u32),
}

/// A broken rule of the format: its number in docs/FAULTS.md, the image that breaks it, and the place.
#[derive(Clone, Copy, Debug, PartialEq, Eq)]
pub struct Fault {
    /// The number: of a fault from 1 to 93, of a finding from 101 on.
    pub number: u16,
    /// The number that the caller gave the image; 0 for objects and for calls that name no image.
    pub image: u16,
    /// Where the rule is broken.
    pub place: Place,
}
