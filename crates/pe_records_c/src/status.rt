//! The statuses that the calls of libpetool return.

/// Success.
pub const DONE: u32 = 0;
/// A rule of the format is broken: the fault says which, and where.
pub const FAULT: u32 = 1;
/// Out of memory.
pub const MEMORY: u32 = 2;
/// There is nothing of this kind: bytes outside the image or the file, or no such string, export, section, image or fault.
pub const ABSENT: u32 = 3;
/// There is too little room: the count says how much is needed.
pub const SMALL: u32 = 4;
/// An argument has a value that it may not have.
pub const ARGUMENT: u32 = 5;
/// The space, or the image, is not open.
pub const CLOSED: u32 = 6;
/// The images of a set have more bytes than the caller allows.
pub const LARGE: u32 = 7;
/// Another handle has the space.
pub const SHARED: u32 = 8;
