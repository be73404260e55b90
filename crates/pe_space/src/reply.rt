//! `Command` and `Reply`: the calls that a list of commands makes, and what each returned.

ghost use Rattle.std.specs.Prelude.{◌≡◌, List, ℕ};

use crate::space::Moved;
use pe_view::Fault;
use std::alloc::Allocator;
use std::marker::Model;

/// One call of [`crate::Space`].
#[derive(Clone, Copy, Debug, PartialEq, Eq)]
pub enum Command {
    /// The byte at an address.
    Byte(u64),
    /// Bytes from an address on.
    Window {
        /// The address of the first byte.
        address: u64,
        /// How many bytes.
        count: u32,
    },
    /// Move an image to another base.
    Move {
        /// Its number.
        image: u16,
        /// The new base.
        base: u64,
    },
    /// The base of the image with this number.
    Base(u16),
}

/// The bytes of a window.
#[derive(Drop)]
pub struct Bytes<A: Allocator> {
    bytes: Vec<u8, A>,
}

impl<A: Allocator> Model for Bytes<A> {
    ghost Value = { List ℕ };

    ghost view = { λ b. b.bytes.items };
}

impl<A: Allocator> Bytes<A> {
    pub(crate) fn new(bytes: Vec<u8, A>) -> Bytes<A>
        ensures { result ≡ bytes.items }
    {
        Bytes { bytes }
    }

    /// The bytes, in the order of their addresses.
    pub fn as_slice(&self) -> &[u8]
        ensures { result.now ≡ self.now }
    {
        self.bytes.as_slice()
    }
}

/// What the call of a command returned.
#[derive(Drop)]
pub enum Reply<A: Allocator> {
    /// The byte, or `None` outside images.
    Byte(Option<u8>),
    /// The bytes of a window.
    Bytes(Bytes<A>),
    /// How much a move changed.
    Moved(Moved),
    /// The image's base, or `None` for a number past the last image.
    Base(Option<u64>),
    /// The fault that refused a window or a move.
    Refused(Fault),
}

/// An allocation failed.
#[derive(Clone, Copy, Debug, PartialEq, Eq)]
pub struct Stopped {
    /// How many commands were carried out: exactly the first `done`.
    pub done: usize,
}
