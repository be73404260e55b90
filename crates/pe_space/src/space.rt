//! `Space`: the calls of every space, which read bytes, move images and list bindings.

ghost use Rattle.std.specs.Prelude.{◌≡◌, length, None, Some, IfOk, IfErr, OnOk, OnErr, Ok, Err};
ghost use Rattle.pe_space.specs.Content.{Content, byte_at, image_at, window_at, base_at, size_at};
ghost use Rattle.pe_space.specs.Moves.{move_fault, moved, moved_counts};

use pe_set::Binding;
use pe_view::Fault;

/// How much a move changed.
#[derive(Clone, Copy, Debug, PartialEq, Eq)]
pub struct Moved {
    /// The number of fields of the image, one for each fixup.
    pub fields: u32,
    /// The number of slots, of all images, that are bound to the image's exports.
    pub slots: u32,
}

/// Images at their bases in one address space, however their bytes are stored. No call allocates.
///
/// An image's number is the index of its entry in the set, from 0.
pub trait Space {
    ghost content: { Self → Content };

    /// The byte at an address: of the address in a bound slot, of a relocated field, or as the image's file lays it out (raw data,
    /// or 0 where it has none). `None` outside images.
    fn byte(&self, address: u64) -> Option<u8>
        ensures { result ≡ byte_at (content self.now) address };

    /// The number of the image that contains `count` bytes from an address on; if `count` is 0, that contains the address.
    /// Otherwise fault 54 at [`pe_view::Place::Address`] of the address, with the image that contains it, or image 65,535 if none
    /// does.
    fn image_at(&self, address: u64, count: usize) -> Result<u16, Fault>
        ensures { result ≡ image_at (content self.now) address count };

    /// Fills a buffer with the bytes from an address on, which must be in one image; an empty buffer may be anywhere. Otherwise
    /// returns fault 54, as [`Space::image_at`] does, and leaves the buffer as it was.
    fn window(&self, address: u64, buffer: &mut [u8]) -> Result<(), Fault>
        ensures ok { OnOk result (window_at (content self.now) address (length buffer.old) ≡ Ok buffer.new) }
        ensures fault { IfErr result (λ fault. window_at (content self.now) address (length buffer.old) ≡ Err fault) }
        ensures err { OnErr result (buffer.new ≡ buffer.old) };

    /// Moves an image to another base: its fields are relocated, and the slots of all images that are bound to its exports get the
    /// new addresses.
    ///
    /// A move is refused with the first of these faults: there is no such image (55, at [`pe_view::Place::Item`] of the number);
    /// the base is not a multiple of 65,536 (44); the image would extend past the end of the address space (45); its relocations
    /// were stripped and the base is not its ImageBase (46); it would overlap another image (47). A refused move changes nothing.
    fn move_image(&mut self, image: u16, base: u64) -> Result<Moved, Fault>
        ensures ok { OnOk result ((move_fault (content self.old) image base ≡ None) × (content self.new ≡ moved (content self.old) image base)) }
        ensures counts { IfOk result (λ counts. counts ≡ moved_counts (content self.old) image) }
        ensures fault { IfErr result (λ fault. move_fault (content self.old) image base ≡ Some fault) }
        ensures err { OnErr result (content self.new ≡ content self.old) };

    /// How many images there are: at most 256.
    fn image_count(&self) -> u16
        ensures { result ≡ length (content self.now).images };

    /// The address of an image's first byte, or `None` past the last image.
    fn base_of(&self, image: u16) -> Option<u64>
        ensures { result ≡ base_at (content self.now) image };

    /// The SizeOfImage of an image in bytes, or `None` past the last image.
    fn size_of(&self, image: u16) -> Option<u32>
        ensures { result ≡ size_at (content self.now) image };

    /// The bound slots, by image and then in import order.
    fn bindings(&self) -> &[Binding]
        ensures { result.now ≡ (content self.now).bindings };
}
