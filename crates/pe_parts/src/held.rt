//! Which bytes of an image are there: its headers, and the sections whose raw data is there.

ghost use Rattle.std.specs.Prelude.{◌≡◌, ◌+◌, ◌^◌, ◌<◌, ◌≤◌, ◌&&◌, ℕ, IsTrue, true, nat_le, nat_lt};
ghost use Rattle.pe_layout.specs.Image.{number_at};
ghost use Rattle.pe_layout.specs.Layout.{headers_of, image_of};
ghost use Rattle.pe_parts.specs.AtHand.{held_end, has_bytes, has_record, has_text, is_before};
ghost use Rattle.pe_parts.specs.Packed.{at_hand, piece_end, IsPieceAtHand};

use pe_layout::Layout;

/// A piece of the image whose bytes are there, or the part of it from an RVA on. An end that is not after the start means that there
/// is none.
#[derive(Clone, Copy)]
pub(crate) struct HeldPiece {
    /// The RVA where it begins.
    pub start: u32,
    /// The RVA after its last byte.
    pub end: u64,
}

impl HeldPiece {
    /// Whether an RVA is in it.
    pub fn covers(self, rva: u32) -> bool
        ensures { result ≡ (nat_le self.start rva && nat_lt rva self.end) }
    {
        self.start <= rva && u64::from(rva) < self.end
    }
}

/// The piece that contains an RVA, the headers or a section, if its bytes are there; otherwise one that ends at 0.
pub(crate) fn held_piece(layout: &Layout, rva: u32) -> HeldPiece
    ensures begins { result.start ≤ rva }
    ensures ends { result.end ≡ held_end (headers_of layout.now) rva }
    ensures all { (k : ℕ) → result.start ≤ k → k < result.end → held_end (headers_of layout.now) k ≡ result.end }
{
    let header_bytes = layout.size_of_headers();
    if rva < header_bytes {
        return HeldPiece {
            start: 0,
            end: u64::from(header_bytes),
        };
    }
    let Some(section) = layout.section_at(rva) else {
        return HeldPiece { start: rva, end: 0 };
    };
    if section.pointer_to_raw_data == 0 {
        return HeldPiece { start: rva, end: 0 };
    }
    HeldPiece {
        start: section.virtual_address.max(header_bytes),
        end: u64::from(section.virtual_address) + u64::from(section.extent()),
    }
}

/// Where the piece ends that contains an RVA, the headers or a section, if its bytes are there; otherwise 0.
pub(crate) fn held_end(layout: &Layout, rva: u32) -> u64
    ensures there { (k : ℕ) → rva ≤ k → k < result → at_hand (headers_of layout.now) k ≡ true }
    ensures piece { (k : ℕ) → rva ≤ k → k < result → piece_end (headers_of layout.now) k ≡ result }
    ensures exact { result ≡ held_end (headers_of layout.now) rva }
{
    let piece = held_piece(layout, rva);
    piece.end
}

/// Whether `len` bytes at an RVA are there, in one piece.
pub(crate) fn holds_bytes(layout: &Layout, rva: u32, len: u64) -> bool
    ensures bytes { IsTrue result → (k : ℕ) → rva ≤ k → k < rva + len → at_hand (headers_of layout.now) k ≡ true }
    ensures texts { IsTrue result → (k : ℕ) → rva ≤ k → k < rva + len → IsPieceAtHand (headers_of layout.now) k }
    ensures exact { result ≡ has_bytes (headers_of layout.now) rva len }
{
    let end = held_end(layout, rva);
    len <= end.saturating_sub(u64::from(rva))
}

/// Whether `len` bytes at an RVA are in the image and there, in one piece.
pub(crate) fn holds_record(layout: &Layout, rva: u32, len: u64) -> bool
    ensures bytes { IsTrue result → (k : ℕ) → rva ≤ k → k < rva + len → at_hand (headers_of layout.now) k ≡ true }
    ensures inside { IsTrue result → rva + len ≤ (image_of layout.now).size }
    ensures small { IsTrue result → rva + len ≤ 2 ^ 31 }
    ensures exact { result ≡ has_record (headers_of layout.now) (image_of layout.now) rva len }
{
    layout.contains(rva, len) && holds_bytes(layout, rva, len)
}

/// Whether `len` bytes at an RVA are in the image, and in a piece that ends at `end`.
pub(crate) fn is_before(layout: &Layout, rva: u32, len: u32, end: u64) -> bool
    ensures before { IsTrue result → rva + len ≤ end }
    ensures inside { IsTrue result → rva + len ≤ (image_of layout.now).size }
    ensures small { IsTrue result → rva + len ≤ 2 ^ 31 }
    ensures exact { result ≡ is_before (image_of layout.now) end rva len }
{
    layout.contains(rva, u64::from(len)) && u64::from(rva + len) <= end
}

/// Whether the string at an RVA is there.
pub(crate) fn holds_text(layout: &Layout, rva: u32) -> bool
    ensures text { IsTrue result → IsPieceAtHand (headers_of layout.now) rva }
    ensures exact { result ≡ has_text (headers_of layout.now) rva }
{
    holds_bytes(layout, rva, 1)
}

/// The number in the 4 bytes at an offset of a record at an RVA of the image.
pub(crate) fn field(layout: &Layout, rva: u32, offset: u32) -> u32
    requires inside { rva + offset + 4 ≤ (image_of layout.now).size }
    requires small { rva + offset + 4 ≤ 2 ^ 31 }
    ensures { result ≡ number_at 4 (image_of layout.now) (rva + offset) }
{
    layout.u32_at(rva + offset).unwrap()
}
