//! Whether all that an export table reads is there.

ghost use Rattle.std.specs.Prelude.{◌≡◌, ◌+◌, ◌*◌, ◌<◌, ◌≤◌, ◌&&◌, ℕ, IsTrue, List, Option, nat_le, nat_lt};
ghost use Rattle.pe_layout.specs.Image.{number_at};
ghost use Rattle.pe_layout.specs.Layout.{headers_of, image_of};
ghost use Rattle.pe_parts.specs.AtHand.{has_exports, has_names, has_table, has_text, held_end};
ghost use Rattle.pe_parts.specs.Filled.{HasExports, MayHaveExports};
ghost use Rattle.pe_parts.specs.Packed.{AgreeAtHand, IsPieceAtHand};

use crate::held::{HeldPiece, field, held_piece, holds_bytes, holds_record};
use pe_head::{Directory, directory_index};
use pe_layout::Layout;

/// How many bytes the export directory table takes.
const TABLE_SIZE: u64 = 40;

/// The last piece if it contains an RVA, and otherwise the one that contains it.
fn piece_at(layout: &Layout, last: HeldPiece, rva: u32) -> HeldPiece
    requires { (k : ℕ) → last.start ≤ k → k < last.end → held_end (headers_of layout.now) k ≡ last.end }
    ensures all { (k : ℕ) → result.start ≤ k → k < result.end → held_end (headers_of layout.now) k ≡ result.end }
    ensures exact { (nat_le result.start rva && nat_lt rva result.end) ≡ has_text (headers_of layout.now) rva }
{
    if last.covers(rva) {
        last
    } else {
        held_piece(layout, rva)
    }
}

/// Whether all of these names are there, whose RVAs are in the array at an RVA. A search finds the piece of a name only if it is not
/// in that of the name before.
fn holds_names(layout: &Layout, names: u32, count: u32) -> bool
    ensures texts { IsTrue result → (k : ℕ) → k < count → IsPieceAtHand (headers_of layout.now) (number_at 4 (image_of layout.now) (names + 4 * k)) }
    ensures exact { result ≡ has_names (headers_of layout.now) (image_of layout.now) names count }
{
    if !layout.contains(names, 4 * u64::from(count)) {
        return count == 0;
    }
    let mut piece = HeldPiece { start: 0, end: 0 };
    for index in 0..count {
        let name = field(layout, names, 4 * index);
        piece = piece_at(layout, piece, name);
        if !piece.covers(name) {
            return false;
        }
    }
    true
}

/// Whether all that the export table of a directory reads is there.
fn holds_table(layout: &Layout, directory: Directory) -> bool
    ensures has { IsTrue result → (b : ℕ → ℕ) (t : ℕ → Option (List ℕ))
        → AgreeAtHand (headers_of layout.now) (image_of layout.now) b t → HasExports (image_of layout.now) b t directory }
    ensures exact { result ≡ has_table (headers_of layout.now) (image_of layout.now) directory }
{
    let rva = directory.rva;
    if !holds_record(layout, rva, TABLE_SIZE) {
        return false;
    }
    let entries = u64::from(field(layout, rva, 20));
    if !holds_bytes(layout, field(layout, rva, 28), 4 * entries) {
        return false;
    }
    let name_count = field(layout, rva, 24);
    let names = field(layout, rva, 32);
    if !holds_bytes(layout, names, 4 * u64::from(name_count)) {
        return false;
    }
    if !holds_bytes(layout, field(layout, rva, 36), 2 * u64::from(name_count)) {
        return false;
    }
    if !holds_bytes(layout, rva, u64::from(directory.size)) {
        return false;
    }
    holds_names(layout, names, name_count)
}

/// Whether all that the exports of an image depend on is there.
pub(crate) fn holds_exports(layout: &Layout) -> bool
    ensures has { IsTrue result → (b : ℕ → ℕ) (t : ℕ → Option (List ℕ))
        → AgreeAtHand (headers_of layout.now) (image_of layout.now) b t
        → MayHaveExports (image_of layout.now) b t ((image_of layout.now).directory 0) }
    ensures exact { result ≡ has_exports (headers_of layout.now) (image_of layout.now) ((image_of layout.now).directory 0) }
{
    match layout.directory(directory_index::EXPORT) {
        None => true,
        Some(directory) => holds_table(layout, directory),
    }
}
