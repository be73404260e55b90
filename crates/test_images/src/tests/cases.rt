//! Common parts of the tests of one image's file.

use pe_layout::Layout;
use pe_vectors::files::{Piece, Vector, file_of, put, put_pieces};
use pe_view::View;
use std::alloc::Global;
use std::process::Abort;

/// The layout of an accepted file.
pub(super) fn layout_of<'a>(rt: &impl Abort, file: &'a [u8]) -> Layout<'a> {
    Layout::new(View::new(file), IMAGE).expect(rt, "a layout")
}

/// V1 with other bytes in its section, which is at the end of the file.
pub(super) fn with_data(rt: &impl Abort, alloc: Global, pieces: &[Piece], data: &[u8]) -> Vec<u8> {
    let mut file = file_of(alloc, Vector::V1).expect(rt, "memory");
    put_pieces(&mut file, pieces).expect(rt, "pieces in the file");
    let size = u32::try_from(data.len()).expect(rt, "a size").to_le_bytes();
    assert!(rt; file.len() == 0x400);
    put(&mut file, 0x140, &size);
    put(&mut file, 0x148, &size);
    file.truncate(0x200);
    file.extend_from_slice(data).expect(rt, "memory");
    file
}

/// The image number that tests pass.
pub(super) const IMAGE: u16 = 3;
