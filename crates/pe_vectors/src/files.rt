//! The small files by name, and pieces of bytes that replace parts of a file.

ghost use Rattle.std.specs.Prelude.{◌+◌, ◌≤◌, IfOk, vec_len, length};

use crate::images::{made_of, put_data};
use std::alloc::{AllocError, AllocFailed, Global};

/// Why a file was not made.
#[derive(Clone, Copy, Debug, PartialEq, Eq)]
pub enum FileError {
    /// A piece that begins at this offset is not inside the file.
    Outside(usize),
    /// An allocation failed.
    Memory,
}

impl From<AllocError> for FileError {
    fn from(_error: AllocError) -> FileError {
        FileError::Memory
    }
}

impl<T: Drop> From<AllocFailed<T>> for FileError {
    fn from(_error: AllocFailed<T>) -> FileError {
        FileError::Memory
    }
}

/// Bytes at a file offset.
pub type Piece = (usize, &'static [u8]);

/// Writes pieces over a file's bytes in order, up to the first that is not inside the file.
pub fn put_pieces(file: &mut [u8], pieces: &[Piece]) -> Result<(), FileError> {
    for (offset, bytes) in pieces {
        put_inside(file, *offset, bytes)?;
    }
    Ok(())
}

/// Writes lists of pieces over a file's bytes.
fn put_lists(file: &mut [u8], lists: &[&[Piece]]) -> Result<(), FileError> {
    for pieces in lists {
        put_pieces(file, pieces)?;
    }
    Ok(())
}

/// Writes bytes at a file offset; an error if they are not inside the file.
pub(crate) fn put_inside(file: &mut [u8], offset: usize, bytes: &[u8]) -> Result<(), FileError> {
    if offset > file.len() || bytes.len() > file.len() - offset {
        return Err(FileError::Outside(offset));
    }
    put(file, offset, bytes);
    Ok(())
}

/// Writes bytes at a file offset.
pub fn put(file: &mut [u8], offset: usize, bytes: &[u8])
    requires { offset + length bytes.now ≤ length file.old }
{
    file[offset..offset + bytes.len()].copy_from_slice(bytes);
}

/// The little-endian number of at most 8 bytes at an offset, or `None` if it is not inside the file.
pub fn number(file: &[u8], offset: usize, width: usize) -> Option<u64> {
    let field = file.get(offset..)?.get(..width)?;
    let mut bytes = [0; 8];
    if width > bytes.len() {
        return None;
    }
    bytes[..width].copy_from_slice(field);
    Some(u64::from_le_bytes(bytes))
}

/// One of the small files.
#[derive(Clone, Copy, Debug)]
pub enum Vector {
    /// One section `.data` at 0x1000, with 16 bytes in the image and 512 in the file; byte i is i mod 256.
    V1,
    /// V1 with a base relocation table of one field, the four bytes at 0x1008, which contain the address 0x10001008.
    V2,
    /// V2 as PE32+: the field is the eight bytes at 0x1008, which contain the address 0x180001000.
    V3,
    /// The module `a.dll`: it exports the name `f`, ordinal 1, as a forwarder to ordinal 7 of `b`.
    Va,
    /// The module `b.dll`: it exports 0x1004 as ordinal 5, nothing as 6, and 0x1010 as ordinal 7 and as the name `g`.
    Vb,
    /// A program: it imports the name `f` of `A.DLL`, whose slot is at 0x1030.
    Vc,
    /// VC as PE32+: the slot of the import is at 0x1060.
    Vd,
    /// The module `s.dll`: VB in 0x20000 bytes, with an import of ordinal 7 of `S.DLL`, itself, whose slot is at 0x2030.
    Vs,
    /// The rich one: every field in its dump has a value of its own, every kind of string has bytes that are escaped, and its
    /// tables, at 0x20000 and 0x30000, have RVAs over 65,535. The section of the exports is larger in the image than in the file,
    /// that of the imports and base relocations smaller, and the slots of one module are in a third, which has no raw data.
    Vr,
}

/// All small files.
pub const VECTORS: [Vector; 9] = [
    Vector::V1,
    Vector::V2,
    Vector::V3,
    Vector::Va,
    Vector::Vb,
    Vector::Vc,
    Vector::Vd,
    Vector::Vs,
    Vector::Vr,
];

/// The bytes of a small file, at most 0x600.
pub fn file_of(alloc: Global, vector: Vector) -> Result<Vec<u8>, FileError>
    ensures { IfOk result (λ file. vec_len file ≤ 0x600) }
{
    let (len, has_data, lists) = made_of(vector);
    let mut file = vec![in alloc; 0; len]?;
    if has_data {
        put_data(&mut file);
    }
    put_lists(&mut file, lists)?;
    Ok(file)
}

/// A file of at most 0x600 bytes, padded with zeros and with pieces written over it.
pub fn changed(file: &[u8], pieces: &[Piece]) -> Result<[u8; 0x600], FileError> {
    let mut changed = [0; 0x600];
    if file.len() > changed.len() {
        return Err(FileError::Outside(changed.len()));
    }
    put(&mut changed, 0, file);
    put_pieces(&mut changed, pieces)?;
    Ok(changed)
}

/// The same for a small file.
pub fn changed_file(
    alloc: Global,
    vector: Vector,
    pieces: &[Piece],
) -> Result<[u8; 0x600], FileError> {
    changed(&file_of(alloc, vector)?, pieces)
}
