//! Sets of images: the name, base and small file of each, and the set of them.

use crate::files::{FileError, Piece, Vector, file_of, put_pieces};
use pe_set::SetEntry;
use std::alloc::{AllocError, Global};

/// An image of a set: its name, its base, and its file with pieces written over it.
#[derive(Clone, Copy)]
pub struct Member {
    pub name: &'static [u8],
    pub vector: Vector,
    pub pieces: &'static [Piece],
    pub base: u64,
}

/// VA as `a.dll`, which forms a set with `b.dll` and `c.exe`: the slot of `c.exe` gets the address of ordinal 7 of `b.dll`,
/// through `a.dll`.
pub const A: Member = Member {
    name: b"a.dll",
    vector: Vector::Va,
    pieces: &[],
    base: 0x1000_0000,
};

/// VB as `b.dll`.
pub const B: Member = Member {
    name: b"b.dll",
    vector: Vector::Vb,
    pieces: &[],
    base: 0x2000_0000,
};

/// VC as `c.exe`.
pub const C: Member = Member {
    name: b"c.exe",
    vector: Vector::Vc,
    pieces: &[],
    base: 0x40_0000,
};

/// The files of a set, each padded with zeros to 0x600 bytes.
pub fn files_of(alloc: Global, members: &[Member]) -> Result<Vec<Vec<u8>>, FileError> {
    let mut files = Vec::new(alloc);
    for member in members {
        let mut file = file_of(alloc, member.vector)?;
        file.resize(0x600, 0)?;
        put_pieces(&mut file, member.pieces)?;
        files.push(file)?;
    }
    Ok(files)
}

/// The set of these images, which borrows their files.
pub fn set_of<'a>(
    alloc: Global,
    members: &[Member],
    files: &'a [Vec<u8>],
) -> Result<Vec<SetEntry<'a>>, AllocError> {
    let mut set = Vec::new(alloc);
    for (member, file) in members.iter().zip(files) {
        let entry = SetEntry {
            name: member.name,
            file,
            base: member.base,
        };
        set.push(entry)?;
    }
    Ok(set)
}

/// Distinct names: `0000`, `0001` and so on.
pub fn names_of(alloc: Global, count: usize) -> Result<Vec<String>, AllocError> {
    let mut names = Vec::new(alloc);
    for index in 0..count {
        names.push(format!(in alloc; "{index:04x}")?)?;
    }
    Ok(names)
}

/// The set of one file under many names, each 0x10000 above the previous one.
pub fn repeated<'a>(
    alloc: Global,
    names: &'a [String],
    file: &'a [u8],
) -> Result<Vec<SetEntry<'a>>, AllocError> {
    let mut set = Vec::new(alloc);
    for (index, name) in names.iter().enumerate() {
        let entry = SetEntry {
            name: name.as_bytes(),
            file,
            base: (index as u64).wrapping_mul(0x1_0000),
        };
        set.push(entry)?;
    }
    Ok(set)
}
