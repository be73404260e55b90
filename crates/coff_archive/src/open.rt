//! `open_archive`: the archive that a file holds, or why the file is refused as a whole.

ghost use Rattle.std.specs.Prelude.{◌≡◌, Some};
ghost use Rattle.pe_view.specs.Faults.{Answers};
ghost use Rattle.coff_archive.specs.ArchiveFile.{file_of, is_thin};
ghost use Rattle.coff_archive.specs.FileTests.{file_tests};
ghost use Rattle.coff_archive.specs.Members.{thinness};

use crate::archive::Archive;
use crate::header::file_fault;
use pe_view::{Fault, View};

/// How many bytes the file of an archive may have.
const MOST: u64 = 1 << 32;

/// The archive that a file holds; or fault 1 of a file of over 2^32 bytes, or 300 of one that begins with neither signature.
pub fn open_archive(file: &[u8]) -> Result<Archive<'_>, Fault>
    ensures { Answers (file_tests file.entry.now) (λ archive. (file_of archive ≡ file.entry.now) × (thinness file.entry.now ≡ Some (is_thin archive))) result }
{
    let view = View::new(file);
    if view.len() > MOST {
        return Err(file_fault(1, MOST));
    }
    match Archive::of(view) {
        Some(archive) => Ok(archive),
        None => Err(file_fault(300, 0)),
    }
}
