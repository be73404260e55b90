//! Whether a file is an archive.

ghost use Rattle.std.specs.Prelude.{◌≡◌};
ghost use Rattle.petool_page.specs.Pages.{is_archive};

use pe_text::{FileKind, file_kind};

/// Whether a file begins as an archive.
pub(crate) fn is_archive(file: &[u8]) -> bool
    ensures { result ≡ is_archive file.now }
{
    matches!(
        file_kind(file),
        Some(FileKind::Archive | FileKind::ThinArchive)
    )
}
