//! The directories: which tables an image has, and where.

use super::numbers::ByteSource;
use super::plain::PlainImage;

/// The directory of the export table.
pub(super) const EXPORT: u32 = 0;

/// The directory of the import table.
pub(super) const IMPORT: u32 = 1;

/// The directory of the base relocation table.
pub(super) const BASE_RELOCATION: u32 = 5;

/// A directory that is present.
#[derive(Clone, Copy)]
pub(super) struct Directory {
    pub rva: u32,
    pub size: u32,
}

impl Directory {
    /// Whether an RVA is inside the directory's own range.
    pub fn contains(&self, rva: u32) -> bool {
        rva >= self.rva && rva - self.rva < self.size
    }
}

/// The directory of an index. It is absent if the headers do not hold it or its RVA is 0; that of the base relocation table also
/// if its Size is 0.
pub(super) fn find_directory(image: &PlainImage, index: u32) -> Option<Directory> {
    if index >= image.headers.directories() {
        return None;
    }
    let offset = image.headers.directory(index);
    let rva = image.file.u32_at(offset);
    let size = image.file.u32_at(offset.saturating_add(4));
    let is_absent = rva == 0 || (index == BASE_RELOCATION && size == 0);
    if is_absent {
        return None;
    }
    Some(Directory { rva, size })
}
