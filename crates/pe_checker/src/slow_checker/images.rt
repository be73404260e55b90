//! A single image: its phases in order, each of which counts only if no earlier one has a fault.

use super::exports::list_exports;
use super::fixups::list_fixups;
use super::headers::Headers;
use super::imports::{Import, list_imports};
use super::numbers::File;
use super::ordering::{Faults, Phase};
use super::plain::PlainImage;
use super::sections::list_sections;
use pe_set::SetEntry;
use std::alloc::{AllocError, Global};

/// An image of a set that has no fault of its own.
#[derive(Drop)]
pub(super) struct Judged<'a> {
    pub entry: SetEntry<'a>,
    pub image: PlainImage<'a>,
    pub imports: Vec<Import>,
}

/// Lists the faults of an image that count; `None` if there is one.
pub(super) fn list_image<'a>(
    alloc: Global,
    entry: SetEntry<'a>,
    faults: &mut Faults,
) -> Result<Option<Judged<'a>>, AllocError> {
    let file = File { bytes: entry.file };
    let Some(image) = laid_out(alloc, file, faults)? else {
        return Ok(None);
    };
    if list_exports(alloc, &image, faults)? {
        return Ok(None);
    }
    let Some(imports) = list_imports(alloc, &image, faults)? else {
        return Ok(None);
    };
    if list_fixups(alloc, &image, imports.as_slice(), faults)? {
        return Ok(None);
    }
    Ok(Some(Judged {
        entry,
        image,
        imports,
    }))
}

/// The laid-out image of a file, if its headers and sections have no fault.
fn laid_out<'a>(
    alloc: Global,
    file: File<'a>,
    faults: &mut Faults,
) -> Result<Option<PlainImage<'a>>, AllocError> {
    faults.begin_phase(Phase::Headers);
    let headers = Headers::of(file);
    if faults.record(&headers.rows(file))? {
        return Ok(None);
    }
    let Some(sections) = list_sections(alloc, file, &headers, faults)? else {
        return Ok(None);
    };
    Ok(Some(PlainImage {
        file,
        headers,
        sections,
    }))
}
