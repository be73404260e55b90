//! `file_end`: where the file of an image ends by its headers.

ghost use Rattle.std.specs.Prelude.{◌≡◌, max};
ghost use Rattle.pe_trust.specs.Overlay.{file_end, sections_end};

use pe_head::{Headers, SectionHeader};

/// The greater of an offset and the end of the raw data of all sections.
fn sections_end(sections: &[SectionHeader], least: u64) -> u64
    ensures { result ≡ max least (sections_end sections.now) }
{
    let mut end = least;
    for section in sections {
        if section.pointer_to_raw_data != 0 {
            let size = u64::from(section.size_of_raw_data);
            end = end.max(u64::from(section.pointer_to_raw_data) + size);
        }
    }
    end
}

/// Where the file of an image ends by its headers: the end of the headers or of the raw data of a section, whichever is last. What a
/// longer file has from there on is its overlay.
pub fn file_end(headers: &Headers) -> u64
    ensures { result ≡ file_end headers.now }
{
    sections_end(
        headers.sections.as_slice(),
        u64::from(headers.size_of_headers),
    )
}
