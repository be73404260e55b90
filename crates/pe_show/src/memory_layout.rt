//! Whether a file has an image as it is laid out in memory, as `petool layout` and `petool map --write` write it.

ghost use Rattle.std.specs.Prelude.{◌≡◌, ◌==◌, option_map};
ghost use Rattle.std.specs.List.{list_all};
ghost use Rattle.pe_view.specs.View.{bytes_of};
ghost use Rattle.pe_reach.specs.Views.{seen_of, told_of};
ghost use Rattle.pe_show.specs.MemoryLayout.{first_raw, is_as_in_memory, is_empty_before, len_before};

use pe_head::{Headers, SectionHeader};
use pe_reach::ViewFile;
use pe_view::View;

/// The first section of which bytes come from the file.
fn first_raw(sections: &[SectionHeader]) -> Option<&SectionHeader>
    ensures { option_map (λ section. section.now) result ≡ first_raw sections.now }
{
    sections.iter().find(|section| section.rawlen() != 0)
}

/// How many of the bytes of a section that come from the file are before the file offset that is its RVA.
fn len_before(section: &SectionHeader) -> u32
    ensures { result ≡ len_before section.now }
{
    let gap = section
        .virtual_address
        .saturating_sub(section.pointer_to_raw_data);
    section.rawlen().min(gap)
}

/// Whether all bytes are zeros.
fn are_zeros(bytes: &[u8]) -> bool
    ensures { result ≡ list_all (λ byte. byte == 0) bytes.now }
{
    bytes.iter().all(|byte| *byte == 0)
}

/// Whether some bytes of a section are before the file offset that is its RVA, and are zeros.
fn is_empty_before(file: View, section: &SectionHeader) -> bool
    ensures { result ≡ is_empty_before (bytes_of file.entry) section.now }
{
    let len = len_before(section);
    if len == 0 {
        return false;
    }
    match file.slice(u64::from(section.pointer_to_raw_data), u64::from(len)) {
        Some(bytes) => are_zeros(bytes),
        None => false,
    }
}

/// Whether a file has its image as it is laid out in memory, as far as it shows that: it has SizeOfImage bytes, and zeros where its
/// first raw data is to be. An image whose sections have their RVAs as file offsets shows it by nothing.
pub(crate) fn is_as_in_memory(headers: &Headers, file: ViewFile) -> bool
    ensures { result ≡ is_as_in_memory (seen_of file.entry) (told_of file.entry) headers.now }
{
    if file.len() != u64::from(headers.size_of_image) {
        return false;
    }
    match first_raw(headers.sections.as_slice()) {
        Some(section) => is_empty_before(file.beginning(), section),
        None => false,
    }
}
