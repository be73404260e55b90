//! `check_headers` and `read_headers`: the headers of an image, or the first of faults 1 to 12.

ghost use Rattle.std.specs.Prelude.{◌≡◌, ◌+◌, ◌≤◌, ◌*◌, take, drop, slice_range, OnOk, ⊤};
ghost use Rattle.pe_view.specs.View.{bytes_of, size_of};
ghost use Rattle.pe_view.specs.Faults.{Answers};
ghost use Rattle.pe_head.specs.Head.{head_of, pe_offset, magic_of, fixed_size, table_start, directory_count, coff_field, section_start};
ghost use Rattle.pe_head.specs.HeaderFaults.{head_tests};
ghost use Rattle.pe_head.specs.Checked.{checked_file};

use crate::checked::CheckedHeaders;
use crate::fields::{Fields, u16_in, u32_in};
use crate::headers::Headers;
use crate::offsets::{
    COFF_HEADER_END, NUMBER_OF_SECTIONS, SECTION_HEADER_SIZE, SIGNATURE_OFFSET, SIZE_OF_HEADERS,
    SIZE_OF_IMAGE, SIZE_OF_OPTIONAL_HEADER,
};
use crate::optional::Magic;
use pe_view::{Fault, Place, View};

/// The greatest size of a file in bytes: 2^32.
const FILE_LIMIT: u64 = 0x1_0000_0000;

/// The greatest size of a laid-out image in bytes: 2^31.
const IMAGE_LIMIT: u32 = 0x8000_0000;

/// The greatest number of sections: the limit of the Windows loader.
const SECTION_LIMIT: u16 = 96;

/// `MZ`, the first two bytes of the file.
const DOS_MAGIC: u16 = 0x5a4d;

/// `PE\0\0`, before the COFF header.
const SIGNATURE: u32 = 0x4550;

fn file_fault(number: u16, image: u16, offset: u64) -> Fault
    ensures { result ≡ record { number = number; image = image; place = Place.File offset } }
{
    Fault {
        number,
        image,
        place: Place::File(offset),
    }
}

/// The file offset of the signature, or the first of faults 1 to 5.
#[tactic(auto, unfolding(crate::specs::HeaderFaults::head_tests))]
fn signature(view: View, image: u16) -> Result<u32, Fault>
    ensures exact { Answers (take 5 (head_tests image (bytes_of view.entry))) (λ offset. offset ≡ pe_offset (bytes_of view.entry)) result }
    ensures fits { OnOk result (pe_offset (bytes_of view.entry) + 24 ≤ size_of view.entry) }
{
    let len = view.len();
    if len > FILE_LIMIT {
        return Err(file_fault(1, image, FILE_LIMIT));
    }
    if len < 64 {
        return Err(file_fault(2, image, len));
    }
    if u16_in(view, 0) != DOS_MAGIC {
        return Err(file_fault(3, image, 0));
    }
    let offset = u32_in(view, SIGNATURE_OFFSET);
    let start = u64::from(offset);
    if start + COFF_HEADER_END > len {
        return Err(file_fault(4, image, SIGNATURE_OFFSET));
    }
    if u32_in(view, start) != SIGNATURE {
        return Err(file_fault(5, image, start));
    }
    Ok(offset)
}

/// The form of the optional header, or the first of faults 6 to 8.
#[tactic(auto, unfolding(crate::specs::HeaderFaults::head_tests))]
fn form(view: View, image: u16, offset: u32) -> Result<Magic, Fault>
    requires start { offset ≡ pe_offset (bytes_of view) }
    requires fits { offset + 24 ≤ size_of view }
    ensures exact { Answers (slice_range (head_tests image (bytes_of view.entry)) 5 8) (λ magic. magic ≡ magic_of (bytes_of view.entry)) result }
    ensures table { OnOk result (table_start (bytes_of view.entry) ≤ size_of view.entry) }
    ensures fields { OnOk result (fixed_size (bytes_of view.entry) + 8 * directory_count (bytes_of view.entry) ≤ coff_field (bytes_of view.entry) 16 2) }
{
    let offset = u64::from(offset);
    let start = offset + COFF_HEADER_END;
    let magic = match view.u16_at(start) {
        Some(0x10b) => Magic::Pe32,
        Some(0x20b) => Magic::Pe32Plus,
        _ => return Err(file_fault(6, image, start)),
    };
    let fixed = magic.fixed_size();
    let count = view.u32_at(start + fixed - 4).unwrap_or(0);
    let size = u64::from(u16_in(view, offset + SIZE_OF_OPTIONAL_HEADER));
    if size < fixed + 8 * u64::from(count.min(16)) {
        return Err(file_fault(7, image, offset + SIZE_OF_OPTIONAL_HEADER));
    }
    if start + size > view.len() {
        return Err(file_fault(8, image, offset + SIZE_OF_OPTIONAL_HEADER));
    }
    Ok(magic)
}

/// Where the section table ends in the file, or the first of faults 9 and 10.
#[tactic(auto, unfolding(crate::specs::HeaderFaults::head_tests))]
fn table_end(view: View, image: u16, offset: u32) -> Result<u64, Fault>
    requires start { offset ≡ pe_offset (bytes_of view) }
    requires table { table_start (bytes_of view) ≤ size_of view }
    ensures exact { Answers (slice_range (head_tests image (bytes_of view.entry)) 8 10) (λ end. end ≡ section_start (bytes_of view.entry) (coff_field (bytes_of view.entry) 2 2)) result }
    ensures most { OnOk result (coff_field (bytes_of view.entry) 2 2 ≤ 96) }
    ensures fits { OnOk result (section_start (bytes_of view.entry) (coff_field (bytes_of view.entry) 2 2) ≤ size_of view.entry) }
{
    let offset = u64::from(offset);
    let count = u16_in(view, offset + NUMBER_OF_SECTIONS);
    if count > SECTION_LIMIT {
        return Err(file_fault(9, image, offset + NUMBER_OF_SECTIONS));
    }
    let size = u64::from(u16_in(view, offset + SIZE_OF_OPTIONAL_HEADER));
    let end = offset + COFF_HEADER_END + size + SECTION_HEADER_SIZE * u64::from(count);
    if end > view.len() {
        return Err(file_fault(10, image, offset + NUMBER_OF_SECTIONS));
    }
    Ok(end)
}

/// Ok if neither fault 11 nor 12 holds.
#[tactic(auto, unfolding(crate::specs::HeaderFaults::head_tests))]
fn check_sizes(view: View, image: u16, fields: &Fields, table_end: u64) -> Result<(), Fault>
    requires same { fields.now.view ≡ view }
    requires end { table_end ≡ section_start (bytes_of view) (coff_field (bytes_of view) 2 2) }
    ensures { Answers (drop 10 (head_tests image (bytes_of view.entry))) (λ _. ⊤) result }
{
    let offset = u64::from(fields.pe_offset());
    let size = fields.size_of_image();
    if size == 0 || size > IMAGE_LIMIT {
        return Err(file_fault(11, image, offset + COFF_HEADER_END + SIZE_OF_IMAGE));
    }
    let header_bytes = fields.size_of_headers();
    if u64::from(header_bytes) < table_end
        || u64::from(header_bytes) > view.len()
        || header_bytes > size
    {
        return Err(file_fault(12, image, offset + COFF_HEADER_END + SIZE_OF_HEADERS));
    }
    Ok(())
}

/// The headers of a file, of which nothing is copied, or the first of faults 1 to 12, whose image is the number `image`.
///
/// A fault is tested only if no fault with a smaller number holds. Allocates nothing. ("PE Format": MS-DOS Stub, Signature, COFF
/// File Header, Optional Header, Section Table.)
pub fn check_headers(view: View<'_>, image: u16) -> Result<CheckedHeaders<'_>, Fault>
    ensures { Answers (head_tests image (bytes_of view.entry)) (λ headers. checked_file headers ≡ bytes_of view.entry) result }
{
    let offset = signature(view, image)?;
    let magic = form(view, image, offset)?;
    let table_end = table_end(view, image, offset)?;
    let fields = Fields::new(view, offset, magic);
    check_sizes(view, image, &fields, table_end)?;
    Ok(CheckedHeaders::new(fields))
}

/// All headers of a file, or the first of faults 1 to 12, whose image is the number `image`: as [`check_headers`], and a copy.
pub fn read_headers(view: View, image: u16) -> Result<Headers, Fault>
    ensures { Answers (head_tests image (bytes_of view.entry)) (λ headers. headers ≡ head_of (bytes_of view.entry)) result }
{
    // The large `Headers` are made only once no fault is left, so that no early return has to drop them.
    let checked = check_headers(view, image)?;
    Ok(checked.headers())
}
