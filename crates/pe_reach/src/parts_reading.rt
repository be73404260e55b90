//! `read_parts`: the headers of an image and the raw data of the sections in which its tables begin.

ghost use Rattle.std.specs.Prelude.{◌≡◌, ◌-◌, ◌+◌, ◌^◌, ◌<◌, ◌≤◌, ℕ, IsTrue, IfSome, IfOk, IfNone, IsErrOf, List, All, ◌++◌, length, take, vec_len, slice_get, is_some, MatchResult, None, true, false};
ghost use Rattle.pe_view.specs.Faults.{first_standing};
ghost use Rattle.pe_view.specs.Number.{byte_of};
ghost use Rattle.pe_head.specs.Head.{head_of};
ghost use Rattle.pe_head.specs.Section.{rawlen};
ghost use Rattle.pe_layout.specs.Piece.{holds};
ghost use Rattle.pe_layout.specs.SectionFaults.{layout_tests};
ghost use Rattle.pe_parts.specs.Packed.{IsHeld, AreHeld};
ghost use Rattle.pe_reach.specs.Parts.{Part, HasPart, HasParts, Stand};
ghost use Rattle.pe_reach.specs.PartsRead.{FailsToRead, can_begin, has_headers, begins_in, is_wanted, is_packed, place_of, next_place, packed_from, packed_end, packed_size, packed_headers};
ghost use Rattle.pe_reach.specs.PartsRead.{AreOf, EndsEarly, IsRawInside, AreNotRead};

use crate::part_source::PartSource;
use crate::reach::{MOST, headers_end};
use arrayvec::ArrayVec;
use pe_head::{Headers, SectionHeader, check_headers, directory_index};
use pe_layout::check_sections;
use pe_text::ToolError;
use pe_view::View;
use std::alloc::Allocator;

/// How many bytes are read first; the headers and section tables that linkers write are among them.
pub(crate) const FIRST: usize = 1 << 12;

/// A file of fewer bytes is read faster as a whole.
pub(crate) const LEAST: u64 = 1 << 16;

/// Parts of an image's file: its headers, and the raw data of some sections, packed.
///
/// `pe_parts::read_packed` reads the tables of the image from `bytes`, under `packed`.
#[derive(Drop)]
pub struct Parts<A: Allocator> {
    /// The headers of the file.
    pub headers: Headers,
    /// The headers under which the parts are packed.
    pub packed: Headers,
    /// The parts, one behind the other.
    pub bytes: Vec<u8, A>,
}

/// Reads `count` bytes at a file offset, and appends them to these. Returns whether the file has as many there; otherwise the bytes
/// appended mean nothing.
pub(crate) fn read_range<A: Allocator, R: PartSource>(
    reader: &mut R,
    offset: u32,
    bytes: &mut Vec<u8, A>,
    count: usize,
) -> Result<bool, ToolError>
    requires counts { R.failures reader.old < 2 ^ 64 - 1 }
    requires room { vec_len bytes.old + count < 2 ^ 62 }
    ensures early { IfOk result (λ has_all. has_all ≡ false → EndsEarly (offset + count) (R.parts reader.old) (R.parts reader.new)) }
    ensures reads { (read : List Part) × (R.parts reader.new ≡ R.parts reader.old ++ read) × MatchResult result
        (λ has_all. (R.failures reader.new ≡ R.failures reader.old) × (IsTrue has_all
        → (vec_len bytes.new ≡ vec_len bytes.old + count) × (take (vec_len bytes.old) bytes.new.items ≡ bytes.old.items)
        × ((file : List ℕ) → HasParts file read → Stand file bytes.new.items offset (vec_len bytes.old) count)))
        (FailsToRead (R.failures reader.old) (R.failures reader.new)) }
{
    let place = u64::from(offset);
    let start = bytes.len();
    if bytes.resize(start + count, 0).is_err() {
        return Err(ToolError::Memory);
    }
    let mut filled = 0;
    while filled < count {
        match reader.read_at(place + filled as u64, &mut bytes[start + filled..]) {
            Ok(0) => return Ok(false),
            Ok(more) => filled += more,
            Err(_) => return Err(ToolError::Read),
        }
    }
    Ok(true)
}

/// Whether a file of `len` bytes, which is not too large, may begin with `count` bytes.
fn can_begin(len: u64, count: usize) -> bool
    ensures { result ≡ can_begin len count }
{
    len <= MOST && count as u64 <= len
}

/// The headers of each file of `len` bytes that begins with these, twice, if these have all of them and they have none of faults 1
/// to 15.
pub(crate) fn headers_in(begin: &[u8], len: u64) -> Option<(Headers, Headers)>
    ensures exact { is_some result ≡ has_headers len begin.now }
    ensures same { IfSome result (λ both. (both.0 ≡ head_of begin.now) × (both.1 ≡ head_of begin.now)) }
    ensures held { IfSome result (λ both. both.0.size_of_headers ≤ length begin.now) }
    ensures sound { IfSome result (λ both. (len ≤ 2 ^ 32) × ((file : List ℕ) → length file ≡ len → HasPart file (record { offset = 0; bytes = begin.now })
        → (head_of file ≡ both.0) × (first_standing (layout_tests 0 file) ≡ None))) }
{
    if !can_begin(len, begin.len()) {
        return None;
    }
    let checked = match check_headers(View::new(begin), 0) {
        Ok(checked) => checked,
        Err(_) => return None,
    };
    let end = headers_end(checked).max(u64::from(checked.size_of_headers()));
    if end > begin.len() as u64 {
        return None;
    }
    let headers = checked.headers();
    if check_sections(&headers, len, 0).is_err() {
        return None;
    }
    Some((headers, checked.headers()))
}

/// Whether an RVA is in a section.
fn is_in(rva: u32, section: &SectionHeader) -> bool
    ensures { result ≡ holds rva section.now }
{
    let end = u64::from(section.virtual_address) + u64::from(section.extent());
    section.virtual_address <= rva && u64::from(rva) < end
}

/// Whether the table of a directory begins in a section.
fn has_table(headers: &Headers, section: &SectionHeader, index: usize) -> bool
    ensures { result ≡ begins_in section.now (slice_get headers.now.directories.items index) }
{
    match headers.directories.as_slice().get(index) {
        Some(directory) => is_in(directory.rva, section),
        None => false,
    }
}

/// Whether the raw data of a section is read: the section has some, and a table begins in it.
fn is_wanted(headers: &Headers, section: &SectionHeader) -> bool
    ensures some { IsTrue result → 0 < rawlen section.now }
    ensures exact { result ≡ is_wanted headers.now section.now }
{
    section.rawlen() > 0
        && (has_table(headers, section, directory_index::EXPORT)
            || (has_table(headers, section, directory_index::IMPORT)
                || has_table(headers, section, directory_index::BASE_RELOCATION)))
}

/// Whether the raw data of a section is read and packed from a place on: it is wanted, and the parts do not become longer than the
/// file, which has `len` bytes.
fn is_packed(headers: &Headers, section: &SectionHeader, len: u64, place: usize) -> bool
    requires { place ≤ len }
    ensures some { IsTrue result → 0 < rawlen section.now }
    ensures fits { IsTrue result → place + rawlen section.now ≤ len }
    ensures exact { result ≡ is_packed headers.now len place section.now }
{
    is_wanted(headers, section) && u64::from(section.rawlen()) <= len - place as u64
}

/// Reads the raw data of a section of an image's file of `len` bytes, if a table begins in it and the parts do not become longer than
/// the file, and appends it to these bytes. Returns where it is among them, or 0 if it was not read; `None` if the file has not all of
/// it.
fn read_section<A: Allocator, R: PartSource>(
    reader: &mut R,
    headers: &Headers,
    section: &SectionHeader,
    len: u64,
    bytes: &mut Vec<u8, A>,
) -> Result<Option<u32>, ToolError>
    requires counts { R.failures reader.old < 2 ^ 64 - 1 }
    requires small { len ≤ 2 ^ 32 }
    requires room { vec_len bytes.old ≤ len }
    ensures early { IfOk result (λ pointer. IfNone pointer (IsRawInside len section.now → EndsEarly len (R.parts reader.old) (R.parts reader.new))) }
    ensures place { IfOk result (λ pointer. IfSome pointer (λ pointer. (pointer ≡ place_of headers.now len (vec_len bytes.old) section.now)
        × (vec_len bytes.new ≡ next_place headers.now len (vec_len bytes.old) section.now))) }
    ensures reads { (read : List Part) × (R.parts reader.new ≡ R.parts reader.old ++ read) × MatchResult result
        (λ pointer. (R.failures reader.new ≡ R.failures reader.old) × IfSome pointer (λ pointer.
        (vec_len bytes.new ≤ len) × (vec_len bytes.old ≤ vec_len bytes.new)
        × (take (vec_len bytes.old) bytes.new.items ≡ bytes.old.items)
        × ((file : List ℕ) → HasParts file read → 0 < pointer → IsHeld file bytes.new.items section.now pointer)))
        (FailsToRead (R.failures reader.old) (R.failures reader.new)) }
{
    let place = bytes.len();
    if !is_packed(headers, section, len, place) {
        return Ok(Some(0));
    }
    let count = section.rawlen() as usize;
    if !read_range(reader, section.pointer_to_raw_data, bytes, count)? {
        return Ok(None);
    }
    Ok(Some(place as u32))
}

/// Reads the raw data of the sections of an image's file of `len` bytes in which its tables begin, and appends it to these bytes.
/// Returns the sections as they are packed; `None` if the file has not all of this.
fn read_sections<A: Allocator, R: PartSource>(
    reader: &mut R,
    headers: &Headers,
    len: u64,
    bytes: &mut Vec<u8, A>,
) -> Result<Option<ArrayVec<SectionHeader, 96>>, ToolError>
    requires counts { R.failures reader.old < 2 ^ 64 - 1 }
    requires small { len ≤ 2 ^ 32 }
    requires room { vec_len bytes.old ≤ len }
    ensures early { IfOk result (λ sections. IfNone sections (All (IsRawInside len) headers.now.sections.items → EndsEarly len (R.parts reader.old) (R.parts reader.new))) }
    ensures places { IfOk result (λ sections. IfSome sections (λ sections.
        sections.items ≡ packed_from headers.now len (vec_len bytes.old) headers.now.sections.items)) }
    ensures end { IfOk result (λ sections. IfSome sections (λ _. vec_len bytes.new ≡ packed_end headers.now len (vec_len bytes.old) headers.now.sections.items)) }
    ensures reads { (read : List Part) × (R.parts reader.new ≡ R.parts reader.old ++ read) × MatchResult result
        (λ sections. (R.failures reader.new ≡ R.failures reader.old) × IfSome sections (λ sections.
        (take (vec_len bytes.old) bytes.new.items ≡ bytes.old.items)
        × ((file : List ℕ) → HasParts file read → AreHeld file bytes.new.items headers.now.sections.items sections.items)))
        (FailsToRead (R.failures reader.old) (R.failures reader.new)) }
{
    let mut sections = ArrayVec::new();
    for section in headers.sections.as_slice() {
        let Some(pointer) = read_section(reader, headers, section, len, bytes)? else {
            return Ok(None);
        };
        sections.push(SectionHeader {
            pointer_to_raw_data: pointer,
            ..*section
        });
    }
    Ok(Some(sections))
}

/// Reads the headers of an image's file of `len` bytes, and the raw data of the sections in which its tables begin: parts of each
/// file of `len` bytes that has what was read, and such a file has none of faults 1 to 15. `None` if the file has fewer than 65,536
/// bytes, or ends before it should, or its first 4,096 bytes have not all headers, or it has one of these faults: it must be read
/// another way then.
///
/// The error is `Read` if the reader fails, or `Memory`, and then all memory is freed; a file of fewer than 65,536 bytes takes none.
/// Condition: the reader has counted fewer than 2^64 - 1 failures so far.
pub fn read_parts<A: Allocator + Copy, R: PartSource>(
    alloc: A,
    reader: &mut R,
    len: u64,
) -> Result<Option<Parts<A>>, ToolError>
    requires { R.failures reader.old < 2 ^ 64 - 1 }
    ensures parts { (read : List Part) × (R.parts reader.new ≡ R.parts reader.old ++ read) × MatchResult result
        (λ parts. (R.failures reader.new ≡ R.failures reader.old) × IfSome parts (λ parts. (file : List ℕ) → length file ≡ len → HasParts file read → AreOf parts file))
        (FailsToRead (R.failures reader.old) (R.failures reader.new)) }
    ensures left { IfOk result (λ parts. IfNone parts (AreNotRead len (R.parts reader.old) (R.parts reader.new))) }
    ensures places { IfOk result (λ parts. IfSome parts (λ parts. parts.packed ≡ packed_headers parts.headers len)) }
    ensures size { IfOk result (λ parts. IfSome parts (λ parts. length parts.bytes.items ≡ packed_size parts.headers len)) }
    ensures large { IfOk result (λ parts. IfSome parts (λ parts. 2 ^ 16 ≤ len)) }
    ensures memory { IsErrOf result ToolError.Memory → 2 ^ 16 ≤ len }
{
    if len < LEAST {
        return Ok(None);
    }
    let mut bytes = Vec::new(alloc);
    if !read_range(reader, 0, &mut bytes, FIRST)? {
        return Ok(None);
    }
    let Some((headers, packed)) = headers_in(&bytes, len) else {
        return Ok(None);
    };
    bytes.truncate(headers.size_of_headers as usize);
    let Some(sections) = read_sections(reader, &headers, len, &mut bytes)? else {
        return Ok(None);
    };
    Ok(Some(Parts {
        headers,
        packed: Headers {
            sections,
            pointer_to_symbol_table: 0,
            number_of_symbols: 0,
            ..packed
        },
        bytes,
    }))
}
