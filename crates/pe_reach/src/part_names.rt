//! `read_names`: the string table of an image of whose file parts were read.

ghost use Rattle.std.specs.Prelude.{◌≡◌, ◌-◌, ◌+◌, ◌*◌, ◌^◌, ◌<◌, ◌≤◌, ℕ, IsTrue, false, IfSome, IfOk, IfNone, List, ◌++◌, length, map, max, option_map, take, vec_len, MatchResult};
ghost use Rattle.std.specs.List.{list_all};
ghost use Rattle.std.specs.Option.{MatchOption};
ghost use Rattle.pe_view.specs.Number.{num, byte_of};
ghost use Rattle.pe_head.specs.declared.headers.Headers.{Headers};
ghost use Rattle.coff_read.specs.ImageNames.{image_strings, table_of, strings_start, strings_size};
ghost use Rattle.pe_reach.specs.Parts.{Part, HasParts, Stand};
ghost use Rattle.pe_reach.specs.PartsRead.{FailsToRead, EndsEarly, AddNames};
ghost use Rattle.pe_reach.specs.PartNames.{with_strings, is_named, AreNotNamed, AreWithNames};
ghost use Rattle.pe_reach.specs.Views.{names_under};

use crate::names::{has_long_name, strings_start};
use crate::part_source::PartSource;
use crate::parts_reading::{Parts, read_range};
use coff_read::{ImageStrings, section_name};
use pe_head::{Headers, SectionHeader};
use pe_text::ToolError;
use pe_view::View;
use std::alloc::Allocator;

/// How many bytes the size of a string table takes, which counts itself.
const SIZE_LEN: usize = 4;

/// How many bytes of a longer string table are read first, with its size; linkers write the names of sections there.
const FIRST_LEN: usize = 1 << 12;

impl<A: Allocator> Parts<A> {
    /// The string table, if it was read and the image has one.
    pub fn strings(&self) -> Option<ImageStrings<'_>>
        ensures { option_map table_of result ≡ image_strings self.now.bytes.items self.now.packed }
    {
        ImageStrings::new(View::new(&self.bytes), &self.packed)
    }
}

/// Reads the size in the first 4 bytes of the string table at a file offset. The parts' bytes are used meanwhile, and stay as they
/// are. `None` if the file ends before.
fn read_size<A: Allocator, R: PartSource>(
    reader: &mut R,
    offset: u32,
    bytes: &mut Vec<u8, A>,
) -> Result<Option<u32>, ToolError>
    requires counts { R.failures reader.old < 2 ^ 64 - 1 }
    requires room { vec_len bytes.old ≤ 2 ^ 32 }
    ensures early { IfOk result (λ size. IfNone size (EndsEarly (offset + 4) (R.parts reader.old) (R.parts reader.new))) }
    ensures reads { (read : List Part) × (R.parts reader.new ≡ R.parts reader.old ++ read) × MatchResult result
        (λ size. (R.failures reader.new ≡ R.failures reader.old) × IfSome size (λ size. (bytes.new.items ≡ bytes.old.items)
        × ((file : List ℕ) → HasParts file read → num (byte_of file) offset 4 ≡ size)))
        (FailsToRead (R.failures reader.old) (R.failures reader.new)) }
{
    let start = bytes.len();
    if !read_range(reader, offset, bytes, SIZE_LEN)? {
        return Ok(None);
    }
    let Some(size) = View::new(bytes).u32_at(start as u64) else {
        return Ok(None);
    };
    bytes.truncate(start);
    Ok(Some(size))
}

/// Whether the name of a section, where the image has this string table, is no field that leads to a string: that the field leads to
/// none, or the string begins and ends in the table.
fn is_named(strings: Option<ImageStrings>, section: &SectionHeader) -> bool
    ensures { result ≡ is_named (option_map table_of strings.entry) section.now }
{
    section_name(strings, &section.name).first() != Some(&b'/')
}

/// Whether this is so of all sections.
fn are_named(strings: Option<ImageStrings>, sections: &[SectionHeader]) -> bool
    ensures { result ≡ list_all (is_named (option_map table_of strings.entry)) sections.now }
{
    sections.iter().all(|section| is_named(strings, section))
}

/// Appends a string table of [`FIRST_LEN`] bytes, whose strings are the first ones of that at a file offset. Returns whether the file
/// has as many bytes there; otherwise the bytes appended mean nothing.
fn read_first_strings<A: Allocator, R: PartSource>(
    reader: &mut R,
    offset: u32,
    bytes: &mut Vec<u8, A>,
) -> Result<bool, ToolError>
    requires counts { R.failures reader.old < 2 ^ 64 - 1 }
    requires room { vec_len bytes.old ≤ 2 ^ 32 }
    requires small { offset + 4096 < 2 ^ 32 }
    ensures early { IfOk result (λ has_all. has_all ≡ false → EndsEarly (offset + 4096) (R.parts reader.old) (R.parts reader.new)) }
    ensures reads { (read : List Part) × (R.parts reader.new ≡ R.parts reader.old ++ read) × MatchResult result
        (λ has_all. (R.failures reader.new ≡ R.failures reader.old) × (IsTrue has_all
        → (vec_len bytes.new ≡ vec_len bytes.old + 4096) × (take (vec_len bytes.old) bytes.new.items ≡ bytes.old.items)
        × (num (byte_of bytes.new.items) (vec_len bytes.old) 4 ≡ 4096)
        × ((file : List ℕ) → HasParts file read → Stand file bytes.new.items (offset + 4) (vec_len bytes.old + 4) 4092)))
        (FailsToRead (R.failures reader.old) (R.failures reader.new)) }
{
    let size = (FIRST_LEN as u32).to_le_bytes();
    if bytes.extend_from_slice(&size).is_err() {
        return Err(ToolError::Memory);
    }
    read_range(
        reader,
        offset + SIZE_LEN as u32,
        bytes,
        FIRST_LEN - SIZE_LEN,
    )
}

/// Reads the first strings of the string table at a file offset, and appends a table of these, to which the packed headers lead. Returns
/// whether all sections are named by it; if not, the bytes are as they were. `None` if the file ends before.
fn read_short_table<A: Allocator, R: PartSource>(
    reader: &mut R,
    headers: &Headers,
    packed: &Headers,
    offset: u32,
    bytes: &mut Vec<u8, A>,
) -> Result<Option<bool>, ToolError>
    requires counts { R.failures reader.old < 2 ^ 64 - 1 }
    requires some { 0 < headers.now.pointer_to_symbol_table }
    requires room { (0 < length bytes.old.items) × (length bytes.old.items ≤ 2 ^ 32) }
    requires small { offset + 4096 < 2 ^ 32 }
    requires place { strings_start headers.now ≡ offset }
    requires packed { (packed.now.pointer_to_symbol_table ≡ length bytes.old.items) × (packed.now.number_of_symbols ≡ 0) }
    ensures early { IfOk result (λ named. IfNone named (EndsEarly (offset + 4096) (R.parts reader.old) (R.parts reader.new))) }
    ensures reads { (read : List Part) × (R.parts reader.new ≡ R.parts reader.old ++ read) × MatchResult result
        (λ named. (R.failures reader.new ≡ R.failures reader.old) × IfSome named (λ named.
        (IsTrue named → (length bytes.new.items ≡ length bytes.old.items + 4096) × (take (length bytes.old.items) bytes.new.items ≡ bytes.old.items)
        × ((file : List ℕ) → HasParts file read → 4096 ≤ strings_size file headers.now
        → offset + strings_size file headers.now ≤ length file
        → names_under bytes.new.items (with_strings headers.now (length bytes.old.items)) ≡ names_under file headers.now))
        × (named ≡ false → bytes.new.items ≡ bytes.old.items)))
        (FailsToRead (R.failures reader.old) (R.failures reader.new)) }
{
    let start = bytes.len();
    if !read_first_strings(reader, offset, bytes)? {
        return Ok(None);
    }
    let strings = ImageStrings::new(View::new(bytes), packed);
    if are_named(strings, headers.sections.as_slice()) {
        return Ok(Some(true));
    }
    bytes.truncate(start);
    Ok(Some(false))
}

/// Reads the `count` bytes of the string table at a file offset, and appends them. Returns whether the file has as many; otherwise the
/// bytes appended mean nothing.
fn read_whole_table<A: Allocator, R: PartSource>(
    reader: &mut R,
    headers: &Headers,
    offset: u32,
    bytes: &mut Vec<u8, A>,
    count: usize,
) -> Result<bool, ToolError>
    requires counts { R.failures reader.old < 2 ^ 64 - 1 }
    requires some { 0 < headers.now.pointer_to_symbol_table }
    requires room { (0 < length bytes.old.items) × (length bytes.old.items ≤ 2 ^ 32) × (count < 2 ^ 33) × (4 ≤ count) }
    requires place { strings_start headers.now ≡ offset }
    ensures early { IfOk result (λ has_all. has_all ≡ false → EndsEarly (offset + count) (R.parts reader.old) (R.parts reader.new)) }
    ensures reads { (read : List Part) × (R.parts reader.new ≡ R.parts reader.old ++ read) × MatchResult result
        (λ has_all. (R.failures reader.new ≡ R.failures reader.old) × (IsTrue has_all
        → (length bytes.old.items ≤ length bytes.new.items) × (length bytes.new.items ≤ length bytes.old.items + count)
        × (take (length bytes.old.items) bytes.new.items ≡ bytes.old.items)
        × ((file : List ℕ) → HasParts file read → max 4 (strings_size file headers.now) ≡ count → offset + count ≤ length file
        → names_under bytes.new.items (with_strings headers.now (length bytes.old.items)) ≡ names_under file headers.now)))
        (FailsToRead (R.failures reader.old) (R.failures reader.new)) }
{
    read_range(reader, offset, bytes, count)
}

/// Reads the `count` bytes of the string table at a file offset, or a shorter table of its first strings if all sections are named by
/// that, and appends them to these bytes, to whose end the packed headers lead. Returns whether the file has as many; otherwise the
/// bytes appended mean nothing.
fn read_table<A: Allocator, R: PartSource>(
    reader: &mut R,
    headers: &Headers,
    packed: &Headers,
    offset: u32,
    bytes: &mut Vec<u8, A>,
    count: usize,
) -> Result<bool, ToolError>
    requires counts { R.failures reader.old < 2 ^ 64 - 1 }
    requires some { 0 < headers.now.pointer_to_symbol_table }
    requires room { (0 < length bytes.old.items) × (length bytes.old.items ≤ 2 ^ 32) × (count < 2 ^ 33) × (4 ≤ count) }
    requires place { strings_start headers.now ≡ offset }
    requires packed { (packed.now.pointer_to_symbol_table ≡ length bytes.old.items) × (packed.now.number_of_symbols ≡ 0) }
    ensures early { IfOk result (λ has_all. has_all ≡ false → EndsEarly (offset + count) (R.parts reader.old) (R.parts reader.new)) }
    ensures reads { (read : List Part) × (R.parts reader.new ≡ R.parts reader.old ++ read) × MatchResult result
        (λ has_all. (R.failures reader.new ≡ R.failures reader.old) × (IsTrue has_all
        → (length bytes.old.items ≤ length bytes.new.items) × (length bytes.new.items ≤ length bytes.old.items + count)
        × (take (length bytes.old.items) bytes.new.items ≡ bytes.old.items)
        × ((file : List ℕ) → HasParts file read → max 4 (strings_size file headers.now) ≡ count → offset + count ≤ length file
        → names_under bytes.new.items (with_strings headers.now (length bytes.old.items)) ≡ names_under file headers.now)))
        (FailsToRead (R.failures reader.old) (R.failures reader.new)) }
{
    if count <= FIRST_LEN || u64::from(offset) + FIRST_LEN as u64 >= 1 << 32 {
        return read_whole_table(reader, headers, offset, bytes, count);
    }
    match read_short_table(reader, headers, packed, offset, bytes)? {
        None => Ok(false),
        Some(true) => Ok(true),
        Some(false) => read_whole_table(reader, headers, offset, bytes, count),
    }
}

/// Reads the string table of an image's file of `len` bytes with these headers, if the name of a section may be in it, and appends it
/// to the parts' bytes, or a shorter one in which all these names are; the packed headers lead to the end of these bytes. Returns where it is among them, or 0 if there is none; `None` if the file ends early, there are no parts, an
/// offset has more than 32 bits, or the parts would become longer than the file.
fn read_strings<A: Allocator, R: PartSource>(
    reader: &mut R,
    headers: &Headers,
    packed: &Headers,
    len: u64,
    bytes: &mut Vec<u8, A>,
) -> Result<Option<u32>, ToolError>
    requires counts { R.failures reader.old < 2 ^ 64 - 1 }
    requires packed { (length bytes.old.items < 2 ^ 32 → packed.now.pointer_to_symbol_table ≡ length bytes.old.items) × (packed.now.number_of_symbols ≡ 0) }
    ensures left { IfOk result (λ pointer. IfNone pointer (AreNotNamed len headers.now (length bytes.old.items) (R.parts reader.old) (R.parts reader.new))) }
    ensures reads { (read : List Part) × (R.parts reader.new ≡ R.parts reader.old ++ read) × MatchResult result
        (λ pointer. (R.failures reader.new ≡ R.failures reader.old) × IfSome pointer (λ pointer.
        (length bytes.old.items ≤ length bytes.new.items) × (take (length bytes.old.items) bytes.new.items ≡ bytes.old.items)
        × ((file : List ℕ) → length file ≡ len → HasParts file read
        → names_under bytes.new.items (with_strings headers.now pointer) ≡ names_under file headers.now)))
        (FailsToRead (R.failures reader.old) (R.failures reader.new)) }
    ensures room { IfOk result (λ pointer. IfSome pointer (λ _. length bytes.new.items ≤ max (length bytes.old.items) len)) }
{
    if headers.pointer_to_symbol_table == 0 || !has_long_name(headers.sections.as_slice()) {
        return Ok(Some(0));
    }
    let start = strings_start(headers);
    if start + SIZE_LEN as u64 > len {
        return Ok(Some(0));
    }
    let Ok(offset) = u32::try_from(start) else {
        return Ok(None);
    };
    let Ok(pointer) = u32::try_from(bytes.len()) else {
        return Ok(None);
    };
    let Some(size) = read_size(reader, offset, bytes)? else {
        return Ok(None);
    };
    if start + u64::from(size) > len {
        return Ok(Some(0));
    }
    let count = SIZE_LEN.max(size as usize);
    if pointer == 0 || u64::from(pointer) + count as u64 > len {
        return Ok(None);
    }
    if !read_table(reader, headers, packed, offset, bytes, count)? {
        return Ok(None);
    }
    Ok(Some(pointer))
}

/// Reads the string table of an image's file of `len` bytes, if the name of a section may be in it, and puts it behind the parts, whose
/// packed headers lead to it then; of a long table only the first strings, if the names of all sections are among them. `None` if the file ends early, there are no parts, an offset has more than 32 bits, or the parts
/// would become longer than the file: the file must be read another way then.
pub fn read_names<A: Allocator, R: PartSource>(
    reader: &mut R,
    parts: Parts<A>,
    len: u64,
) -> Result<Option<Parts<A>>, ToolError>
    requires { R.failures reader.old < 2 ^ 64 - 1 }
    ensures { (read : List Part) × (R.parts reader.new ≡ R.parts reader.old ++ read) × MatchResult result
        (λ named. (R.failures reader.new ≡ R.failures reader.old) × MatchOption named
        (AreNotNamed len parts.headers (length parts.bytes.items) (R.parts reader.old) (R.parts reader.new)) (λ named. (named.headers ≡ parts.headers)
        × AreWithNames len parts named × ((file : List ℕ) → length file ≡ len → HasParts file read → AddNames parts named file)))
        (FailsToRead (R.failures reader.old) (R.failures reader.new)) }
{
    let Parts {
        headers,
        packed,
        mut bytes,
    } = parts;
    let packed = Headers {
        pointer_to_symbol_table: u32::try_from(bytes.len()).unwrap_or(0),
        number_of_symbols: 0,
        ..packed
    };
    let Some(pointer) = read_strings(reader, &headers, &packed, len, &mut bytes)? else {
        return Ok(None);
    };
    Ok(Some(Parts {
        headers,
        packed: Headers {
            pointer_to_symbol_table: pointer,
            ..packed
        },
        bytes,
    }))
}
