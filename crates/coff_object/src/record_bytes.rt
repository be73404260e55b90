//! The bytes of an object's records: section headers, the bodies of sections with their relocations, and symbols.

ghost use Rattle.std.specs.Prelude.{◌≡◌, ◌+◌, ◌*◌, ◌/◌, ◌≤◌, ◌<◌, ◌^◌, ◌++◌, ◌∷◌, length, replicate, IsTrue, OnOk};
ghost use Rattle.std.specs.List.{flat_map, AllByRecursion};
ghost use Rattle.coff_read.specs.BigView.{belongs_view, big_symbol_view};
ghost use Rattle.coff_read.specs.FormRecords.{section_number};
ghost use Rattle.coff_read.specs.Forms.{symbol_len};
ghost use Rattle.coff_read.specs.Names.{decimal_digits, padded, is_long, is_long_section_name};
ghost use Rattle.coff_read.specs.Records.{RawFits, RelocationFits, RelocationsFit, SectionFits, SymbolFits};
ghost use Rattle.coff_object.specs.Written.{relocation_bytes, raw_bytes, pointer_to, raw_size, section_body, section_name_at, section_fields, symbol_name_at};
ghost use Rattle.coff_object.specs.FormWritten.{symbol_fields, number_limit};
ghost use Rattle.coff_read.specs.ObjectView.{raw_view, section_view};
ghost use Rattle.coff_read.specs.FormRecords as form;

use coff_read::{
    BigSection, BigSymbol, NAME_LEN, ObjSection, RELOCATION_LEN, RawData, Relocation, is_long,
    is_long_section_name,
};
use itoa::Buffer;
use pe_numbers::Number::{U8, U16, U32};
use pe_numbers::{push_record, write_numbers};
use std::alloc::{AllocError, Allocator};

/// Adds zero bytes, at most eight.
fn push_zeros<A: Allocator>(bytes: &mut Vec<u8, A>, count: usize) -> Result<(), AllocError>
    requires { count ≤ 8 }
    ensures { OnOk result (bytes.new.items ≡ bytes.old.items ++ replicate count 0) }
{
    bytes.extend_from_slice(&[0; NAME_LEN][..count])
}

/// Adds a name of up to eight bytes, padded with zero bytes to eight.
fn push_padded<A: Allocator>(bytes: &mut Vec<u8, A>, text: &[u8]) -> Result<(), AllocError>
    requires { length text.now ≤ 8 }
    ensures { OnOk result (bytes.new.items ≡ bytes.old.items ++ padded text.now) }
{
    bytes.extend_from_slice(text)?;
    push_zeros(bytes, NAME_LEN - text.len())
}

/// Writes the bytes of relocations into a buffer of their size.
fn write_relocations(room: &mut [u8], relocations: &[Relocation])
    requires { room.old ≡ replicate (10 * length relocations.now) 0 }
    ensures fits { AllByRecursion RelocationFits relocations.now }
    ensures bytes { room.new ≡ flat_map relocation_bytes relocations.now }
{
    for (index, relocation) in relocations.iter().enumerate() {
        let start = RELOCATION_LEN as usize * index;
        write_numbers(
            &mut room[start..start + RELOCATION_LEN as usize],
            &[
                U32(relocation.address),
                U32(relocation.symbol),
                U16(relocation.kind),
            ],
        );
    }
}

/// Adds the bytes of relocations, with one allocation at most.
fn push_relocations<A: Allocator>(
    bytes: &mut Vec<u8, A>,
    relocations: &[Relocation],
) -> Result<(), AllocError>
    ensures fits { OnOk result (AllByRecursion RelocationFits relocations.now) }
    ensures bytes { OnOk result (bytes.new.items ≡ bytes.old.items ++ flat_map relocation_bytes relocations.now) }
{
    let start = bytes.len();
    bytes.resize(start + RELOCATION_LEN as usize * relocations.len(), 0)?;
    write_relocations(&mut bytes[start..], relocations);
    Ok(())
}

/// The raw data of a section; empty if none is stored in the file.
pub(crate) fn raw_bytes<'a>(raw: RawData<'a>) -> &'a [u8]
    ensures { result.now ≡ raw_bytes (raw_view raw.entry) }
{
    match raw {
        RawData::Bytes(bytes) => bytes,
        RawData::Absent(_) => &[],
    }
}

/// SizeOfRawData of a section header.
fn raw_size(raw: RawData) -> u32
    requires { length (raw_bytes (raw_view raw)) < 2 ^ 32 }
    ensures fits { RawFits (raw_view raw.entry) }
    ensures size { result ≡ raw_size (raw_view raw.entry) }
{
    match raw {
        RawData::Bytes(bytes) => bytes.len() as u32,
        RawData::Absent(size) => size,
    }
}

/// Adds a section's bytes and its relocations.
pub(crate) fn push_body<A: Allocator>(
    bytes: &mut Vec<u8, A>,
    section: &ObjSection<A>,
) -> Result<(), AllocError>
    ensures fits { OnOk result (RelocationsFit (section_view section.now)) }
    ensures bytes { OnOk result (bytes.new.items ≡ bytes.old.items ++ section_body (section_view section.now)) }
{
    bytes.extend_from_slice(raw_bytes(section.raw))?;
    push_relocations(bytes, section.relocations.as_slice())
}

/// A pointer to a part at a file offset: 0 if it is empty.
fn pointer_to(at: u32, count: usize) -> u32
    ensures { result ≡ pointer_to at count }
{
    if count == 0 { 0 } else { at }
}

/// Adds a name field that holds an offset: `/` and decimal digits.
fn push_offset<A: Allocator>(bytes: &mut Vec<u8, A>, offset: u64) -> Result<(), AllocError>
    requires some { 0 < offset }
    requires near { offset ≤ 9999999 }
    ensures { OnOk result (bytes.new.items ≡ bytes.old.items ++ padded (47 ∷ decimal_digits offset)) }
{
    let mut buffer = Buffer::new();
    let digits = buffer.format(offset).as_bytes();
    bytes.push(b'/')?;
    bytes.extend_from_slice(digits)?;
    push_zeros(bytes, NAME_LEN - 1 - digits.len())
}

/// Adds the name field of a section header; a name that is too long is at an offset of the string table.
fn push_section_name<A: Allocator>(
    bytes: &mut Vec<u8, A>,
    place: u64,
    name: &[u8],
) -> Result<(), AllocError>
    requires some { IsTrue (is_long_section_name name.now) → 0 < place }
    requires near { place ≤ 9999999 }
    ensures { OnOk result (bytes.new.items ≡ bytes.old.items ++ section_name_at place name.now) }
{
    if is_long_section_name(name) {
        push_offset(bytes, place)
    } else {
        push_padded(bytes, name)
    }
}

/// Adds the fields of a section header after its name, if its body is at a file offset.
fn push_section_fields<A: Allocator>(
    bytes: &mut Vec<u8, A>,
    at: u32,
    section: &ObjSection<A>,
) -> Result<(), AllocError>
    requires fits { at + length (section_body (section_view section.now)) < 2 ^ 32 }
    requires few { length section.now.relocations.items < 2 ^ 16 }
    ensures fits { OnOk result (SectionFits (section_view section.now)) }
    ensures bytes { OnOk result (bytes.new.items ≡ bytes.old.items ++ section_fields at (section_view section.now)) }
{
    let raw = raw_bytes(section.raw).len();
    let count = section.relocations.len();
    push_record::<32, A>(
        bytes,
        &[
            U32(section.virtual_size),
            U32(section.virtual_address),
            U32(raw_size(section.raw)),
            U32(pointer_to(at, raw)),
            U32(pointer_to(at + raw as u32, count)),
            U32(0),
            U16(count as u16),
            U16(0),
            U32(section.flags),
        ],
    )
}

/// Adds the name field of a symbol's record; a name that is too long is at an offset of the string table.
// it serves both forms, and a call for each symbol would be dearer than what it does
#[inline(always)]
fn push_symbol_name<A: Allocator>(
    bytes: &mut Vec<u8, A>,
    place: u64,
    name: &[u8],
) -> Result<(), AllocError>
    requires { place < 2 ^ 32 }
    ensures { OnOk result (bytes.new.items ≡ bytes.old.items ++ symbol_name_at place name.now) }
{
    if is_long(name) {
        push_record::<8, A>(bytes, &[U32(0), U32(place as u32)])
    } else {
        push_padded(bytes, name)
    }
}

/// The size of a symbol's record in bytes.
pub(crate) fn record_len<const BIG: bool>() -> u64
    ensures { result ≡ symbol_len BIG }
{
    if BIG { 20 } else { 18 }
}

/// How many auxiliary records are in these bytes.
pub(crate) fn aux_records<const BIG: bool>(aux: &[u8]) -> u64
    ensures value { result ≡ length aux.now / symbol_len BIG }
    ensures few { result ≤ length aux.now }
{
    let len = aux.len() as u64;
    if BIG { len / 20 } else { len / 18 }
}

/// The field SectionNumber of a symbol's record.
fn number_of<const BIG: bool>(section: BigSection) -> u32
    ensures { result ≡ section_number BIG (belongs_view section) }
{
    if BIG {
        return section.number();
    }
    match section {
        BigSection::Undefined => 0,
        BigSection::Absolute => 0xffff,
        BigSection::Debug => 0xfffe,
        BigSection::Section(number) => number,
    }
}

/// Adds the fields of a symbol's record after its name.
fn push_symbol_fields<A: Allocator, const BIG: bool>(
    bytes: &mut Vec<u8, A>,
    symbol: BigSymbol,
) -> Result<(), AllocError>
    requires few { form.aux_records BIG (big_symbol_view symbol) < 2 ^ 8 }
    requires near { section_number BIG (big_symbol_view symbol).section < number_limit BIG }
    ensures fits { OnOk result (SymbolFits (big_symbol_view symbol.entry)) }
    ensures bytes { OnOk result (bytes.new.items ≡ bytes.old.items ++ symbol_fields BIG (big_symbol_view symbol.entry)) }
{
    let number = number_of::<BIG>(symbol.section);
    let aux = aux_records::<BIG>(symbol.aux) as u8;
    let (value, kind, class) = (symbol.value, symbol.kind, symbol.class);
    if BIG {
        let fields = [U32(value), U32(number), U16(kind), U8(class), U8(aux)];
        return push_record::<12, A>(bytes, &fields);
    }
    let fields = [
        U32(value),
        U16(number as u16),
        U16(kind),
        U8(class),
        U8(aux),
    ];
    push_record::<10, A>(bytes, &fields)
}

/// Adds the header of a section whose body is at a file offset; a name that is too long is at an offset of the string table.
pub(crate) fn push_section_header<A: Allocator>(
    bytes: &mut Vec<u8, A>,
    place: u64,
    at: u32,
    section: &ObjSection<A>,
) -> Result<(), AllocError>
    requires some { IsTrue (is_long_section_name section.now.name.now) → 0 < place }
    requires near { place ≤ 9999999 }
    requires fits { at + length (section_body (section_view section.now)) < 2 ^ 32 }
    requires few { length section.now.relocations.items < 2 ^ 16 }
    ensures fits { OnOk result (SectionFits (section_view section.now)) }
    ensures bytes { OnOk result (bytes.new.items ≡ bytes.old.items ++ (section_name_at place section.now.name.now ++ section_fields at (section_view section.now))) }
{
    push_section_name(bytes, place, section.name)?;
    push_section_fields(bytes, at, section)
}

/// Adds a symbol's record and its auxiliary records; a name that is too long is at an offset of the string table.
pub(crate) fn push_symbol<A: Allocator, const BIG: bool>(
    bytes: &mut Vec<u8, A>,
    place: u64,
    symbol: BigSymbol,
) -> Result<(), AllocError>
    requires offset { place < 2 ^ 32 }
    requires few { form.aux_records BIG (big_symbol_view symbol) < 2 ^ 8 }
    requires near { section_number BIG (big_symbol_view symbol).section < number_limit BIG }
    ensures fits { OnOk result (SymbolFits (big_symbol_view symbol.entry)) }
    ensures bytes { OnOk result (bytes.new.items ≡ bytes.old.items ++ (symbol_name_at place symbol.entry.name.now ++ (symbol_fields BIG (big_symbol_view symbol.entry) ++ symbol.entry.aux.now))) }
{
    push_symbol_name(bytes, place, symbol.name)?;
    push_symbol_fields::<A, BIG>(bytes, symbol)?;
    bytes.extend_from_slice(symbol.aux)
}
