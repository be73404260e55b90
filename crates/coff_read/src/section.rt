//! `FileSection` and `ObjSection`: a section of an object and its raw data; and faults 64, 65, 66 and 69 of sections.

ghost use Rattle.std.specs.Prelude.{◌≡◌, ◌+◌, ◌≤◌, ◌<◌, ◌&&◌, [], map, not, nat_lt, is_none, None, IfOk, IfSome, ⊤};
ghost use Rattle.std.specs.List.{flat_map};
ghost use Rattle.std.specs.Option.{unwrap_or};
ghost use Rattle.pe_view.specs.View.{bytes_of, size_of};
ghost use Rattle.pe_view.specs.Faults.{Answers, first_standing};
ghost use Rattle.pe_view.specs.TextEnds.{AreEndsOf};
ghost use Rattle.coff_read.specs.FileView.{file_section_view};
ghost use Rattle.coff_read.specs.FormFaults.{section_tests};
ghost use Rattle.coff_read.specs.FormReading.{section_name, section_in, section_starts};
ghost use Rattle.coff_read.specs.ObjectView.{raw_view, section_view};
ghost use Rattle.coff_read.specs.Reading.{raw_at, is_absent};
ghost use Rattle.coff_read.specs.TablesPlace.{AreTables};

use crate::error::file_fault;
use crate::fields::{u16_in, u32_in};
use crate::names::{has_no_text, name_kept, section_name_field};
use crate::relocation::{RELOCATION_LEN, Relocation};
use crate::relocations::Relocations;
use crate::tables::{SECTION_LEN, Tables};
use pe_view::{Fault, TextEnds, View};
use std::alloc::{AllocError, Allocator};

/// The flag of a section whose bytes are not stored in the file.
pub(crate) const UNINITIALIZED_DATA: u32 = 0x80;

/// The flag LNK_NRELOC_OVFL, of a section with more relocations than its header can count.
const EXTENDED_RELOCATIONS: u32 = 0x0100_0000;

/// The raw data of a section.
#[derive(Clone, Copy, Debug, PartialEq, Eq)]
pub enum RawData<'a> {
    /// Stored in the file; at least one byte.
    Bytes(&'a [u8]),
    /// Not stored in the file; SizeOfRawData as stored.
    Absent(u32),
}

/// A section of an object ("PE Format", Section Table).
#[derive(Drop)]
pub struct ObjSection<'a, A: Allocator> {
    /// The section's name, taken from the string table if it is there.
    pub name: &'a [u8],
    /// VirtualSize, as stored.
    pub virtual_size: u32,
    /// VirtualAddress, as stored.
    pub virtual_address: u32,
    /// The raw data.
    pub raw: RawData<'a>,
    /// The section's flags.
    pub flags: u32,
    /// The relocations, in table order.
    pub relocations: Vec<Relocation, A>,
}

/// A section of an object, with its relocations left in the file ("PE Format", Section Table).
#[derive(Clone, Copy)]
pub struct FileSection<'a> {
    /// The section's name, taken from the string table if it is there.
    pub name: &'a [u8],
    /// VirtualSize, as stored.
    pub virtual_size: u32,
    /// VirtualAddress, as stored.
    pub virtual_address: u32,
    /// The raw data.
    pub raw: RawData<'a>,
    /// The section's flags.
    pub flags: u32,
    /// The relocations, in table order.
    pub relocations: Relocations<'a>,
}

/// The raw data of a section at a file offset, of this size; `None` if it passes the end of the file.
fn raw_at<'a>(view: View<'a>, pointer: u32, size: u32, flags: u32) -> Option<RawData<'a>>
    ensures none { is_none result ≡ (not (is_absent pointer size flags) && nat_lt (size_of view.entry) (pointer + size)) }
    ensures value { IfSome result (λ raw. raw_view raw ≡ raw_at (bytes_of view.entry) pointer size flags) }
{
    if pointer == 0 || size == 0 || flags & UNINITIALIZED_DATA != 0 {
        return Some(RawData::Absent(size));
    }
    match view.slice(u64::from(pointer), u64::from(size)) {
        Some(bytes) => Some(RawData::Bytes(bytes)),
        None => None,
    }
}

/// Tests faults 64, 65, 66 and 69 of the section whose header is at a file offset.
fn check_section<const BIG: bool>(view: View, tables: Tables, h: u64) -> Result<(), Fault>
    requires tables { AreTables BIG (bytes_of view) tables }
    requires inside { h + 40 ≤ size_of view }
    ensures { Answers (section_tests BIG (bytes_of view.entry) h) (λ _. ⊤) result }
{
    let (pointer, size, flags) = (
        u32_in(view, h, 20),
        u32_in(view, h, 16),
        u32_in(view, h, 36),
    );
    if raw_at(view, pointer, size, flags).is_none() {
        return Err(file_fault(64, h));
    }
    let start = u64::from(u32_in(view, h, 24));
    let count = u64::from(u16_in(view, h, 32));
    if flags & EXTENDED_RELOCATIONS != 0 && count == 0xffff {
        return Err(file_fault(65, h));
    }
    if count != 0 && start + RELOCATION_LEN * count > view.len() {
        return Err(file_fault(66, h));
    }
    if has_no_text::<BIG>(tables, section_name_field(view, h)) {
        return Err(file_fault(69, h));
    }
    Ok(())
}

/// Tests faults 64, 65, 66 and 69 of all sections.
pub(crate) fn check_sections<const BIG: bool>(view: View, tables: Tables) -> Result<(), Fault>
    requires { AreTables BIG (bytes_of view) tables }
    ensures { Answers (flat_map (section_tests BIG (bytes_of view.entry)) (section_starts BIG (bytes_of view.entry))) (λ _. ⊤) result }
{
    for i in 0..tables.sections {
        check_section::<BIG>(view, tables, tables.headers + SECTION_LEN * i)?;
    }
    Ok(())
}

/// The section with a name, whose header is at a file offset.
pub(crate) fn section_at<'a, const BIG: bool>(
    view: View<'a>,
    h: u64,
    name: &'a [u8],
) -> FileSection<'a>
    requires inside { h + 40 ≤ size_of view }
    requires none { first_standing (section_tests BIG (bytes_of view) h) ≡ None }
    requires name { name.now ≡ unwrap_or (section_name BIG (bytes_of view) h) [] }
    ensures { file_section_view result ≡ section_in BIG (bytes_of view.entry) h }
{
    let (pointer, size, flags) = (
        u32_in(view, h, 20),
        u32_in(view, h, 16),
        u32_in(view, h, 36),
    );
    FileSection {
        name,
        virtual_size: u32_in(view, h, 8),
        virtual_address: u32_in(view, h, 12),
        raw: raw_at(view, pointer, size, flags).unwrap(),
        flags,
        relocations: Relocations::of_section(view, h),
    }
}

/// A section with a list of its relocations.
// it serves both forms, and a section by value is dear to pass
#[inline(always)]
fn read_section<'a, A: Allocator>(
    alloc: A,
    section: FileSection<'a>,
) -> Result<ObjSection<'a, A>, AllocError>
    ensures { IfOk result (λ read. section_view read ≡ file_section_view section.entry) }
{
    Ok(ObjSection {
        name: section.name,
        virtual_size: section.virtual_size,
        virtual_address: section.virtual_address,
        raw: section.raw,
        flags: section.flags,
        relocations: section.relocations.read(alloc)?,
    })
}

/// A list of the sections, in table order, if none has one of faults 64, 65, 66 and 69.
pub(crate) fn read_sections<'a, A: Allocator + Copy, const BIG: bool>(
    alloc: A,
    ends: &mut TextEnds<A>,
    view: View<'a>,
    tables: Tables,
) -> Result<Vec<ObjSection<'a, A>, A>, AllocError>
    requires tables { AreTables BIG (bytes_of view) tables }
    requires none { first_standing (flat_map (section_tests BIG (bytes_of view)) (section_starts BIG (bytes_of view))) ≡ None }
    requires known { AreEndsOf (bytes_of view) ends.old }
    ensures sections { IfOk result (λ sections. map section_view sections.items ≡ map (section_in BIG (bytes_of view.entry)) (section_starts BIG (bytes_of view.entry))) }
    ensures known { AreEndsOf (bytes_of view.entry) ends.new }
{
    let mut sections = Vec::with_capacity(alloc, tables.sections as usize)?;
    for i in 0..tables.sections {
        let h = tables.headers + SECTION_LEN * i;
        let name = name_kept::<A, BIG>(ends, view, tables, section_name_field(view, h));
        sections.push(read_section(alloc, section_at::<BIG>(view, h, name))?)?;
    }
    Ok(sections)
}
