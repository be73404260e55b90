//! The headers of a plan's file.

ghost use Rattle.std.specs.Prelude.{◌≡◌, ◌<◌, ◌≤◌, ◌^◌, ◌++◌, false, OnOk, length};
ghost use Rattle.std.specs.List.{flat_map, AllByRecursion};
ghost use Rattle.pe_numbers.specs.Numbers.{NumberFits, numbers_bytes};
ghost use Rattle.pe_write.specs.PlanFaults.{is_wide};
ghost use Rattle.pe_write.specs.PlanFile.{file_end, headers_from};
ghost use Rattle.pe_write.specs.PlanFits.{IsRow};
ghost use Rattle.pe_write.specs.PlanHeaders.{optional_size, word, dos_numbers, coff_numbers, standard_numbers, base_of_data_numbers, image_numbers, reserve_numbers, directory_numbers, header_numbers, section_bytes};

use crate::plan::{Plan, PlanSection};
use crate::plan_data::{raw_end, section_header};
use pe_head::{Directory, Magic, SectionHeader};
use pe_numbers::Number::{self, U8, U16, U32, U64};
use pe_numbers::push_numbers;
use std::alloc::{AllocError, Allocator};

/// SizeOfOptionalHeader with 16 directories.
fn optional_size(magic: Magic) -> u16
    ensures { result ≡ optional_size magic }
{
    magic.fixed_size() as u16 + 128
}

/// NumberOfSections.
fn number_of_sections<P: Allocator>(plan: &Plan<'_, P>) -> u16
    requires { length plan.now.sections.items ≤ 96 }
    ensures { result ≡ length plan.now.sections.items }
{
    plan.sections.len() as u16
}

/// A number in the width of an address: 4 bytes in PE32, 8 in PE32+.
fn word(magic: Magic, value: u64) -> Number
    requires { is_wide magic value ≡ false }
    ensures { result ≡ word magic value }
{
    match magic {
        Magic::Pe32 => U32(value as u32),
        Magic::Pe32Plus => U64(value),
    }
}

/// Appends the DOS header, the signature directly after it, and the COFF header.
fn push_coff_header<A: Allocator, P: Allocator>(
    bytes: &mut Vec<u8, A>,
    plan: &Plan<'_, P>,
) -> Result<(), AllocError>
    requires few { length plan.now.sections.items ≤ 96 }
    ensures fits { OnOk result (AllByRecursion NumberFits (dos_numbers ++ coff_numbers plan.now)) }
    ensures bytes { OnOk result (bytes.new.items ≡ bytes.old.items ++ numbers_bytes (dos_numbers ++ coff_numbers plan.now)) }
{
    push_numbers(
        bytes,
        &[
            U16(0x5a4d),
            U16(0),
            U64(0),
            U64(0),
            U64(0),
            U64(0),
            U64(0),
            U64(0),
            U64(0),
            U32(0x40),
            U32(0x4550),
            U16(plan.machine),
            U16(number_of_sections(plan)),
            U32(plan.time_stamp),
            U32(0),
            U32(0),
            U16(optional_size(plan.magic)),
            U16(plan.characteristics),
        ],
    )
}

/// Appends the standard fields of the optional header, with BaseOfData in PE32 only.
fn push_standard_fields<A: Allocator, P: Allocator>(
    bytes: &mut Vec<u8, A>,
    plan: &Plan<'_, P>,
) -> Result<(), AllocError>
    ensures fits { OnOk result (AllByRecursion NumberFits (standard_numbers plan.now ++ base_of_data_numbers plan.now.magic)) }
    ensures bytes { OnOk result (bytes.new.items ≡ bytes.old.items ++ numbers_bytes (standard_numbers plan.now ++ base_of_data_numbers plan.now.magic)) }
{
    push_numbers(
        bytes,
        &[
            U16(plan.magic.number()),
            U8(0),
            U8(0),
            U32(0),
            U32(0),
            U32(0),
            U32(plan.entry),
            U32(0),
        ],
    )?;
    match plan.magic {
        Magic::Pe32 => push_numbers(bytes, &[U32(0)]),
        Magic::Pe32Plus => Ok(()),
    }
}

/// Appends the fields of the optional header from ImageBase to DllCharacteristics.
fn push_image_fields<A: Allocator, P: Allocator>(
    bytes: &mut Vec<u8, A>,
    plan: &Plan<'_, P>,
) -> Result<(), AllocError>
    requires { is_wide plan.now.magic plan.now.image_base ≡ false }
    ensures fits { OnOk result (AllByRecursion NumberFits (image_numbers plan.now)) }
    ensures bytes { OnOk result (bytes.new.items ≡ bytes.old.items ++ numbers_bytes (image_numbers plan.now)) }
{
    push_numbers(
        bytes,
        &[
            word(plan.magic, plan.image_base),
            U32(plan.section_alignment),
            U32(plan.file_alignment),
            U16(0),
            U16(0),
            U16(0),
            U16(0),
            U16(0),
            U16(0),
            U32(0),
            U32(plan.size_of_image),
            U32(plan.size_of_headers),
            U32(0),
            U16(plan.subsystem),
            U16(plan.dll_characteristics),
        ],
    )
}

/// Appends the reserved and committed sizes of stack and heap, LoaderFlags, and NumberOfRvaAndSizes.
fn push_reserves<A: Allocator>(bytes: &mut Vec<u8, A>, magic: Magic) -> Result<(), AllocError>
    ensures fits { OnOk result (AllByRecursion NumberFits (reserve_numbers magic)) }
    ensures bytes { OnOk result (bytes.new.items ≡ bytes.old.items ++ numbers_bytes (reserve_numbers magic)) }
{
    let none = word(magic, 0);
    push_numbers(bytes, &[none, none, none, none, U32(0), U32(16)])
}

/// Appends directories.
fn push_directories<A: Allocator>(
    bytes: &mut Vec<u8, A>,
    directories: &[Directory],
) -> Result<(), AllocError>
    ensures fits { OnOk result (AllByRecursion NumberFits (flat_map directory_numbers directories.now)) }
    ensures bytes { OnOk result (bytes.new.items ≡ bytes.old.items ++ numbers_bytes (flat_map directory_numbers directories.now)) }
{
    for directory in directories {
        push_numbers(bytes, &[U32(directory.rva), U32(directory.size)])?;
    }
    Ok(())
}

/// Appends a section's header.
fn push_section<A: Allocator>(
    bytes: &mut Vec<u8, A>,
    section: &SectionHeader,
) -> Result<(), AllocError>
    ensures fits { OnOk result (IsRow section.now) }
    ensures bytes { OnOk result (bytes.new.items ≡ bytes.old.items ++ section_bytes section.now) }
{
    bytes.extend_from_slice(&section.name)?;
    push_numbers(
        bytes,
        &[
            U32(section.virtual_size),
            U32(section.virtual_address),
            U32(section.size_of_raw_data),
            U32(section.pointer_to_raw_data),
            U32(section.pointer_to_relocations),
            U32(section.pointer_to_linenumbers),
            U16(section.number_of_relocations),
            U16(section.number_of_linenumbers),
            U32(section.characteristics),
        ],
    )
}

/// Appends the headers before the section table.
pub(crate) fn push_headers<A: Allocator, P: Allocator>(
    bytes: &mut Vec<u8, A>,
    plan: &Plan<'_, P>,
) -> Result<(), AllocError>
    requires few { length plan.now.sections.items ≤ 96 }
    requires narrow { is_wide plan.now.magic plan.now.image_base ≡ false }
    ensures fits { OnOk result (AllByRecursion NumberFits (header_numbers plan.now)) }
    ensures bytes { OnOk result (bytes.new.items ≡ bytes.old.items ++ numbers_bytes (header_numbers plan.now)) }
    ensures directories { OnOk result (length plan.now.directories ≡ 16) }
{
    push_coff_header(bytes, plan)?;
    push_standard_fields(bytes, plan)?;
    push_image_fields(bytes, plan)?;
    push_reserves(bytes, plan.magic)?;
    push_directories(bytes, &plan.directories)
}

/// Appends the section table; `headers` is where the headers end in the file.
pub(crate) fn push_table<A: Allocator>(
    bytes: &mut Vec<u8, A>,
    alignment: u32,
    headers: usize,
    sections: &[PlanSection],
) -> Result<(), AllocError>
    requires some { 0 < alignment }
    requires behind { 0 < headers }
    requires held { file_end alignment headers sections.now ≤ 2 ^ 32 }
    ensures fits { OnOk result (AllByRecursion IsRow (headers_from alignment headers sections.now)) }
    ensures bytes { OnOk result (bytes.new.items ≡ bytes.old.items ++ flat_map section_bytes (headers_from alignment headers sections.now)) }
{
    let mut end = headers;
    for section in sections {
        push_section(bytes, &section_header(alignment, end, section))?;
        end = raw_end(alignment, end, section);
    }
    Ok(())
}
