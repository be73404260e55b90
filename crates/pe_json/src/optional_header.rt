//! The optional header of an image.

ghost use Rattle.pe_text.specs.TextWriter.{IsReady, Adds};
ghost use Rattle.pe_json.specs.Headers.{standard_members, base_of_data_members, version_members, size_members, last_members, optional_members};
ghost use Rattle.pe_json.specs.Listed.{more};

use crate::flags::write_flags;
use crate::string::{write_number, write_text_if, write_wide};
use pe_head::{FlagKind, Headers, subsystem_name};
use pe_text::{Sink, TextWriter};

/// Adds the fields from Magic to BaseOfCode.
fn write_standard<W: Sink>(text: &mut TextWriter<W>, headers: &Headers)
    requires { IsReady W.failures text.old }
    ensures { Adds W.taken W.failures text.old text.new (more (standard_members headers.now)) }
{
    // from describe/records.txt: standard of headers
    write_number(text, b",\"magic\":", headers.magic.number() as u64);
    write_number(
        text,
        b",\"major_linker_version\":",
        headers.major_linker_version as u64,
    );
    write_number(
        text,
        b",\"minor_linker_version\":",
        headers.minor_linker_version as u64,
    );
    write_number(text, b",\"size_of_code\":", headers.size_of_code as u64);
    write_number(
        text,
        b",\"size_of_initialized_data\":",
        headers.size_of_initialized_data as u64,
    );
    write_number(
        text,
        b",\"size_of_uninitialized_data\":",
        headers.size_of_uninitialized_data as u64,
    );
    write_number(
        text,
        b",\"address_of_entry_point\":",
        headers.address_of_entry_point as u64,
    );
    write_number(text, b",\"base_of_code\":", headers.base_of_code as u64);
    // end of describe/records.txt
}

/// Adds BaseOfData, which only PE32 has.
fn write_base_of_data<W: Sink>(text: &mut TextWriter<W>, base_of_data: Option<u32>)
    requires { IsReady W.failures text.old }
    ensures { Adds W.taken W.failures text.old text.new (more (base_of_data_members base_of_data)) }
{
    if let Some(rva) = base_of_data {
        write_number(text, b",\"base_of_data\":", rva as u64);
    }
}

/// Adds the fields from ImageBase to MinorSubsystemVersion.
fn write_versions<W: Sink>(text: &mut TextWriter<W>, headers: &Headers)
    requires { IsReady W.failures text.old }
    ensures { Adds W.taken W.failures text.old text.new (more (version_members headers.now)) }
{
    // from describe/records.txt: versions of headers
    write_wide(text, b",\"image_base\":\"0x", headers.image_base);
    write_number(
        text,
        b",\"section_alignment\":",
        headers.section_alignment as u64,
    );
    write_number(text, b",\"file_alignment\":", headers.file_alignment as u64);
    write_number(
        text,
        b",\"major_operating_system_version\":",
        headers.major_operating_system_version as u64,
    );
    write_number(
        text,
        b",\"minor_operating_system_version\":",
        headers.minor_operating_system_version as u64,
    );
    write_number(
        text,
        b",\"major_image_version\":",
        headers.major_image_version as u64,
    );
    write_number(
        text,
        b",\"minor_image_version\":",
        headers.minor_image_version as u64,
    );
    write_number(
        text,
        b",\"major_subsystem_version\":",
        headers.major_subsystem_version as u64,
    );
    write_number(
        text,
        b",\"minor_subsystem_version\":",
        headers.minor_subsystem_version as u64,
    );
    // end of describe/records.txt
}

/// Adds the fields from Win32VersionValue to Subsystem.
fn write_sizes<W: Sink>(text: &mut TextWriter<W>, headers: &Headers)
    requires { IsReady W.failures text.old }
    ensures { Adds W.taken W.failures text.old text.new (more (size_members headers.now)) }
{
    // from describe/records.txt: sizes of headers
    write_number(
        text,
        b",\"win32_version_value\":",
        headers.win32_version_value as u64,
    );
    write_number(text, b",\"size_of_image\":", headers.size_of_image as u64);
    write_number(
        text,
        b",\"size_of_headers\":",
        headers.size_of_headers as u64,
    );
    write_number(text, b",\"check_sum\":", headers.check_sum as u64);
    write_number(text, b",\"subsystem\":", headers.subsystem as u64);
    // end of describe/records.txt
}

/// Adds the fields from DllCharacteristics to NumberOfRvaAndSizes.
fn write_last<W: Sink>(text: &mut TextWriter<W>, headers: &Headers)
    requires { IsReady W.failures text.old }
    ensures { Adds W.taken W.failures text.old text.new (more (last_members headers.now)) }
{
    // from describe/records.txt: last of headers
    write_number(
        text,
        b",\"dll_characteristics\":",
        headers.dll_characteristics as u64,
    );
    write_flags(
        text,
        b",\"dll_characteristics_flags\":[",
        FlagKind::Dll,
        headers.dll_characteristics as u32,
    );
    write_wide(
        text,
        b",\"size_of_stack_reserve\":\"0x",
        headers.size_of_stack_reserve,
    );
    write_wide(
        text,
        b",\"size_of_stack_commit\":\"0x",
        headers.size_of_stack_commit,
    );
    write_wide(
        text,
        b",\"size_of_heap_reserve\":\"0x",
        headers.size_of_heap_reserve,
    );
    write_wide(
        text,
        b",\"size_of_heap_commit\":\"0x",
        headers.size_of_heap_commit,
    );
    write_number(text, b",\"loader_flags\":", headers.loader_flags as u64);
    write_number(
        text,
        b",\"number_of_rva_and_sizes\":",
        headers.number_of_rva_and_sizes as u64,
    );
    // end of describe/records.txt
}

/// Adds the fields of an optional header, in the header's order ("PE Format", Optional Header).
pub(crate) fn write_optional<W: Sink>(text: &mut TextWriter<W>, headers: &Headers)
    requires { IsReady W.failures text.old }
    ensures { Adds W.taken W.failures text.old text.new (more (optional_members headers.now)) }
{
    write_standard(text, headers);
    write_base_of_data(text, headers.base_of_data);
    write_versions(text, headers);
    write_sizes(text, headers);
    write_text_if(
        text,
        b",\"subsystem_name\":",
        subsystem_name(headers.subsystem),
    );
    write_last(text, headers);
}
