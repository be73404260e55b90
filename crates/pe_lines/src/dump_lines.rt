//! The dump of an image: a line for each header field and each row of its tables.

ghost use Rattle.std.specs.Prelude.{◌≡◌, flat_map, map};
ghost use Rattle.pe_tables.specs.ExportsView.{exports_view};
ghost use Rattle.pe_tables.specs.ImportView.{import_view};
ghost use Rattle.pe_text.specs.TextWriter.{IsReady, Adds};
ghost use Rattle.pe_text.specs.Field.{field_line};
ghost use Rattle.pe_text.specs.HeaderFields.{base_of_data_fields};
ghost use Rattle.pe_text.specs.Text.{numbered};
ghost use Rattle.pe_lines.specs.Dump.{format_line, pe_offset_line, directory_line, name_of, section_line, field_lines, dump_text};

use crate::format::format_name;
use crate::table_lines::{write_exports, write_fixups, write_imports};
use pe_head::{Directory, Headers, Magic, SectionHeader};
use pe_tables::{Exports, Fixup, Import};
use pe_text::Part::{Decimal, Hex8, Quoted, Text};
use pe_text::{
    Field, Sink, TextWriter, coff_fields, standard_fields, windows_fields, write_fields,
    write_machine, write_parts,
};
use pe_view::View;
use std::alloc::Allocator;

#[tactic(auto, unfolding(crate::specs::Dump::format_line))]
fn write_format<W: Sink>(line: &mut TextWriter<W>, magic: Magic)
    requires { IsReady W.failures line.old }
    ensures { Adds W.taken W.failures line.old line.new (format_line magic) }
{
    write_parts(
        line,
        &[Text(b"format "), Text(format_name(magic)), Text(b"\n")],
    );
}

#[tactic(auto, unfolding(crate::specs::Dump::pe_offset_line))]
fn write_pe_offset<W: Sink>(line: &mut TextWriter<W>, offset: u32)
    requires { IsReady W.failures line.old }
    ensures { Adds W.taken W.failures line.old line.new (pe_offset_line offset) }
{
    write_parts(
        line,
        &[Text(b"pe-offset 0x"), Hex8(offset as u64), Text(b"\n")],
    );
}

fn write_base_of_data<W: Sink>(text: &mut TextWriter<W>, base_of_data: Option<u32>)
    requires { IsReady W.failures text.old }
    ensures { Adds W.taken W.failures text.old text.new (flat_map field_line (base_of_data_fields base_of_data)) }
{
    match base_of_data {
        None => write_fields(text, &[]),
        Some(base) => write_fields(
            text,
            &[Field {
                name: b"BaseOfData",
                width: 4,
                value: base as u64,
            }],
        ),
    }
}

/// Adds the fields of both headers, in the order of "PE Format".
#[tactic(auto, unfolding(crate::specs::Dump::field_lines))]
fn write_header_fields<W: Sink>(text: &mut TextWriter<W>, headers: &Headers)
    requires { IsReady W.failures text.old }
    ensures { Adds W.taken W.failures text.old text.new (field_lines headers.now) }
{
    write_machine(text, headers.machine);
    write_fields(text, &coff_fields(headers));
    write_fields(text, &standard_fields(headers));
    write_base_of_data(text, headers.base_of_data);
    write_fields(text, &windows_fields(headers));
}

#[tactic(auto, unfolding(crate::specs::Dump::directory_line))]
fn write_directory<W: Sink>(line: &mut TextWriter<W>, index: usize, directory: &Directory)
    requires { IsReady W.failures line.old }
    ensures { Adds W.taken W.failures line.old line.new (directory_line index directory.now) }
{
    write_parts(
        line,
        &[
            Text(b"Directory "),
            Decimal(index as u64),
            Text(b" 0x"),
            Hex8(directory.rva as u64),
            Text(b" 0x"),
            Hex8(directory.size as u64),
            Text(b"\n"),
        ],
    );
}

fn write_directories<W: Sink>(text: &mut TextWriter<W>, directories: &[Directory])
    requires { IsReady W.failures text.old }
    ensures { Adds W.taken W.failures text.old text.new (numbered directory_line 0 directories.now) }
{
    for (index, directory) in directories.iter().enumerate() {
        write_directory(text, index, directory);
    }
}

/// A section's name, without the zero bytes that pad it.
fn name_of(section: &SectionHeader) -> &[u8]
    ensures { result.now ≡ name_of section.now }
{
    View::new(&section.name)
        .until_zero(0, 8)
        .unwrap_or(&section.name)
}

#[tactic(auto, unfolding(crate::specs::Dump::section_line))]
fn write_section<W: Sink>(line: &mut TextWriter<W>, index: usize, section: &SectionHeader)
    requires { IsReady W.failures line.old }
    ensures { Adds W.taken W.failures line.old line.new (section_line index section.now) }
{
    write_parts(
        line,
        &[
            Text(b"section "),
            Decimal(index as u64),
            Text(b" "),
            Quoted(name_of(section)),
            Text(b" va 0x"),
            Hex8(section.virtual_address as u64),
            Text(b" extent 0x"),
            Hex8(section.extent() as u64),
            Text(b" raw 0x"),
            Hex8(section.pointer_to_raw_data as u64),
            Text(b" rawlen 0x"),
            Hex8(section.rawlen() as u64),
            Text(b" flags 0x"),
            Hex8(section.characteristics as u64),
            Text(b"\n"),
        ],
    );
}

fn write_sections<W: Sink>(text: &mut TextWriter<W>, sections: &[SectionHeader])
    requires { IsReady W.failures text.old }
    ensures { Adds W.taken W.failures text.old text.new (numbered section_line 0 sections.now) }
{
    for (index, section) in sections.iter().enumerate() {
        write_section(text, index, section);
    }
}

/// Adds the lines of a dump.
#[tactic(auto, unfolding(crate::specs::Dump::dump_text))]
pub(crate) fn write_dump<A: Allocator + Copy, W: Sink>(
    text: &mut TextWriter<W>,
    headers: &Headers,
    exports: &Exports<A>,
    imports: &[Import],
    fixups: &[Fixup],
)
    requires { IsReady W.failures text.old }
    ensures { Adds W.taken W.failures text.old text.new
        (dump_text headers.now (exports_view exports.now) (map import_view imports.now) fixups.now) }
{
    write_format(text, headers.magic);
    write_pe_offset(text, headers.pe_offset);
    write_header_fields(text, headers);
    write_directories(text, headers.directories.as_slice());
    write_sections(text, headers.sections.as_slice());
    write_exports(text, exports);
    write_imports(text, imports);
    write_fixups(text, fixups);
    text.text(b"end\n");
}
