//! The COFF file header of an image or an object.

ghost use Rattle.pe_text.specs.TextWriter.{IsReady, Adds};
ghost use Rattle.pe_json.specs.Headers.{coff_numbers, coff_members};
ghost use Rattle.pe_json.specs.JsonText.{with_commas};
ghost use Rattle.pe_json.specs.Listed.{more};

use crate::flags::write_flags;
use crate::string::{write_number, write_text_if};
use coff_read::FileHeader;
use pe_head::{FlagKind, machine_name};
use pe_text::{Sink, TextWriter};

/// Adds the fields of a COFF file header after Machine.
fn write_coff_numbers<W: Sink>(text: &mut TextWriter<W>, header: &FileHeader)
    requires { IsReady W.failures text.old }
    ensures { Adds W.taken W.failures text.old text.new (more (coff_numbers header.now)) }
{
    // from describe/records.txt: coff of headers
    write_number(
        text,
        b",\"number_of_sections\":",
        header.number_of_sections as u64,
    );
    write_number(
        text,
        b",\"time_date_stamp\":",
        header.time_date_stamp as u64,
    );
    write_number(
        text,
        b",\"pointer_to_symbol_table\":",
        header.pointer_to_symbol_table as u64,
    );
    write_number(
        text,
        b",\"number_of_symbols\":",
        header.number_of_symbols as u64,
    );
    write_number(
        text,
        b",\"size_of_optional_header\":",
        header.size_of_optional_header as u64,
    );
    write_number(
        text,
        b",\"characteristics\":",
        header.characteristics as u64,
    );
    write_flags(
        text,
        b",\"characteristics_flags\":[",
        FlagKind::File,
        header.characteristics as u32,
    );
    // end of describe/records.txt
}

/// Adds the fields of a COFF file header, in the header's order ("PE Format", COFF File Header).
pub(crate) fn write_coff<W: Sink>(text: &mut TextWriter<W>, header: &FileHeader)
    requires { IsReady W.failures text.old }
    ensures { Adds W.taken W.failures text.old text.new (with_commas (coff_members header.now)) }
{
    write_number(text, b"\"machine\":", header.machine as u64);
    write_text_if(text, b",\"machine_name\":", machine_name(header.machine));
    write_coff_numbers(text, header);
}
