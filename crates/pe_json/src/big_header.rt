//! The header of a big object.

ghost use Rattle.pe_text.specs.TextWriter.{IsReady, Adds};
ghost use Rattle.pe_json.specs.BigHeader.{big_numbers, big_members};
ghost use Rattle.pe_json.specs.JsonText.{with_commas};
ghost use Rattle.pe_json.specs.Listed.{more};

use crate::string::{write_number, write_text_if};
use coff_read::BigFileHeader;
use pe_head::machine_name;
use pe_text::{Sink, TextWriter};

/// Adds the fields of a big object's header after Machine.
fn write_big_numbers<W: Sink>(text: &mut TextWriter<W>, header: &BigFileHeader)
    requires { IsReady W.failures text.old }
    ensures { Adds W.taken W.failures text.old text.new (more (big_numbers header.now)) }
{
    write_number(text, b",\"version\":", header.version as u64);
    write_number(
        text,
        b",\"number_of_sections\":",
        header.number_of_sections as u64,
    );
    write_number(
        text,
        b",\"time_date_stamp\":",
        header.time_date_stamp as u64,
    );
    write_number(
        text,
        b",\"pointer_to_symbol_table\":",
        header.pointer_to_symbol_table as u64,
    );
    write_number(
        text,
        b",\"number_of_symbols\":",
        header.number_of_symbols as u64,
    );
    write_number(text, b",\"size_of_data\":", header.size_of_data as u64);
    write_number(text, b",\"flags\":", header.flags as u64);
    write_number(text, b",\"meta_data_size\":", header.meta_data_size as u64);
    write_number(
        text,
        b",\"meta_data_offset\":",
        header.meta_data_offset as u64,
    );
}

/// Adds the fields of a big object's header; Machine and its name come first, as in every header.
pub(crate) fn write_big<W: Sink>(text: &mut TextWriter<W>, header: &BigFileHeader)
    requires { IsReady W.failures text.old }
    ensures { Adds W.taken W.failures text.old text.new (with_commas (big_members header.now)) }
{
    write_number(text, b"\"machine\":", header.machine as u64);
    write_text_if(text, b",\"machine_name\":", machine_name(header.machine));
    write_big_numbers(text, header);
}
