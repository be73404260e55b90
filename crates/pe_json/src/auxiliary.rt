//! The list of a symbol's auxiliary records.

ghost use Rattle.std.specs.Prelude.{◌+◌, ◌*◌, ◌^◌, ◌≤◌, ◌==◌, ◌++◌, ◌∷◌, [], true, codes, flat_map, map};
ghost use Rattle.std.specs.List.{range_with_len};
ghost use Rattle.coff_read.specs.Auxiliary.{Function, Section as SectionRecord};
ghost use Rattle.coff_read.specs.AuxiliaryView.{aux_view};
ghost use Rattle.coff_read.specs.BigAuxiliary.{big_aux_view};
ghost use Rattle.coff_read.specs.BigView.{big_symbol_view};
ghost use Rattle.coff_read.specs.FormRecords.{aux_records};
ghost use Rattle.pe_text.specs.Text.{hex};
ghost use Rattle.pe_text.specs.TextWriter.{IsReady, Adds};
ghost use Rattle.pe_json.specs.Listed.{items_text, more};
ghost use Rattle.pe_json.specs.ObjectLine.{aux_members, aux_row, aux_row_at, aux_list_members};

use crate::string::{write_digits, write_name, write_number};
use coff_read::{Aux, BigAux, BigSymbol, aux_count, aux_record};
use pe_text::{Sink, TextWriter};

/// Adds the members of the record of a function's definition.
fn write_function<W: Sink>(
    text: &mut TextWriter<W>,
    tag_index: u32,
    total_size: u32,
    pointer_to_linenumber: u32,
    pointer_to_next_function: u32,
)
    requires { IsReady W.failures text.old }
    ensures { Adds W.taken W.failures text.old text.new
        (more (aux_members (Function tag_index total_size pointer_to_linenumber pointer_to_next_function))) }
{
    write_number(
        text,
        b",\"kind\":\"function\",\"tag_index\":",
        tag_index as u64,
    );
    write_number(text, b",\"total_size\":", total_size as u64);
    write_number(
        text,
        b",\"pointer_to_linenumber\":",
        pointer_to_linenumber as u64,
    );
    write_number(
        text,
        b",\"pointer_to_next_function\":",
        pointer_to_next_function as u64,
    );
}

/// Adds the members of the record of a section's definition.
fn write_definition<W: Sink>(
    text: &mut TextWriter<W>,
    length: u32,
    relocations: u16,
    line_numbers: u16,
    check_sum: u32,
    number: u32,
    selection: u8,
)
    requires { IsReady W.failures text.old }
    ensures { Adds W.taken W.failures text.old text.new
        (more (aux_members (SectionRecord length relocations line_numbers check_sum number selection))) }
{
    write_number(
        text,
        b",\"kind\":\"section_definition\",\"length\":",
        length as u64,
    );
    write_number(text, b",\"number_of_relocations\":", relocations as u64);
    write_number(text, b",\"number_of_linenumbers\":", line_numbers as u64);
    write_number(text, b",\"check_sum\":", check_sum as u64);
    write_number(text, b",\"number\":", number as u64);
    write_number(text, b",\"selection\":", selection as u64);
}

/// Adds the kind and the fields of an auxiliary record, in the format for its symbol ("PE Format", Auxiliary Symbol Records).
fn write_fields<W: Sink>(text: &mut TextWriter<W>, aux: &Aux)
    requires { IsReady W.failures text.old }
    ensures { Adds W.taken W.failures text.old text.new (more (aux_members (aux_view aux.now))) }
{
    match aux {
        Aux::Function {
            tag_index,
            total_size,
            pointer_to_linenumber: pointer,
            pointer_to_next_function: next,
        } => write_function(text, *tag_index, *total_size, *pointer, *next),
        Aux::Lines { line, next } => {
            write_number(text, b",\"kind\":\"lines\",\"linenumber\":", *line as u64);
            write_number(text, b",\"pointer_to_next_function\":", *next as u64);
        }
        Aux::Weak { tag_index, search } => {
            write_number(
                text,
                b",\"kind\":\"weak_external\",\"tag_index\":",
                *tag_index as u64,
            );
            write_number(text, b",\"characteristics\":", *search as u64);
        }
        Aux::File { name } => write_name(
            text,
            b",\"kind\":\"file\",\"file_name\":\"",
            b",\"kind\":\"file\",\"file_name_hex\":\"",
            name,
        ),
        Aux::Section {
            length,
            relocations,
            line_numbers,
            checksum,
            number,
            selection,
        } => write_definition(
            text,
            *length,
            *relocations,
            *line_numbers,
            *checksum,
            *number as u32,
            *selection,
        ),
        Aux::Raw { bytes } => {
            text.text(b",\"kind\":\"raw\",\"bytes_hex\":\"");
            write_digits(text, bytes);
            text.text(b"\"");
        }
    }
}

/// Adds the kind and the fields of an auxiliary record of an object of either form.
fn write_either_fields<W: Sink>(text: &mut TextWriter<W>, aux: &BigAux)
    requires { IsReady W.failures text.old }
    ensures { Adds W.taken W.failures text.old text.new (more (aux_members (big_aux_view aux.now))) }
{
    match aux {
        BigAux::Section {
            length,
            relocations,
            line_numbers,
            checksum,
            number,
            selection,
        } => write_definition(
            text,
            *length,
            *relocations,
            *line_numbers,
            *checksum,
            *number,
            *selection,
        ),
        BigAux::Other(aux) => write_fields(text, aux),
    }
}

/// Adds an auxiliary record with its index.
fn write_aux<W: Sink>(text: &mut TextWriter<W>, index: u64, aux: &BigAux)
    requires { IsReady W.failures text.old }
    ensures { Adds W.taken W.failures text.old text.new (aux_row index (big_aux_view aux.now)) }
{
    write_number(text, b"{\"index\":", index);
    write_either_fields(text, aux);
    text.text(b"}");
}

/// Adds an auxiliary record, after a comma unless it is the first of the list.
fn write_next<W: Sink>(text: &mut TextWriter<W>, first: bool, index: u64, aux: &BigAux)
    requires { IsReady W.failures text.old }
    ensures { Adds W.taken W.failures text.old text.new (items_text first (aux_row index (big_aux_view aux.now) ∷ [])) }
{
    if first {
        write_aux(text, index, aux);
    } else {
        text.text(b",");
        write_aux(text, index, aux);
    }
}

/// Adds the auxiliary records of a symbol, of which the first has the index.
fn write_rows<W: Sink>(text: &mut TextWriter<W>, is_big: bool, index: u64, symbol: &BigSymbol)
    requires ready { IsReady W.failures text.old }
    requires small { index ≤ 2 ^ 32 }
    ensures { Adds W.taken W.failures text.old text.new
        (items_text true (map (aux_row_at is_big index (big_symbol_view symbol.now)) (range_with_len 0 (aux_records is_big (big_symbol_view symbol.now))))) }
{
    for k in 0..aux_count(is_big, symbol) {
        if text.has_failed() {
            return;
        }
        let aux = aux_record(is_big, symbol, k).unwrap();
        write_next(text, k == 0, index + k as u64, &aux);
    }
}

/// Adds the member that lists the auxiliary records of a symbol, if it has any. The first of them has the index.
pub(crate) fn write_aux_list<W: Sink>(
    text: &mut TextWriter<W>,
    is_big: bool,
    index: u64,
    symbol: &BigSymbol,
)
    requires ready { IsReady W.failures text.old }
    requires small { index ≤ 2 ^ 32 }
    ensures { Adds W.taken W.failures text.old text.new
        (more (aux_list_members is_big (aux_records is_big (big_symbol_view symbol.now)) index (big_symbol_view symbol.now))) }
{
    if aux_count(is_big, symbol) == 0 {
        return;
    }
    text.text(b",\"auxiliary_records\":[");
    write_rows(text, is_big, index, symbol);
    text.text(b"]");
}
