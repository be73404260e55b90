//! The lines of an object's dump: its sections, relocations, symbols and auxiliary records. After a failed write no more are made.

ghost use Rattle.std.specs.Prelude.{◌≡◌, ◌+◌, ◌^◌, ◌≤◌, ◌∷◌, [], codes, decimal, flat_map, option_map};
ghost use Rattle.coff_read.specs.Auxiliary.{Function, Section as SectionRecord};
ghost use Rattle.coff_read.specs.AuxiliaryView.{aux_view};
ghost use Rattle.coff_read.specs.BigAuxiliary.{big_aux_view};
ghost use Rattle.coff_read.specs.BigView.{belongs_view, big_symbol_view};
ghost use Rattle.coff_read.specs.EitherObject.{form_of, file_of};
ghost use Rattle.coff_read.specs.FileView.{file_section_view, relocations_view};
ghost use Rattle.coff_read.specs.FormReading.{object_of};
ghost use Rattle.coff_read.specs.ObjectView.{raw_view};
ghost use Rattle.coff_read.specs.Records.{raw_size};
ghost use Rattle.coff_lines.specs.ObjectLines.{type_name, class_name, raw_word, section_line, section_lines, relocation_line, section_text, symbol_line, shape_text, aux_line, aux_lines, symbol_lines, object_text};
ghost use Rattle.pe_text.specs.Part.{joined, name_text};
ghost use Rattle.pe_text.specs.Text.{hex, numbered};
ghost use Rattle.pe_text.specs.TextWriter.{IsReady, Adds};

use coff_read::{
    Aux, BigAux, BigSection, BigSymbol, EitherObject, FileSection, RawData, Relocation,
    Relocations, relocation_type_name, storage_class_name,
};
use pe_head::machine;
use pe_text::Part::{self, Decimal, Hex8, Quoted, Text};
use pe_text::{
    Sink, TextWriter, characteristics, time_date_stamp, write_fields, write_machine, write_parts,
};

/// The name of a storage class, if a dump names it.
fn class_name(class: u8) -> Option<&'static str>
    ensures { option_map (λ name. name.now) result ≡ class_name class }
{
    match class {
        0 | 2 | 3 | 6 | 101 | 103 | 104 | 105 => storage_class_name(class),
        _ => None,
    }
}

/// The name of a relocation's type, if a dump names it: most of AMD64's and some of I386's.
fn type_name(machine: u16, kind: u16) -> Option<&'static str>
    ensures { option_map (λ name. name.now) result ≡ type_name machine kind }
{
    match (machine, kind) {
        (machine::AMD64, 0..=11) | (machine::I386, 0 | 6 | 7 | 10 | 11 | 20) => {
            relocation_type_name(machine, kind)
        }
        _ => None,
    }
}

/// How many bytes a section has, and whether they are in the file.
fn size_and_word(raw: &RawData) -> (u64, &'static [u8])
    ensures size { result.0 ≡ raw_size (raw_view raw.now) }
    ensures word { result.1.now ≡ raw_word (raw_view raw.now) }
{
    match raw {
        RawData::Bytes(bytes) => (bytes.len() as u64, b" bytes"),
        RawData::Absent(size) => (*size as u64, b" absent"),
    }
}

#[tactic(auto, unfolding(crate::specs::ObjectLines::section_line))]
fn write_section<W: Sink>(line: &mut TextWriter<W>, number: u64, section: &FileSection)
    requires { IsReady W.failures line.old }
    ensures { Adds W.taken W.failures line.old line.new (section_line number (file_section_view section.now)) }
{
    let (size, word) = size_and_word(&section.raw);
    let relocations = section.relocations.len();
    write_parts(
        line,
        &[
            Text(b"section "),
            Decimal(number),
            Text(b" "),
            Quoted(section.name),
            Text(b" size 0x"),
            Hex8(size),
            Text(word),
            Text(b" flags 0x"),
            Hex8(section.flags as u64),
            Text(b" relocations "),
            Decimal(relocations as u64),
            Text(b"\n"),
        ],
    );
}

/// Adds a space and a name, if there is one.
pub(crate) fn write_name<W: Sink>(line: &mut TextWriter<W>, name: Option<&str>)
    requires { IsReady W.failures line.old }
    ensures { Adds W.taken W.failures line.old line.new (name_text (option_map (λ text. text.now) name.entry)) }
{
    if let Some(name) = name {
        line.text(b" ");
        line.text(name.as_bytes());
    }
}

#[tactic(auto, unfolding(crate::specs::ObjectLines::relocation_line))]
fn write_relocation<W: Sink>(line: &mut TextWriter<W>, machine: u16, relocation: &Relocation)
    requires { IsReady W.failures line.old }
    ensures { Adds W.taken W.failures line.old line.new (relocation_line machine relocation.now) }
{
    line.text(b"reloc 0x");
    line.hex(8, relocation.address as u64);
    line.text(b" symbol ");
    line.decimal(relocation.symbol as u64);
    line.text(b" type ");
    line.decimal(relocation.kind as u64);
    write_name(line, type_name(machine, relocation.kind));
    line.text(b"\n");
}

fn write_relocations<W: Sink>(text: &mut TextWriter<W>, machine: u16, relocations: Relocations)
    requires { IsReady W.failures text.old }
    ensures { Adds W.taken W.failures text.old text.new (flat_map (relocation_line machine) (relocations_view relocations.entry)) }
{
    for index in 0..relocations.len() {
        if text.has_failed() {
            return;
        }
        let relocation = relocations.get(index).unwrap();
        write_relocation(text, machine, &relocation);
    }
}

/// Adds the lines of each section, with its number from 1.
fn write_sections<W: Sink>(text: &mut TextWriter<W>, machine: u16, object: &EitherObject)
    requires { IsReady W.failures text.old }
    ensures { Adds W.taken W.failures text.old text.new
        (numbered (section_lines machine) 1 (object_of (form_of object.now) (file_of object.now)).sections) }
{
    for index in 0..object.section_count() {
        if text.has_failed() {
            return;
        }
        let section = object.section(index).unwrap();
        write_section(text, index as u64 + 1, &section);
        write_relocations(text, machine, section.relocations);
    }
}

/// Adds the section of a symbol: its number from 1, or a word.
fn write_symbol_section<W: Sink>(line: &mut TextWriter<W>, section: BigSection)
    requires { IsReady W.failures line.old }
    ensures { Adds W.taken W.failures line.old line.new (section_text (belongs_view section)) }
{
    match section {
        BigSection::Undefined => line.text(b"undefined"),
        BigSection::Absolute => line.text(b"absolute"),
        BigSection::Debug => line.text(b"debug"),
        BigSection::Section(number) => line.decimal(number as u64),
    }
}

#[tactic(auto, unfolding(crate::specs::ObjectLines::symbol_line))]
fn write_symbol<W: Sink>(
    line: &mut TextWriter<W>,
    object: &EitherObject,
    index: u64,
    symbol: &BigSymbol,
)
    requires { IsReady W.failures line.old }
    ensures { Adds W.taken W.failures line.old line.new (symbol_line (form_of object.now) index (big_symbol_view symbol.now)) }
{
    line.text(b"symbol ");
    line.decimal(index);
    line.text(b" ");
    line.quoted(symbol.name);
    line.text(b" value 0x");
    line.hex(8, symbol.value as u64);
    line.text(b" section ");
    write_symbol_section(line, symbol.section);
    line.text(b" type 0x");
    line.hex(4, symbol.kind as u64);
    line.text(b" class ");
    line.decimal(symbol.class as u64);
    write_name(line, class_name(symbol.class));
    line.text(b" aux ");
    line.decimal(object.aux_count(symbol) as u64);
    line.text(b"\n");
}

/// Adds two hexadecimal digits for each byte.
fn write_digits<W: Sink>(line: &mut TextWriter<W>, bytes: &[u8])
    requires { IsReady W.failures line.old }
    ensures { Adds W.taken W.failures line.old line.new (flat_map (hex 2) bytes.now) }
{
    for byte in bytes {
        line.hex(2, *byte as u64);
    }
}

/// Adds a word and two numbers.
fn write_pair<W: Sink>(line: &mut TextWriter<W>, word: &[u8], first: u64, second: u64)
    requires { IsReady W.failures line.old }
    ensures { Adds W.taken W.failures line.old line.new (joined (word.now ∷ decimal first ∷ codes " " ∷ decimal second ∷ [])) }
{
    write_parts(
        line,
        &[Text(word), Decimal(first), Text(b" "), Decimal(second)],
    );
}

/// Adds the fields of the auxiliary record of a function definition.
fn write_function<W: Sink>(
    line: &mut TextWriter<W>,
    tag_index: u32,
    total_size: u32,
    pointer_to_linenumber: u32,
    pointer_to_next_function: u32,
)
    requires { IsReady W.failures line.old }
    ensures { Adds W.taken W.failures line.old line.new
        (shape_text (Function tag_index total_size pointer_to_linenumber pointer_to_next_function)) }
{
    write_parts(
        line,
        &[
            Text(b"function "),
            Decimal(tag_index as u64),
            Text(b" "),
            Decimal(total_size as u64),
            Text(b" 0x"),
            Hex8(pointer_to_linenumber as u64),
            Text(b" "),
            Decimal(pointer_to_next_function as u64),
        ],
    );
}

/// Adds the fields of the auxiliary record of a section definition.
fn write_section_record<W: Sink>(
    line: &mut TextWriter<W>,
    length: u32,
    relocations: u16,
    line_numbers: u16,
    checksum: u32,
    number: u32,
    selection: u8,
)
    requires { IsReady W.failures line.old }
    ensures { Adds W.taken W.failures line.old line.new
        (shape_text (SectionRecord length relocations line_numbers checksum number selection)) }
{
    write_parts(
        line,
        &[
            Text(b"section "),
            Decimal(length as u64),
            Text(b" "),
            Decimal(relocations as u64),
            Text(b" "),
            Decimal(line_numbers as u64),
            Text(b" 0x"),
            Hex8(checksum as u64),
            Text(b" "),
            Decimal(number as u64),
            Text(b" "),
            Decimal(selection as u64),
        ],
    );
}

/// Adds the fields of an auxiliary record ("PE Format", Auxiliary Symbol Records), after a word for its format.
fn write_shape<W: Sink>(line: &mut TextWriter<W>, aux: &Aux)
    requires { IsReady W.failures line.old }
    ensures { Adds W.taken W.failures line.old line.new (shape_text (aux_view aux.now)) }
{
    match aux {
        Aux::Function {
            tag_index,
            total_size,
            pointer_to_linenumber: pointer,
            pointer_to_next_function: next,
        } => write_function(line, *tag_index, *total_size, *pointer, *next),
        Aux::Lines { line: number, next } => {
            write_pair(line, b"lines ", *number as u64, *next as u64)
        }
        Aux::Weak { tag_index, search } => {
            write_pair(line, b"weak ", *tag_index as u64, *search as u64)
        }
        Aux::File { name } => write_parts(line, &[Text(b"file "), Quoted(name)]),
        Aux::Section {
            length,
            relocations,
            line_numbers,
            checksum,
            number,
            selection,
        } => write_section_record(
            line,
            *length,
            *relocations,
            *line_numbers,
            *checksum,
            *number as u32,
            *selection,
        ),
        Aux::Raw { bytes } => {
            line.text(b"raw ");
            write_digits(line, bytes);
        }
    }
}

/// Adds the fields of an auxiliary record of an object of either form.
fn write_either_shape<W: Sink>(line: &mut TextWriter<W>, aux: &BigAux)
    requires { IsReady W.failures line.old }
    ensures { Adds W.taken W.failures line.old line.new (shape_text (big_aux_view aux.now)) }
{
    match aux {
        BigAux::Section {
            length,
            relocations,
            line_numbers,
            checksum,
            number,
            selection,
        } => write_section_record(
            line,
            *length,
            *relocations,
            *line_numbers,
            *checksum,
            *number,
            *selection,
        ),
        BigAux::Other(aux) => write_shape(line, aux),
    }
}

#[tactic(auto, unfolding(crate::specs::ObjectLines::aux_line))]
fn write_aux<W: Sink>(line: &mut TextWriter<W>, index: u64, aux: &BigAux)
    requires { IsReady W.failures line.old }
    ensures { Adds W.taken W.failures line.old line.new (aux_line index (big_aux_view aux.now)) }
{
    line.text(b"aux ");
    line.decimal(index);
    line.text(b" ");
    write_either_shape(line, aux);
    line.text(b"\n");
}

/// Adds the lines of the auxiliary records of a symbol, the first with this index.
fn write_aux_records<'a, W: Sink>(
    text: &mut TextWriter<W>,
    object: &EitherObject<'a>,
    symbol: &BigSymbol<'a>,
    index: u64,
)
    requires ready { IsReady W.failures text.old }
    requires small { index ≤ 2 ^ 32 }
    ensures { Adds W.taken W.failures text.old text.new (aux_lines (form_of object.now) index (big_symbol_view symbol.now)) }
{
    for k in 0..object.aux_count(symbol) {
        if text.has_failed() {
            return;
        }
        let aux = object.aux_record(symbol, k).unwrap();
        write_aux(text, index + k as u64, &aux);
    }
}

/// Adds the lines of each symbol, with the index of its record, and of its auxiliary records.
fn write_symbols<W: Sink>(text: &mut TextWriter<W>, object: &EitherObject)
    requires { IsReady W.failures text.old }
    ensures { Adds W.taken W.failures text.old text.new (symbol_lines (form_of object.now) 0 (object_of (form_of object.now) (file_of object.now)).symbols) }
{
    for (index, symbol) in object.symbols() {
        if text.has_failed() {
            return;
        }
        write_symbol(text, object, u64::from(index), &symbol);
        write_aux_records(text, object, &symbol, u64::from(index) + 1);
    }
}

/// Adds the lines of the dump of an object of either form.
#[tactic(auto, unfolding(crate::specs::ObjectLines::object_text))]
pub(crate) fn write_object<W: Sink>(text: &mut TextWriter<W>, object: &EitherObject)
    requires { IsReady W.failures text.old }
    ensures { Adds W.taken W.failures text.old text.new (object_text (form_of object.now) (object_of (form_of object.now) (file_of object.now))) }
{
    write_machine(text, object.machine());
    write_fields(
        text,
        &[
            time_date_stamp(object.time_stamp()),
            characteristics(object.characteristics()),
        ],
    );
    write_sections(text, object.machine(), object);
    write_symbols(text, object);
    text.text(b"end\n");
}
