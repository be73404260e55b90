//! The list of an object's sections, and of the relocations of each.

ghost use Rattle.std.specs.Prelude.{◌∷◌, [], true, map};
ghost use Rattle.coff_read.specs.FileView.{file_section_view, relocations_view};
ghost use Rattle.coff_read.specs.EitherObject.{form_of, file_of};
ghost use Rattle.coff_read.specs.FormReading.{object_of};
ghost use Rattle.pe_text.specs.TextWriter.{IsReady, Adds};
ghost use Rattle.pe_json.specs.JsonText.{list, numbered_rows};
ghost use Rattle.pe_json.specs.Listed.{items_text, more};
ghost use Rattle.pe_json.specs.ObjectLine.{alignment_members, relocation_numbers, relocation_row, relocations_members, object_section_row, sections_of};

use crate::sections::write_members;
use crate::string::{write_number, write_text_if};
use coff_read::{
    EitherObject, FileSection, Relocation, Relocations, relocation_type_name, section_alignment,
};
use pe_head::SectionHeader;
use pe_text::{Sink, TextWriter};

/// Adds the fields of a relocation after its VirtualAddress.
fn write_numbers<W: Sink>(text: &mut TextWriter<W>, relocation: &Relocation)
    requires { IsReady W.failures text.old }
    ensures { Adds W.taken W.failures text.old text.new (more (relocation_numbers relocation.now)) }
{
    write_number(text, b",\"symbol_table_index\":", relocation.symbol as u64);
    write_number(text, b",\"type\":", relocation.kind as u64);
}

/// Adds a relocation ("PE Format", COFF Relocations), and the name of its type for the machine.
fn write_relocation<W: Sink>(text: &mut TextWriter<W>, machine: u16, relocation: &Relocation)
    requires { IsReady W.failures text.old }
    ensures { Adds W.taken W.failures text.old text.new (relocation_row machine relocation.now) }
{
    write_number(text, b"{\"virtual_address\":", relocation.address as u64);
    write_numbers(text, relocation);
    write_text_if(
        text,
        b",\"type_name\":",
        relocation_type_name(machine, relocation.kind),
    );
    text.text(b"}");
}

/// Adds a relocation, after a comma unless it is the first of the list.
fn write_next_relocation<W: Sink>(
    text: &mut TextWriter<W>,
    first: bool,
    machine: u16,
    relocation: &Relocation,
)
    requires { IsReady W.failures text.old }
    ensures { Adds W.taken W.failures text.old text.new (items_text first (relocation_row machine relocation.now ∷ [])) }
{
    if first {
        write_relocation(text, machine, relocation);
    } else {
        text.text(b",");
        write_relocation(text, machine, relocation);
    }
}

/// Adds the relocations of a section.
fn write_relocations<W: Sink>(text: &mut TextWriter<W>, machine: u16, relocations: Relocations)
    requires { IsReady W.failures text.old }
    ensures { Adds W.taken W.failures text.old text.new (items_text true (map (relocation_row machine) (relocations_view relocations.entry))) }
{
    for index in 0..relocations.len() {
        if text.has_failed() {
            return;
        }
        let relocation = relocations.get(index).unwrap();
        write_next_relocation(text, index == 0, machine, &relocation);
    }
}

/// Adds the member that lists the relocations of a section.
fn write_relocation_list<W: Sink>(text: &mut TextWriter<W>, machine: u16, relocations: Relocations)
    requires { IsReady W.failures text.old }
    ensures { Adds W.taken W.failures text.old text.new (more (relocations_members machine (relocations_view relocations.entry))) }
{
    text.text(b",\"relocations\":[");
    write_relocations(text, machine, relocations);
    text.text(b"]");
}

/// Adds the alignment that the flags of a section tell, if they tell one.
fn write_alignment<W: Sink>(text: &mut TextWriter<W>, characteristics: u32)
    requires { IsReady W.failures text.old }
    ensures { Adds W.taken W.failures text.old text.new (more (alignment_members characteristics)) }
{
    let Some(alignment) = section_alignment(characteristics) else {
        return;
    };
    write_number(text, b",\"alignment\":", alignment as u64);
}

/// Adds a section, with its number from 1.
fn write_section<W: Sink>(
    text: &mut TextWriter<W>,
    machine: u16,
    number: u64,
    header: &SectionHeader,
    section: &FileSection,
)
    requires { IsReady W.failures text.old }
    ensures { Adds W.taken W.failures text.old text.new (object_section_row machine number (header.now, file_section_view section.now)) }
{
    write_number(text, b"{\"number\":", number);
    write_members(text, section.name, header);
    write_alignment(text, header.characteristics);
    write_relocation_list(text, machine, section.relocations);
    text.text(b"}");
}

/// Adds a section, after a comma unless it is the first of the list.
fn write_next_section<W: Sink>(
    text: &mut TextWriter<W>,
    first: bool,
    machine: u16,
    number: u64,
    header: &SectionHeader,
    section: &FileSection,
)
    requires { IsReady W.failures text.old }
    ensures { Adds W.taken W.failures text.old text.new
        (items_text first (object_section_row machine number (header.now, file_section_view section.now) ∷ [])) }
{
    if first {
        write_section(text, machine, number, header, section);
    } else {
        text.text(b",");
        write_section(text, machine, number, header, section);
    }
}

/// Adds the sections in table order.
fn write_rows<W: Sink>(text: &mut TextWriter<W>, object: &EitherObject)
    requires { IsReady W.failures text.old }
    ensures { Adds W.taken W.failures text.old text.new
        (items_text true (numbered_rows (object_section_row (object_of (form_of object.now) (file_of object.now)).machine) 1 (sections_of (form_of object.now) (file_of object.now)))) }
{
    for index in 0..object.section_count() {
        if text.has_failed() {
            return;
        }
        let header = object.section_header(index).unwrap();
        let section = object.section(index).unwrap();
        let number = index as u64 + 1;
        write_next_section(
            text,
            index == 0,
            object.machine(),
            number,
            &header,
            &section,
        );
    }
}

/// Adds the list of an object's sections.
pub(crate) fn write_sections<W: Sink>(text: &mut TextWriter<W>, object: &EitherObject)
    requires { IsReady W.failures text.old }
    ensures { Adds W.taken W.failures text.old text.new
        (list (numbered_rows (object_section_row (object_of (form_of object.now) (file_of object.now)).machine) 1 (sections_of (form_of object.now) (file_of object.now)))) }
{
    text.text(b"[");
    write_rows(text, object);
    text.text(b"]");
}
