//! The load configuration and the CLR header of an image, whose fields depend on their size.

ghost use Rattle.std.specs.Prelude.{◌≡◌, ◌++◌, codes, length, IfSome, option_map, slice_get};
ghost use Rattle.json.specs.Print.{quoted};
ghost use Rattle.pe_head.specs.Names.{name_in};
ghost use Rattle.pe_layout.specs.Layout.{image_of};
ghost use Rattle.pe_records.specs.Structure.{address_width};
ghost use Rattle.pe_text.specs.TextWriter.{IsReady, Adds};
ghost use Rattle.pe_view.specs.View.{bytes_of};
ghost use Rattle.pe_json.specs.Listed.{more};
ghost use Rattle.pe_json.specs.StructureRows.{structure_key, index_of, held_of, fields_of, keys_of, field_value, field_members, member_at, fields_in, fields_if, structure_members};

use crate::string::{write_number, write_quoted, write_wide};
use crate::structure_keys::{clr_key, load_key};
use pe_head::directory_index;
use pe_layout::Layout;
use pe_records::{
    CLR_FIELD_COUNT, Field, LOAD_FIELD_COUNT, Structure, Width, clr_field, clr_header,
    load_configuration, load_field,
};
use pe_text::{Sink, TextWriter};

/// A structure that a line shows by its fields.
#[derive(Clone, Copy)]
pub(crate) enum StructureKind {
    LoadConfiguration,
    ClrHeader,
}

/// The index of a structure's directory.
fn index_of(kind: StructureKind) -> usize
    ensures { result ≡ index_of kind }
{
    match kind {
        StructureKind::LoadConfiguration => directory_index::LOAD_CONFIGURATION,
        StructureKind::ClrHeader => directory_index::CLR,
    }
}

/// The structure of an image, if the file holds its first field.
fn structure_of<'a>(kind: StructureKind, layout: &Layout<'a>) -> Option<Structure<'a>>
    ensures bytes { option_map (λ structure. bytes_of structure.bytes) result ≡ held_of kind (image_of layout.now) }
    ensures width { IfSome result (λ structure. address_width structure.is_plus ≡ (image_of layout.now).slot_width) }
{
    match kind {
        StructureKind::LoadConfiguration => load_configuration(layout),
        StructureKind::ClrHeader => clr_header(layout),
    }
}

/// The number of a structure's fields.
fn count_of(kind: StructureKind) -> u32
    ensures { result ≡ length (fields_of kind) }
{
    match kind {
        StructureKind::LoadConfiguration => LOAD_FIELD_COUNT as u32,
        StructureKind::ClrHeader => CLR_FIELD_COUNT as u32,
    }
}

/// Field `index` of a structure.
fn field_of(kind: StructureKind, index: u32) -> Option<Field>
    ensures { result ≡ slice_get (fields_of kind) index }
{
    match kind {
        StructureKind::LoadConfiguration => load_field(index as usize),
        StructureKind::ClrHeader => clr_field(index as usize),
    }
}

/// The key of field `index` of a structure.
fn key_of(kind: StructureKind, index: u32) -> Option<&'static str>
    ensures { option_map (λ key. key.now) result ≡ name_in (keys_of kind) index }
{
    match kind {
        StructureKind::LoadConfiguration => load_key(index),
        StructureKind::ClrHeader => clr_key(index),
    }
}

/// The key of a structure after a comma, and the beginning of its object.
fn member_begin(kind: StructureKind) -> &'static [u8]
    ensures { result.now ≡ codes "," ++ ((quoted (structure_key kind) ++ codes ":") ++ codes "{") }
{
    match kind {
        StructureKind::LoadConfiguration => b",\"load_configuration\":{",
        StructureKind::ClrHeader => b",\"clr\":{",
    }
}

/// Adds the number in a field: an address is a string, since it has 64 bits in PE32+.
fn write_value<W: Sink>(text: &mut TextWriter<W>, width: Width, number: u64)
    requires { IsReady W.failures text.old }
    ensures { Adds W.taken W.failures text.old text.new (field_value width number) }
{
    match width {
        Width::Two => text.decimal(number),
        Width::Four => text.decimal(number),
        Width::Address => write_wide(text, b"\"0x", number),
    }
}

/// Adds a field under its key, if the structure has it.
fn write_field<W: Sink>(text: &mut TextWriter<W>, structure: &Structure, key: &str, field: Field)
    requires { IsReady W.failures text.old }
    ensures { Adds W.taken W.failures text.old text.new
        (more (field_members (address_width structure.now.is_plus) (bytes_of structure.now.bytes) key.now field)) }
{
    let Some(number) = structure.field(field) else {
        return;
    };
    text.text(b",");
    write_quoted(text, key.as_bytes());
    text.text(b":");
    write_value(text, field.2, number);
}

/// Adds field `index`, if the structure has it.
fn write_field_at<W: Sink>(
    text: &mut TextWriter<W>,
    kind: StructureKind,
    structure: &Structure,
    index: u32,
)
    requires { IsReady W.failures text.old }
    ensures { Adds W.taken W.failures text.old text.new
        (more (member_at kind (address_width structure.now.is_plus) (bytes_of structure.now.bytes) index)) }
{
    let Some(key) = key_of(kind, index) else {
        return;
    };
    let Some(field) = field_of(kind, index) else {
        return;
    };
    write_field(text, structure, key, field);
}

/// Adds the fields that a structure has.
fn write_fields<W: Sink>(text: &mut TextWriter<W>, kind: StructureKind, structure: &Structure)
    requires { IsReady W.failures text.old }
    ensures { Adds W.taken W.failures text.old text.new
        (more (fields_in kind (address_width structure.now.is_plus) (bytes_of structure.now.bytes))) }
{
    for index in 0..count_of(kind) {
        write_field_at(text, kind, structure, index);
    }
}

/// Adds the fields of an image's structure, if the file holds the first of them.
fn write_fields_of<W: Sink>(text: &mut TextWriter<W>, kind: StructureKind, layout: &Layout)
    requires { IsReady W.failures text.old }
    ensures { Adds W.taken W.failures text.old text.new
        (more (fields_if kind (image_of layout.now).slot_width (held_of kind (image_of layout.now)))) }
{
    let Some(structure) = structure_of(kind, layout) else {
        return;
    };
    write_fields(text, kind, &structure);
}

/// Adds a structure, if the image has its directory.
pub(crate) fn write_structure<W: Sink>(
    text: &mut TextWriter<W>,
    kind: StructureKind,
    layout: &Layout,
)
    requires { IsReady W.failures text.old }
    ensures { Adds W.taken W.failures text.old text.new (more (structure_members kind (image_of layout.now))) }
{
    let Some(directory) = layout.directory(index_of(kind)) else {
        return;
    };
    text.text(member_begin(kind));
    write_number(text, b"\"rva\":", directory.rva as u64);
    write_fields_of(text, kind, layout);
    text.text(b"}");
}
