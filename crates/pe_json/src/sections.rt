//! The list of an image's sections, and the members of a section header.

ghost use Rattle.std.specs.Prelude.{◌≡◌, ◌==◌, ◌+◌, ◌-◌, ◌^◌, ◌<◌, ◌++◌, ◌∷◌, [], codes, if◌then◌else◌, option_map};
ghost use Rattle.coff_read.specs.ImageNames.{table_of};
ghost use Rattle.pe_text.specs.Text.{numbered};
ghost use Rattle.pe_text.specs.TextWriter.{IsReady, Adds};
ghost use Rattle.pe_json.specs.Listed.{more};
ghost use Rattle.pe_json.specs.Sections.{without_zeros, short_unless, short_name, name_members, section_fields, section_members, section_row, sections_list};

use crate::flags::write_flags;
use crate::string::{write_name, write_number};
use coff_read::{ImageStrings, section_name};
use pe_head::{FlagKind, SectionHeader};
use pe_text::{Sink, TextWriter};

/// How many bytes are kept if the byte with an index comes after those of which `len` are.
fn len_with(len: usize, index: usize, byte: u8) -> usize
    requires { index < 2 ^ 64 - 1 }
    ensures { result ≡ (if byte == 0 then len else index + 1) }
{
    if byte == 0 { len } else { index + 1 }
}

/// The bytes without the zero bytes at their end.
fn without_zeros(bytes: &[u8]) -> &[u8]
    ensures { result.now ≡ without_zeros bytes.now }
{
    let mut len = 0;
    for (index, byte) in bytes.iter().enumerate() {
        len = len_with(len, index, *byte);
    }
    &bytes[..len]
}

/// Adds the short name, unless it is the name.
fn write_short_unless<W: Sink>(text: &mut TextWriter<W>, is_name: bool, short: &[u8])
    requires { IsReady W.failures text.old }
    ensures { Adds W.taken W.failures text.old text.new (more (short_unless is_name short.now)) }
{
    if is_name {
        return;
    }
    write_name(
        text,
        b",\"short_name\":\"",
        b",\"short_name_hex\":\"",
        short,
    );
}

/// Adds the Name field without the zero bytes at its end, unless that is the section's name.
fn write_short<W: Sink>(text: &mut TextWriter<W>, name: &[u8], field: &[u8])
    requires { IsReady W.failures text.old }
    ensures { Adds W.taken W.failures text.old text.new (more (short_name name.now field.now)) }
{
    let short = without_zeros(field);
    write_short_unless(text, short == name, short);
}

/// Adds the name of a section.
fn write_long<W: Sink>(text: &mut TextWriter<W>, name: &[u8])
    requires { IsReady W.failures text.old }
    ensures { Adds W.taken W.failures text.old text.new (more (name_members name.now)) }
{
    write_name(text, b",\"name\":\"", b",\"name_hex\":\"", name);
}

/// Adds the fields of a section header after its name.
fn write_fields<W: Sink>(text: &mut TextWriter<W>, s: &SectionHeader)
    requires { IsReady W.failures text.old }
    ensures { Adds W.taken W.failures text.old text.new (more (section_fields s.now)) }
{
    write_number(text, b",\"virtual_size\":", s.virtual_size as u64);
    write_number(text, b",\"virtual_address\":", s.virtual_address as u64);
    write_number(text, b",\"size_of_raw_data\":", s.size_of_raw_data as u64);
    write_number(
        text,
        b",\"pointer_to_raw_data\":",
        s.pointer_to_raw_data as u64,
    );
    write_number(
        text,
        b",\"pointer_to_relocations\":",
        s.pointer_to_relocations as u64,
    );
    write_number(
        text,
        b",\"pointer_to_linenumbers\":",
        s.pointer_to_linenumbers as u64,
    );
    write_number(
        text,
        b",\"number_of_relocations\":",
        s.number_of_relocations as u64,
    );
    write_number(
        text,
        b",\"number_of_linenumbers\":",
        s.number_of_linenumbers as u64,
    );
    write_number(text, b",\"characteristics\":", s.characteristics as u64);
    write_flags(
        text,
        b",\"characteristics_flags\":[",
        FlagKind::Section,
        s.characteristics,
    );
}

/// Adds the members of a section that has this name ("PE Format", Section Table).
pub(crate) fn write_members<W: Sink>(text: &mut TextWriter<W>, name: &[u8], s: &SectionHeader)
    requires { IsReady W.failures text.old }
    ensures { Adds W.taken W.failures text.old text.new (more (section_members name.now s.now)) }
{
    write_long(text, name);
    write_short(text, name, &s.name);
    write_fields(text, s);
}

/// Adds a section with its index.
fn write_section<W: Sink>(
    text: &mut TextWriter<W>,
    strings: Option<ImageStrings>,
    index: usize,
    s: &SectionHeader,
)
    requires { IsReady W.failures text.old }
    ensures { Adds W.taken W.failures text.old text.new (section_row (option_map table_of strings.entry) index s.now) }
{
    write_number(text, b"{\"index\":", index as u64);
    write_members(text, section_name(strings, &s.name), s);
    text.text(b"}");
}

/// Adds a section after a comma.
fn write_next<W: Sink>(
    text: &mut TextWriter<W>,
    strings: Option<ImageStrings>,
    index: usize,
    s: &SectionHeader,
)
    requires { IsReady W.failures text.old }
    ensures { Adds W.taken W.failures text.old text.new (codes "," ++ section_row (option_map table_of strings.entry) index s.now) }
{
    text.text(b",");
    write_section(text, strings, index, s);
}

/// Adds the sections after the first, each after a comma.
fn write_rest<W: Sink>(
    text: &mut TextWriter<W>,
    strings: Option<ImageStrings>,
    sections: &[SectionHeader],
)
    requires { IsReady W.failures text.old }
    ensures { Adds W.taken W.failures text.old text.new
        (numbered (λ index s. codes "," ++ section_row (option_map table_of strings.entry) index s) 1 sections.now) }
{
    for (index, section) in sections.iter().enumerate() {
        if text.has_failed() {
            return;
        }
        write_next(text, strings, index + 1, section);
    }
}

/// Adds the list of sections.
pub(crate) fn write_sections<W: Sink>(
    text: &mut TextWriter<W>,
    strings: Option<ImageStrings>,
    sections: &[SectionHeader],
)
    requires { IsReady W.failures text.old }
    ensures { Adds W.taken W.failures text.old text.new (sections_list (option_map table_of strings.entry) sections.now) }
{
    text.text(b"[");
    if let Some((first, rest)) = sections.split_first() {
        write_section(text, strings, 0, first);
        write_rest(text, strings, rest);
    }
    text.text(b"]");
}
