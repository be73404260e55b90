//! What is told of a short import object.

ghost use Rattle.std.specs.Prelude.{option_map};
ghost use Rattle.coff_archive.specs.ImportView.{import_view};
ghost use Rattle.coff_lines.specs.ArchiveLines.{kind_name};
ghost use Rattle.pe_json.specs.Listed.{more};
ghost use Rattle.pe_text.specs.TextWriter.{IsReady, Adds};
ghost use Rattle.coff_archive_json.specs.ImportMembers.{text_members, imported_members, type_members, import_row, import_members};

use coff_archive::Import;
use coff_lines::kind_name;
use pe_head::machine_name;
use pe_json::{write_name, write_number, write_quoted, write_text_if};
use pe_text::{Sink, TextWriter};

/// Adds when an import object was made, its symbol and its DLL.
fn write_texts<W: Sink>(text: &mut TextWriter<W>, import: &Import)
    requires { IsReady W.failures text.old }
    ensures { Adds W.taken W.failures text.old text.new (more (text_members (import_view import.now))) }
{
    write_number(text, b",\"time_date_stamp\":", import.time_stamp as u64);
    write_name(
        text,
        b",\"symbol\":\"",
        b",\"symbol_hex\":\"",
        import.symbol,
    );
    write_name(
        text,
        b",\"module\":\"",
        b",\"module_hex\":\"",
        import.module,
    );
}

/// Adds the name that an import object imports and its hint, or its ordinal.
fn write_imported<W: Sink>(text: &mut TextWriter<W>, name: Option<&[u8]>, ordinal: u16)
    requires { IsReady W.failures text.old }
    ensures { Adds W.taken W.failures text.old text.new (more (imported_members (option_map (λ name. name.now) name.entry) ordinal)) }
{
    match name {
        Some(name) => {
            write_name(text, b",\"name\":\"", b",\"name_hex\":\"", name);
            write_number(text, b",\"hint\":", ordinal as u64);
        }
        None => write_number(text, b",\"ordinal\":", ordinal as u64),
    }
}

/// Adds what an import object imports, and how its name is made.
fn write_types<W: Sink>(text: &mut TextWriter<W>, import: &Import)
    requires { IsReady W.failures text.old }
    ensures { Adds W.taken W.failures text.old text.new (more (type_members (import_view import.now))) }
{
    write_number(text, b",\"type\":", import.kind as u64);
    text.text(b",\"type_name\":");
    write_quoted(text, kind_name(import.kind));
    write_number(text, b",\"name_type\":", import.name_type as u64);
}

/// Adds the object of an import object's fields.
fn write_row<W: Sink>(text: &mut TextWriter<W>, import: &Import)
    requires { IsReady W.failures text.old }
    ensures { Adds W.taken W.failures text.old text.new (import_row (import_view import.now)) }
{
    write_number(text, b"{\"machine\":", import.machine as u64);
    write_text_if(text, b",\"machine_name\":", machine_name(import.machine));
    write_texts(text, import);
    write_imported(text, import.import_name(), import.ordinal);
    write_types(text, import);
    text.text(b"}");
}

/// Adds the members of a short import object after others. After a failed write its names are not looked for.
pub(crate) fn write_import<W: Sink>(text: &mut TextWriter<W>, import: &Import)
    requires { IsReady W.failures text.old }
    ensures { Adds W.taken W.failures text.old text.new (more (import_members (import_view import.now))) }
{
    if text.has_failed() {
        return;
    }
    text.text(b",\"format\":\"import object\",\"import\":");
    write_row(text, import);
}
