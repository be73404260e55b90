//! The lists of an image's imports and base relocations, and the member that a key is.

ghost use Rattle.std.specs.Prelude.{◌≡◌, ◌++◌, codes, decimal, flat_map, map};
ghost use Rattle.pe_tables.specs.Key.{key_view};
ghost use Rattle.pe_tables.specs.ImportView.{import_view};
ghost use Rattle.pe_text.specs.TextWriter.{IsReady, Adds};
ghost use Rattle.pe_json.specs.TableRows.{key_member, import_row, imports_list, kind_member, fixup_row, fixups_list};

use crate::string::write_name;
use pe_tables::{Fixup, FixupKind, Import, Key};
use pe_text::{Sink, TextWriter};

/// Adds an ordinal or a name.
pub(crate) fn write_key<W: Sink>(text: &mut TextWriter<W>, key: &Key)
    requires { IsReady W.failures text.old }
    ensures { Adds W.taken W.failures text.old text.new (key_member (key_view key.now)) }
{
    match key {
        Key::Ordinal(ordinal) => {
            text.text(b"\"ordinal\":");
            text.decimal(*ordinal as u64);
        }
        Key::Name(name) => write_name(text, b"\"name\":\"", b"\"name_hex\":\"", name),
    }
}

/// Adds an import.
fn write_import<W: Sink>(text: &mut TextWriter<W>, import: &Import)
    requires { IsReady W.failures text.old }
    ensures { Adds W.taken W.failures text.old text.new (import_row (import_view import.now)) }
{
    write_name(
        text,
        b"{\"module\":\"",
        b"{\"module_hex\":\"",
        import.module,
    );
    text.text(b",");
    write_key(text, &import.key);
    text.text(b",\"slot\":");
    text.decimal(import.slot as u64);
    text.text(b"}");
}

/// Adds an import after a comma.
fn write_next_import<W: Sink>(text: &mut TextWriter<W>, import: &Import)
    requires { IsReady W.failures text.old }
    ensures { Adds W.taken W.failures text.old text.new (codes "," ++ import_row (import_view import.now)) }
{
    text.text(b",");
    write_import(text, import);
}

/// Adds imports, each after a comma.
fn write_next_imports<W: Sink>(text: &mut TextWriter<W>, imports: &[Import])
    requires { IsReady W.failures text.old }
    ensures { Adds W.taken W.failures text.old text.new (flat_map (λ i. codes "," ++ import_row (import_view i)) imports.now) }
{
    for import in imports {
        if text.has_failed() {
            return;
        }
        write_next_import(text, import);
    }
}

/// Adds the list of imports.
pub(crate) fn write_imports<W: Sink>(text: &mut TextWriter<W>, imports: &[Import])
    requires { IsReady W.failures text.old }
    ensures { Adds W.taken W.failures text.old text.new (imports_list (map import_view imports.now)) }
{
    text.text(b"[");
    if let Some((first, rest)) = imports.split_first() {
        write_import(text, first);
        write_next_imports(text, rest);
    }
    text.text(b"]");
}

/// The member that says how many bits of an address a field has, or which half of one, after a comma, and the end of its row.
fn kind_end(kind: FixupKind) -> &'static [u8]
    ensures { result.now ≡ codes "," ++ kind_member kind ++ codes "}" }
{
    match kind {
        FixupKind::Bits32 => b",\"bits\":32}",
        FixupKind::Bits64 => b",\"bits\":64}",
        FixupKind::High => b",\"kind\":\"high\"}",
        FixupKind::Low => b",\"kind\":\"low\"}",
    }
}

/// Adds a base relocation behind what its row begins with.
#[inline]
fn write_fields<W: Sink>(text: &mut TextWriter<W>, beginning: &[u8], fixup: &Fixup)
    requires { IsReady W.failures text.old }
    ensures { Adds W.taken W.failures text.old text.new (beginning.now ++ (decimal fixup.now.field ++ (codes "," ++ kind_member fixup.now.kind ++ codes "}"))) }
{
    text.text(beginning);
    text.decimal(fixup.field as u64);
    text.text(kind_end(fixup.kind));
}

/// Adds a base relocation.
fn write_fixup<W: Sink>(text: &mut TextWriter<W>, fixup: &Fixup)
    requires { IsReady W.failures text.old }
    ensures { Adds W.taken W.failures text.old text.new (fixup_row fixup.now) }
{
    write_fields(text, b"{\"rva\":", fixup);
}

/// Adds a base relocation after a comma.
fn write_next_fixup<W: Sink>(text: &mut TextWriter<W>, fixup: &Fixup)
    requires { IsReady W.failures text.old }
    ensures { Adds W.taken W.failures text.old text.new (codes "," ++ fixup_row fixup.now) }
{
    write_fields(text, b",{\"rva\":", fixup);
}

/// Adds base relocations, each after a comma.
fn write_next_fixups<W: Sink>(text: &mut TextWriter<W>, fixups: &[Fixup])
    requires { IsReady W.failures text.old }
    ensures { Adds W.taken W.failures text.old text.new (flat_map (λ f. codes "," ++ fixup_row f) fixups.now) }
{
    for fixup in fixups {
        if text.has_failed() {
            return;
        }
        write_next_fixup(text, fixup);
    }
}

/// Adds the list of base relocations.
pub(crate) fn write_fixups<W: Sink>(text: &mut TextWriter<W>, fixups: &[Fixup])
    requires { IsReady W.failures text.old }
    ensures { Adds W.taken W.failures text.old text.new (fixups_list fixups.now) }
{
    text.text(b"[");
    if let Some((first, rest)) = fixups.split_first() {
        write_fixup(text, first);
        write_next_fixups(text, rest);
    }
    text.text(b"]");
}
