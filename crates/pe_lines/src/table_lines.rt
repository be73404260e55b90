//! The lines of a dump for an image's tables.

ghost use Rattle.std.specs.Prelude.{◌≡◌, flat_map, map};
ghost use Rattle.pe_tables.specs.Key.{key_view, target_view};
ghost use Rattle.pe_tables.specs.ExportsView.{exports_view};
ghost use Rattle.pe_tables.specs.ImportView.{import_view};
ghost use Rattle.pe_text.specs.TextWriter.{IsReady, Adds};
ghost use Rattle.pe_lines.specs.TableLines.{key_text, target_text, ordinal_line, name_line, export_lines, import_line, kind_text, fixup_line};

use pe_tables::{Exports, Fixup, FixupKind, Import, Key, Target};
use pe_text::{Sink, TextWriter};
use std::alloc::Allocator;

/// Adds `#` and an ordinal, or a quoted name, as a line of `dump` has it.
#[tactic(auto, unfolding(crate::specs::TableLines::key_text))]
pub fn write_key<W: Sink>(line: &mut TextWriter<W>, key: &Key)
    requires { IsReady W.failures line.old }
    ensures { Adds W.taken W.failures line.old line.new (key_text (key_view key.now)) }
{
    match key {
        Key::Ordinal(ordinal) => {
            line.text(b"#");
            line.decimal(*ordinal as u64);
        }
        Key::Name(name) => line.quoted(name),
    }
}

/// Adds `rva 0x` and 8 digits, or `forward`, the quoted name of the other module, and a key.
#[tactic(auto, unfolding(crate::specs::TableLines::target_text))]
fn write_target<W: Sink>(line: &mut TextWriter<W>, target: &Target)
    requires { IsReady W.failures line.old }
    ensures { Adds W.taken W.failures line.old line.new (target_text (target_view target.now)) }
{
    match target {
        Target::Rva(rva) => {
            line.text(b"rva 0x");
            line.hex(8, *rva as u64);
        }
        Target::Forward { module, key } => {
            line.text(b"forward ");
            line.quoted(module);
            line.text(b" ");
            write_key(line, key);
        }
    }
}

#[tactic(auto, unfolding(crate::specs::TableLines::ordinal_line))]
fn write_ordinal<W: Sink>(line: &mut TextWriter<W>, ordinal: u64, target: &Target)
    requires { IsReady W.failures line.old }
    ensures { Adds W.taken W.failures line.old line.new (ordinal_line (ordinal, target_view target.now)) }
{
    line.text(b"export #");
    line.decimal(ordinal);
    line.text(b" ");
    write_target(line, target);
    line.text(b"\n");
}

#[tactic(auto, unfolding(crate::specs::TableLines::name_line))]
fn write_name<W: Sink>(line: &mut TextWriter<W>, name: &[u8], target: &Target)
    requires { IsReady W.failures line.old }
    ensures { Adds W.taken W.failures line.old line.new (name_line (name.now, target_view target.now)) }
{
    line.text(b"export ");
    line.quoted(name);
    line.text(b" ");
    write_target(line, target);
    line.text(b"\n");
}

fn write_ordinals<W: Sink>(text: &mut TextWriter<W>, ordinals: &[(u64, Target)])
    requires { IsReady W.failures text.old }
    ensures { Adds W.taken W.failures text.old text.new (flat_map ordinal_line (map (λ pair. (pair.0, target_view pair.1)) ordinals.now)) }
{
    for (ordinal, target) in ordinals {
        write_ordinal(text, *ordinal, target);
    }
}

fn write_names<W: Sink>(text: &mut TextWriter<W>, names: &[(&[u8], Target)])
    requires { IsReady W.failures text.old }
    ensures { Adds W.taken W.failures text.old text.new (flat_map name_line (map (λ pair. (pair.0.now, target_view pair.1)) names.now)) }
{
    for (name, target) in names {
        write_name(text, name, target);
    }
}

/// Adds the lines of an image's exports: those by ordinal, then those by name.
#[tactic(auto, unfolding(crate::specs::TableLines::export_lines))]
pub(crate) fn write_exports<A: Allocator + Copy, W: Sink>(
    text: &mut TextWriter<W>,
    exports: &Exports<A>,
)
    requires { IsReady W.failures text.old }
    ensures { Adds W.taken W.failures text.old text.new (export_lines (exports_view exports.now)) }
{
    write_ordinals(text, exports.ordinals());
    write_names(text, exports.names());
}

/// Adds the line of an import.
#[tactic(auto, unfolding(crate::specs::TableLines::import_line))]
fn write_import<W: Sink>(line: &mut TextWriter<W>, import: &Import)
    requires { IsReady W.failures line.old }
    ensures { Adds W.taken W.failures line.old line.new (import_line (import_view import.now)) }
{
    line.text(b"import ");
    line.quoted(import.module);
    line.text(b" ");
    write_key(line, &import.key);
    line.text(b" slot 0x");
    line.hex(8, import.slot as u64);
    line.text(b"\n");
}

/// Adds a line for each import.
pub(crate) fn write_imports<W: Sink>(text: &mut TextWriter<W>, imports: &[Import])
    requires { IsReady W.failures text.old }
    ensures { Adds W.taken W.failures text.old text.new (flat_map import_line (map import_view imports.now)) }
{
    for import in imports {
        write_import(text, import);
    }
}

/// The last word of a fixup's line, for its kind.
#[tactic(auto, unfolding(crate::specs::TableLines::kind_text))]
fn kind_text(kind: FixupKind) -> &'static [u8]
    ensures { result.now ≡ kind_text kind }
{
    match kind {
        FixupKind::Bits32 => b"32",
        FixupKind::Bits64 => b"64",
        FixupKind::High => b"high",
        FixupKind::Low => b"low",
    }
}

#[tactic(auto, unfolding(crate::specs::TableLines::fixup_line))]
fn write_fixup<W: Sink>(line: &mut TextWriter<W>, fixup: &Fixup)
    requires { IsReady W.failures line.old }
    ensures { Adds W.taken W.failures line.old line.new (fixup_line fixup.now) }
{
    line.text(b"fixup 0x");
    line.hex(8, fixup.field as u64);
    line.text(b" ");
    line.text(kind_text(fixup.kind));
    line.text(b"\n");
}

/// Adds a line for each fixup.
pub(crate) fn write_fixups<W: Sink>(text: &mut TextWriter<W>, fixups: &[Fixup])
    requires { IsReady W.failures text.old }
    ensures { Adds W.taken W.failures text.old text.new (flat_map fixup_line fixups.now) }
{
    for fixup in fixups {
        write_fixup(text, fixup);
    }
}
