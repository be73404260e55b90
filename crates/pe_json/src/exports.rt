//! The list of an image's exports: a row for each name, and for each ordinal that has none.

ghost use Rattle.std.specs.Prelude.{◌≡◌, ◌&&◌, ◌++◌, ◌∷◌, [], codes, flat_map, map, option_map, true};
ghost use Rattle.pe_tables.specs.ExportsView.{exports_view, ordinal_view, by_ordinal_view};
ghost use Rattle.pe_tables.specs.Key.{target_view};
ghost use Rattle.pe_tables.specs.NameIndex.{export_view};
ghost use Rattle.pe_text.specs.TextWriter.{IsReady, Adds};
ghost use Rattle.pe_json.specs.ExportRows.{name_if, target_members, export_row, name_at, row_if, own_rows, ordinal_rows, exports_list, AreNamesOf};
ghost use Rattle.pe_json.specs.Listed.{is_nil, more, items_text};

use crate::string::{write_name, write_number};
use crate::tables::write_key;
use pe_tables::{ExportName, Exports, Key, NamesByOrdinal, Target};
use pe_text::{Sink, TextWriter};
use std::alloc::Allocator;

/// Adds the member of a forwarder, which takes the place of an RVA.
fn write_forwarder<W: Sink>(text: &mut TextWriter<W>, name: &[u8], key: &Key)
    requires { IsReady W.failures text.old }
    ensures { Adds W.taken W.failures text.old text.new (more (target_members (target_view (Target.Forward name.entry key.now)))) }
{
    write_name(
        text,
        b",\"forward\":{\"module\":\"",
        b",\"forward\":{\"module_hex\":\"",
        name,
    );
    text.text(b",");
    write_key(text, key);
    text.text(b"}");
}

/// Adds an RVA, or the module and the key of a forwarder.
fn write_target<W: Sink>(text: &mut TextWriter<W>, target: &Target)
    requires { IsReady W.failures text.old }
    ensures { Adds W.taken W.failures text.old text.new (more (target_members (target_view target.now))) }
{
    match target {
        Target::Rva(rva) => write_number(text, b",\"rva\":", *rva as u64),
        Target::Forward { module, key } => write_forwarder(text, module, key),
    }
}

/// Adds the name of an export, if it has one.
fn write_name_if<W: Sink>(text: &mut TextWriter<W>, name: Option<&[u8]>)
    requires { IsReady W.failures text.old }
    ensures { Adds W.taken W.failures text.old text.new (more (name_if (option_map (λ name. name.now) name.entry))) }
{
    if let Some(name) = name {
        write_name(text, b",\"name\":\"", b",\"name_hex\":\"", name);
    }
}

/// Adds a row.
fn write_row<W: Sink>(text: &mut TextWriter<W>, ordinal: u64, name: Option<&[u8]>, target: &Target)
    requires { IsReady W.failures text.old }
    ensures { Adds W.taken W.failures text.old text.new (export_row ordinal (option_map (λ name. name.now) name.entry) (target_view target.now)) }
{
    write_number(text, b"{\"ordinal\":", ordinal);
    write_name_if(text, name);
    write_target(text, target);
    text.text(b"}");
}

/// Adds a row, after a comma unless it is the first of the list.
fn write_export<W: Sink>(
    text: &mut TextWriter<W>,
    first: bool,
    ordinal: u64,
    name: Option<&[u8]>,
    target: &Target,
)
    requires { IsReady W.failures text.old }
    ensures { Adds W.taken W.failures text.old text.new (items_text first (export_row ordinal (option_map (λ name. name.now) name.entry) (target_view target.now) ∷ [])) }
{
    if first {
        write_row(text, ordinal, name, target);
    } else {
        text.text(b",");
        write_row(text, ordinal, name, target);
    }
}

/// The name with an index, if it is there.
fn name_at<'a>(names: &[(&'a [u8], Target)], index: usize) -> Option<&'a [u8]>
    ensures { option_map (λ name. name.now) result ≡ name_at (map export_view names.now) index }
{
    match names.get(index) {
        Some((name, _)) => Some(name),
        None => None,
    }
}

/// Adds the row of a name, if there is one, and returns whether the next row is still the first of the list.
fn write_named<W: Sink>(
    text: &mut TextWriter<W>,
    first: bool,
    ordinal: u64,
    name: Option<&[u8]>,
    target: &Target,
) -> bool
    requires { IsReady W.failures text.old }
    ensures adds { Adds W.taken W.failures text.old text.new (items_text first (row_if ordinal (target_view target.now) (option_map (λ name. name.now) name.entry))) }
    ensures first { result ≡ (first && is_nil (row_if ordinal (target_view target.now) (option_map (λ name. name.now) name.entry))) }
{
    match name {
        None => first,
        Some(name) => {
            write_export(text, first, ordinal, Some(name), target);
            false
        }
    }
}

/// Adds the rows of names, and returns whether the next row is still the first of the list.
fn write_names<W: Sink>(
    text: &mut TextWriter<W>,
    first: bool,
    names: &[(&[u8], Target)],
    own: &[ExportName],
    ordinal: u64,
    target: &Target,
) -> bool
    requires { IsReady W.failures text.old }
    ensures adds { Adds W.taken W.failures text.old text.new
        (items_text first (flat_map (λ name. row_if ordinal (target_view target.now) (name_at (map export_view names.now) name.1)) own.now)) }
    ensures first { result ≡ (first && is_nil (flat_map (λ name. row_if ordinal (target_view target.now) (name_at (map export_view names.now) name.1)) own.now)) }
{
    let mut is_first = first;
    for name in own {
        is_first = write_named(text, is_first, ordinal, name_at(names, name.1), target);
    }
    is_first
}

/// Adds the rows of an ordinal, one for each of its names, or one if it has none; and returns whether the next row is still the
/// first of the list.
fn write_ordinal<W: Sink>(
    text: &mut TextWriter<W>,
    first: bool,
    names: &[(&[u8], Target)],
    own: &[ExportName],
    ordinal: u64,
    target: &Target,
) -> bool
    requires { IsReady W.failures text.old }
    ensures adds { Adds W.taken W.failures text.old text.new (items_text first (own_rows (map export_view names.now) ordinal (target_view target.now) own.now)) }
    ensures first { result ≡ (first && is_nil (own_rows (map export_view names.now) ordinal (target_view target.now) own.now)) }
{
    if own.is_empty() {
        write_export(text, first, ordinal, None, target);
        return false;
    }
    write_names(text, first, names, own, ordinal, target)
}

/// Adds the rows of ordinals, in the order of the export address table, with the names of each.
fn write_ordinals<A: Allocator + Copy, W: Sink>(
    text: &mut TextWriter<W>,
    exports: &[(&[u8], Target)],
    names: &NamesByOrdinal<A>,
    ordinals: &[(u64, Target)],
)
    requires { IsReady W.failures text.old }
    ensures { Adds W.taken W.failures text.old text.new
        (items_text true (flat_map (λ pair. ordinal_rows (map export_view exports.now) (by_ordinal_view names.now) (ordinal_view pair)) ordinals.now)) }
{
    let mut first = true;
    for (ordinal, target) in ordinals {
        if text.has_failed() {
            return;
        }
        let own = names.of(*ordinal);
        first = write_ordinal(text, first, exports, own, *ordinal, target);
    }
}

/// Adds the list of exports.
pub(crate) fn write_exports<A: Allocator + Copy, W: Sink>(
    text: &mut TextWriter<W>,
    exports: &Exports<A>,
    names: &NamesByOrdinal<A>,
)
    requires ready { IsReady W.failures text.old }
    requires own { AreNamesOf (exports_view exports.now) (by_ordinal_view names.now) }
    ensures { Adds W.taken W.failures text.old text.new (exports_list (exports_view exports.now)) }
{
    text.text(b"[");
    write_ordinals(text, exports.names(), names, exports.ordinals());
    text.text(b"]");
}
