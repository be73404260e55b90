//! The exports of an image, one per row.

ghost use Rattle.std.specs.Prelude.{◌≡◌};
ghost use Rattle.pe_layout.specs.Layout.{headers_of};
ghost use Rattle.pe_text.specs.TextWriter.{IsReady, Adds};
ghost use Rattle.pe_page.specs.Page.{AddsSome};
ghost use Rattle.pe_show.specs.Places.{Shows, gap_columns};
ghost use Rattle.pe_page.specs.Rows.{key_text};
ghost use Rattle.pe_show.specs.Rows.{here_text, forward_text, target_text, behind_gap};

use pe_image::Tables;
use pe_layout::Layout;
use pe_page::{
    SectionNames, SectionPlace, blanks, decimal_width, write_heading, write_key, write_name,
    write_right,
};
use pe_tables::{ExportName, Exports, Key, NamesByOrdinal, Target};
use pe_text::{ShowOptions, Sink, TextWriter, hex_width};
use std::alloc::Allocator;

/// The widths of the columns of exports.
#[derive(Clone, Copy)]
struct Widths {
    ordinal: usize,
    rva: u8,
    place: usize,
}

/// The target of an export as it is shown.
#[derive(Clone, Copy)]
enum ShownTarget<'s, 't> {
    /// An RVA, and its place.
    Here { rva: u32, place: SectionPlace<'s> },
    /// The module and the key of a forwarder.
    Forward { module: &'t [u8], key: Key<'t> },
}

/// The shown form of a target.
fn shown_of<'s, 't>(
    layout: &Layout,
    sections: &SectionNames<'s>,
    target: &Target<'t>,
) -> ShownTarget<'s, 't>
    ensures { Shows sections.now.names.items (headers_of layout.now) target.now result }
{
    match target {
        Target::Rva(rva) => ShownTarget::Here {
            rva: *rva,
            place: sections.place(layout, *rva),
        },
        Target::Forward { module, key } => ShownTarget::Forward { module, key: *key },
    }
}

/// The widths of exports.
fn widths_of(exports: &[(u64, Target)], layout: &Layout, names: &SectionNames) -> Widths {
    let mut widths = Widths {
        ordinal: 4,
        rva: 6,
        place: 5,
    };
    for (ordinal, target) in exports {
        widths.ordinal = widths.ordinal.max(decimal_width(*ordinal));
        if let Target::Rva(rva) = target {
            widths.rva = widths.rva.max(hex_width(u64::from(*rva)));
            widths.place = widths.place.max(names.place(layout, *rva).width());
        }
    }
    widths
}

/// Adds an ordinal and the place of its export.
fn write_here<W: Sink>(
    text: &mut TextWriter<W>,
    widths: &Widths,
    ordinal: u64,
    rva: u32,
    place: &SectionPlace,
)
    requires { IsReady W.failures text.old }
    ensures { Adds W.taken W.failures text.old text.new (here_text ordinal widths.now.ordinal rva widths.now.rva place.now) }
{
    write_right(text, ordinal, widths.ordinal);
    text.text(b"  0x");
    text.hex_at_least(widths.rva, rva as u64);
    text.text(b"  ");
    place.write(text);
}

/// Adds an ordinal, and the module and key of its forwarder.
fn write_forward<W: Sink>(
    text: &mut TextWriter<W>,
    widths: &Widths,
    ordinal: u64,
    dll: &[u8],
    key: Key,
)
    requires { IsReady W.failures text.old }
    ensures { Adds W.taken W.failures text.old text.new (forward_text ordinal widths.now.ordinal dll.now key.entry) }
{
    write_right(text, ordinal, widths.ordinal);
    text.text(b"  forwarded to ");
    write_name(text, dll);
    text.text(b".");
    write_key(text, key);
}

/// Adds an ordinal and its target.
fn write_target<W: Sink>(
    text: &mut TextWriter<W>,
    widths: &Widths,
    ordinal: u64,
    shown: &ShownTarget,
)
    requires { IsReady W.failures text.old }
    ensures { Adds W.taken W.failures text.old text.new (target_text ordinal widths.now.ordinal widths.now.rva shown.now) }
{
    match shown {
        ShownTarget::Here { rva, place } => write_here(text, widths, ordinal, *rva, place),
        ShownTarget::Forward { module, key } => write_forward(text, widths, ordinal, module, *key),
    }
}

/// How many blanks come between the target of an ordinal and its names, apart from two.
fn gap_of(widths: &Widths, shown: &ShownTarget) -> usize
    ensures { result ≡ gap_columns widths.now.place shown.now }
{
    match shown {
        ShownTarget::Here { place, .. } => widths.place.saturating_sub(place.width()),
        ShownTarget::Forward { .. } => 0,
    }
}

/// Adds a name after `count` blanks and a gap.
fn write_behind_gap<W: Sink>(text: &mut TextWriter<W>, count: usize, gap: &[u8], name: &[u8])
    requires { IsReady W.failures text.old }
    ensures { Adds W.taken W.failures text.old text.new (behind_gap count gap.now name.now) }
{
    text.text(blanks(count));
    text.text(gap);
    write_name(text, name);
}

/// Adds names, the first after `count` blanks and two more and each other after a comma, and the end of their row.
fn write_names<A: Allocator + Copy, W: Sink>(
    text: &mut TextWriter<W>,
    exports: &Exports<A>,
    names: &[ExportName],
    count: usize,
)
    requires { IsReady W.failures text.old }
    ensures { AddsSome W.taken W.failures text.old text.new }
{
    for (place, (_, index)) in names.iter().enumerate() {
        if text.has_failed() {
            return;
        }
        let name = match exports.names().get(*index) {
            Some((name, _)) => name,
            None => &b""[..],
        };
        let (count, gap): (usize, &[u8]) = if place == 0 {
            (count, b"  ")
        } else {
            (0, b", ")
        };
        write_behind_gap(text, count, gap, name);
    }
    text.text(b"\n");
}

/// Adds a row for each ordinal that an image exports, with its names, if the options select exports and they were read.
pub(crate) fn write_exports<A: Allocator + Copy, W: Sink>(
    text: &mut TextWriter<W>,
    options: &ShowOptions,
    layout: &Layout,
    sections: &SectionNames,
    tables: &Tables<A>,
    names_by_ordinal: &NamesByOrdinal<A>,
)
    requires { IsReady W.failures text.old }
    ensures { AddsSome W.taken W.failures text.old text.new }
{
    let (Some(exports), true) = (&tables.exports, options.exports) else {
        return;
    };
    let widths = widths_of(exports.ordinals(), layout, sections);
    write_heading(text, options, b"Exports", exports.ordinals().len());
    for (ordinal, target) in exports.ordinals() {
        if text.has_failed() {
            return;
        }
        let shown = shown_of(layout, sections, target);
        write_target(text, &widths, *ordinal, &shown);
        let names = names_by_ordinal.of(*ordinal);
        write_names(text, exports, names, gap_of(&widths, &shown));
    }
}
