//! The line of an image without a fault, and the members that it has in common with a refused one.

ghost use Rattle.std.specs.Prelude.{◌≡◌, ◌^◌, ◌≤◌, ◌++◌, [], codes, map, option_map};
ghost use Rattle.json.specs.Print.{quoted};
ghost use Rattle.coff_read.specs.ImageNames.{table_of};
ghost use Rattle.pe_tables.specs.ExportsView.{exports_view, by_ordinal_view};
ghost use Rattle.pe_tables.specs.Imports.{imports_of};
ghost use Rattle.pe_tables.specs.ImportView.{import_view};
ghost use Rattle.pe_delay.specs.Imports.{delay_imports_of};
ghost use Rattle.pe_resources.specs.Walk.{leaves_of};
ghost use Rattle.pe_text.specs.TextWriter.{IsReady, Adds};
ghost use Rattle.pe_json.specs.ExportRows.{AreNamesOf};
ghost use Rattle.pe_json.specs.FindingRows.{image_findings};
ghost use Rattle.pe_json.specs.Headers.{headers_object};
ghost use Rattle.pe_json.specs.ImageLine.{format_name, head_members, exports_members, imports_members, fixups_members, profile_members, image_line};
ghost use Rattle.pe_json.specs.ImageRecords.{beyond_members};
ghost use Rattle.pe_layout.specs.Layout.{headers_of, image_of};
ghost use Rattle.pe_view.specs.View.{bytes_of, size_of};
ghost use Rattle.pe_json.specs.JsonText.{member};
ghost use Rattle.pe_json.specs.Listed.{more};

use crate::beginning::begin;
use crate::beyond::Beyond;
use crate::directories::write_directories;
use crate::exports::write_exports;
use crate::headers::write_coff;
use crate::optional_header::write_optional;
use crate::records::write_beyond;
use crate::sections::write_sections;
use crate::string::write_number;
use crate::tables::{write_fixups, write_imports};
use coff_read::{FileHeader, ImageStrings};
use pe_head::{Headers, Magic};
use pe_layout::Layout;
use pe_resources::Leaf;
use pe_tables::{Exports, Fixup, Import, NamesByOrdinal};
use pe_text::{Sink, TextWriter};
use pe_view::{Fault, View};
use std::alloc::Allocator;

/// What the line of an image without a fault shows.
#[derive(Clone, Copy)]
pub(crate) struct Content<'t, 's, 'a, A: Allocator> {
    pub headers: &'t Headers,
    /// Its string table, in which names of sections may be.
    pub strings: Option<ImageStrings<'s>>,
    pub exports: &'t Exports<'a, A>,
    pub names: &'t NamesByOrdinal<A>,
    pub imports: &'t [Import<'a>],
    pub fixups: &'t [Fixup],
}

/// The member that names the form of an image.
fn format_member(magic: Magic) -> &'static [u8]
    ensures { result.now ≡ codes "," ++ member (codes "format") (quoted (format_name magic)) }
{
    match magic {
        Magic::Pe32 => b",\"format\":\"PE32\"",
        Magic::Pe32Plus => b",\"format\":\"PE32+\"",
    }
}

/// Adds the fields of both headers.
fn write_fields<W: Sink>(text: &mut TextWriter<W>, headers: &Headers)
    requires { IsReady W.failures text.old }
    ensures { Adds W.taken W.failures text.old text.new (headers_object headers.now) }
{
    text.text(b"{");
    let header = FileHeader {
        machine: headers.machine,
        number_of_sections: headers.number_of_sections,
        time_date_stamp: headers.time_date_stamp,
        pointer_to_symbol_table: headers.pointer_to_symbol_table,
        number_of_symbols: headers.number_of_symbols,
        size_of_optional_header: headers.size_of_optional_header,
        characteristics: headers.characteristics,
    };
    write_coff(text, &header);
    write_optional(text, headers);
    text.text(b"}");
}

/// Adds the members of an image that its headers say: the headers, the data directories and the sections, whose names may be in
/// the string table.
pub(crate) fn write_head<W: Sink>(
    text: &mut TextWriter<W>,
    strings: Option<ImageStrings>,
    headers: &Headers,
)
    requires { IsReady W.failures text.old }
    ensures { Adds W.taken W.failures text.old text.new (more (head_members (option_map table_of strings.entry) headers.now)) }
{
    text.text(format_member(headers.magic));
    write_number(text, b",\"pe_offset\":", headers.pe_offset as u64);
    text.text(b",\"headers\":");
    write_fields(text, headers);
    text.text(b",\"directories\":");
    write_directories(text, headers.directories.as_slice());
    text.text(b",\"sections\":");
    write_sections(text, strings, headers.sections.as_slice());
}

/// Adds the member that lists the exports.
pub(crate) fn write_export_table<A: Allocator + Copy, W: Sink>(
    text: &mut TextWriter<W>,
    exports: &Exports<A>,
    names: &NamesByOrdinal<A>,
)
    requires ready { IsReady W.failures text.old }
    requires own { AreNamesOf (exports_view exports.now) (by_ordinal_view names.now) }
    ensures { Adds W.taken W.failures text.old text.new (more (exports_members (exports_view exports.now))) }
{
    text.text(b",\"exports\":");
    write_exports(text, exports, names);
}

/// Adds the member that lists the imports.
pub(crate) fn write_import_table<W: Sink>(text: &mut TextWriter<W>, imports: &[Import])
    requires { IsReady W.failures text.old }
    ensures { Adds W.taken W.failures text.old text.new (more (imports_members (map import_view imports.now))) }
{
    text.text(b",\"imports\":");
    write_imports(text, imports);
}

/// Adds the member that lists the base relocations.
pub(crate) fn write_relocation_table<W: Sink>(text: &mut TextWriter<W>, fixups: &[Fixup])
    requires { IsReady W.failures text.old }
    ensures { Adds W.taken W.failures text.old text.new (more (fixups_members fixups.now)) }
{
    text.text(b",\"fixups\":");
    write_fixups(text, fixups);
}

/// Adds what the headers and the tables of the profile say.
fn write_profile<A: Allocator + Copy, W: Sink>(text: &mut TextWriter<W>, image: Content<A>)
    requires ready { IsReady W.failures text.old }
    requires own { AreNamesOf (exports_view image.exports.now) (by_ordinal_view image.names.now) }
    ensures { Adds W.taken W.failures text.old text.new
        (more (profile_members (option_map table_of image.entry.strings) image.entry.headers.now (exports_view image.entry.exports.now)
        (map import_view image.entry.imports.now) image.entry.fixups.now)) }
{
    write_head(text, image.strings, image.headers);
    write_export_table(text, image.exports, image.names);
    write_import_table(text, image.imports);
    write_relocation_table(text, image.fixups);
}

/// Adds the line of an image without a fault, whose file has this name, and without tables that its profile leaves out.
pub(crate) fn write_plain_image<A: Allocator + Copy, W: Sink>(
    text: &mut TextWriter<W>,
    name: &[u8],
    image: Content<A>,
)
    requires ready { IsReady W.failures text.old }
    requires own { AreNamesOf (exports_view image.exports.now) (by_ordinal_view image.names.now) }
    ensures { Adds W.taken W.failures text.old text.new
        (image_line name.now (option_map table_of image.entry.strings) image.entry.headers.now (exports_view image.entry.exports.now)
        (map import_view image.entry.imports.now) image.entry.fixups.now []) }
{
    begin(text, name, true);
    write_profile(text, image);
    text.text(b"}");
    text.text(b"\n");
}

/// Adds the line of an image without a fault, whose file has this name, with what is told beyond its profile, given its whole file, its
/// delay-loaded imports, the leaves of its resource tree and its findings.
pub(crate) fn write_image<A: Allocator + Copy, W: Sink>(
    alloc: A,
    text: &mut TextWriter<W>,
    name: &[u8],
    image: Content<A>,
    beyond: Beyond,
    file: View,
    layout: &Layout,
    delayed: &[Import],
    leaves: &[Leaf],
    findings: &[Fault],
)
    requires ready { IsReady W.failures text.old }
    requires own { AreNamesOf (exports_view image.exports.now) (by_ordinal_view image.names.now) }
    requires small { size_of file ≤ 2 ^ 32 }
    requires imported { map import_view image.imports.now ≡ imports_of (image_of layout.now) }
    requires delayed { map import_view delayed.now ≡ delay_imports_of (image_of layout.now) }
    requires read { leaves.now ≡ leaves_of (image_of layout.now) }
    requires found { findings.now ≡ image_findings (bytes_of file) (headers_of layout.now) (image_of layout.now) }
    ensures { Adds W.taken W.failures text.old text.new
        (image_line name.now (option_map table_of image.entry.strings) image.entry.headers.now (exports_view image.entry.exports.now)
        (map import_view image.entry.imports.now) image.entry.fixups.now (beyond_members beyond (bytes_of file.entry) (headers_of layout.now) (image_of layout.now))) }
{
    begin(text, name, true);
    write_profile(text, image);
    write_beyond(
        alloc,
        text,
        beyond,
        file,
        layout,
        image.imports,
        delayed,
        leaves,
        findings,
    );
    text.text(b"}");
    text.text(b"\n");
}
