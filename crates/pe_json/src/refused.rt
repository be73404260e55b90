//! The line of a refused file: its fault, and what of an image has none.

ghost use Rattle.std.specs.Prelude.{◌≡◌, ◌≤◌, ◌^◌, ◌++◌, None, [], length, map, option_map, codes, IfSome};
ghost use Rattle.coff_read.specs.ImageNames.{image_strings};
ghost use Rattle.pe_detail.specs.FaultDetail.{fault_detail};
ghost use Rattle.pe_tables.specs.ExportsView.{exports_view, by_ordinal_view};
ghost use Rattle.pe_tables.specs.ImportView.{import_view};
ghost use Rattle.pe_text.specs.FileKind.{kind_name, other_kind};
ghost use Rattle.pe_text.specs.TextWriter.{IsReady, Adds};
ghost use Rattle.pe_reach.specs.Views.{seen_of, told_of};
ghost use Rattle.pe_json.specs.ExportRows.{AreNamesOf};
ghost use Rattle.pe_json.specs.ImageLine.{head_members};
ghost use Rattle.pe_json.specs.Line.{begun};
ghost use Rattle.pe_json.specs.JsonText.{text_if};
ghost use Rattle.pe_json.specs.Listed.{more};
ghost use Rattle.pe_json.specs.ImageRecords.{hash_if, own_findings, own_members};
ghost use Rattle.pe_json.specs.Refused.{fault_members, exports_if, imports_if, fixups_if, refused_line, kind_of_refused};

use crate::beginning::begin;
use crate::beyond::Beyond;
use crate::fault::{kind_text, write_fault};
use crate::findings::write_findings;
use crate::image::{write_export_table, write_head, write_import_table, write_relocation_table};
use crate::string::write_text_if;
use crate::trust::{write_import_hash, write_trust};
use pe_head::Headers;
use pe_image::Tables;
use pe_reach::ViewFile;
use pe_tables::{Exports, Fixup, Import, NamesByOrdinal};
use pe_text::{Sink, TextWriter};
use pe_view::Fault;
use std::alloc::Allocator;

/// Adds what a refused file is instead, if that is known, and its fault.
fn write_refusal<W: Sink>(text: &mut TextWriter<W>, file: ViewFile, fault: &Fault)
    requires { IsReady W.failures text.old }
    ensures { Adds W.taken W.failures text.old text.new
        (more (text_if (codes "kind") (kind_of_refused fault.now (seen_of file.entry)) ++ fault_members fault.now (fault_detail (seen_of file.entry) (told_of file.entry) fault.now))) }
{
    write_text_if(text, b",\"kind\":", kind_text(file.other_kind(fault)));
    write_fault(text, fault, file.fault_detail(fault));
}

/// Adds the line of a refused file of which nothing else is shown.
pub(crate) fn refuse<W: Sink>(text: &mut TextWriter<W>, name: &[u8], file: ViewFile, fault: &Fault)
    requires { IsReady W.failures text.old }
    ensures { Adds W.taken W.failures text.old text.new
        (refused_line name.now (seen_of file.entry) (told_of file.entry) fault.now []) }
{
    begin(text, name, false);
    write_refusal(text, file, fault);
    text.text(b"}");
    text.text(b"\n");
}

/// A refused image whose headers have no fault, and what is found in what its file says of itself.
#[derive(Clone, Copy)]
pub(crate) struct RefusedImage<'r, 'a> {
    /// The name in the line.
    pub name: &'r [u8],
    pub file: ViewFile<'a>,
    pub fault: &'r Fault,
    pub headers: &'r Headers,
    /// Whether that is told.
    pub beyond: Option<Beyond>,
    pub findings: &'r [Fault],
}

/// Adds the hash of a refused image's imports, if they have no fault.
fn write_hash_if<W: Sink>(text: &mut TextWriter<W>, imports: Option<&[Import]>)
    requires { IsReady W.failures text.old }
    ensures { Adds W.taken W.failures text.old text.new (more (hash_if (option_map (λ imports. map import_view imports.now) imports.entry))) }
{
    if let Some(imports) = imports {
        write_import_hash(text, imports);
    }
}

/// Adds what the file of a refused image says of itself, if that is asked for.
fn write_own<W: Sink>(text: &mut TextWriter<W>, image: RefusedImage, imports: Option<&[Import]>)
    requires ready { IsReady W.failures text.old }
    requires small { length (seen_of image.file) ≤ 2 ^ 32 }
    requires found { image.findings.now ≡ own_findings image.beyond (seen_of image.file) image.headers.now }
    ensures { Adds W.taken W.failures text.old text.new
        (more (own_members image.entry.beyond (seen_of image.entry.file) image.entry.headers.now (option_map (λ imports. map import_view imports.now) imports.entry))) }
{
    let Some(beyond) = image.beyond else {
        return;
    };
    write_trust(text, beyond.digests, image.file.beginning(), image.headers);
    write_hash_if(text, imports);
    write_findings(text, image.findings);
}

/// The imports of a refused image, if they have no fault.
fn imports_read<'t, 'a, A: Allocator>(tables: &'t Tables<'a, A>) -> Option<&'t [Import<'a>]>
    ensures { option_map (λ imports. map import_view imports.now) result ≡ option_map (λ imports. map import_view imports.items) tables.now.imports }
{
    match &tables.imports {
        Some(imports) => Some(imports.as_slice()),
        None => None,
    }
}

/// Adds the line of an image with one of faults 13 to 15: its fault, its headers and its sections, and what its file says of itself.
pub(crate) fn refuse_unlaid<W: Sink>(text: &mut TextWriter<W>, image: RefusedImage)
    requires ready { IsReady W.failures text.old }
    requires small { length (seen_of image.file) ≤ 2 ^ 32 }
    requires found { image.findings.now ≡ own_findings image.beyond (seen_of image.file) image.headers.now }
    ensures { Adds W.taken W.failures text.old text.new
        (refused_line image.entry.name.now (seen_of image.entry.file) (told_of image.entry.file) image.entry.fault.now
        (head_members (image_strings (seen_of image.entry.file) image.entry.headers.now) image.entry.headers.now
        ++ own_members image.entry.beyond (seen_of image.entry.file) image.entry.headers.now None)) }
{
    begin(text, image.name, false);
    write_refusal(text, image.file, image.fault);
    write_head(text, image.file.strings(image.headers), image.headers);
    write_own(text, image, None);
    text.text(b"}");
    text.text(b"\n");
}

/// Adds the list of exports, if they have no fault.
fn write_exports_if<A: Allocator + Copy, W: Sink>(
    text: &mut TextWriter<W>,
    exports: &Option<Exports<A>>,
    names: &NamesByOrdinal<A>,
)
    requires ready { IsReady W.failures text.old }
    requires own { IfSome exports.now (λ exports. AreNamesOf (exports_view exports) (by_ordinal_view names.now)) }
    ensures { Adds W.taken W.failures text.old text.new (more (exports_if (option_map exports_view exports.now))) }
{
    if let Some(exports) = exports {
        write_export_table(text, exports, names);
    }
}

/// Adds the list of imports, if they have no fault.
fn write_imports_if<A: Allocator + Copy, W: Sink>(
    text: &mut TextWriter<W>,
    imports: &Option<Vec<Import, A>>,
)
    requires { IsReady W.failures text.old }
    ensures { Adds W.taken W.failures text.old text.new (more (imports_if (option_map (λ imports. map import_view imports.items) imports.now))) }
{
    if let Some(imports) = imports {
        write_import_table(text, imports);
    }
}

/// Adds the list of base relocations, if they have no fault.
fn write_fixups_if<A: Allocator + Copy, W: Sink>(
    text: &mut TextWriter<W>,
    fixups: &Option<Vec<Fixup, A>>,
)
    requires { IsReady W.failures text.old }
    ensures { Adds W.taken W.failures text.old text.new (more (fixups_if (option_map (λ fixups. fixups.items) fixups.now))) }
{
    if let Some(fixups) = fixups {
        write_relocation_table(text, fixups);
    }
}

/// Adds the line of a refused image that is laid out: its fault, its headers and sections, its tables that have no fault, and what its
/// file says of itself.
pub(crate) fn refuse_laid_out<A: Allocator + Copy, W: Sink>(
    text: &mut TextWriter<W>,
    image: RefusedImage,
    tables: &Tables<A>,
    names: &NamesByOrdinal<A>,
)
    requires ready { IsReady W.failures text.old }
    requires small { length (seen_of image.file) ≤ 2 ^ 32 }
    requires found { image.findings.now ≡ own_findings image.beyond (seen_of image.file) image.headers.now }
    requires own { IfSome tables.now.exports (λ exports. AreNamesOf (exports_view exports) (by_ordinal_view names.now)) }
    ensures { Adds W.taken W.failures text.old text.new
        (refused_line image.entry.name.now (seen_of image.entry.file) (told_of image.entry.file) image.entry.fault.now
        ((head_members (image_strings (seen_of image.entry.file) image.entry.headers.now) image.entry.headers.now
        ++ (exports_if (option_map exports_view tables.now.exports)
        ++ (imports_if (option_map (λ imports. map import_view imports.items) tables.now.imports)
        ++ fixups_if (option_map (λ fixups. fixups.items) tables.now.fixups))))
        ++ own_members image.entry.beyond (seen_of image.entry.file) image.entry.headers.now
        (option_map (λ imports. map import_view imports.items) tables.now.imports))) }
{
    begin(text, image.name, false);
    write_refusal(text, image.file, image.fault);
    write_head(text, image.file.strings(image.headers), image.headers);
    write_exports_if(text, &tables.exports, names);
    write_imports_if(text, &tables.imports);
    write_fixups_if(text, &tables.fixups);
    write_own(text, image, imports_read(tables));
    text.text(b"}");
    text.text(b"\n");
}
