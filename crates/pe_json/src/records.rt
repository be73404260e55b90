//! What a line tells of an image beyond its profile.

ghost use Rattle.std.specs.Prelude.{◌≡◌, ◌^◌, ◌≤◌, map};
ghost use Rattle.pe_tables.specs.Imports.{imports_of};
ghost use Rattle.pe_tables.specs.ImportView.{import_view};
ghost use Rattle.pe_delay.specs.Imports.{delay_imports_of};
ghost use Rattle.pe_layout.specs.Layout.{headers_of, image_of};
ghost use Rattle.pe_resources.specs.Walk.{leaves_of};
ghost use Rattle.pe_text.specs.TextWriter.{IsReady, Adds};
ghost use Rattle.pe_view.specs.View.{bytes_of, size_of};
ghost use Rattle.pe_json.specs.FindingRows.{image_findings};
ghost use Rattle.pe_json.specs.ImageRecords.{beyond_members, record_members};
ghost use Rattle.pe_json.specs.Listed.{more};
ghost use Rattle.pe_json.specs.ResourceRows.{resource_members};

use crate::beyond::Beyond;
use crate::bound_imports::write_bound_imports;
use crate::debug::write_debug;
use crate::delay_imports::write_delay_imports;
use crate::findings::write_findings;
use crate::functions::write_functions;
use crate::image_symbols::write_image_symbols;
use crate::pdb::write_pdb;
use crate::resources::{write_leaves, write_manifest};
use crate::structure::{StructureKind, write_structure};
use crate::tls::write_tls;
use crate::trust::{write_import_hash, write_trust};
use crate::version::write_version;
use pe_layout::Layout;
use pe_resources::Leaf;
use pe_tables::Import;
use pe_text::{Sink, TextWriter};
use pe_view::{Fault, View};
use std::alloc::Allocator;

/// Adds the members of an image's tables that its profile leaves out.
fn write_records<W: Sink>(text: &mut TextWriter<W>, functions: bool, layout: &Layout)
    requires { IsReady W.failures text.old }
    ensures { Adds W.taken W.failures text.old text.new (more (record_members functions (headers_of layout.now).machine (image_of layout.now))) }
{
    write_debug(text, layout);
    write_pdb(text, layout);
    write_functions(text, layout, functions);
    write_tls(text, layout);
    write_structure(text, StructureKind::LoadConfiguration, layout);
    write_bound_imports(text, layout);
    write_structure(text, StructureKind::ClrHeader, layout);
}

/// Adds what is told of an image's resources, given the leaves of their tree.
fn write_resources<W: Sink>(text: &mut TextWriter<W>, layout: &Layout, leaves: &[Leaf])
    requires ready { IsReady W.failures text.old }
    requires read { leaves.now ≡ leaves_of (image_of layout.now) }
    ensures { Adds W.taken W.failures text.old text.new (more (resource_members (image_of layout.now))) }
{
    write_leaves(text, layout, leaves);
    write_version(text, layout);
    write_manifest(text, layout);
}

/// Adds what is told of an image beyond its profile, given its whole file, its imports, those that are delay-loaded, the leaves of its
/// resource tree and its findings.
pub(crate) fn write_beyond<A: Allocator + Copy, W: Sink>(
    alloc: A,
    text: &mut TextWriter<W>,
    beyond: Beyond,
    file: View,
    layout: &Layout,
    imports: &[Import],
    delayed: &[Import],
    leaves: &[Leaf],
    findings: &[Fault],
)
    requires ready { IsReady W.failures text.old }
    requires small { size_of file ≤ 2 ^ 32 }
    requires imported { map import_view imports.now ≡ imports_of (image_of layout.now) }
    requires delayed { map import_view delayed.now ≡ delay_imports_of (image_of layout.now) }
    requires read { leaves.now ≡ leaves_of (image_of layout.now) }
    requires found { findings.now ≡ image_findings (bytes_of file) (headers_of layout.now) (image_of layout.now) }
    ensures { Adds W.taken W.failures text.old text.new (more (beyond_members beyond (bytes_of file.entry) (headers_of layout.now) (image_of layout.now))) }
{
    write_records(text, beyond.functions, layout);
    write_delay_imports(text, layout, delayed);
    write_resources(text, layout, leaves);
    write_image_symbols(alloc, text, beyond.symbols, file, &layout.headers());
    write_trust(text, beyond.digests, file, &layout.headers());
    write_import_hash(text, imports);
    write_findings(text, findings);
}
