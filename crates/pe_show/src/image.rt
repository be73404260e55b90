//! The page of an image, which shows of a refused one what has no fault.

ghost use Rattle.std.specs.Prelude.{◌≡◌, ◌<◌, List, length, IfOk, OnErr};
ghost use Rattle.pe_view.specs.Faults.{Test, first_standing};
ghost use Rattle.pe_image.specs.ImageTests.{image_tests};
ghost use Rattle.pe_reach.specs.Views.{seen_of};
ghost use Rattle.pe_text.specs.TextWriter.{IsReady};
ghost use Rattle.pe_page.specs.Page.{AddsSome};
ghost use Rattle.pe_text.specs.Outcome.{IsOutcomeOf};

use crate::directories::write_directories;
use crate::exports::write_exports;
use crate::fault::write_refusal;
use crate::file_rows::write_others;
use crate::fixups::write_fixups;
use crate::header_rows::{image_kind, write_headers};
use crate::image_symbols::write_image_symbols;
use crate::imports::{write_delayed, write_imports};
use crate::sections::write_sections;
use pe_delay::read_delay_imports;
use pe_image::Tables;
use pe_layout::Layout;
use pe_page::{Page, SectionNames, outcome_of, write_title};
use pe_reach::{ViewFile, read_whole_tables};
use pe_record_pages::{
    ShownImage, image_pdb, is_reproducible, table_findings, trust_findings, write_debug,
    write_findings, write_functions, write_identity, write_load_configuration, write_tls,
    write_trust,
};
use pe_resource_pages::{ImageResources, ShownResources, write_resources};
use pe_tables::{Import, NamesByOrdinal};
use pe_text::Part::Text;
use pe_text::{Outcome, ShowOptions, Sink, TextWriter};
use pe_view::Fault;
use std::alloc::{AllocError, Allocator};

/// The names of the exports ordered by ordinal, if they are selected and were read.
fn order_names<A: Allocator + Copy>(
    alloc: A,
    tables: &Tables<A>,
    is_wanted: bool,
) -> Result<NamesByOrdinal<A>, AllocError> {
    match (&tables.exports, is_wanted) {
        (Some(exports), true) => NamesByOrdinal::new(alloc, exports),
        _ => Ok(NamesByOrdinal::none(alloc)),
    }
}

/// What an image imports, if that was read.
fn imports_read<'t, 'a, A: Allocator>(tables: &'t Tables<'a, A>) -> Option<&'t [Import<'a>]> {
    match &tables.imports {
        Some(imports) => Some(imports.as_slice()),
        None => None,
    }
}

/// Adds the page of an image of which nothing but its fault is shown.
pub(crate) fn write_unread<W: Sink>(
    text: &mut TextWriter<W>,
    page: &Page,
    file: ViewFile,
    outcome: Outcome,
)
    requires { IsReady W.failures text.old }
    ensures { AddsSome W.taken W.failures text.old text.new }
{
    write_title(text, page, outcome, [Text(b""); 4], file.len());
    write_refusal(text, page.options, outcome, file);
}

/// Adds the page of an image with one of faults 1 to 15, with its headers and sections if the headers have no fault.
fn write_refused<W: Sink>(text: &mut TextWriter<W>, page: &Page, file: ViewFile, outcome: Outcome)
    requires { IsReady W.failures text.old }
    ensures { AddsSome W.taken W.failures text.old text.new }
{
    match file.headers() {
        Ok(headers) => {
            write_title(text, page, outcome, image_kind(&headers), file.len());
            write_headers(text, page, &headers, None, false);
            let names = SectionNames::new(file, &headers);
            write_sections(text, page, &headers, &names);
            write_trust(text, page.options, file, &headers, None);
            let trust = trust_findings(page.options, file, &headers);
            write_findings(text, page.options, &[], &trust);
            write_refusal(text, page.options, outcome, file);
        }
        Err(_) => write_unread(text, page, file, outcome),
    }
}

/// Adds the rows of the tables beyond the profile that the options select.
fn write_beyond<W: Sink>(
    text: &mut TextWriter<W>,
    options: &ShowOptions,
    image: &ShownImage,
    names: &SectionNames,
)
    requires { IsReady W.failures text.old }
    ensures { AddsSome W.taken W.failures text.old text.new }
{
    write_debug(text, options, image);
    write_functions(text, options, image, names);
    write_tls(text, options, image, names);
    write_load_configuration(text, options, image);
    write_resources(text, options, image.layout, &image.resources);
}

/// Adds the page of an image that is laid out.
fn write_image<A: Allocator + Copy, W: Sink>(
    alloc: A,
    text: &mut TextWriter<W>,
    page: &Page,
    image: &ShownImage,
    tables: &Tables<A>,
    names_by_ordinal: &NamesByOrdinal<A>,
)
    requires { IsReady W.failures text.old }
    ensures { AddsSome W.taken W.failures text.old text.new }
{
    let outcome = outcome_of(tables.fault);
    let ShownImage {
        layout,
        file,
        delayed,
        resources,
        findings,
        trust,
    } = *image;
    let headers = layout.headers();
    let names = SectionNames::new(file, &headers);
    let entry = names.place(layout, headers.address_of_entry_point);
    write_title(text, page, outcome, image_kind(&headers), file.len());
    write_headers(text, page, &headers, Some(entry), is_reproducible(layout));
    write_others(text, &headers, file, page.options.symbols);
    write_identity(
        text,
        page.options,
        resources.version,
        image_pdb(layout, file),
    );
    write_sections(text, page, &headers, &names);
    write_directories(text, page, image, &names, tables);
    write_exports(text, page.options, layout, &names, tables, names_by_ordinal);
    write_imports(text, page.options, tables);
    write_delayed(text, page.options, delayed);
    write_fixups(text, page.options, tables);
    write_beyond(text, page.options, image, &names);
    write_image_symbols(alloc, text, page.options, file, &headers, &names);
    write_trust(text, page.options, file, &headers, imports_read(tables));
    write_findings(text, page.options, findings, trust);
    write_refusal(text, page.options, outcome, file);
}

/// Checks an image's file, and adds its page. It allocates only before it adds the first byte.
pub(crate) fn show_image<A: Allocator + Copy, W: Sink>(
    alloc: A,
    page: &Page,
    text: &mut TextWriter<W>,
    file: ViewFile,
) -> Result<Outcome, AllocError>
    requires { IsReady W.failures text.old }
    ensures judged { IfOk result (IsOutcomeOf (image_tests 0 (seen_of file.entry))) }
    ensures adds { IfOk result (λ _. AddsSome W.taken W.failures text.old text.new) }
    ensures same { text.new.writer.ghost_name ≡ text.old.writer.ghost_name }
    ensures adds_none { OnErr result (text.new ≡ text.old) }
    ensures reads { OnErr result (0 < length (seen_of file.entry)) }
{
    match file.lay_out() {
        Ok(layout) => {
            let tables = read_whole_tables(alloc, &layout)?;
            let names = order_names(alloc, &tables, page.options.exports)?;
            let delayed = read_delay_imports(alloc, &layout)?;
            let mut findings = table_findings(alloc, &layout, file, page.options.symbols)?;
            let resources = ImageResources::read(alloc, &layout, &mut findings)?;
            let trust = trust_findings(page.options, file, &layout.headers());
            let image = ShownImage {
                layout: &layout,
                file,
                delayed: delayed.as_slice(),
                resources: ShownResources {
                    leaves: resources.leaves.as_slice(),
                    version: resources.version,
                    manifest: resources.manifest,
                },
                findings: findings.as_slice(),
                trust: &trust,
            };
            write_image(alloc, text, page, &image, &tables, &names);
            Ok(outcome_of(tables.fault))
        }
        Err(fault) => {
            let outcome = Outcome::Refused(fault);
            write_refused(text, page, file, outcome);
            Ok(outcome)
        }
    }
}
