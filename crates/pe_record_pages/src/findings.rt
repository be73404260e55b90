//! The findings of an image: a mark at the directory of each table that has some, and all of them in words.

ghost use Rattle.pe_text.specs.TextWriter.{IsReady};
ghost use Rattle.pe_page.specs.Page.{AddsSome};

use crate::shown_image::ShownImage;
use crate::trust::TrustFindings;
use pe_delay::delay_findings;
use pe_head::directory_index;
use pe_layout::Layout;
use pe_page::Cell::{self, Plain};
use pe_page::{plural, write_cells, write_finding, write_heading};
use pe_reach::ViewFile;
use pe_records::{DebugEntry, Records, findings};
use pe_symbols::symbol_findings;
use pe_text::Part::Text;
use pe_text::{ShowOptions, Sink, TextWriter};
use pe_view::{Fault, Place};
use std::alloc::{AllocError, Allocator};

/// The size of an entry of the debug directory in bytes.
const ENTRY_SIZE: u32 = 28;

/// The entry of the debug directory at an RVA.
fn debug_entry_at(layout: &Layout, rva: u32) -> Option<DebugEntry> {
    let directory = layout.directory(directory_index::DEBUG)?;
    let entries: Records<DebugEntry> = Records::of(layout);
    entries.get(rva.saturating_sub(directory.rva) / ENTRY_SIZE)
}

/// Whether a finding says that debug data passes the end of the file where only the end of what was read is passed.
fn is_unread(layout: &Layout, file: ViewFile, finding: &Fault) -> bool {
    let (103, Place::Rva(rva)) = (finding.number, finding.place) else {
        return false;
    };
    match debug_entry_at(layout, rva) {
        Some(entry) => {
            let start = u64::from(entry.pointer_to_raw_data);
            start + u64::from(entry.size_of_data) <= file.len()
        }
        None => false,
    }
}

/// The findings of the tables beyond the profile, without those on data that the file has after what was read of it, and then those of the
/// delay-load directory table; and those of the symbol table if `symbols` says so, for which the file is to be read whole.
///
/// The error is that no memory is left for a finding.
pub fn table_findings<A: Allocator + Copy>(
    alloc: A,
    layout: &Layout,
    file: ViewFile,
    symbols: bool,
) -> Result<Vec<Fault, A>, AllocError> {
    let bytes = file.beginning();
    let mut all = findings(alloc, layout, bytes)?;
    all.retain(|finding| !is_unread(layout, file, finding));
    all.extend_from_slice(delay_findings(alloc, layout)?.as_slice())?;
    if symbols {
        let found = symbol_findings(alloc, layout.image(), bytes, &layout.headers())?;
        all.extend_from_slice(found.as_slice())?;
    }
    Ok(all)
}

/// The directory of the table that a finding is of; the Rich header has none.
fn directory_of(finding: &Fault) -> Option<usize> {
    match finding.number {
        101..=110 => Some(directory_index::DEBUG),
        111..=130 => Some(directory_index::EXCEPTION),
        131..=140 => Some(directory_index::TLS),
        141..=150 => Some(directory_index::LOAD_CONFIGURATION),
        151..=160 => Some(directory_index::BOUND_IMPORT),
        161..=170 => Some(directory_index::DELAY_IMPORT),
        181..=220 => Some(directory_index::RESOURCE),
        221..=240 => Some(directory_index::CERTIFICATE),
        251..=260 => Some(directory_index::CLR),
        _ => None,
    }
}

/// How many of the findings on the tables are of the table of directory `index`.
fn count_of(findings: &[Fault], index: usize) -> usize {
    findings
        .iter()
        .filter(|finding| directory_of(finding) == Some(index))
        .count()
}

/// Whether there is a finding, and it is of the table of directory `index`.
fn is_of(finding: &Option<Fault>, index: usize) -> bool {
    match finding {
        Some(finding) => directory_of(finding) == Some(index),
        None => false,
    }
}

/// How many of the findings on what the file says of itself are of the table of directory `index`.
fn trust_count_of(trust: &TrustFindings, index: usize) -> usize {
    trust.iter().filter(|finding| is_of(finding, index)).count()
}

/// Adds the number of findings of the table of directory `index`, if it has some, and the end of the row.
pub(crate) fn write_mark<W: Sink>(text: &mut TextWriter<W>, image: &ShownImage, index: usize)
    requires { IsReady W.failures text.old }
    ensures { AddsSome W.taken W.failures text.old text.new }
{
    let count = count_of(image.findings, index).saturating_add(trust_count_of(image.trust, index));
    if count == 0 {
        text.text(b"\n");
        return;
    }
    write_cells(
        text,
        &[
            Plain(Text(b", ")),
            Cell::Count(count as u64),
            plural(count, b" finding\n", b" findings\n"),
        ],
    );
}

/// Adds a row for each finding.
fn write_each<W: Sink>(text: &mut TextWriter<W>, findings: &[Fault])
    requires { IsReady W.failures text.old }
    ensures { AddsSome W.taken W.failures text.old text.new }
{
    for finding in findings {
        if text.has_failed() {
            return;
        }
        write_finding(text, finding);
    }
}

/// Adds the row of a finding, if there is one.
fn write_found<W: Sink>(text: &mut TextWriter<W>, finding: &Option<Fault>)
    requires { IsReady W.failures text.old }
    ensures { AddsSome W.taken W.failures text.old text.new }
{
    if let Some(finding) = finding {
        write_finding(text, finding);
    }
}

/// Adds a row for each finding on what the file says of itself.
fn write_each_trust<W: Sink>(text: &mut TextWriter<W>, trust: &TrustFindings)
    requires { IsReady W.failures text.old }
    ensures { AddsSome W.taken W.failures text.old text.new }
{
    for finding in trust {
        write_found(text, finding);
    }
}

/// Adds a row for each finding on the tables, and on what the file says of itself, if there are any.
pub fn write_findings<W: Sink>(
    text: &mut TextWriter<W>,
    options: &ShowOptions,
    findings: &[Fault],
    trust: &TrustFindings,
)
    requires { IsReady W.failures text.old }
    ensures { AddsSome W.taken W.failures text.old text.new }
{
    let others = trust.iter().filter(|finding| finding.is_some()).count();
    let count = findings.len().saturating_add(others);
    if count == 0 {
        return;
    }
    write_heading(text, options, b"Findings", count);
    write_each(text, findings);
    write_each_trust(text, trust);
}
