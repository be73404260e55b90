//! The findings of an archive in words.

ghost use Rattle.pe_text.specs.TextWriter.{IsReady};
ghost use Rattle.pe_page.specs.Page.{AddsSome};

use crate::members::ShownMember;
use pe_page::{write_finding, write_heading};
use pe_text::{ShowOptions, Sink, TextWriter};
use pe_view::Fault;

/// Adds a row for each finding. After a failed write there are no more.
fn write_each<W: Sink>(text: &mut TextWriter<W>, findings: &[Fault])
    requires { IsReady W.failures text.old }
    ensures { AddsSome W.taken W.failures text.old text.new }
{
    for finding in findings {
        if text.has_failed() {
            return;
        }
        write_finding(text, finding);
    }
}

/// Adds the row of the finding of an import object, if it has one.
fn write_import_finding<W: Sink>(text: &mut TextWriter<W>, shown: &ShownMember)
    requires { IsReady W.failures text.old }
    ensures { AddsSome W.taken W.failures text.old text.new }
{
    if let Some(finding) = shown.contents.import_finding() {
        write_finding(text, &finding);
    }
}

/// Adds a row for each import object with a finding. After a failed write there are no more.
fn write_import_findings<W: Sink>(text: &mut TextWriter<W>, members: &[ShownMember])
    requires { IsReady W.failures text.old }
    ensures { AddsSome W.taken W.failures text.old text.new }
{
    for shown in members {
        if text.has_failed() {
            return;
        }
        write_import_finding(text, shown);
    }
}

/// Adds a row for each finding of the archive, and of its import objects, if there are any.
pub(crate) fn write_findings<W: Sink>(
    text: &mut TextWriter<W>,
    options: &ShowOptions,
    findings: &[Fault],
    members: &[ShownMember],
)
    requires { IsReady W.failures text.old }
    ensures { AddsSome W.taken W.failures text.old text.new }
{
    let imports = members
        .iter()
        .filter(|shown| shown.contents.import_finding().is_some())
        .count();
    let count = findings.len().saturating_add(imports);
    if count == 0 {
        return;
    }
    write_heading(text, options, b"Findings", count);
    write_each(text, findings);
    write_import_findings(text, members);
}
