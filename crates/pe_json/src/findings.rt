//! The findings of an image's tables, of its resources and of its file.

ghost use Rattle.std.specs.Prelude.{◌≡◌, ◌++◌, codes, flat_map, IfOk};
ghost use Rattle.pe_view.specs.Standing.{standing};
ghost use Rattle.pe_layout.specs.Layout.{headers_of, image_of};
ghost use Rattle.pe_resources.specs.Walk.{resource_tests};
ghost use Rattle.pe_text.specs.TextWriter.{IsReady, Adds};
ghost use Rattle.pe_view.specs.View.{bytes_of};
ghost use Rattle.pe_json.specs.FindingRows.{found, trust_findings, image_findings, finding_row, findings_in};
ghost use Rattle.pe_json.specs.ImageRecords.{own_findings};
ghost use Rattle.pe_json.specs.Listed.{more};

use crate::beyond::Beyond;
use crate::fault::write_object;
use pe_delay::delay_findings;
use pe_head::Headers;
use pe_layout::Layout;
use pe_records::findings;
use pe_resources::version_findings;
use pe_symbols::symbol_findings;
use pe_text::{Sink, TextWriter};
use pe_trust::{certificate_findings, rich_finding};
use pe_view::{Fault, View};
use std::alloc::{AllocError, Allocator};

/// Adds a finding to others, if there is one.
fn add<A: Allocator>(findings: &mut Vec<Fault, A>, finding: Option<Fault>) -> Result<(), AllocError>
    ensures { IfOk result (λ _. findings.new.items ≡ findings.old.items ++ found finding) }
{
    if let Some(finding) = finding {
        findings.push(finding)?;
    }
    Ok(())
}

/// Adds those findings to others that there are.
fn add_each<A: Allocator>(
    findings: &mut Vec<Fault, A>,
    more: &[Option<Fault>],
) -> Result<(), AllocError>
    ensures { IfOk result (λ _. findings.new.items ≡ findings.old.items ++ flat_map found more.now) }
{
    for finding in more {
        add(findings, *finding)?;
    }
    Ok(())
}

/// Adds to others what is found in what an image's file says of itself.
fn add_trust<A: Allocator>(
    findings: &mut Vec<Fault, A>,
    file: View,
    headers: &Headers,
) -> Result<(), AllocError>
    ensures { IfOk result (λ _. findings.new.items ≡ findings.old.items ++ trust_findings (bytes_of file.entry) headers.now) }
{
    add_each(findings, certificate_findings(0, file, headers).as_slice())?;
    add(findings, rich_finding(0, file, headers))
}

/// What is found in what the file of a refused image says of itself, if that is asked for.
pub(crate) fn own_findings<A: Allocator + Copy>(
    alloc: A,
    beyond: Option<Beyond>,
    file: View,
    headers: &Headers,
) -> Result<Vec<Fault, A>, AllocError>
    ensures { IfOk result (λ findings. findings.items ≡ own_findings beyond (bytes_of file.entry) headers.now) }
{
    let mut findings = Vec::new(alloc);
    if beyond.is_some() {
        add_trust(&mut findings, file, headers)?;
    }
    Ok(findings)
}

/// All findings of an image, of which this is the whole file, given those of its resource tree.
pub(crate) fn findings_of<A: Allocator + Copy>(
    alloc: A,
    layout: &Layout,
    file: View,
    tree: &[Fault],
) -> Result<Vec<Fault, A>, AllocError>
    requires { tree.now ≡ standing (resource_tests (image_of layout.now)) }
    ensures { IfOk result (λ findings. findings.items ≡ image_findings (bytes_of file.entry) (headers_of layout.now) (image_of layout.now)) }
{
    let mut all = findings(alloc, layout, file)?;
    all.extend_from_slice(delay_findings(alloc, layout)?.as_slice())?;
    all.extend_from_slice(tree)?;
    all.extend_from_slice(version_findings(alloc, layout)?.as_slice())?;
    add_trust(&mut all, file, &layout.headers())?;
    let symbols = symbol_findings(alloc, layout.image(), file, &layout.headers())?;
    all.extend_from_slice(symbols.as_slice())?;
    Ok(all)
}

/// Adds a finding after a comma.
fn write_next<W: Sink>(text: &mut TextWriter<W>, finding: &Fault)
    requires { IsReady W.failures text.old }
    ensures { Adds W.taken W.failures text.old text.new (codes "," ++ finding_row finding.now) }
{
    text.text(b",");
    write_object(text, finding, None);
}

/// Adds findings, each after a comma.
fn write_rest<W: Sink>(text: &mut TextWriter<W>, findings: &[Fault])
    requires { IsReady W.failures text.old }
    ensures { Adds W.taken W.failures text.old text.new (flat_map (λ f. codes "," ++ finding_row f) findings.now) }
{
    for finding in findings {
        if text.has_failed() {
            return;
        }
        write_next(text, finding);
    }
}

/// Adds the member that lists findings, if there are any.
pub(crate) fn write_findings<W: Sink>(text: &mut TextWriter<W>, findings: &[Fault])
    requires { IsReady W.failures text.old }
    ensures { Adds W.taken W.failures text.old text.new (more (findings_in findings.now)) }
{
    let Some((first, rest)) = findings.split_first() else {
        return;
    };
    text.text(b",\"findings\":[");
    write_object(text, first, None);
    write_rest(text, rest);
    text.text(b"]");
}
