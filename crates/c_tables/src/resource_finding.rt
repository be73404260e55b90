//! The findings of an image's tables: those of its resources, and those of the other tables beyond the profile.

ghost use Rattle.std.specs.Prelude.{◌≡◌, ◌≢◌, ◌⊎◌, ◌++◌, [], None, IfOk, OnErr};
ghost use Rattle.pe_view.specs.Standing.{standing};
ghost use Rattle.pe_delay.specs.Findings.{delay_tests};
ghost use Rattle.pe_layout.specs.Layout.{headers_of, image_of};
ghost use Rattle.pe_records.specs.FindingTests.{finding_tests};
ghost use Rattle.pe_symbols.specs.SymbolTests.{image_symbol_tests};
ghost use Rattle.pe_view.specs.View.{bytes_of};
ghost use Rattle.c_tables.specs.ResourceFindings.{delay_and_resource_findings, record_and_symbol_findings, resource_findings, version_found, TablesWantMemory};

use pe_delay::delay_findings;
use pe_layout::Layout;
use pe_records::findings;
use pe_resources::{leaf_data, leaves, version};
use pe_symbols::symbol_findings;
use pe_version::version_findings;
use pe_view::{Fault, View};
use std::alloc::{AllocError, Global};

/// The findings of an image's tables.
#[derive(Drop)]
pub struct TableFindings {
    /// Those of its delay-load directory table and of its resources.
    pub between: Vec<Fault, Global>,
    /// Those of its other tables beyond the profile.
    pub others: Vec<Fault, Global>,
}

/// The findings of an image's version information, if it has any that the file holds in one run.
fn version_found(alloc: Global, layout: &Layout) -> Result<Vec<Fault, Global>, AllocError>
    ensures all { IfOk result (λ findings. findings.items ≡ version_found (image_of layout.now)) }
    ensures memory { OnErr result ((image_of layout.now).directory 2 ≢ None) }
{
    let Some(leaf) = version(layout) else {
        return Ok(Vec::new(alloc));
    };
    let Some(bytes) = leaf_data(layout, &leaf) else {
        return Ok(Vec::new(alloc));
    };
    let is_held = bytes.len() <= layout.raw_bytes(leaf.rva).len();
    prove!(is_held);
    version_findings(alloc, layout.image(), leaf.rva, bytes)
}

/// The findings of an image's resources.
fn resource_findings(alloc: Global, layout: &Layout) -> Result<Vec<Fault, Global>, AllocError>
    ensures all { IfOk result (λ findings. findings.items ≡ resource_findings (image_of layout.now)) }
    ensures memory { OnErr result ((image_of layout.now).directory 2 ≢ None) }
{
    let tree = leaves(alloc, layout)?;
    let mut findings = tree.findings;
    let found = version_found(alloc, layout)?;
    findings.extend_from_slice(found.as_slice())?;
    Ok(findings)
}

/// Findings, and others behind them. The error is want of memory, which comes only if there are some of the first.
fn joined(
    first: Vec<Fault, Global>,
    others: Vec<Fault, Global>,
) -> Result<Vec<Fault, Global>, AllocError>
    ensures all { IfOk result (λ all. all.items ≡ first.items ++ others.items) }
    ensures memory { OnErr result (first.items ≢ []) }
{
    if first.is_empty() {
        return Ok(others);
    }
    let mut all = first;
    all.extend_from_slice(others.as_slice())?;
    Ok(all)
}

/// The findings of an image's delay-load directory table, and those of its resources.
fn delay_and_resource_findings(
    alloc: Global,
    layout: &Layout,
) -> Result<Vec<Fault, Global>, AllocError>
    ensures all { IfOk result (λ findings. findings.items ≡ delay_and_resource_findings (image_of layout.now)) }
    ensures memory { OnErr result (((image_of layout.now).directory 2 ≢ None) ⊎ (standing (delay_tests (image_of layout.now)) ≢ [])) }
{
    let delayed = delay_findings(alloc, layout)?;
    let resources = resource_findings(alloc, layout)?;
    joined(delayed, resources)
}

/// The findings of an image's other tables beyond the profile, and those of its symbol table.
fn record_and_symbol_findings(
    alloc: Global,
    layout: &Layout,
    file: View,
) -> Result<Vec<Fault, Global>, AllocError>
    ensures all { IfOk result (λ findings. findings.items ≡ record_and_symbol_findings (bytes_of file.entry) (headers_of layout.now) (image_of layout.now)) }
    ensures memory { OnErr result ((standing (finding_tests (headers_of layout.now).machine (image_of layout.now) (bytes_of file.entry)) ≢ [])
        ⊎ (standing (image_symbol_tests (image_of layout.now).number (bytes_of file.entry) (headers_of layout.now)) ≢ [])) }
{
    let records = findings(alloc, layout, file)?;
    let symbols = symbol_findings(alloc, layout.image(), file, &layout.headers())?;
    joined(records, symbols)
}

/// The findings of an image's tables. The error is want of memory, which comes only if the image has a resource directory, or another
/// of these tables has a finding. `file` is the file that the image was laid out of.
pub fn table_findings(
    alloc: Global,
    layout: &Layout,
    file: View,
) -> Result<TableFindings, AllocError>
    ensures between { IfOk result (λ found. found.between.items ≡ delay_and_resource_findings (image_of layout.now)) }
    ensures others { IfOk result (λ found. found.others.items ≡ record_and_symbol_findings (bytes_of file.entry) (headers_of layout.now) (image_of layout.now)) }
    ensures memory { OnErr result (TablesWantMemory (bytes_of file.entry) (headers_of layout.now) (image_of layout.now)) }
{
    let between = delay_and_resource_findings(alloc, layout)?;
    let others = record_and_symbol_findings(alloc, layout, file)?;
    Ok(TableFindings { between, others })
}
