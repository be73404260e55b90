//! `findings`: the findings of all tables of an image.

ghost use Rattle.std.specs.Prelude.{◌≡◌, ◌≢◌, [], IfOk, OnErr};
ghost use Rattle.pe_view.specs.View.{bytes_of};
ghost use Rattle.pe_view.specs.Standing.{Adds, standing};
ghost use Rattle.pe_layout.specs.Layout.{headers_of, image_of};
ghost use Rattle.pe_records.specs.FindingTests.{finding_tests};

use crate::bound_finding::find_bound_imports;
use crate::clr_fields::find_clr;
use crate::debug::DebugEntry;
use crate::exceptions::find_exceptions;
use crate::load_finding::find_load_configuration;
use crate::records::find_table;
use crate::tls_finding::find_tls;
use pe_layout::Layout;
use pe_view::{Fault, View};
use std::alloc::{AllocError, Allocator};

/// Adds the findings of all tables of an image.
fn find_all<A: Allocator>(
    findings: &mut Vec<Fault, A>,
    layout: &Layout,
    file: View,
) -> Result<(), AllocError>
    ensures { Adds (finding_tests (headers_of layout.now).machine (image_of layout.now) (bytes_of file.entry)) findings.old.items findings.new.items result }
{
    find_table::<DebugEntry, _>(findings, layout, file)?;
    find_exceptions(findings, layout, file)?;
    find_tls(findings, layout)?;
    find_load_configuration(findings, layout)?;
    find_bound_imports(findings, layout)?;
    find_clr(findings, layout)
}

/// The findings of an image: all rules of its tables that are broken, in the order of the tables' findings. Those of a table are of its
/// directory, and then of each record in the order of the table. A table that is not present has none. `file` is the file that the
/// image was laid out of.
///
/// The error is that no memory is left for a finding. It never comes if there is none.
pub fn findings<A: Allocator + Copy>(
    alloc: A,
    layout: &Layout,
    file: View,
) -> Result<Vec<Fault, A>, AllocError>
    ensures all { IfOk result (λ findings. findings.items ≡ standing (finding_tests (headers_of layout.now).machine (image_of layout.now) (bytes_of file.entry))) }
    ensures memory { OnErr result (standing (finding_tests (headers_of layout.now).machine (image_of layout.now) (bytes_of file.entry)) ≢ []) }
{
    let mut findings = Vec::new(alloc);
    find_all(&mut findings, layout, file)?;
    Ok(findings)
}
