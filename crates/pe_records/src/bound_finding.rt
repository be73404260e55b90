//! The findings of the bound import table.

ghost use Rattle.std.specs.Prelude.{◌≡◌};
ghost use Rattle.pe_view.specs.View.{bytes_of};
ghost use Rattle.pe_view.specs.Standing.{Adds};
ghost use Rattle.pe_layout.specs.Layout.{image_of};
ghost use Rattle.pe_records.specs.BoundImportTests.{bound_tests, records_tests};

use crate::bound_imports::BoundImports;
use crate::finding::add;
use pe_head::directory_index;
use pe_layout::Layout;
use pe_view::{Fault, Place};
use std::alloc::{AllocError, Allocator};

/// Adds the findings of an image's bound import table.
pub(crate) fn find_bound_imports<A: Allocator>(
    findings: &mut Vec<Fault, A>,
    layout: &Layout,
) -> Result<(), AllocError>
    ensures { Adds (bound_tests (image_of layout.now)) findings.old.items findings.new.items result }
{
    if layout.directory(directory_index::BOUND_IMPORT).is_none() {
        return Ok(());
    }
    let imports = BoundImports::of(layout);
    let rules = [(151, !imports.is_ended())];
    add(findings, layout.image(), Place::Rva(imports.start), &rules)?;
    find_records(findings, layout, &imports)
}

/// Adds the findings of each record.
fn find_records<A: Allocator>(
    findings: &mut Vec<Fault, A>,
    layout: &Layout,
    imports: &BoundImports,
) -> Result<(), AllocError>
    ensures { Adds (records_tests (image_of layout.now) imports.now.start (bytes_of imports.now.table)) findings.old.items findings.new.items result }
{
    for index in 0..imports.count {
        let rules = [(152, imports.strays(layout, index))];
        let place = Place::Rva(imports.start + 8 * index);
        add(findings, layout.image(), place, &rules)?;
    }
    Ok(())
}
