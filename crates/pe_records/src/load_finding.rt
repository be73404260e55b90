//! The findings of the load configuration.

ghost use Rattle.std.specs.Prelude.{◌≡◌};
ghost use Rattle.pe_view.specs.View.{bytes_of};
ghost use Rattle.pe_view.specs.Standing.{Adds};
ghost use Rattle.pe_layout.specs.Layout.{image_of};
ghost use Rattle.pe_records.specs.LoadTests.{load_tests, size_tests, tables_tests};
ghost use Rattle.pe_records.specs.Structure.{address_width};

use crate::finding::add;
use crate::load_layout::size_at;
use crate::load_tables::{LoadTableKind, table_passes};
use crate::structure::Structure;
use pe_head::directory_index;
use pe_layout::Layout;
use pe_view::{Fault, Place};
use std::alloc::{AllocError, Allocator};

/// Adds the findings of an image's load configuration.
pub(crate) fn find_load_configuration<A: Allocator>(
    findings: &mut Vec<Fault, A>,
    layout: &Layout,
) -> Result<(), AllocError>
    ensures { Adds (load_tests (image_of layout.now)) findings.old.items findings.new.items result }
{
    let Some(directory) = layout.directory(directory_index::LOAD_CONFIGURATION) else {
        return Ok(());
    };
    let rva = directory.rva;
    let Some(size) = size_at(layout, rva) else {
        return add(findings, layout.image(), Place::Rva(rva), &[(141, true)]);
    };
    find_size(findings, layout, rva, size)?;
    let structure = Structure::of(layout, rva, size);
    find_tables(findings, layout, rva, &structure)
}

/// Adds the findings of the field Size.
fn find_size<A: Allocator>(
    findings: &mut Vec<Fault, A>,
    layout: &Layout,
    rva: u32,
    size: u32,
) -> Result<(), AllocError>
    ensures { Adds (size_tests (image_of layout.now) rva size) findings.old.items findings.new.items result }
{
    let rules = [
        (142, layout.raw_bytes(rva).len() < size as usize),
        (143, size < 4),
    ];
    add(findings, layout.image(), Place::Rva(rva), &rules)
}

/// Adds the findings of the tables.
fn find_tables<A: Allocator>(
    findings: &mut Vec<Fault, A>,
    layout: &Layout,
    rva: u32,
    structure: &Structure,
) -> Result<(), AllocError>
    ensures { Adds (tables_tests (image_of layout.now) rva (address_width structure.now.is_plus) (bytes_of structure.now.bytes)) findings.old.items findings.new.items result }
{
    let guarded = table_passes(layout, structure, LoadTableKind::IatEntries)
        || table_passes(layout, structure, LoadTableKind::LongJumpTargets);
    let rules = [
        (
            144,
            table_passes(layout, structure, LoadTableKind::Handlers),
        ),
        (
            145,
            table_passes(layout, structure, LoadTableKind::Functions),
        ),
        (
            146,
            table_passes(layout, structure, LoadTableKind::EhContinuations),
        ),
        (147, guarded),
    ];
    add(findings, layout.image(), Place::Rva(rva), &rules)
}
