//! The findings of a TLS directory and its callbacks.

ghost use Rattle.std.specs.Prelude.{◌≡◌};
ghost use Rattle.pe_view.specs.Standing.{Adds};
ghost use Rattle.pe_layout.specs.Layout.{image_of};
ghost use Rattle.pe_records.specs.Callbacks.{entries_tests};
ghost use Rattle.pe_records.specs.CallbackView.{callback_table};
ghost use Rattle.pe_records.specs.TlsFields.{is_backward, strays, structure_tests};
ghost use Rattle.pe_records.specs.TlsTests.{callbacks_tests, tls_tests};

use crate::address::{leads_nowhere, passes};
use crate::finding::add;
use crate::structure::Structure;
use crate::tls_callbacks::TlsCallbacks;
use crate::tls_directory::{TlsDirectory, fields};
use pe_head::directory_index;
use pe_layout::Layout;
use pe_view::{Fault, Place};
use std::alloc::{AllocError, Allocator};

/// Adds the findings of an image's TLS directory.
pub(crate) fn find_tls<A: Allocator>(
    findings: &mut Vec<Fault, A>,
    layout: &Layout,
) -> Result<(), AllocError>
    ensures { Adds (tls_tests (image_of layout.now)) findings.old.items findings.new.items result }
{
    let Some(directory) = layout.directory(directory_index::TLS) else {
        return Ok(());
    };
    let structure = Structure::of(layout, directory.rva, 40);
    let tls = fields(&structure);
    find_structure(findings, layout, directory.rva, &tls)?;
    find_callbacks(findings, layout)
}

/// Adds the findings of the directory at an RVA.
fn find_structure<A: Allocator>(
    findings: &mut Vec<Fault, A>,
    layout: &Layout,
    rva: u32,
    tls: &TlsDirectory,
) -> Result<(), AllocError>
    ensures { Adds (structure_tests (image_of layout.now) rva tls.now) findings.old.items findings.new.items result }
{
    let rules = [
        (131, tls.characteristics.is_none()),
        (132, is_backward(tls)),
        (133, strays(layout, tls)),
        (134, leads_nowhere(layout, tls.address_of_callbacks)),
    ];
    add(findings, layout.image(), Place::Rva(rva), &rules)
}

/// Whether the template ends before it starts.
fn is_backward(tls: &TlsDirectory) -> bool
    ensures { result ≡ is_backward tls.now }
{
    match (tls.start_address_of_raw_data, tls.end_address_of_raw_data) {
        (Some(start), Some(end)) => end < start,
        _ => false,
    }
}

/// Whether the template or the index is not in the image.
fn strays(layout: &Layout, tls: &TlsDirectory) -> bool
    ensures { result ≡ strays (image_of layout.now) tls.now }
{
    passes(layout, tls.start_address_of_raw_data)
        || passes(layout, tls.end_address_of_raw_data)
        || leads_nowhere(layout, tls.address_of_index)
}

/// Adds the findings of the callbacks.
fn find_callbacks<A: Allocator>(
    findings: &mut Vec<Fault, A>,
    layout: &Layout,
) -> Result<(), AllocError>
    ensures { Adds (callbacks_tests (image_of layout.now)) findings.old.items findings.new.items result }
{
    let Some(callbacks) = TlsCallbacks::of(layout) else {
        return Ok(());
    };
    let rules = [(135, !callbacks.is_ended())];
    add(
        findings,
        layout.image(),
        Place::Rva(callbacks.start),
        &rules,
    )?;
    find_entries(findings, layout, &callbacks)
}

/// Adds the findings of each callback.
fn find_entries<A: Allocator>(
    findings: &mut Vec<Fault, A>,
    layout: &Layout,
    callbacks: &TlsCallbacks,
) -> Result<(), AllocError>
    ensures { Adds (entries_tests (image_of layout.now) (callback_table callbacks.now)) findings.old.items findings.new.items result }
{
    for index in 0..callbacks.count {
        let rules = [(136, leads_nowhere(layout, callbacks.get(index)))];
        let place = Place::Rva(callbacks.rva(index));
        add(findings, layout.image(), place, &rules)?;
    }
    Ok(())
}
