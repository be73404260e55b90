//! `map_entries` and `open_entries`: the space of a set that C describes, in a box with its owner.

ghost use Rattle.std.specs.Prelude.{◌≡◌, ◌<◌, ◌≤◌, false, IfOk, IsErrOf, None, map};
ghost use Rattle.std.specs.Bool.{OnTrue, OnFalse};
ghost use Rattle.pe_view.specs.Faults.{first_standing};
ghost use Rattle.pe_set.specs.SetErrors.{SetAnswers, set_error};
ghost use Rattle.pe_set.specs.SetFaults.{names_tests};
ghost use Rattle.pe_records_c.specs.SetRows.{entry_text, counted, claimed_size, claimed_sizes};
ghost use Rattle.pe_records_c.specs.Spaces.{IsOwnSpaceOf};

use crate::set::{COUNTED, EntryRecord, NO_ENTRY, put_entries};
use pe_handle::{AnySpace, Owner};
use pe_image::lay_out;
use pe_set::{MapError, Policy};
use pe_space::{map, open_space};
use std::alloc::{AllocError, Global};

/// The size of a file's image: SizeOfImage if its headers and sections have no fault, and otherwise 0, since it is refused.
fn claimed_size(file: &[u8]) -> u32
    ensures { result ≡ claimed_size file.now }
{
    match lay_out(file, 0) {
        Ok(layout) => layout.size(),
        Err(_) => 0,
    }
}

/// Whether the images of a set have more than this many bytes together. Allocates nothing.
#[tactic(auto, using(crate::proofs::Claimed::claimed_step, crate::proofs::Claimed::none_claimed))]
pub fn are_larger(set: &[EntryRecord], most_bytes: u64) -> bool
    ensures larger { OnTrue result (most_bytes < claimed_sizes (map entry_text set.now)) }
    ensures fits { OnFalse result (claimed_sizes (map entry_text set.now) ≤ most_bytes) }
{
    let mut left = most_bytes;
    for entry in set {
        let size = claimed_size(entry.file) as u64;
        if size > left {
            return true;
        }
        left -= size;
    }
    false
}

/// A box with the only owner of a space.
fn own(alloc: Global, space: AnySpace<'static>) -> Result<Box<Owner<'static>>, AllocError>
    ensures content { IfOk result (λ owner. owner.value.content ≡ space.entry) }
    ensures alone { IfOk result (λ owner. owner.value.is_shared ≡ false) }
{
    Ok(Box::new(alloc, Owner::alone(space))?)
}

/// Maps the images of the first 257 entries, which decide the result.
fn map_counted(
    alloc: Global,
    rows: &[EntryRecord],
    policy: Policy,
) -> Result<Box<Owner<'static>>, MapError>
    ensures exact { SetAnswers (set_error policy (counted (map entry_text rows.now))) (λ owner. IsOwnSpaceOf policy (counted (map entry_text rows.now)) owner.value) result }
    ensures named { IsErrOf result MapError.Memory → first_standing (names_tests (counted (map entry_text rows.now))) ≡ None }
{
    pe_set::laws::accepted_sets_have_no_fault();
    let mut entries = [NO_ENTRY; COUNTED];
    let space = map(alloc, put_entries(&mut entries, rows), policy)?;
    Ok(own(alloc, AnySpace::mapped(space))?)
}

/// Opens the images of the first 257 entries, which decide the result.
fn open_counted(
    alloc: Global,
    rows: &[EntryRecord<'static>],
    policy: Policy,
) -> Result<Box<Owner<'static>>, MapError>
    ensures exact { SetAnswers (set_error policy (counted (map entry_text rows.now))) (λ owner. IsOwnSpaceOf policy (counted (map entry_text rows.now)) owner.value) result }
    ensures named { IsErrOf result MapError.Memory → first_standing (names_tests (counted (map entry_text rows.now))) ≡ None }
{
    pe_set::laws::accepted_sets_have_no_fault();
    let mut entries = [NO_ENTRY; COUNTED];
    let space = open_space(alloc, put_entries(&mut entries, rows), policy)?;
    Ok(own(alloc, AnySpace::opened(space))?)
}

/// Maps the images of a set into memory. A set that is refused for its names allocates nothing.
pub fn map_entries(
    alloc: Global,
    rows: &[EntryRecord],
    policy: Policy,
) -> Result<Box<Owner<'static>>, MapError>
    ensures exact { SetAnswers (set_error policy (map entry_text rows.now)) (λ owner. IsOwnSpaceOf policy (map entry_text rows.now) owner.value) result }
    ensures named { IsErrOf result MapError.Memory → first_standing (names_tests (map entry_text rows.now)) ≡ None }
{
    pe_set::laws::errors_count_class_by_class();
    pe_set::laws::accepted_sets_have_no_fault();
    map_counted(alloc, rows, policy)
}

/// Opens the images of a set over their files, whose bytes it borrows. A set that is refused for its names allocates nothing.
pub fn open_entries(
    alloc: Global,
    rows: &[EntryRecord<'static>],
    policy: Policy,
) -> Result<Box<Owner<'static>>, MapError>
    ensures exact { SetAnswers (set_error policy (map entry_text rows.now)) (λ owner. IsOwnSpaceOf policy (map entry_text rows.now) owner.value) result }
    ensures named { IsErrOf result MapError.Memory → first_standing (names_tests (map entry_text rows.now)) ≡ None }
{
    pe_set::laws::errors_count_class_by_class();
    pe_set::laws::accepted_sets_have_no_fault();
    open_counted(alloc, rows, policy)
}
