//! Sets of images as C has them: `EntryRecord` and `BindingRow`; and `judged`, which reads and checks a set.

ghost use Rattle.std.specs.Prelude.{◌≡◌, ◌<◌, IsErrOf, None, length, map};
ghost use Rattle.pe_view.specs.Faults.{first_standing};
ghost use Rattle.pe_set.specs.SetErrors.{set_error, SetAnswers};
ghost use Rattle.pe_set.specs.SetFaults.{names_tests};
ghost use Rattle.pe_set.specs.SetView.{entries_of, entry_view, IsAcceptedFrom};
ghost use Rattle.pe_records_c.specs.SetRows.{entry_text, counted, binding_row, policy_of, IsSetTold};

use crate::fault::{FaultRecord, refuse};
use crate::row::{Row, fill_rows};
use crate::status;
use pe_set::{Accepted, Binding, MapError, Policy, SetEntry, judge};
use std::alloc::Global;

/// An image of a set: its file, the name by which others import from it, and its base.
#[repr(C)]
#[derive(Clone, Copy)]
pub struct EntryRecord<'a> {
    /// The module's name, such as `kernel32.dll`; the case of ASCII letters is ignored.
    pub name: &'a [u8],
    /// The bytes of the file.
    pub file: &'a [u8],
    /// The image's base.
    pub base: u64,
}

/// An import address table entry, a slot, and the export whose address it holds.
#[repr(C)]
#[derive(Clone, Copy)]
pub struct BindingRow {
    /// The index of the entry whose image has the slot.
    pub image: u32,
    /// The RVA of the slot.
    pub slot: u32,
    /// The index of the entry whose image has the export.
    pub exporter: u32,
    /// The RVA of the export.
    pub rva: u32,
}

impl Row<Binding> for BindingRow {
    ghost tells = { λ item row. row ≡ binding_row item };

    fn of(item: &Binding) -> Self {
        BindingRow {
            image: u32::from(item.image),
            slot: item.slot,
            exporter: u32::from(item.exporter),
            rva: item.rva,
        }
    }
}

impl<'a> Row<EntryRecord<'a>> for SetEntry<'a> {
    ghost tells = { λ item row. entry_view row ≡ entry_text item };

    fn of(item: &EntryRecord<'a>) -> Self {
        SetEntry {
            name: item.name,
            file: item.file,
            base: item.base,
        }
    }
}

/// How many entries of a set are read at most: the last one has fault 41, since a set has at most 256.
pub(crate) const COUNTED: usize = 257;

/// A placeholder, which is overwritten.
pub(crate) const NO_ENTRY: SetEntry<'static> = SetEntry {
    name: &[],
    file: &[],
    base: 0,
};

/// Copies the entries of a set that are read into an array, so that nothing is allocated.
pub(crate) fn put_entries<'s, 'a>(
    entries: &'s mut [SetEntry<'a>; COUNTED],
    rows: &[EntryRecord<'a>],
) -> &'s [SetEntry<'a>]
    ensures { entries_of result.now ≡ counted (map entry_text rows.now) }
{
    fill_rows(entries, rows);
    &entries[..COUNTED.min(rows.len())]
}

/// How an import from a module that is not in the set is treated.
pub fn policy_of(known: bool) -> Policy
    ensures { result ≡ policy_of known }
{
    if known { Policy::Known } else { Policy::Strict }
}

/// Reads and checks a set, or returns its first error. With `known`, an import that leads to a module that is not in the set is
/// no fault. A set that is refused for its names allocates nothing, nor does an empty one.
pub fn judged<'a>(
    alloc: Global,
    set: &[EntryRecord<'a>],
    known: bool,
) -> Result<Accepted<'a, Global>, MapError>
    ensures exact { SetAnswers (set_error (policy_of known) (map entry_text set.now)) (IsAcceptedFrom (map entry_text set.now)) result }
    ensures named { IsErrOf result MapError.Memory → first_standing (names_tests (map entry_text set.now)) ≡ None }
    ensures not_empty { IsErrOf result MapError.Memory → 0 < length set.now }
{
    pe_set::laws::errors_count_class_by_class();
    pe_set::laws::accepted_sets_have_no_fault();
    let mut entries = [NO_ENTRY; COUNTED];
    judge(alloc, put_entries(&mut entries, set), policy_of(known))
}

/// Reports why a set is refused, for a cycle of forwarders also its length, and returns the status, 1 or 2.
pub fn refuse_set(error: MapError, fault: &mut FaultRecord, cycle: &mut u32) -> u32
    ensures { IsSetTold error fault.old fault.new cycle.old cycle.new result }
{
    match error {
        MapError::Fault(first) => refuse(first, fault),
        MapError::Cycle {
            fault: first,
            length,
        } => {
            *cycle = length;
            refuse(first, fault)
        }
        MapError::Memory => status::MEMORY,
    }
}
