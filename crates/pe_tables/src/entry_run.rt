//! The entries at the start of a part of a block that have one type and ascending fields.

ghost use Rattle.std.specs.Prelude.{◌≡◌, ◌+◌, ◌*◌, ◌/◌, ◌<◌, ◌^◌, None, IsTrue, IfOk, option_to_list, false};
ghost use Rattle.pe_layout.specs.Layout.{image_of};
ghost use Rattle.pe_view.specs.View.{bytes_of, size_of};
ghost use Rattle.pe_layout.specs.Image.{number_at, bytes_at};
ghost use Rattle.pe_view.specs.Faults.{first_standing};
ghost use Rattle.pe_ranges.specs.RangesView.{ranges_in};
ghost use Rattle.pe_tables.specs.Fixups.{entry_of, entries_at, fixup_of};
ghost use Rattle.pe_tables.specs.FixupFaults.{entry_tests};
ghost use Rattle.pe_tables.specs.FixupReading.{IsClear, IsIndexed, IsRunOf, Keeps, Reads, ReadsUpTo};

use crate::fixups::{Fixup, FixupKind};
use crate::found_fixups::FoundFixups;
use pe_layout::Layout;
use pe_ranges::Ranges;
use pe_view::View;
use std::alloc::{AllocError, Allocator};

/// The kind of the first entry, which most others then have too, or HIGHLOW if it names no field.
fn first_kind(bytes: View) -> FixupKind {
    match bytes.u16_at(0) {
        Some(entry) => FixupKind::of_type(entry / 4096).unwrap_or(FixupKind::Bits32),
        None => FixupKind::Bits32,
    }
}

/// What the fields of a run of entries have in common.
#[derive(Drop)]
struct Run {
    kind: FixupKind,
    /// The type of an entry of the kind.
    entry_type: u16,
    /// The size of a field in bytes.
    width: u64,
    /// The size of the image in bytes.
    size: u32,
}

/// A run of fields of this kind.
fn run_of(layout: &Layout, kind: FixupKind) -> Run
    ensures { IsRunOf (image_of layout.now) result }
{
    Run {
        kind,
        entry_type: kind.entry_type(),
        width: u64::from(kind.width()),
        size: layout.size(),
    }
}

/// Reads an entry as `read_entry` does if its field is of this run's kind, lies in the image and begins after all others, and
/// returns whether it did. No field of the block shares a byte with a slot.
fn read_rising<A: Allocator + Copy>(
    _layout: &Layout,
    _slots: &Ranges<A>,
    run: &Run,
    found: &mut FoundFixups<A>,
    page: u32,
    rva: u32,
    entry: u16,
) -> Result<bool, AllocError>
    requires value { entry ≡ number_at 2 (image_of _layout.now) rva }
    requires run { IsRunOf (image_of _layout.now) run.now }
    requires clear { IsClear page (ranges_in _slots.now) }
    requires indexed { IsIndexed found.old }
    requires no_ranges { found.old.fields ≡ None }
    ensures read { IfOk result (λ read. IsTrue read → (first_standing (entry_tests (image_of _layout.now) (ranges_in _slots.now) found.old.fixups.items (entry_of (image_of _layout.now) page rva)) ≡ None)
        × Reads found.old found.new (option_to_list (fixup_of (entry_of (image_of _layout.now) page rva)))) }
    ensures same { IfOk result (λ read. read ≡ false → found.new ≡ found.old) }
    ensures no_ranges { found.new.fields ≡ None }
    ensures keeps { Keeps found.old found.new }
{
    if entry / 4096 != run.entry_type {
        return Ok(false);
    }
    let field = u64::from(page) + u64::from(entry % 4096);
    let end = field + run.width;
    if end > u64::from(run.size) || field < found.end {
        return Ok(false);
    }
    let fixup = Fixup {
        entry: rva,
        field: field as u32,
        kind: run.kind,
    };
    found.add_behind(fixup, end)?;
    Ok(true)
}

/// Reads the entries in these bytes, as `read_entries` does, up to the first that [`read_rising`] does not read, and returns their
/// number. It is a function of its own so that the loop stays short.
#[inline(never)]
fn read_run<A: Allocator + Copy>(
    layout: &Layout,
    slots: &Ranges<A>,
    found: &mut FoundFixups<A>,
    page: u32,
    rva: u32,
    bytes: View,
) -> Result<u32, AllocError>
    requires bytes { bytes_of bytes ≡ bytes_at (image_of layout.now) rva (size_of bytes) }
    requires small { rva + size_of bytes < 2 ^ 32 }
    requires clear { IsClear page (ranges_in slots.now) }
    requires indexed { IsIndexed found.old }
    requires no_ranges { found.old.fields ≡ None }
    ensures read { IfOk result (ReadsUpTo (image_of layout.now) (ranges_in slots.now) (entries_at (image_of layout.now) page rva (size_of bytes.entry / 2)) found.old found.new) }
    ensures keeps { Keeps found.old found.new }
{
    let run = run_of(layout, first_kind(bytes));
    let count = (bytes.len() / 2) as u32;
    for index in 0..count {
        let entry = bytes.u16_at(2 * u64::from(index)).unwrap();
        if !read_rising(layout, slots, &run, found, page, rva + 2 * index, entry)? {
            return Ok(index);
        }
    }
    Ok(count)
}

/// Reads the first of these entries as [`read_run`] does, if no field of their block shares a byte with a slot and no ranges of
/// fields are collected, and returns their number.
pub(crate) fn read_first<A: Allocator + Copy>(
    layout: &Layout,
    slots: &Ranges<A>,
    clear: bool,
    found: &mut FoundFixups<A>,
    page: u32,
    rva: u32,
    bytes: View,
) -> Result<u32, AllocError>
    requires bytes { bytes_of bytes ≡ bytes_at (image_of layout.now) rva (size_of bytes) }
    requires small { rva + size_of bytes < 2 ^ 32 }
    requires clear { IsTrue clear → IsClear page (ranges_in slots.now) }
    requires indexed { IsIndexed found.old }
    ensures read { IfOk result (ReadsUpTo (image_of layout.now) (ranges_in slots.now) (entries_at (image_of layout.now) page rva (size_of bytes.entry / 2)) found.old found.new) }
    ensures keeps { Keeps found.old found.new }
{
    if !clear || found.fields.is_some() {
        return Ok(0);
    }
    read_run(layout, slots, found, page, rva, bytes)
}
