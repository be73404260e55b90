//! `read_fixups`: the base relocations of an image, or the first of faults 33 to 38; `Fixup` and `FixupKind`.

ghost use Rattle.std.specs.Prelude.{◌≡◌, ◌+◌, ◌*◌, ◌/◌, ◌<◌, ◌≤◌, ◌^◌, [], None, Some, IsOk, IsErrOf, IsTrue, IfOk, OnOk, map, option_to_list, true, false, ◌||◌, ⊤};
ghost use Rattle.std.specs.List.{filter_map};
ghost use Rattle.pe_layout.specs.Layout.{image_of};
ghost use Rattle.pe_view.specs.View.{bytes_of, size_of};
ghost use Rattle.pe_layout.specs.Image.{number_at, bytes_at};
ghost use Rattle.pe_tables.specs.TableFaults.{goes_past};
ghost use Rattle.pe_view.specs.Faults.{AnswersOrWants};
ghost use Rattle.pe_ranges.specs.Ranges.{SameRanges, meets_any};
ghost use Rattle.pe_ranges.specs.RangesView.{ranges_in};
ghost use Rattle.pe_tables.specs.Fixups.{IsBlockSize, width_of, kind_of, slot_range, block_at, blocks_of, entry_of, entries_at, entries_of, fixup_of, fixups_in, fixups_at, fixups_of};
ghost use Rattle.pe_tables.specs.Encoded.{type_of};
ghost use Rattle.pe_tables.specs.FixupFaults.{is_bad_size, entry_tests, entries_tests, blocks_tests, fixup_tests};
ghost use Rattle.pe_tables.specs.Import.{slots_of};
ghost use Rattle.pe_tables.specs.FixupReading.{IsClear, IsIndexed, IsSettled, Keeps, Reads};
ghost use Rattle.pe_tables.specs.FirstBlock.{FirstBlock};
ghost use Rattle.pe_view.specs.declared.refusal.Refusal.{Refusal};

use crate::entry_run::read_first;
use crate::error::{TableError, fault_at};
use crate::found_fixups::FoundFixups;
use crate::import::Import;
use pe_head::{Directory, directory_index};
use pe_layout::Layout;
use pe_ranges::Ranges;
use pe_view::View;
use std::alloc::{AllocError, Allocator};

/// How many entries of a block are read at once.
const ENTRIES_AT_ONCE: u32 = 256;

/// How many bytes the fields of a block span at most: they begin in a page of 4,096 bytes, and the last has up to 8.
const BLOCK_REACH: u32 = 4096 + 8;

/// The most entries of a block that are compared with the slots one by one. With more, one test of the page may spare all of
/// theirs, and if it does not, it adds little.
const FEW_ENTRIES: u32 = 16;

/// The size of a fixup's field, and how it is relocated ("PE Format", Base Relocation Types).
#[derive(Clone, Copy, Debug, PartialEq, Eq)]
pub enum FixupKind {
    /// HIGHLOW: the difference of the bases is added to a field of 4 bytes.
    Bits32,
    /// DIR64: the difference of the bases is added to a field of 8 bytes.
    Bits64,
    /// HIGH: the difference of the bases, divided by 65,536 and rounded down, is added to a field of 2 bytes.
    High,
    /// LOW: the difference of the bases is added to a field of 2 bytes.
    Low,
}

impl FixupKind {
    /// The size of the field in bytes.
    pub fn width(self) -> u32
        ensures { result ≡ width_of self }
    {
        match self {
            FixupKind::High => 2,
            FixupKind::Low => 2,
            FixupKind::Bits32 => 4,
            FixupKind::Bits64 => 8,
        }
    }

    /// The type in the high four bits of an entry.
    pub(crate) fn entry_type(self) -> u16
        ensures { result ≡ type_of self }
    {
        match self {
            FixupKind::High => 1,
            FixupKind::Low => 2,
            FixupKind::Bits32 => 3,
            FixupKind::Bits64 => 10,
        }
    }

    /// The kind of a type, if it names a field that is relocated.
    pub(crate) fn of_type(entry_type: u16) -> Option<FixupKind>
        ensures { result ≡ kind_of entry_type }
    {
        match entry_type {
            1 => Some(FixupKind::High),
            2 => Some(FixupKind::Low),
            3 => Some(FixupKind::Bits32),
            10 => Some(FixupKind::Bits64),
            _ => None,
        }
    }
}

/// A base relocation of an image ("PE Format", The .reloc Section).
#[derive(Clone, Copy, Debug, PartialEq, Eq)]
pub struct Fixup {
    /// The RVA of the table's entry.
    pub entry: u32,
    /// The RVA of the field.
    pub field: u32,
    /// What the field is.
    pub kind: FixupKind,
}

/// The bytes of the imports' slots, of `width` bytes each, as ranges.
fn slot_ranges<A: Allocator + Copy>(
    alloc: A,
    imports: &[Import],
    width: u32,
) -> Result<Ranges<A>, AllocError>
    ensures { IfOk result (λ ranges. SameRanges (ranges_in ranges) (map (slot_range width) (slots_of imports.now))) }
{
    let mut ranges = Ranges::new(alloc);
    for import in imports {
        ranges.add(import.slot, width)?;
    }
    Ok(ranges)
}

/// Whether it is known that no field of a block with this PageRVA and `count` entries shares a byte with a slot.
fn is_clear<A: Allocator + Copy>(slots: &Ranges<A>, page: u32, count: u32) -> bool
    ensures { IsTrue result → IsClear page (ranges_in slots.now) }
{
    if count <= FEW_ENTRIES || page >= 1 << 31 {
        return false;
    }
    !slots.meets(page, BLOCK_REACH)
}

/// Whether a field shares a byte with a slot; in a clear page none does.
fn meets_slot<A: Allocator + Copy>(slots: &Ranges<A>, clear: bool, field: u32, width: u32) -> bool
    requires small { field + width < 2 ^ 32 }
    requires clear { IsTrue clear → meets_any field width (ranges_in slots.now) ≡ false }
    ensures { result ≡ meets_any field width (ranges_in slots.now) }
{
    if clear {
        return false;
    }
    slots.meets(field, width)
}

/// Reads the entry at an RVA, which has this value, of a block with this PageRVA, or returns the first of faults 35 to 38. `clear`
/// says that no field of the block shares a byte with a slot.
fn read_entry<A: Allocator + Copy>(
    layout: &Layout,
    slots: &Ranges<A>,
    clear: bool,
    found: &mut FoundFixups<A>,
    page: u32,
    rva: u32,
    entry: u16,
) -> Result<(), TableError>
    requires value { entry ≡ number_at 2 (image_of layout.now) rva }
    requires clear { IsTrue clear → IsClear page (ranges_in slots.now) }
    requires indexed { IsIndexed found.old }
    ensures keeps { Keeps found.old found.new }
    ensures reads { OnOk result (Reads found.old found.new (option_to_list (fixup_of (entry_of (image_of layout.now) page rva)))) }
    ensures exact { IsSettled found.new → AnswersOrWants (entry_tests (image_of layout.now) (ranges_in slots.now) found.old.fixups.items (entry_of (image_of layout.now) page rva)) (λ _. ⊤) result }
{
    let entry_type = entry / 4096;
    if entry_type == 0 {
        return Ok(());
    }
    let Some(kind) = FixupKind::of_type(entry_type) else {
        return Err(fault_at(35, layout, rva));
    };
    let field = u64::from(page) + u64::from(entry % 4096);
    if field + u64::from(kind.width()) > u64::from(layout.size()) {
        return Err(fault_at(36, layout, rva));
    }
    let field = field as u32;
    if found.meets(field, kind.width()) {
        return Err(fault_at(37, layout, rva));
    }
    let fixup = Fixup {
        entry: rva,
        field,
        kind,
    };
    if meets_slot(slots, clear, field, kind.width()) {
        found.add_refused(fixup)?;
        return Err(fault_at(38, layout, rva));
    }
    found.add(fixup)?;
    Ok(())
}

/// Reads the entries in these bytes of the image, from an RVA on, of a block with this PageRVA, or returns the first of faults 35
/// to 38.
fn read_entries<A: Allocator + Copy>(
    layout: &Layout,
    slots: &Ranges<A>,
    clear: bool,
    found: &mut FoundFixups<A>,
    page: u32,
    rva: u32,
    bytes: View,
) -> Result<(), TableError>
    requires bytes { bytes_of bytes ≡ bytes_at (image_of layout.now) rva (size_of bytes) }
    requires small { rva + size_of bytes < 2 ^ 32 }
    requires clear { IsTrue clear → IsClear page (ranges_in slots.now) }
    requires indexed { IsIndexed found.old }
    ensures keeps { Keeps found.old found.new }
    ensures reads { OnOk result (Reads found.old found.new (filter_map fixup_of (entries_at (image_of layout.now) page rva (size_of bytes.entry / 2)))) }
    ensures exact { IsSettled found.new → AnswersOrWants (entries_tests (image_of layout.now) (ranges_in slots.now) found.old.fixups.items (entries_at (image_of layout.now) page rva (size_of bytes.entry / 2))) (λ _. ⊤) result }
{
    let first = read_first(layout, slots, clear, found, page, rva, bytes)?;
    for index in first..(bytes.len() / 2) as u32 {
        let entry = bytes.u16_at(2 * u64::from(index)).unwrap();
        read_entry(layout, slots, clear, found, page, rva + 2 * index, entry)?;
    }
    Ok(())
}

/// Reads some entries, from the one at an RVA of the image on, of a block with this PageRVA, or returns the first of faults 35 to
/// 38.
fn read_some_entries<A: Allocator + Copy>(
    layout: &Layout,
    slots: &Ranges<A>,
    clear: bool,
    found: &mut FoundFixups<A>,
    page: u32,
    rva: u32,
    count: u32,
) -> Result<(), TableError>
    requires few { count ≤ 256 }
    requires inside { rva + 2 * count ≤ (image_of layout.now).size }
    requires small { rva + 2 * count < 2 ^ 32 }
    requires clear { IsTrue clear → IsClear page (ranges_in slots.now) }
    requires indexed { IsIndexed found.old }
    ensures keeps { Keeps found.old found.new }
    ensures reads { OnOk result (Reads found.old found.new (filter_map fixup_of (entries_at (image_of layout.now) page rva count))) }
    ensures exact { IsSettled found.new → AnswersOrWants (entries_tests (image_of layout.now) (ranges_in slots.now) found.old.fixups.items (entries_at (image_of layout.now) page rva count)) (λ _. ⊤) result }
{
    let mut buffer = [0; 2 * ENTRIES_AT_ONCE as usize];
    let bytes = &mut buffer[..2 * count as usize];
    layout.fill(rva, bytes);
    read_entries(layout, slots, clear, found, page, rva, View::new(bytes))
}

/// Reads the entries of the block at an RVA of the image, of `size` bytes, or returns the first of faults 35 to 38.
fn read_block<A: Allocator + Copy>(
    layout: &Layout,
    slots: &Ranges<A>,
    found: &mut FoundFixups<A>,
    rva: u32,
    size: u32,
) -> Result<(), TableError>
    requires its_size { size ≡ (block_at (image_of layout.now) rva).size }
    requires whole { 8 ≤ size }
    requires inside { rva + size ≤ (image_of layout.now).size }
    requires small { rva + size < 2 ^ 32 }
    requires indexed { IsIndexed found.old }
    ensures keeps { Keeps found.old found.new }
    ensures reads { OnOk result (Reads found.old found.new (fixups_in (image_of layout.now) (block_at (image_of layout.now) rva))) }
    ensures exact { IsSettled found.new → AnswersOrWants (entries_tests (image_of layout.now) (ranges_in slots.now) found.old.fixups.items (entries_of (image_of layout.now) (block_at (image_of layout.now) rva))) (λ _. ⊤) result }
{
    let page = layout.u32_at(rva).unwrap();
    let count = (size - 8) / 2;
    let clear = is_clear(slots, page, count);
    let mut index = 0;
    while index < count {
        let some = (count - index).min(ENTRIES_AT_ONCE);
        read_some_entries(layout, slots, clear, found, page, rva + 8 + 2 * index, some)?;
        index += some;
    }
    Ok(())
}

/// BlockSize of the block at an RVA, or `None` if a table that ends at `end` has no block there.
fn block_size(layout: &Layout, rva: u32, end: u32) -> Option<u32>
    requires begins { rva ≤ end }
    requires inside { end ≤ (image_of layout.now).size }
    ensures { IsBlockSize (image_of layout.now) end rva result }
{
    if end - rva < 8 {
        return None;
    }
    match layout.u32_at(rva + 4).unwrap() {
        0 => None,
        size => Some(size),
    }
}

/// Whether a block at an RVA of a table that ends at `end` can't have this size.
fn is_bad_size(size: u32, rva: u32, end: u32) -> bool
    requires { rva ≤ end }
    ensures { result ≡ is_bad_size end rva size }
{
    size % 2 == 1 || size < 8 || size > end - rva
}

/// Whether a table that lies in the image has a block, or fault 33 of its first.
fn has_block(layout: &Layout, directory: Directory) -> Result<bool, TableError>
    requires inside { directory.rva + directory.size ≤ (image_of layout.now).size }
    requires small { directory.rva + directory.size < 2 ^ 32 }
    ensures exact { FirstBlock (image_of layout.now) directory result }
{
    let end = directory.rva + directory.size;
    match block_size(layout, directory.rva, end) {
        None => Ok(false),
        Some(size) if is_bad_size(size, directory.rva, end) => {
            Err(fault_at(33, layout, directory.rva))
        }
        Some(_) => Ok(true),
    }
}

/// Reads the blocks of a table that lies in the image, or returns the first of faults 33 and 35 to 38.
fn read_blocks<A: Allocator + Copy>(
    layout: &Layout,
    slots: &Ranges<A>,
    found: &mut FoundFixups<A>,
    directory: Directory,
) -> Result<(), TableError>
    requires inside { directory.rva + directory.size ≤ (image_of layout.now).size }
    requires small { directory.rva + directory.size < 2 ^ 32 }
    requires none { found.old.fixups.items ≡ [] }
    requires indexed { IsIndexed found.old }
    ensures keeps { Keeps found.old found.new }
    ensures fixups { OnOk result (found.new.fixups.items ≡ fixups_at (image_of layout.now) (Some directory)) }
    ensures exact { IsSettled found.new → AnswersOrWants (blocks_tests (image_of layout.now) (ranges_in slots.now) (directory.rva + directory.size) [] (blocks_of (image_of layout.now) directory)) (λ _. ⊤) result }
{
    let end = directory.rva + directory.size;
    let mut rva = directory.rva;
    while let Some(size) = block_size(layout, rva, end) {
        if is_bad_size(size, rva, end) {
            return Err(fault_at(33, layout, rva));
        }
        read_block(layout, slots, found, rva, size)?;
        rva += size;
    }
    Ok(())
}

/// Reads a table that lies in the image, or returns the first of faults 33 and 35 to 38.
///
/// If two fields share a byte, and not all ascend, the table is read again, to find the first of them.
fn read_table<A: Allocator + Copy>(
    alloc: A,
    layout: &Layout,
    slots: &Ranges<A>,
    directory: Directory,
) -> Result<Vec<Fixup, A>, TableError>
    requires inside { directory.rva + directory.size ≤ (image_of layout.now).size }
    requires small { directory.rva + directory.size < 2 ^ 32 }
    ensures { AnswersOrWants (blocks_tests (image_of layout.now) (ranges_in slots.now) (directory.rva + directory.size) [] (blocks_of (image_of layout.now) directory))
        (λ fixups. fixups.items ≡ fixups_at (image_of layout.now) (Some directory)) result }
{
    let mut found = FoundFixups::new(alloc);
    let read = read_blocks(layout, slots, &mut found, directory);
    if found.are_apart()? {
        read?;
        return Ok(found.fixups);
    }
    found = FoundFixups::comparing(alloc);
    read_blocks(layout, slots, &mut found, directory)?;
    Ok(found.fixups)
}

/// The fixups of an image, in the order of its base relocation table, or the first of faults 33 to 38.
///
/// `imports` are the image's imports: no field may share a byte with one of their slots. An image without the table has no
/// fixups. Nothing is allocated then, nor with fault 34, nor with fault 33 of the first block. ("PE Format", The .reloc Section.)
pub fn read_fixups<A: Allocator + Copy>(
    alloc: A,
    layout: &Layout,
    imports: &[Import],
) -> Result<Vec<Fixup, A>, TableError>
    ensures exact { AnswersOrWants (fixup_tests (image_of layout.now) (slots_of imports.now)) (λ fixups. fixups.items ≡ fixups_of (image_of layout.now)) result }
    ensures absent { (image_of layout.now).directory 5 ≡ None → IsOk result }
    ensures memory { IsErrOf result Refusal.Memory → IsTrue (goes_past 33 (fixup_tests (image_of layout.now) (slots_of imports.now))) }
{
    let Some(directory) = layout.directory(directory_index::BASE_RELOCATION) else {
        return Ok(Vec::new(alloc));
    };
    if !layout.contains(directory.rva, u64::from(directory.size)) {
        return Err(fault_at(34, layout, directory.rva));
    }
    if !has_block(layout, directory)? {
        return Ok(Vec::new(alloc));
    }
    let slots = slot_ranges(alloc, imports, layout.slot_width())?;
    read_table(alloc, layout, &slots, directory)
}
