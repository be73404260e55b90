//! The call that writes the report of mapped images: `map`.

ghost use Rattle.std.specs.Prelude.{◌≡◌, ◌<◌, ◌≤◌, length, map, IfOk, OnErr};
ghost use Rattle.pe_set.specs.SetView.{entries_of};
ghost use Rattle.petool_page.specs.Sets.{IsReport, entry_of, policy_of, window_of};
ghost use Rattle.petool_page.specs.Told.{IsTold};

use crate::engines::report_into;
use crate::writer::RoomWriter;
use page_heap::{Memory, PageHeap};
use pe_map_lines::{Policy, SetEntry};
use pe_text::{ToolError, status};
use std::alloc::{AllocError, Allocator};

/// An image of a set: the name by which others import from it, its file and its base.
#[repr(C)]
#[derive(Clone, Copy)]
pub struct EntryRecord<'a> {
    /// The module's name.
    pub name: &'a [u8],
    /// The bytes of its file.
    pub file: &'a [u8],
    /// The address at which the image is to stand.
    pub base: u64,
}

/// The entries of a set.
fn entries_in<'a, A: Allocator>(
    alloc: A,
    set: &[EntryRecord<'a>],
) -> Result<Vec<SetEntry<'a>, A>, AllocError>
    ensures entries { IfOk result (λ entries. entries_of entries.items ≡ map entry_of set.now) }
    ensures memory { OnErr result (0 < length set.now) }
{
    let mut entries = Vec::new(alloc);
    for entry in set {
        entries.push(SetEntry {
            name: entry.name,
            file: entry.file,
            base: entry.base,
        })?;
    }
    Ok(entries)
}

/// What becomes of an import from a module that is not in the set.
fn policy_of(known: bool) -> Policy
    ensures { result ≡ policy_of known }
{
    if known { Policy::Known } else { Policy::Strict }
}

/// The window of so many bytes from this address on, if there are any.
fn window_of(address: u64, count: u32) -> Option<(u64, u32)>
    ensures { result ≡ window_of address count }
{
    if count > 0 {
        Some((address, count))
    } else {
        None
    }
}

/// Writes the report of images that are mapped together as `petool map` does. With `known`, an import from a module that is not
/// in the set is no fault; with `unbound`, the imports that are bound to nothing are added. If `count` is not 0, that many bytes
/// from `address` on are added.
///
/// The first `len` bytes of `text` are what was written. The status is 0 if the set is mapped, 1 if it is refused, 3 if `text` has too
/// little room, and then it is full of the beginning of a text, and 4 if `memory` is too little, and then there are none. That is never so
/// for a set of no images.
#[unsafe(no_mangle)]
pub extern "C" fn petool_page_map(
    memory: Memory,
    set: &[EntryRecord],
    known: bool,
    unbound: bool,
    address: u64,
    count: u32,
    text: &mut [u8],
    len: &mut usize,
) -> u32
    ensures told { IsTold (IsReport unbound (policy_of known) (map entry_of set.now) (window_of address count)) text.new len.new result }
    ensures within { len.new ≤ length text.new }
    ensures full { result ≡ 3 → len.new ≡ length text.new }
    ensures memory { result ≡ 4 → 0 < length set.now }
{
    let heap = PageHeap::new(memory);
    let mut writer = RoomWriter::new(text);
    let answer = match entries_in(&heap, set) {
        Ok(entries) => {
            let window = window_of(address, count);
            report_into(
                &heap,
                &entries,
                policy_of(known),
                unbound,
                window,
                &mut writer,
            )
        }
        Err(_) => Err(ToolError::Memory),
    };
    *len = writer.len();
    u32::from(status(&answer))
}
