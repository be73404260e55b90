//! `encode_fixups`: the bytes of the base relocation table with given fixups, whose fields ascend.

ghost use Rattle.std.specs.Prelude.{◌≡◌, ◌≢◌, ℕ, ◌+◌, ◌*◌, ◌<◌, ◌≤◌, ◌^◌, ◌↔◌, ◌++◌, [], IsTrue, IsOk, IfOk, OnOk, length, slice_index_or};
ghost use Rattle.std.specs.List.{flat_map};
ghost use Rattle.pe_tables.specs.Encoded.{FieldsAscend, page_of, entry_bytes, block_bytes, encoded};
ghost use Rattle.pe_tables.specs.declared.fixups.Fixup.{Fixup};

use crate::fixups::Fixup;
use std::alloc::{AllocError, Allocator};

/// Whether the fields strictly ascend: the condition of [`encode_fixups`].
pub fn ascending(fixups: &[Fixup]) -> bool
    ensures { IsTrue result ↔ FieldsAscend fixups.now }
{
    fixups.is_sorted_by(|fixup, later| fixup.field < later.field)
}

/// Adds the entry of a fixup.
fn push_entry<A: Allocator>(bytes: &mut Vec<u8, A>, fixup: &Fixup) -> Result<(), AllocError>
    ensures { OnOk result (bytes.new.items ≡ bytes.old.items ++ entry_bytes fixup.now) }
{
    let entry = 4096 * fixup.kind.entry_type() + (fixup.field % 4096) as u16;
    bytes.extend_from_slice(&entry.to_le_bytes())
}

/// The number of fixups at the start that are in the page of the first one.
fn page_len(fixups: &[Fixup]) -> usize
    requires { 0 < length fixups.now }
    ensures some { 0 < result }
    ensures within { result ≤ length fixups.now }
    ensures same { (k : ℕ) (f : Fixup) → k < result → page_of (slice_index_or fixups.now k f) ≡ page_of (slice_index_or fixups.now 0 f) }
    ensures other { (f : Fixup) → result < length fixups.now → page_of (slice_index_or fixups.now result f) ≢ page_of (slice_index_or fixups.now 0 f) }
{
    let page = fixups[0].field / 4096;
    let mut len = 1;
    while len < fixups.len() && fixups[len].field / 4096 == page {
        len += 1;
    }
    len
}

/// Adds the entries of fixups.
fn push_entries<A: Allocator>(bytes: &mut Vec<u8, A>, fixups: &[Fixup]) -> Result<(), AllocError>
    ensures { OnOk result (bytes.new.items ≡ bytes.old.items ++ flat_map entry_bytes fixups.now) }
{
    for fixup in fixups {
        push_entry(bytes, fixup)?;
    }
    Ok(())
}

/// Adds the block of a page. `fixups` are all those of the page, and at least one.
fn push_block<A: Allocator>(
    bytes: &mut Vec<u8, A>,
    page: u32,
    fixups: &[Fixup],
) -> Result<(), AllocError>
    requires page { page < 2 ^ 20 }
    requires few { length fixups.now ≤ 4096 }
    ensures { OnOk result (bytes.new.items ≡ bytes.old.items ++ block_bytes (record { page = page; fixups = fixups.now })) }
{
    let padding = fixups.len() % 2;
    let size = 8 + 2 * (fixups.len() + padding) as u32;
    bytes.extend_from_slice(&(4096 * page).to_le_bytes())?;
    bytes.extend_from_slice(&size.to_le_bytes())?;
    push_entries(bytes, fixups)?;
    bytes.extend_from_slice(&[0, 0][..2 * padding])
}

/// The bytes of the base relocation table with these fixups: one block for each page of 4,096 bytes that has a field, pages
/// ascending, entries ascending, and an ABSOLUTE entry of value 0 if their number is odd: a block starts on a 32-bit boundary.
///
/// The fields strictly ascend, which [`ascending`] tests; the entries' RVAs are not used. The only error is out of memory; nothing
/// is allocated for no fixups. ("PE Format", The .reloc Section.)
pub fn encode_fixups<A: Allocator>(alloc: A, fixups: &[Fixup]) -> Result<Vec<u8, A>, AllocError>
    requires { FieldsAscend fixups.now }
    ensures bytes { IfOk result (λ bytes. bytes.items ≡ encoded fixups.now) }
    ensures none { fixups.now ≡ [] → IsOk result }
{
    let mut bytes = Vec::new(alloc);
    let mut rest = fixups;
    while !rest.is_empty() {
        let (page, others) = rest.split_at(page_len(rest));
        push_block(&mut bytes, rest[0].field / 4096, page)?;
        rest = others;
    }
    Ok(bytes)
}
