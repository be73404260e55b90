//! `read_packed`: the tables of an image of whose file only some parts are there.

ghost use Rattle.std.specs.Prelude.{◌≡◌, ◌+◌, ◌<◌, ◌≤◌, ℕ, IsTrue, IfOk, OnErr, IfSome, List, Option, is_some, is_none, length, true};
ghost use Rattle.pe_view.specs.Faults.{first_standing};
ghost use Rattle.pe_head.specs.declared.headers.Headers.{Headers};
ghost use Rattle.pe_layout.specs.Image.{LaidOut, image_from};
ghost use Rattle.pe_layout.specs.Layout.{headers_of, image_of, can_lay_out};
ghost use Rattle.pe_image.specs.ImageOf.{AreTablesOf};
ghost use Rattle.pe_image.specs.ImageTests.{table_tests};
ghost use Rattle.pe_image.specs.Wants.{TablesTakeMemory};
ghost use Rattle.pe_parts.specs.AtHand.{has_fixups, tables_at_hand, can_decide_tables};
ghost use Rattle.pe_parts.specs.Filled.{HasTable, HaveTables};
ghost use Rattle.pe_parts.specs.Packed.{AgreeAtHand, IsPacked};
ghost use Rattle.pe_parts.specs.PackedTables.{AreContentsOf};

use crate::exports::holds_exports;
use crate::held::holds_bytes;
use crate::imports::holds_imports;
use pe_head::{Headers, directory_index};
use pe_image::{Tables, read_tables};
use pe_layout::Layout;
use pe_tables::{Exports, Fixup, Import};
use pe_view::View;
use std::alloc::{AllocError, Allocator};

/// The contents of an image's tables. They borrow the packed bytes.
#[derive(Drop)]
pub struct PackedTables<'a, A: Allocator> {
    /// What the image exports, by ordinal and by name; empty if it has no export table.
    pub exports: Exports<'a, A>,
    /// What it imports, in the order of its import table.
    pub imports: Vec<Import<'a>, A>,
    /// The fields that change with its base, in the order of its base relocation table.
    pub fixups: Vec<Fixup, A>,
}

/// Whether the base relocation table is there.
fn holds_fixups(layout: &Layout) -> bool
    ensures has { IsTrue result → (b : ℕ → ℕ) (t : ℕ → Option (List ℕ))
        → AgreeAtHand (headers_of layout.now) (image_of layout.now) b t
        → HasTable (image_of layout.now) b ((image_of layout.now).directory 5) }
    ensures exact { result ≡ has_fixups (headers_of layout.now) ((image_of layout.now).directory 5) }
{
    match layout.directory(directory_index::BASE_RELOCATION) {
        None => true,
        Some(directory) => holds_bytes(layout, directory.rva, u64::from(directory.size)),
    }
}

/// Whether all that the tables of an image depend on is there.
fn holds_tables(layout: &Layout) -> bool
    ensures have { IsTrue result → (b : ℕ → ℕ) (t : ℕ → Option (List ℕ))
        → AgreeAtHand (headers_of layout.now) (image_of layout.now) b t → HaveTables (image_of layout.now) b t }
    ensures exact { result ≡ tables_at_hand (headers_of layout.now) (image_of layout.now) }
{
    if !holds_exports(layout) {
        return false;
    }
    if !holds_imports(layout) {
        return false;
    }
    holds_fixups(layout)
}

/// All tables, if each is there.
fn whole<'a, A: Allocator>(tables: Tables<'a, A>) -> Option<PackedTables<'a, A>>
    ensures contents { (i : LaidOut) → AreTablesOf i tables.entry → IfSome result (AreContentsOf i) }
    ensures some { (i : LaidOut) → AreTablesOf i tables.entry → is_some result ≡ is_none (first_standing (table_tests i)) }
{
    let Tables {
        exports,
        imports,
        fixups,
        fault: _,
    } = tables;
    Some(PackedTables {
        exports: exports?,
        imports: imports?,
        fixups: fixups?,
    })
}

/// The tables of each image of whose file these are parts, with the headers under which they are packed; faults would name the image
/// by `number`. `None` exactly if [`Layout::of_parts`] refuses the parts, the tables have a fault there, or they depend on bytes that
/// are not there; the file must be read then.
///
/// The error is out of memory, where reading the tables takes any; then all memory is freed. ("PE Format": The .edata Section, The .idata Section, The .reloc Section.)
pub fn read_packed<'a, A: Allocator + Copy>(
    alloc: A,
    packed: &'a [u8],
    headers: &'a Headers,
    number: u16,
) -> Result<Option<PackedTables<'a, A>>, AllocError>
    ensures contents { IfOk result (λ tables. IfSome tables (λ tables. (file : List ℕ) (h : Headers)
        → IsPacked file h packed.now headers.now → AreContentsOf (image_from number h file) tables)) }
    ensures some { IfOk result (λ tables. is_some tables ≡ can_decide_tables number headers.now packed.now) }
    ensures memory { OnErr result ((can_lay_out number headers.now (length packed.now) ≡ true) × TablesTakeMemory (image_from number headers.now packed.now)) }
{
    let Some(layout) = Layout::of_parts(View::new(packed), headers, number) else {
        return Ok(None);
    };
    let tables = read_tables(alloc, &layout)?;
    if tables.fault.is_some() {
        return Ok(None);
    }
    if !holds_tables(&layout) {
        return Ok(None);
    }
    Ok(whole(tables))
}
