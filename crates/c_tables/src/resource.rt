//! `ResourceRow`: a leaf of the resource tree, as C has it.

ghost use Rattle.std.specs.Prelude.{◌≡◌, ◌≢◌, None, map, IfOk, OnErr};
ghost use Rattle.pe_layout.specs.Layout.{image_of};
ghost use Rattle.pe_records_c.specs.Rows.{TellsTable, filled};
ghost use Rattle.pe_resources.specs.Walk.{leaves_of};
ghost use Rattle.c_tables.specs.ResourceRows.{entry_name, level_name, name_text, resource_row, resource_text};

use pe_layout::Layout;
use pe_records_c::row::table_status;
use pe_resources::{Leaf, leaf_data, leaves, name_text};
use std::alloc::{AllocError, Global};

/// What names a resource at one level of the tree: its type, its name or its language.
#[repr(C)]
#[derive(Clone, Copy)]
pub struct ResourceNameRecord<'a> {
    /// The text, in UTF-16, little endian; empty for an id, and if the file does not hold the text in one run.
    pub text: &'a [u8],
    /// The id, or where the text is, in bytes from the beginning of the tree; otherwise 0.
    pub number: u32,
    /// 0 nothing: the tree ends before this level; 1 an id, 2 a text.
    pub kind: u32,
}

/// What names a resource at a level.
pub mod named {
    /// Nothing: the tree ends before this level.
    pub const NOTHING: u32 = 0;
    /// An id.
    pub const ID: u32 = 1;
    /// A text.
    pub const TEXT: u32 = 2;
}

/// The bit of an entry's name that says that the other bits are where a text is.
const IS_TEXT: u32 = 0x8000_0000;

/// A resource: a leaf of the resource tree.
#[repr(C)]
#[derive(Clone, Copy)]
pub struct ResourceRow<'a> {
    /// The type.
    pub kind: ResourceNameRecord<'a>,
    /// The name.
    pub name: ResourceNameRecord<'a>,
    /// The language.
    pub language: ResourceNameRecord<'a>,
    /// Its data; empty if the file does not hold all of it in one run.
    pub bytes: &'a [u8],
    /// The RVA of the data.
    pub rva: u32,
    /// The size of the data.
    pub size: u32,
    /// The code page of texts in the data, as written.
    pub code_page: u32,
}

impl<'a> ResourceNameRecord<'a> {
    /// What an entry's name says.
    fn of_entry(layout: &Layout<'a>, name: u32) -> ResourceNameRecord<'a>
        ensures { name_text result ≡ entry_name (image_of layout.entry.now) name }
    {
        if name >= IS_TEXT {
            ResourceNameRecord {
                text: name_text(layout, name).unwrap_or(&[]),
                number: name % IS_TEXT,
                kind: named::TEXT,
            }
        } else {
            ResourceNameRecord {
                text: &[],
                number: name,
                kind: named::ID,
            }
        }
    }

    /// What names a level, if the tree has it there.
    fn of(layout: &Layout<'a>, name: Option<u32>) -> ResourceNameRecord<'a>
        ensures { name_text result ≡ level_name (image_of layout.entry.now) name }
    {
        match name {
            Some(name) => ResourceNameRecord::of_entry(layout, name),
            None => ResourceNameRecord {
                text: &[],
                number: 0,
                kind: named::NOTHING,
            },
        }
    }
}

impl<'a> ResourceRow<'a> {
    /// A leaf as C has it.
    fn of(layout: &Layout<'a>, leaf: &Leaf) -> ResourceRow<'a>
        ensures { resource_text result ≡ resource_row (image_of layout.entry.now) leaf.now }
    {
        ResourceRow {
            kind: ResourceNameRecord::of(layout, leaf.path.kind),
            name: ResourceNameRecord::of(layout, leaf.path.name),
            language: ResourceNameRecord::of(layout, leaf.path.language),
            bytes: leaf_data(layout, leaf).unwrap_or(&[]),
            rva: leaf.rva,
            size: leaf.size,
            code_page: leaf.code_page,
        }
    }
}

/// Fills the first rows with leaves, as many as fit; the other rows are unchanged.
fn put_leaves<'a>(rows: &mut [ResourceRow<'a>], layout: &Layout<'a>, leaves: &[Leaf])
    ensures { map resource_text rows.new ≡ filled (resource_row (image_of layout.entry.now)) leaves.now (map resource_text rows.old) }
{
    let count = rows.len().min(leaves.len());
    for index in 0..count {
        rows[index] = ResourceRow::of(layout, &leaves[index]);
    }
}

/// Reports the leaves of an image's resource tree: fills the rows, counts the leaves, and returns the status, 0 or 4. The error is want
/// of memory, which an image without a resource directory never has, and leaves rows and count unchanged.
pub fn tell_resources<'a>(
    alloc: Global,
    layout: &Layout<'a>,
    rows: &mut [ResourceRow<'a>],
    count: &mut usize,
) -> Result<u32, AllocError>
    ensures told { IfOk result (λ status. TellsTable resource_text (resource_row (image_of layout.entry.now)) (leaves_of (image_of layout.entry.now)) rows.old rows.new count.new status) }
    ensures memory { OnErr result ((image_of layout.entry.now).directory 2 ≢ None) }
    ensures rows_kept { OnErr result (rows.new ≡ rows.old) }
    ensures count_kept { OnErr result (count.new ≡ count.old) }
{
    let tree = leaves(alloc, layout)?;
    put_leaves(rows, layout, tree.leaves.as_slice());
    *count = tree.leaves.len();
    Ok(table_status(*count, rows.len()))
}
