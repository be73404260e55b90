//! `BoundImports`: the records of the bound import table.

ghost use Rattle.std.specs.Prelude.{◌≡◌, ◌+◌, ◌*◌, ◌/◌, ◌<◌, ◌≤◌, ◌^◌};
ghost use Rattle.pe_view.specs.View.{bytes_of, size_of};
ghost use Rattle.pe_layout.specs.Layout.{image_of};
ghost use Rattle.pe_records.specs.BoundImports.{bound_import_at};
ghost use Rattle.pe_records.specs.Callbacks.{callback_count};

use crate::tls_callbacks::count_entries;
use pe_head::directory_index;
use pe_layout::Layout;
use pe_view::View;

/// A record of the bound import table ("PE Format", Bound Import Table): of a module, or of a module that it forwards to.
#[derive(Clone, Copy, Debug, PartialEq, Eq)]
pub struct BoundImport {
    /// The time stamp of the module when it was bound.
    pub time_date_stamp: u32,
    /// Where the module's name is, from the beginning of the table.
    pub offset_module_name: u16,
    /// The number of records after this one for modules that it forwards to; reserved in a record of those.
    pub number_of_module_forwarder_refs: u16,
}

/// The records of an image's bound import table, before the first that is all zeros. No call allocates.
#[derive(Clone, Copy, Debug)]
pub struct BoundImports<'a> {
    pub(crate) table: View<'a>,
    pub(crate) start: u32,
    pub(crate) count: u32,
    ghost counted: { count ≡ callback_count 8 (bytes_of table) },
    ghost whole: { count ≤ size_of table / 8 },
    ghost inside: { 0 < size_of table → start + size_of table ≤ 2 ^ 31 },
}

impl<'a> BoundImports<'a> {
    ghost use Rattle.std.specs.Prelude.{◌↔◌, length, slice_get, IsTrue, nat_lt, not};
    ghost use Rattle.pe_layout.specs.Image.{is_inside};
    ghost use Rattle.pe_records.specs.BoundImports.{bound_imports_in};
    ghost use Rattle.pe_records.specs.Records.{start_of, table_bytes};

    /// The records of an image's table, as far as its directory's Size goes and the file holds them in one run.
    pub fn of(layout: &Layout<'a>) -> BoundImports<'a>
        ensures bytes { bytes_of result.table ≡ table_bytes (image_of layout.now) ((image_of layout.now).directory 11) }
        ensures start { result.start ≡ start_of ((image_of layout.now).directory 11) }
    {
        let Some(directory) = layout.directory(directory_index::BOUND_IMPORT) else {
            return BoundImports {
                table: View::new(&[]),
                start: 0,
                count: 0,
            };
        };
        let held = layout.raw_bytes(directory.rva);
        let len = held.len().min(directory.size as usize);
        let table = View::new(&held[..len]);
        BoundImports {
            table,
            start: directory.rva,
            count: count_entries(table, true),
        }
    }

    /// The number of records.
    pub fn len(&self) -> u32
        ensures { result ≡ length (bound_imports_in (bytes_of self.now.table)) }
    {
        self.count
    }

    /// Whether there are none.
    pub fn is_empty(&self) -> bool
        ensures { IsTrue result ↔ (length (bound_imports_in (bytes_of self.now.table)) ≡ 0) }
    {
        self.count == 0
    }

    /// Record `index` of the table, from 0, or `None` if there is none.
    pub fn get(&self, index: u32) -> Option<BoundImport>
        ensures { result ≡ slice_get (bound_imports_in (bytes_of self.now.table)) index }
    {
        if index >= self.count {
            return None;
        }
        Some(bound_import(self.table, u64::from(index)))
    }

    /// Whether the name of record `index` is not in the image.
    pub(crate) fn strays(&self, layout: &Layout, index: u32) -> bool
        requires { index < self.now.count }
        ensures { result ≡ not (is_inside (image_of layout.now) (self.now.start + (bound_import_at (bytes_of self.now.table) index).offset_module_name) 1) }
    {
        let record = bound_import(self.table, u64::from(index));
        !layout.contains(self.start + u32::from(record.offset_module_name), 1)
    }

    /// Whether a record of zeros ends the table.
    pub(crate) fn is_ended(&self) -> bool
        ensures { result ≡ nat_lt (callback_count 8 (bytes_of self.now.table)) (size_of self.now.table / 8) }
    {
        u64::from(self.count) < self.table.len() / 8
    }
}

/// Record `index` of a table.
fn bound_import(table: View, index: u64) -> BoundImport
    requires whole { 8 * index + 8 ≤ size_of table }
    requires small { index < 2 ^ 32 }
    ensures { result ≡ bound_import_at (bytes_of table.entry) index }
{
    let offset = 8 * index;
    BoundImport {
        time_date_stamp: table.u32_at(offset).unwrap(),
        offset_module_name: table.u16_at(offset + 4).unwrap(),
        number_of_module_forwarder_refs: table.u16_at(offset + 6).unwrap(),
    }
}
