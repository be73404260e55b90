//! `TlsRecord` and `CallbackRow`: the TLS directory and its callbacks, as C has them.

ghost use Rattle.std.specs.Prelude.{◌≡◌, option_map};
ghost use Rattle.pe_layout.specs.Layout.{image_of};
ghost use Rattle.pe_records.specs.Callbacks.{addresses};
ghost use Rattle.pe_records.specs.CallbackView.{callback_table};
ghost use Rattle.pe_records.specs.TlsFields.{tls_of};
ghost use Rattle.pe_records_c.specs.Rows.{TellsTable};
ghost use Rattle.c_tables.specs.TlsRows.{callback_row, callbacks_in, tls_record};
ghost use Rattle.c_tables.specs.Told.{TellsRecord};

use crate::items::{Items, put_items};
use crate::told::put_record;
use pe_layout::Layout;
use pe_records::{TlsCallbacks, TlsDirectory, tls};
use pe_records_c::row::{Row, put_table};

/// The TLS directory. Addresses are those at ImageBase, and 0 where there is none. A field that the file does not hold is 0.
#[repr(C)]
#[derive(Clone, Copy)]
pub struct TlsRecord {
    /// The address of the first byte of the template for the data of a thread.
    pub start_address_of_raw_data: u64,
    /// The address after the last byte of the template.
    pub end_address_of_raw_data: u64,
    /// The address of the index that the loader assigns.
    pub address_of_index: u64,
    /// The address of the callbacks.
    pub address_of_callbacks: u64,
    /// How many zero bytes follow the template.
    pub size_of_zero_fill: u64,
    /// The alignment, as in the flags of a section.
    pub characteristics: u64,
    /// Whether the file holds all fields.
    pub is_whole: bool,
}

/// The TLS directory as C has it.
fn tls_record(directory: &TlsDirectory) -> TlsRecord
    ensures { result ≡ tls_record directory.now }
{
    TlsRecord {
        start_address_of_raw_data: directory.start_address_of_raw_data.unwrap_or(0),
        end_address_of_raw_data: directory.end_address_of_raw_data.unwrap_or(0),
        address_of_index: directory.address_of_index.unwrap_or(0),
        address_of_callbacks: directory.address_of_callbacks.unwrap_or(0),
        size_of_zero_fill: directory.size_of_zero_fill.unwrap_or(0),
        characteristics: directory.characteristics.unwrap_or(0),
        is_whole: directory.characteristics.is_some(),
    }
}

/// The TLS directory of an image as C has it, if it is present.
fn tls_in(layout: &Layout) -> Option<TlsRecord>
    ensures { result ≡ option_map tls_record (tls_of (image_of layout.now)) }
{
    match tls(layout) {
        Some(directory) => Some(tls_record(&directory)),
        None => None,
    }
}

/// Stores the TLS directory of an image, and returns the status: 0, or 3 if it is not present, which leaves the record unchanged.
pub fn tell_tls(layout: &Layout, told: &mut TlsRecord) -> u32
    ensures { TellsRecord (λ r. r) (option_map tls_record (tls_of (image_of layout.now))) told.old told.new result }
{
    put_record(tls_in(layout), told)
}

/// A callback of the TLS directory.
#[repr(C)]
#[derive(Clone, Copy)]
pub struct CallbackRow {
    /// Its address at ImageBase.
    pub address: u64,
}

impl Row<u64> for CallbackRow {
    ghost tells = { λ item row. row ≡ callback_row item };

    fn of(item: &u64) -> Self {
        CallbackRow { address: *item }
    }
}

impl<'a> Items<u64> for TlsCallbacks<'a> {
    ghost items = { λ callbacks. addresses (callback_table callbacks) };

    fn count(&self) -> u32 {
        self.len()
    }

    fn item(&self, index: u32) -> Option<u64> {
        self.get(index)
    }
}

/// Reports the callbacks of an image: fills the rows, counts the callbacks, and returns the status, 0 or 4. Without a TLS directory,
/// or if no address in the image leads to callbacks, there are none.
pub fn tell_callbacks(layout: &Layout, rows: &mut [CallbackRow], count: &mut usize) -> u32
    ensures { TellsTable (λ row. row) callback_row (callbacks_in (image_of layout.now)) rows.old rows.new count.new result }
{
    match TlsCallbacks::of(layout) {
        Some(callbacks) => put_items(rows, &callbacks, count),
        None => put_table::<u64, CallbackRow>(rows, &[], count),
    }
}
