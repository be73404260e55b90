//! `TlsCallbacks`: the callbacks of a TLS directory.

ghost use Rattle.std.specs.Prelude.{◌≡◌, ◌+◌, ◌*◌, ◌/◌, ◌<◌, ◌≤◌, ◌^◌};
ghost use Rattle.pe_view.specs.View.{bytes_of, size_of};
ghost use Rattle.pe_layout.specs.Layout.{image_of};
ghost use Rattle.pe_records.specs.Callbacks.{callback_count, callback_rva, entry_at};
ghost use Rattle.pe_records.specs.Records.{raw_bytes};
ghost use Rattle.pe_records.specs.Structure.{address_width};

use crate::address::{address_at, rva_of};
use crate::tls_directory::tls;
use pe_layout::Layout;
use pe_view::View;

/// The callbacks of an image: the addresses before the first 0. No call allocates.
#[derive(Clone, Copy, Debug)]
pub struct TlsCallbacks<'a> {
    pub(crate) bytes: View<'a>,
    pub(crate) start: u32,
    pub(crate) count: u32,
    pub(crate) is_plus: bool,
    ghost counted: { count ≡ callback_count (address_width is_plus) (bytes_of bytes) },
    ghost whole: { count ≤ size_of bytes / address_width is_plus },
    ghost inside: { 0 < size_of bytes → start + size_of bytes ≤ 2 ^ 31 },
}

impl<'a> TlsCallbacks<'a> {
    ghost use Rattle.std.specs.Prelude.{◌↔◌, length, slice_get, IsTrue, nat_lt, option_map};
    ghost use Rattle.pe_records.specs.CallbackView.{callback_table};
    ghost use Rattle.pe_records.specs.Callbacks.{addresses, callbacks_of};

    /// The callbacks of an image, or `None` if its TLS directory has no address of callbacks, or one that is not in the image.
    pub fn of(layout: &Layout<'a>) -> Option<TlsCallbacks<'a>>
        ensures { option_map callback_table result ≡ callbacks_of (image_of layout.now) }
    {
        let rva = callback_rva(layout)?;
        Some(TlsCallbacks::at(layout, rva))
    }

    /// The callbacks from an RVA on, as far as the file holds them in one run.
    fn at(layout: &Layout<'a>, rva: u32) -> TlsCallbacks<'a>
        ensures bytes { bytes_of result.bytes ≡ raw_bytes (image_of layout.now) rva }
        ensures start { result.start ≡ rva }
        ensures width { address_width result.is_plus ≡ (image_of layout.now).slot_width }
    {
        let bytes = View::new(layout.raw_bytes(rva));
        let is_plus = layout.slot_width() == 8;
        TlsCallbacks {
            bytes,
            start: rva,
            count: count_entries(bytes, is_plus),
            is_plus,
        }
    }

    /// The number of callbacks.
    pub fn len(&self) -> u32
        ensures { result ≡ length (addresses (callback_table self.now)) }
    {
        self.count
    }

    /// Whether there are none.
    pub fn is_empty(&self) -> bool
        ensures { IsTrue result ↔ (length (addresses (callback_table self.now)) ≡ 0) }
    {
        self.count == 0
    }

    /// The address of callback `index`, from 0, or `None` if there is none.
    pub fn get(&self, index: u32) -> Option<u64>
        ensures { result ≡ slice_get (addresses (callback_table self.now)) index }
    {
        if index >= self.count {
            return None;
        }
        Some(entry(self.bytes, u64::from(index), self.is_plus))
    }

    /// The RVA of the address of callback `index`.
    pub(crate) fn rva(&self, index: u32) -> u32
        requires { index < self.now.count }
        ensures { result ≡ self.now.start + address_width self.now.is_plus * index }
    {
        let width = if self.is_plus { 8 } else { 4 };
        self.start + width * index
    }

    /// Whether a 0 ends the callbacks.
    pub(crate) fn is_ended(&self) -> bool
        ensures { result ≡ nat_lt (callback_count (address_width self.now.is_plus) (bytes_of self.now.bytes)) (size_of self.now.bytes / address_width self.now.is_plus) }
    {
        let width = if self.is_plus { 8 } else { 4 };
        u64::from(self.count) < self.bytes.len() / width
    }
}

/// Entry `index` of a table of addresses.
fn entry(bytes: View, index: u64, is_plus: bool) -> u64
    requires whole { index < size_of bytes / address_width is_plus }
    requires small { size_of bytes < 2 ^ 32 }
    ensures { result ≡ entry_at (address_width is_plus) (bytes_of bytes.entry) index }
{
    let width = if is_plus { 8 } else { 4 };
    address_at(bytes, width * index, is_plus).unwrap()
}

/// How many entries of a table of addresses are before the first that is 0.
pub(crate) fn count_entries(bytes: View, is_plus: bool) -> u32
    requires { size_of bytes < 2 ^ 32 }
    ensures count { result ≡ callback_count (address_width is_plus) (bytes_of bytes.entry) }
    ensures whole { result ≤ size_of bytes.entry / address_width is_plus }
{
    let width = if is_plus { 8 } else { 4 };
    let whole = (bytes.len() / width) as u32;
    for index in 0..whole {
        if entry(bytes, u64::from(index), is_plus) == 0 {
            return index;
        }
    }
    whole
}

/// The RVA of the callbacks.
fn callback_rva(layout: &Layout) -> Option<u32>
    ensures { result ≡ callback_rva (image_of layout.now) }
{
    let address = tls(layout)?.address_of_callbacks?;
    if address == 0 {
        return None;
    }
    rva_of(layout, address)
}
