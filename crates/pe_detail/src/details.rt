//! `fault_detail`: the numbers of a file that the rule of a fault compares.

ghost use Rattle.std.specs.Prelude.{◌≡◌, ◌<◌, ◌^◌};
ghost use Rattle.pe_view.specs.View.{bytes_of};
ghost use Rattle.pe_view.specs.declared.fault.Place.TheVariants.{File, Rva, Address, Item};
ghost use Rattle.pe_layout.specs.Layout.{image_of};
ghost use Rattle.pe_detail.specs.FaultDetail.{table_detail, image_detail, laid_out_detail, offset_detail, fault_detail};

use crate::bases::base_detail;
use crate::detail::Detail;
use crate::exports::export_detail;
use crate::fixups::fixup_detail;
use crate::imports::import_detail;
use crate::objects::object_detail;
use pe_layout::Layout;
use pe_view::{Fault, Place, View};

/// The numbers of a fault of the tables at an RVA.
fn table_detail(layout: &Layout, number: u16, at: u64) -> Option<Detail>
    requires { at < 2 ^ 32 }
    ensures { result ≡ table_detail (image_of layout.now) number at }
{
    match number {
        16..=22 => export_detail(layout, number, at),
        24..=32 => import_detail(layout, number, at),
        33..=38 => fixup_detail(layout, number, at),
        _ => None,
    }
}

/// The numbers of a fault at an RVA or an address.
fn image_detail(layout: &Layout, number: u16, place: Place) -> Option<Detail>
    ensures { result ≡ image_detail (image_of layout.now) number place }
{
    match place {
        Place::Rva(rva) => table_detail(layout, number, rva as u64),
        Place::Address(_) => base_detail(layout, number),
        Place::File(_) | Place::Item(_) => None,
    }
}

/// The numbers of a fault at an RVA or an address, if the file's headers and sections have no fault.
fn laid_out_detail(file: View, number: u16, place: Place) -> Option<Detail>
    ensures { result ≡ laid_out_detail (bytes_of file.entry) number place }
{
    match Layout::new(file, 0) {
        Ok(layout) => image_detail(&layout, number, place),
        Err(_) => None,
    }
}

/// The numbers of a fault at a file offset.
fn offset_detail(file: View, file_size: u64, fault: &Fault, offset: u64) -> Option<Detail>
    ensures { result ≡ offset_detail (bytes_of file.entry) file_size fault.now offset }
{
    if matches!(fault.number, 63..=72) {
        return object_detail(file, file_size, fault.number, offset);
    }
    match pe_head::fault_detail(file, file_size, fault) {
        Some(detail) => Some(Detail::Head(detail)),
        None => None,
    }
}

/// The numbers of a file that the rule of a fault compares, if its rule compares any. `file` has the file's bytes, and `file_size`
/// is its size. For a fault of the headers its first bytes are enough, for one of a table all before the end that its headers name,
/// and for one of an object all; if there are fewer, the result may be `None`.
///
/// These are 2, 4, 7 to 22, 24 to 28, 31 to 38, 45, 46, 61, 63, 64 and 66 to 72, without 69 of a section. The numbers also
/// distinguish the causes that share a fault's number.
pub fn fault_detail(file: View, file_size: u64, fault: &Fault) -> Option<Detail>
    ensures { result ≡ fault_detail (bytes_of file.entry) file_size fault.now }
{
    match fault.place {
        Place::File(offset) => offset_detail(file, file_size, fault, offset),
        Place::Rva(_) | Place::Address(_) => laid_out_detail(file, fault.number, fault.place),
        Place::Item(_) => None,
    }
}
