//! The findings of the certificate table.

ghost use Rattle.std.specs.Prelude.{◌≡◌, map};
ghost use Rattle.pe_view.specs.Faults.{test};
ghost use Rattle.pe_view.specs.declared.fault.Place.TheVariants.{File};
ghost use Rattle.pe_view.specs.View.{bytes_of, size_of};
ghost use Rattle.pe_trust.specs.CertificateTests.{certificate_findings_of, finding, overlaps, shares, stop_of, table_end, table_tests, whole_end};

use crate::entries::{entry_at, padded};
use crate::signed_bytes::{entry_place, gaps_if_unambiguous};
use crate::table::certificate_table;
use pe_head::{Directory, Headers, SectionHeader};
use pe_view::{Fault, Place, View};

/// Whether the table and the raw data of a section have a byte in common.
fn shares(table: Directory, section: &SectionHeader) -> bool
    ensures { result ≡ shares table section.now }
{
    let start = u64::from(table.rva);
    let raw = u64::from(section.pointer_to_raw_data);
    raw != 0
        && start < raw + u64::from(section.size_of_raw_data)
        && raw < start + u64::from(table.size)
}

/// Whether the table has a byte in common with the headers or the raw data of a section.
fn overlaps(headers: &Headers, table: Directory) -> bool
    ensures { result ≡ overlaps headers.now table }
{
    table.rva < headers.size_of_headers
        || headers
            .sections
            .as_slice()
            .iter()
            .any(|section| shares(table, section))
}

/// Where the first entry of the table is that does not lie whole in it and in the file.
fn stop_of(file: View, table: Directory) -> u64
    ensures { result ≡ stop_of (bytes_of file.entry) (whole_end (bytes_of file.entry) table) table.rva }
{
    let mut at = u64::from(table.rva);
    let end = file.len().min(at + u64::from(table.size));
    while let Some(certificate) = entry_at(file, at, end) {
        at += padded(certificate.length);
    }
    at
}

/// The finding of a rule at an offset, if it is broken.
fn finding(number: u16, image: u16, offset: u64, stands: bool) -> Option<Fault>
    ensures { result ≡ finding (test number image (File offset) stands) }
{
    if !stands {
        return None;
    }
    Some(Fault {
        number,
        image,
        place: Place::File(offset),
    })
}

/// The findings of a table.
fn table_findings(image: u16, file: View, headers: &Headers, table: Directory) -> [Option<Fault>; 5]
    ensures { result ≡ map finding (table_tests image (bytes_of file.entry) headers.now table (stop_of (bytes_of file.entry) (whole_end (bytes_of file.entry) table) table.rva)) }
{
    let entry = entry_place(headers.pe_offset, headers.magic);
    let end = u64::from(table.rva) + u64::from(table.size);
    let stop = stop_of(file, table);
    [
        finding(221, image, entry, file.len() < end),
        finding(222, image, stop, stop < end.min(file.len())),
        finding(223, image, entry, overlaps(headers, table)),
        finding(224, image, entry, table.rva % 8 != 0),
        finding(
            225,
            image,
            entry,
            gaps_if_unambiguous(file.len(), headers).is_none(),
        ),
    ]
}

/// The findings 221 to 225 of an image's certificate table, of which directory 4 holds the file offset and the size, each in its place
/// if its rule is broken; `image` is the number that the caller gives the image. Without a table (one of the two is 0) there is none.
pub fn certificate_findings(image: u16, file: View, headers: &Headers) -> [Option<Fault>; 5]
    ensures { result ≡ certificate_findings_of image (bytes_of file.entry) headers.now }
{
    match certificate_table(headers) {
        Some(table) => table_findings(image, file, headers, table),
        None => [None; 5],
    }
}
