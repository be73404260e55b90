//! What stands at a place of a file that is not laid out: in its certificates, its symbol table, or elsewhere behind the image.

ghost use Rattle.pe_text.specs.TextWriter.{IsReady};
ghost use Rattle.pe_page.specs.Page.{AddsSome};

use crate::no_place::NoPlace;
use crate::spot::Spot;
use pe_head::Headers;
use pe_page::Cell::{self, Plain};
use pe_page::{NOTHING, write_cells};
use pe_reach::ViewFile;
use pe_text::Part::{Decimal, Hex, Text};
use pe_text::{Sink, TextWriter};
use pe_trust::{Certificates, certificate_table, file_end};
use pe_view::{Place, View};

/// The size of a record of the symbol table in bytes.
const SYMBOL_SIZE: u64 = 18;

/// A place of a file that is not laid out.
#[derive(Clone, Copy)]
struct FilePlace {
    /// What has the place.
    name: &'static [u8],
    /// Which one of several it is.
    index: Option<u64>,
    /// How far from its beginning the place is.
    distance: u64,
}

/// How far an offset is from a start, if it is one of so many.
fn distance_in(start: u64, size: u64, offset: u64) -> Option<u64> {
    let distance = offset.checked_sub(start)?;
    (distance < size).then_some(distance)
}

/// The certificate that has an offset, as far as the entries of the table were read.
fn certificate_at(file: View, headers: &Headers, offset: u64) -> Option<FilePlace> {
    let mut index: u64 = 0;
    for certificate in Certificates::of(file, headers) {
        let size = u64::from(certificate.length);
        let distance = distance_in(certificate.offset, size, offset);
        if distance.is_some() {
            return Some(FilePlace {
                name: b"certificate ",
                index: Some(index),
                distance: distance.unwrap_or(0),
            });
        }
        index = index.saturating_add(1);
    }
    None
}

/// The certificate table, if it has an offset.
fn certificate_table_at(headers: &Headers, offset: u64) -> Option<FilePlace> {
    let table = certificate_table(headers)?;
    let distance = distance_in(u64::from(table.rva), u64::from(table.size), offset)?;
    Some(FilePlace {
        name: b"certificate table",
        index: None,
        distance,
    })
}

/// The symbol table, if it has an offset.
fn symbol_table_at(headers: &Headers, offset: u64) -> Option<FilePlace> {
    let start = u64::from(headers.pointer_to_symbol_table);
    let size = SYMBOL_SIZE * u64::from(headers.number_of_symbols);
    let distance = distance_in(start, size, offset)?;
    Some(FilePlace {
        name: b"symbol table",
        index: None,
        distance,
    })
}

/// What is behind the image's file, if it has an offset.
fn overlay_at(headers: &Headers, offset: u64) -> Option<FilePlace> {
    let distance = offset.checked_sub(file_end(headers))?;
    Some(FilePlace {
        name: b"overlay",
        index: None,
        distance,
    })
}

/// What has an offset of a file that is not laid out, if something does.
fn file_place(file: ViewFile, headers: &Headers, offset: u64) -> Option<FilePlace> {
    if offset >= file.len() {
        return None;
    }
    let certificate = certificate_at(file.beginning(), headers, offset);
    if certificate.is_some() {
        return certificate;
    }
    let table = certificate_table_at(headers, offset);
    if table.is_some() {
        return table;
    }
    let symbols = symbol_table_at(headers, offset);
    if symbols.is_some() {
        return symbols;
    }
    overlay_at(headers, offset)
}

/// The place of a spot that is a file offset, and the offset.
fn place_of_spot(file: ViewFile, headers: &Headers, spot: &Spot) -> Option<(u64, FilePlace)> {
    match spot {
        Spot::At(Place::File(offset)) => Some((*offset, file_place(file, headers, *offset)?)),
        _ => None,
    }
}

/// A place, like `file 0x1e410  certificate 0 +0x12`.
fn place_cells(offset: u64, place: FilePlace) -> [Cell<'static>; 7] {
    let index = match place.index {
        Some(index) => Plain(Decimal(index)),
        None => NOTHING,
    };
    [
        Plain(Text(b"file 0x")),
        Plain(Hex(offset, 1)),
        Plain(Text(b"  ")),
        Plain(Text(place.name)),
        index,
        Plain(Text(b" +0x")),
        Plain(Hex(place.distance, 1)),
    ]
}

/// Adds what of the file has a spot that is not laid out, or else what is said of one that has no place.
pub(crate) fn write_unlaid<W: Sink>(
    text: &mut TextWriter<W>,
    file: ViewFile,
    headers: &Headers,
    spot: &Spot,
    none: &NoPlace,
)
    requires { IsReady W.failures text.old }
    ensures { AddsSome W.taken W.failures text.old text.new }
{
    match place_of_spot(file, headers, spot) {
        Some((offset, place)) => {
            write_cells(text, &place_cells(offset, place));
            text.text(b"\n");
        }
        None => none.write(text),
    }
}
