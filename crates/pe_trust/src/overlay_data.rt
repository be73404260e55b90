//! `overlay_kind`: what the overlay of an image's file begins with.

ghost use Rattle.std.specs.Prelude.{◌≡◌};
ghost use Rattle.pe_view.specs.View.{bytes_of};
ghost use Rattle.pe_trust.specs.CertificateTable.{certificate_table};
ghost use Rattle.pe_trust.specs.OverlayKinds.{is_begun_by_certificates, is_begun_by_symbols, kind_of_data, overlay_kind_of, stands_at};

use crate::overlay::file_end;
use crate::table::certificate_table;
use pe_head::Headers;
use pe_view::View;

/// What the overlay of an image's file begins with.
#[derive(Clone, Copy, Debug, PartialEq, Eq)]
pub enum OverlayKind {
    /// The certificate table: the entry of directory 4 tells this place.
    Certificates,
    /// The COFF symbol table: PointerToSymbolTable tells this place.
    SymbolTable,
    /// The data of an installer of the Nullsoft Scriptable Install System.
    Nsis,
    /// A 7-Zip archive, or the configuration of an installer that unpacks one.
    SevenZip,
    /// A ZIP archive.
    Zip,
    /// A RAR archive.
    Rar,
    /// A cabinet.
    Cabinet,
    /// A compound file, such as a Windows Installer package.
    CompoundFile,
    /// Another executable file.
    Executable,
    /// None of these.
    Other,
}

/// Whether bytes stand at an offset.
fn stands_at(begun: View, offset: u64, bytes: &[u8]) -> bool
    ensures { result ≡ stands_at (bytes_of begun.entry) offset bytes.now }
{
    match begun.slice(offset, bytes.len() as u64) {
        Some(found) => found == bytes,
        None => false,
    }
}

/// What bytes are by their beginning.
fn kind_of_data(begun: View) -> OverlayKind
    ensures { result ≡ kind_of_data (bytes_of begun.entry) }
{
    if stands_at(begun, 4, b"\xef\xbe\xad\xdeNullsoftInst") {
        return OverlayKind::Nsis;
    }
    if stands_at(begun, 0, b"7z\xbc\xaf\x27\x1c") || stands_at(begun, 0, b";!@Install@!") {
        return OverlayKind::SevenZip;
    }
    if stands_at(begun, 0, b"PK\x03\x04") {
        return OverlayKind::Zip;
    }
    if stands_at(begun, 0, b"Rar!\x1a\x07") {
        return OverlayKind::Rar;
    }
    if stands_at(begun, 0, b"MSCF") {
        return OverlayKind::Cabinet;
    }
    if stands_at(begun, 0, b"\xd0\xcf\x11\xe0\xa1\xb1\x1a\xe1") {
        return OverlayKind::CompoundFile;
    }
    if stands_at(begun, 0, b"MZ") {
        return OverlayKind::Executable;
    }
    OverlayKind::Other
}

/// Whether the certificate table begins at an offset.
fn is_begun_by_certificates(headers: &Headers, offset: u64) -> bool
    ensures { result ≡ is_begun_by_certificates (certificate_table headers.now) offset }
{
    match certificate_table(headers) {
        Some(table) => u64::from(table.rva) == offset,
        None => false,
    }
}

/// Whether the symbol table begins at an offset.
fn is_begun_by_symbols(headers: &Headers, offset: u64) -> bool
    ensures { result ≡ is_begun_by_symbols headers.now offset }
{
    headers.number_of_symbols != 0 && u64::from(headers.pointer_to_symbol_table) == offset
}

/// What the overlay of an image's file begins with, or `None` if it has none. The rest of it, such as the certificates behind the
/// data of an installer, does not count.
pub fn overlay_kind(file: View, headers: &Headers) -> Option<OverlayKind>
    ensures { result ≡ overlay_kind_of (bytes_of file.entry) headers.now }
{
    let end = file_end(headers);
    if file.len() <= end {
        return None;
    }
    let overlay = file.slice(end, file.len() - end)?;
    if is_begun_by_certificates(headers, end) {
        return Some(OverlayKind::Certificates);
    }
    if is_begun_by_symbols(headers, end) {
        return Some(OverlayKind::SymbolTable);
    }
    Some(kind_of_data(View::new(overlay)))
}
