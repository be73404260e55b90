//! `OverlayRecord`: where the file of an image ends by its headers, and how much of what is behind, as C has it.

ghost use Rattle.std.specs.Prelude.{◌≡◌};
ghost use Rattle.pe_view.specs.View.{bytes_of};
ghost use Rattle.pe_trust.specs.OverlayKinds.{overlay_kind_of};
ghost use Rattle.c_tables.specs.FileRecords.{kind_number, overlay_number, overlay_record};

use pe_head::Headers;
use pe_trust::{OverlayKind, file_end, overlay_kind as kind_of_overlay};
use pe_view::View;

/// What the file of an image has behind the bytes that its headers name.
#[repr(C)]
#[derive(Clone, Copy)]
pub struct OverlayRecord {
    /// Where these bytes end, and the overlay begins.
    pub offset: u64,
    /// How many bytes the file has from there on; 0 if it has no overlay.
    pub size: u64,
    /// What the overlay begins with.
    pub kind: u32,
}

/// What an overlay begins with.
pub mod overlay_kind {
    /// There is no overlay.
    pub const NONE: u32 = 0;
    /// The certificate table, by directory 4.
    pub const CERTIFICATES: u32 = 1;
    /// The symbol table, by PointerToSymbolTable.
    pub const SYMBOL_TABLE: u32 = 2;
    /// The data of an NSIS installer.
    pub const NSIS: u32 = 3;
    /// A 7-Zip archive, or the configuration of an installer that unpacks one.
    pub const SEVEN_ZIP: u32 = 4;
    /// A ZIP archive.
    pub const ZIP: u32 = 5;
    /// A RAR archive.
    pub const RAR: u32 = 6;
    /// A cabinet.
    pub const CABINET: u32 = 7;
    /// A compound file, such as a Windows Installer package.
    pub const COMPOUND_FILE: u32 = 8;
    /// An executable file.
    pub const EXECUTABLE: u32 = 9;
    /// Something else.
    pub const OTHER: u32 = 10;
}

/// The number of what an overlay begins with.
fn kind_number(kind: OverlayKind) -> u32
    ensures { result ≡ kind_number kind }
{
    match kind {
        OverlayKind::Certificates => overlay_kind::CERTIFICATES,
        OverlayKind::SymbolTable => overlay_kind::SYMBOL_TABLE,
        OverlayKind::Nsis => overlay_kind::NSIS,
        OverlayKind::SevenZip => overlay_kind::SEVEN_ZIP,
        OverlayKind::Zip => overlay_kind::ZIP,
        OverlayKind::Rar => overlay_kind::RAR,
        OverlayKind::Cabinet => overlay_kind::CABINET,
        OverlayKind::CompoundFile => overlay_kind::COMPOUND_FILE,
        OverlayKind::Executable => overlay_kind::EXECUTABLE,
        OverlayKind::Other => overlay_kind::OTHER,
    }
}

/// The number of what the overlay of an image's file begins with.
fn overlay_number(file: View, headers: &Headers) -> u32
    ensures { result ≡ overlay_number (overlay_kind_of (bytes_of file.entry) headers.now) }
{
    match kind_of_overlay(file, headers) {
        Some(kind) => kind_number(kind),
        None => overlay_kind::NONE,
    }
}

/// The overlay of an image's file.
pub fn overlay_record(file: View, headers: &Headers) -> OverlayRecord
    ensures { result ≡ overlay_record (bytes_of file.entry) headers.now }
{
    let offset = file_end(headers);
    OverlayRecord {
        offset,
        size: file.len().saturating_sub(offset),
        kind: overlay_number(file, headers),
    }
}
