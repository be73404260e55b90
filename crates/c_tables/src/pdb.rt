//! `PdbRecord`: which PDB file belongs to an image, as C has it.

ghost use Rattle.std.specs.Prelude.{◌≡◌, is_some, option_map};
ghost use Rattle.std.specs.List.{find};
ghost use Rattle.pe_view.specs.View.{bytes_of};
ghost use Rattle.pe_layout.specs.Layout.{image_of};
ghost use Rattle.pe_records.specs.CodeView.{code_view_of};
ghost use Rattle.pe_records.specs.CodeViewView.{pdb_20_view, pdb_70_view};
ghost use Rattle.pe_records.specs.Debug.{debug_entry_at};
ghost use Rattle.pe_records.specs.Records.{records_in};
ghost use Rattle.c_tables.specs.PdbRows.{entry_pdb, names_pdb, path_of, pdb_in, pdb_of, pdb_text, pdb_20_text, pdb_70_text};
ghost use Rattle.c_tables.specs.Told.{TellsRecord};

use crate::told::put_record;
use pe_layout::Layout;
use pe_records::{CodeView, DebugEntry, Pdb20, Pdb70, Records, code_view, debug_type};
use pe_view::View;

/// Which PDB file belongs to an image.
#[repr(C)]
#[derive(Clone, Copy)]
pub struct PdbRecord<'a> {
    /// Its path where it was made, without the zero byte at its end; empty if there is no such byte.
    pub path: &'a [u8],
    /// 0 PDB 7.0, 1 PDB 2.0.
    pub kind: u32,
    /// How often the file was written.
    pub age: u32,
    /// The GUID of a PDB 7.0 file, in the order of the image's bytes; otherwise zeros.
    pub guid: [u8; 16],
    /// When a PDB 2.0 file was made, in seconds since 1970; otherwise 0.
    pub time_date_stamp: u32,
    /// Where the debug data of a PDB 2.0 file begins in it, mostly 0; otherwise 0.
    pub offset: u32,
}

/// Which form a PDB file has.
pub mod pdb_kind {
    /// PDB 7.0.
    pub const SEVEN: u32 = 0;
    /// PDB 2.0.
    pub const TWO: u32 = 1;
}

/// A path as C has it.
fn path_of<'a>(path: Option<&'a [u8]>) -> &'a [u8]
    ensures { result.now ≡ path_of (option_map (λ path. path.now) path.entry) }
{
    path.unwrap_or(&[])
}

impl<'a> PdbRecord<'a> {
    /// A PDB 7.0 file.
    fn seven(pdb: &Pdb70<'a>) -> PdbRecord<'a>
        ensures { pdb_text result ≡ pdb_70_text (pdb_70_view pdb.entry.now) }
    {
        PdbRecord {
            path: path_of(pdb.path),
            kind: pdb_kind::SEVEN,
            age: pdb.age,
            guid: pdb.guid,
            time_date_stamp: 0,
            offset: 0,
        }
    }

    /// A PDB 2.0 file.
    fn two(pdb: &Pdb20<'a>) -> PdbRecord<'a>
        ensures { pdb_text result ≡ pdb_20_text (pdb_20_view pdb.entry.now) }
    {
        PdbRecord {
            path: path_of(pdb.path),
            kind: pdb_kind::TWO,
            age: pdb.age,
            guid: [0; 16],
            time_date_stamp: pdb.time_date_stamp,
            offset: pdb.offset,
        }
    }
}

/// The PDB file that the data of a CodeView entry names, if it names one.
fn pdb_in<'a>(bytes: &'a [u8]) -> Option<PdbRecord<'a>>
    ensures { option_map pdb_text result ≡ pdb_in (code_view_of bytes.entry.now) }
{
    match code_view(bytes) {
        CodeView::Pdb70(record) => Some(PdbRecord::seven(&record)),
        CodeView::Pdb20(record) => Some(PdbRecord::two(&record)),
        CodeView::Other => None,
    }
}

/// The PDB file that an entry of the debug directory names, if it names one.
fn entry_pdb<'a>(entry: &DebugEntry, file: View<'a>) -> Option<PdbRecord<'a>>
    ensures { option_map pdb_text result ≡ entry_pdb (bytes_of file.entry) entry.now }
{
    if entry.kind != debug_type::CODE_VIEW {
        return None;
    }
    match entry.data(file) {
        Some(data) => pdb_in(data),
        None => None,
    }
}

/// The first entry that names a PDB file. The search looks at the path of no other entry.
fn first_entry(entries: &Records<DebugEntry>, file: View) -> Option<DebugEntry>
    ensures { result ≡ find (names_pdb (bytes_of file.entry)) (records_in debug_entry_at 28 (bytes_of entries.now.table)) }
{
    for index in 0..entries.len() {
        let entry = entries.get(index).unwrap();
        if entry_pdb(&entry, file).is_some() {
            return Some(entry);
        }
    }
    None
}

/// The PDB file that the first entry names that names one.
fn pdb_of<'a>(layout: &Layout, file: View<'a>) -> Option<PdbRecord<'a>>
    ensures { option_map pdb_text result ≡ pdb_of (image_of layout.now) (bytes_of file.entry) }
{
    let entries: Records<DebugEntry> = Records::of(layout);
    match first_entry(&entries, file) {
        Some(entry) => entry_pdb(&entry, file),
        None => None,
    }
}

/// Stores which PDB file belongs to an image, and returns the status: 0, or 3 if no entry of the debug directory names one, which
/// leaves the record unchanged. `file` is the file that the image was laid out of.
pub fn tell_pdb<'a>(layout: &Layout, file: &'a [u8], pdb: &mut PdbRecord<'a>) -> u32
    ensures { TellsRecord pdb_text (pdb_of (image_of layout.now) file.entry.now) pdb.old pdb.new result }
{
    put_record(pdb_of(layout, View::new(file)), pdb)
}
