//! `CodeView`: which PDB file belongs to an image.

ghost use Rattle.std.specs.Prelude.{◌≡◌, option_map};
ghost use Rattle.pe_view.specs.View.{bytes_of};
ghost use Rattle.pe_records.specs.CodeView.{code_view_of, has_no_end, pdb_20_of, pdb_70_of};
ghost use Rattle.pe_records.specs.CodeViewView.{code_view_view, pdb_20_view, pdb_70_view};

use pe_view::View;

/// `RSDS`, which begins the record of a PDB 7.0 file.
const PDB_70: u32 = 0x5344_5352;

/// `NB10`, which begins the record of a PDB 2.0 file.
const PDB_20: u32 = 0x3031_424e;

/// The record of a PDB 7.0 file: `RSDS`, and these.
#[derive(Clone, Copy, Debug)]
pub struct Pdb70<'a> {
    /// The file's GUID, in the order of the record's bytes.
    pub guid: [u8; 16],
    /// How often the file was written.
    pub age: u32,
    /// The file's path without the zero byte at its end, or `None` if there is no such byte.
    pub path: Option<&'a [u8]>,
}

/// The record of a PDB 2.0 file: `NB10`, and these.
#[derive(Clone, Copy, Debug)]
pub struct Pdb20<'a> {
    /// Where the debug data begins; 0 if it is in the file of that path.
    pub offset: u32,
    /// When the file was made.
    pub time_date_stamp: u32,
    /// How often the file was written.
    pub age: u32,
    /// The file's path without the zero byte at its end, or `None` if there is no such byte.
    pub path: Option<&'a [u8]>,
}

/// A CodeView record.
#[derive(Clone, Copy, Debug)]
pub enum CodeView<'a> {
    /// Of a PDB 7.0 file.
    Pdb70(Pdb70<'a>),
    /// Of a PDB 2.0 file.
    Pdb20(Pdb20<'a>),
    /// Any other bytes.
    Other,
}

impl<'a> CodeView<'a> {
    /// Whether it has a path without a zero byte at its end.
    pub fn is_endless(&self) -> bool
        ensures { result ≡ has_no_end (code_view_view self.now) }
    {
        match self {
            CodeView::Pdb70(record) => record.path.is_none(),
            CodeView::Pdb20(record) => record.path.is_none(),
            CodeView::Other => false,
        }
    }
}

/// The record of a PDB 7.0 file in these bytes, which are the data of an entry of the debug directory.
fn pdb_70<'a>(view: View<'a>) -> Option<Pdb70<'a>>
    ensures { option_map pdb_70_view result ≡ pdb_70_of (bytes_of view.entry) }
{
    if view.len() < 24 || view.u32_at(0)? != PDB_70 {
        return None;
    }
    let mut guid = [0; 16];
    guid.copy_from_slice(view.slice(4, 16)?);
    Some(Pdb70 {
        guid,
        age: view.u32_at(20)?,
        path: view.until_zero(24, view.len()),
    })
}

/// The record of a PDB 2.0 file in these bytes.
fn pdb_20<'a>(view: View<'a>) -> Option<Pdb20<'a>>
    ensures { option_map pdb_20_view result ≡ pdb_20_of (bytes_of view.entry) }
{
    if view.len() < 16 || view.u32_at(0)? != PDB_20 {
        return None;
    }
    Some(Pdb20 {
        offset: view.u32_at(4)?,
        time_date_stamp: view.u32_at(8)?,
        age: view.u32_at(12)?,
        path: view.until_zero(16, view.len()),
    })
}

/// The CodeView record in the data of an entry of the debug directory.
pub fn code_view<'a>(bytes: &'a [u8]) -> CodeView<'a>
    ensures { code_view_view result ≡ code_view_of bytes.entry.now }
{
    let view = View::new(bytes);
    if let Some(record) = pdb_70(view) {
        return CodeView::Pdb70(record);
    }
    match pdb_20(view) {
        Some(record) => CodeView::Pdb20(record),
        None => CodeView::Other,
    }
}
