//! `ImportRow`: an import as C has it; and the import of a slot.

ghost use Rattle.std.specs.Prelude.{◌≡◌, ◌==◌, map, option_map};
ghost use Rattle.std.specs.List.{find};
ghost use Rattle.pe_tables.specs.ImportView.{import_view};
ghost use Rattle.pe_records_c.specs.ImportRows.{import_text, import_row, import_of_slot, TellsImport};

use crate::row::Row;
use crate::status;
use pe_tables::{Import, Key};

/// An import of an image.
#[repr(C)]
#[derive(Clone, Copy)]
pub struct ImportRow<'a> {
    /// The module that exports it, as written in the image.
    pub module: &'a [u8],
    /// The name; empty for an import by ordinal.
    pub name: &'a [u8],
    /// The ordinal of an import by ordinal; otherwise 0.
    pub ordinal: u64,
    /// The RVA of its import address table entry: 4 bytes in PE32, 8 bytes in PE32+.
    pub slot: u32,
    /// Whether it is imported by ordinal.
    pub by_ordinal: bool,
}

impl<'a> Row<Import<'a>> for ImportRow<'a> {
    ghost tells = { λ item row. import_text row ≡ import_row (import_view item) };

    fn of(item: &Import<'a>) -> Self {
        match item.key {
            Key::Ordinal(ordinal) => ImportRow {
                module: item.module,
                name: &[],
                ordinal: ordinal as u64,
                slot: item.slot,
                by_ordinal: true,
            },
            Key::Name(name) => ImportRow {
                module: item.module,
                name,
                ordinal: 0,
                slot: item.slot,
                by_ordinal: false,
            },
        }
    }
}

/// The import whose slot is at an RVA, if there is one.
fn import_at<'i, 'a>(imports: &'i [Import<'a>], slot: u32) -> Option<&'i Import<'a>>
    ensures { option_map (λ found. found.now) result ≡ find (λ x. x.slot == slot) imports.now }
{
    imports.iter().find(|import| import.slot == slot)
}

/// Stores the import whose slot is at an RVA, and returns the status: 0, or 3 if there is none, which leaves the record unchanged.
pub fn put_import<'a>(imports: &[Import<'a>], slot: u32, told: &mut ImportRow<'a>) -> u32
    ensures { TellsImport (import_of_slot (map import_view imports.now) slot) told.old told.new result }
{
    match import_at(imports, slot) {
        Some(import) => {
            *told = ImportRow::of(import);
            status::DONE
        }
        None => status::ABSENT,
    }
}
