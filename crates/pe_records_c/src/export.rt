//! Exports as C has them: `ExportRow`, and `TargetRecord`, an RVA or a forwarder.

ghost use Rattle.std.specs.Prelude.{◌≡◌, ◌==◌, map, option_map};
ghost use Rattle.std.specs.List.{find, zip};
ghost use Rattle.pe_tables.specs.Exports.{target_at};
ghost use Rattle.pe_tables.specs.ExportsView.{exports_view, ordinal_view};
ghost use Rattle.pe_tables.specs.Key.{Ordinal, target_view};
ghost use Rattle.pe_tables.specs.NameIndex.{export_view as name_view};
ghost use Rattle.pe_records_c.specs.ExportRows.{target_text, export_text, target_of, export_by_ordinal, export_by_name, TellsTarget};
ghost use Rattle.pe_records_c.specs.Rows.{Fills, TellsTable};

use crate::row::{Row, table_status};
use crate::status;
use pe_tables::{Exports, Key, Target};
use std::alloc::Global;

/// What an export leads to.
#[repr(C)]
#[derive(Clone, Copy)]
pub struct TargetRecord<'a> {
    /// 0 an RVA of the image, 1 a forwarder to an ordinal of another module, 2 a forwarder to a name of one.
    pub kind: u32,
    /// The RVA; 0 for a forwarder.
    pub rva: u32,
    /// The ordinal in the other module of a forwarder to an ordinal; otherwise 0.
    pub ordinal: u64,
    /// The other module of a forwarder, as written in the image; otherwise empty.
    pub module: &'a [u8],
    /// The name of a forwarder to a name; otherwise empty.
    pub name: &'a [u8],
}

impl<'a> TargetRecord<'a> {
    /// What an export leads to, as C has it.
    pub fn of(target: Target<'a>) -> TargetRecord<'a>
        ensures { target_text result ≡ target_of (target_view target.entry) }
    {
        match target {
            Target::Rva(rva) => TargetRecord {
                kind: 0,
                rva,
                ordinal: 0,
                module: &[],
                name: &[],
            },
            Target::Forward { module, key } => match key {
                Key::Ordinal(ordinal) => TargetRecord {
                    kind: 1,
                    rva: 0,
                    ordinal: ordinal as u64,
                    module,
                    name: &[],
                },
                Key::Name(name) => TargetRecord {
                    kind: 2,
                    rva: 0,
                    ordinal: 0,
                    module,
                    name,
                },
            },
        }
    }
}

/// An export, by its ordinal or by its name.
#[repr(C)]
#[derive(Clone, Copy)]
pub struct ExportRow<'a> {
    /// The ordinal, which may exceed 2^32.
    pub ordinal: u64,
    /// The name of an export by name; otherwise empty.
    pub name: &'a [u8],
    /// What it leads to.
    pub target: TargetRecord<'a>,
}

impl<'a> Row<(u64, Target<'a>)> for ExportRow<'a> {
    ghost tells = { λ item row. export_text row ≡ export_by_ordinal (ordinal_view item) };

    fn of(item: &(u64, Target<'a>)) -> Self {
        let (ordinal, target) = *item;
        ExportRow {
            ordinal,
            name: &[],
            target: TargetRecord::of(target),
        }
    }
}

impl<'a> ExportRow<'a> {
    /// An export by name, with its ordinal.
    fn named(item: &(&'a [u8], Target<'a>), ordinal: u64) -> ExportRow<'a>
        ensures { export_text result ≡ export_by_name (name_view item.now, ordinal) }
    {
        let (name, target) = *item;
        ExportRow {
            ordinal,
            name,
            target: TargetRecord::of(target),
        }
    }
}

/// Fills the first rows with exports by name and their ordinals, as many as fit; the other rows are unchanged.
pub fn fill_names<'a>(
    rows: &mut [ExportRow<'a>],
    names: &[(&'a [u8], Target<'a>)],
    ordinals: &[u64],
)
    ensures { Fills (λ item row. export_text row ≡ export_by_name (name_view item.0, item.1)) (zip names.now ordinals.now) rows.old rows.new }
{
    let count = rows.len().min(names.len()).min(ordinals.len());
    for index in 0..count {
        rows[index] = ExportRow::named(&names[index], ordinals[index]);
    }
}

/// Reports the exports by name: fills the rows, counts the names, and returns the status: 0, or 4 if they do not all fit.
pub fn put_names<'a>(
    rows: &mut [ExportRow<'a>],
    names: &[(&'a [u8], Target<'a>)],
    ordinals: &[u64],
    count: &mut usize,
) -> u32
    ensures table { TellsTable export_text export_by_name (zip (map name_view names.now) ordinals.now) rows.old rows.new count.new result }
{
    *count = names.len().min(ordinals.len());
    fill_names(rows, names, ordinals);
    table_status(*count, rows.len())
}

/// The first of the exports by ordinal that has this one.
fn row_of_ordinal<'e, 'a>(
    exports: &'e [(u64, Target<'a>)],
    ordinal: u64,
) -> Option<&'e (u64, Target<'a>)>
    ensures { option_map (λ row. row.now) result ≡ find (λ row. row.0 == ordinal) exports.now }
{
    exports.iter().find(|row| row.0 == ordinal)
}

/// What the first of the exports by ordinal that has this one leads to.
pub(crate) fn target_of_ordinal<'a>(
    exports: &[(u64, Target<'a>)],
    ordinal: u64,
) -> Option<Target<'a>>
    ensures { option_map target_view result ≡ option_map (λ e. e.1) (find (λ e. e.0 == ordinal) (map ordinal_view exports.now)) }
{
    match row_of_ordinal(exports, ordinal) {
        Some((_, target)) => Some(*target),
        None => None,
    }
}

/// What an ordinal exports. An ordinal from 2^32 on, which only crafted files have, is looked for one by one.
pub fn export_at<'a>(exports: &Exports<'a, Global>, ordinal: u64) -> Option<Target<'a>>
    ensures { option_map target_view result ≡ target_at (exports_view exports.now) (Ordinal ordinal) }
{
    if ordinal < 1 << 32 {
        exports.by_ordinal(ordinal as u32)
    } else {
        target_of_ordinal(exports.ordinals(), ordinal)
    }
}

/// Stores what an export leads to, and returns the status: 0, or 3 if there is no export, which leaves the record unchanged.
pub fn put_target<'a>(target: Option<Target<'a>>, told: &mut TargetRecord<'a>) -> u32
    ensures { TellsTarget (option_map target_view target.entry) told.old told.new result }
{
    match target {
        Some(target) => {
            *told = TargetRecord::of(target);
            status::DONE
        }
        None => status::ABSENT,
    }
}
