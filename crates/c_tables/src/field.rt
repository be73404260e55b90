//! `FieldRow`: a field of the load configuration or of the CLR header, as C has it.

ghost use Rattle.std.specs.Prelude.{◌≡◌, map};
ghost use Rattle.pe_view.specs.View.{bytes_of};
ghost use Rattle.pe_layout.specs.Layout.{image_of};
ghost use Rattle.pe_records.specs.ClrHeader.{clr_fields};
ghost use Rattle.pe_records.specs.LoadFields.{load_fields};
ghost use Rattle.pe_records.specs.Structure.{address_width, field_in};
ghost use Rattle.pe_records_c.specs.Rows.{TellsTable};
ghost use Rattle.c_tables.specs.FieldRows.{clr_values, field_row, load_values};

use crate::items::{Items, put_items};
use pe_layout::Layout;
use pe_records::{
    CLR_FIELD_COUNT, LOAD_FIELD_COUNT, Structure, clr_field, clr_header, load_configuration,
    load_field,
};
use pe_records_c::row::{Row, put_table};

/// A field of a structure.
#[repr(C)]
#[derive(Clone, Copy)]
pub struct FieldRow {
    /// Its number; 0 if the structure ends before the field does.
    pub value: u64,
    /// Whether the structure has the field.
    pub is_present: bool,
}

impl Row<Option<u64>> for FieldRow {
    ghost tells = { λ item row. row ≡ field_row item };

    fn of(item: &Option<u64>) -> Self {
        match item {
            Some(value) => FieldRow {
                value: *value,
                is_present: true,
            },
            None => FieldRow {
                value: 0,
                is_present: false,
            },
        }
    }
}

/// The fields of a load configuration, in the order of "PE Format".
#[derive(Drop)]
struct LoadFields<'a> {
    structure: Structure<'a>,
}

impl<'a> Items<Option<u64>> for LoadFields<'a> {
    ghost items = { λ f. map (field_in (address_width f.structure.is_plus) (bytes_of f.structure.bytes)) load_fields };

    fn count(&self) -> u32 {
        LOAD_FIELD_COUNT as u32
    }

    fn item(&self, index: u32) -> Option<Option<u64>> {
        match load_field(index as usize) {
            Some(field) => Some(self.structure.field(field)),
            None => None,
        }
    }
}

/// The fields of a CLR header, in order.
#[derive(Drop)]
struct ClrFields<'a> {
    structure: Structure<'a>,
}

impl<'a> Items<Option<u64>> for ClrFields<'a> {
    ghost items = { λ f. map (field_in (address_width f.structure.is_plus) (bytes_of f.structure.bytes)) clr_fields };

    fn count(&self) -> u32 {
        CLR_FIELD_COUNT as u32
    }

    fn item(&self, index: u32) -> Option<Option<u64>> {
        match clr_field(index as usize) {
            Some(field) => Some(self.structure.field(field)),
            None => None,
        }
    }
}

/// Reports the fields of the load configuration: fills the rows, counts the fields, and returns the status, 0 or 4. An image that has
/// none, or of which the file does not hold the field Size, has no fields.
pub fn tell_load_configuration(layout: &Layout, rows: &mut [FieldRow], count: &mut usize) -> u32
    ensures { TellsTable (λ row. row) field_row (load_values (image_of layout.now)) rows.old rows.new count.new result }
{
    match load_configuration(layout) {
        Some(structure) => put_items(rows, &LoadFields { structure }, count),
        None => put_table::<Option<u64>, FieldRow>(rows, &[], count),
    }
}

/// Reports the fields of the CLR header: fills the rows, counts the fields, and returns the status, 0 or 4. An image that has none, or
/// of which the file does not hold the field cb, has no fields.
pub fn tell_clr(layout: &Layout, rows: &mut [FieldRow], count: &mut usize) -> u32
    ensures { TellsTable (λ row. row) field_row (clr_values (image_of layout.now)) rows.old rows.new count.new result }
{
    match clr_header(layout) {
        Some(structure) => put_items(rows, &ClrFields { structure }, count),
        None => put_table::<Option<u64>, FieldRow>(rows, &[], count),
    }
}
