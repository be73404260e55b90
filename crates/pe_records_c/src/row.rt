//! `put_table`: a table copied into the caller's rows, with its count and the status.

ghost use Rattle.std.specs.Prelude.{◌≡◌, length, nat_le, if◌then◌else◌};
ghost use Rattle.pe_records_c.specs.Rows.{Fills};

use crate::status;

/// A row, as C has it, of an item of a table.
pub trait Row<T>: Copy {
    // what a row says of its item
    ghost tells: { T → Self → Type 0 };

    /// The row of an item.
    fn of(item: &T) -> Self
        ensures { tells item.now result };
}

/// Fills the first rows with the items of a table, as many as fit; the other rows are unchanged.
pub fn fill_rows<T, R: Row<T>>(rows: &mut [R], table: &[T])
    ensures { Fills R.tells table.now rows.old rows.new }
{
    let count = rows.len().min(table.len());
    for index in 0..count {
        rows[index] = R::of(&table[index]);
    }
}

/// Reports a table: fills the rows, counts the table's items, and returns the status: 0, or 4 if they do not all fit.
pub fn put_table<T, R: Row<T>>(rows: &mut [R], table: &[T], count: &mut usize) -> u32
    ensures rows { Fills R.tells table.now rows.old rows.new }
    ensures count { count.new ≡ length table.now }
    ensures status { result ≡ (if nat_le (length table.now) (length rows.old) then 0 else 4) }
{
    *count = table.len();
    fill_rows(rows, table);
    table_status(table.len(), rows.len())
}

/// The status of a table of `items` items in `rows` rows: 0 if they all fit, otherwise 4.
pub fn table_status(items: usize, rows: usize) -> u32
    ensures { result ≡ (if nat_le items rows then 0 else 4) }
{
    if items <= rows {
        status::DONE
    } else {
        status::SMALL
    }
}
