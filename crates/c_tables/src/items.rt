//! `put_items`: a table whose items are read one by one, copied into the caller's rows, with its count and the status.

ghost use Rattle.std.specs.Prelude.{◌≡◌, List, length, nat_le, slice_get, if◌then◌else◌};
ghost use Rattle.pe_view.specs.View.{bytes_of};
ghost use Rattle.pe_records.specs.Records.{records_in};
ghost use Rattle.pe_records_c.specs.Rows.{Fills};

use pe_records::{Record, Records};
use pe_records_c::row::{Row, table_status};

/// A table whose items are read when they are asked for.
pub trait Items<T> {
    // the items, in the order of the table
    ghost items: { Self → List T };

    /// The number of items.
    fn count(&self) -> u32
        ensures { result ≡ length (items self.now) };

    /// Item `index`, from 0, or `None` if there is none.
    fn item(&self, index: u32) -> Option<T>
        ensures { result ≡ slice_get (items self.now) index };
}

impl<'a, R: Record> Items<R> for Records<'a, R> {
    ghost items = { λ records. records_in R.record_at R.LEN (bytes_of records.table) };

    fn count(&self) -> u32 {
        self.len()
    }

    fn item(&self, index: u32) -> Option<R> {
        self.get(index)
    }
}

/// Fills the first rows with the items of a table, as many as fit; the other rows are unchanged.
fn fill_items<T: Copy, R: Row<T>, S: Items<T>>(rows: &mut [R], table: &S)
    ensures { Fills R.tells (S.items table.now) rows.old rows.new }
{
    let count = rows.len().min(table.count() as usize);
    for index in 0..count {
        rows[index] = R::of(&table.item(index as u32).unwrap());
    }
}

/// Reports a table: fills the rows, counts the table's items, and returns the status: 0, or 4 if they do not all fit.
pub fn put_items<T: Copy, R: Row<T>, S: Items<T>>(
    rows: &mut [R],
    table: &S,
    count: &mut usize,
) -> u32
    ensures rows { Fills R.tells (S.items table.now) rows.old rows.new }
    ensures count { count.new ≡ length (S.items table.now) }
    ensures status { result ≡ (if nat_le (length (S.items table.now)) (length rows.old) then 0 else 4) }
{
    *count = table.count() as usize;
    fill_items(rows, table);
    table_status(*count, rows.len())
}
