//! `put_row`: a row that is stored if there is room for it.

ghost use Rattle.std.specs.Prelude.{◌≡◌, set};

/// Stores the row of item `index` of a table. If there are fewer rows, they are unchanged.
pub fn put_row<R: Copy>(rows: &mut [R], index: usize, row: R)
    ensures { rows.new ≡ set rows.old index row }
{
    if index < rows.len() {
        rows[index] = row;
    }
}
