//! `Rows`: the rows of a list, each by its index, and the list that they are.

ghost use Rattle.std.specs.Prelude.{◌≡◌, ◌++◌, ◌==◌, ◌<◌, ℕ, List, [], ◌∷◌, codes, get_or, length, map, true};
ghost use Rattle.pe_view.specs.View.{bytes_of};
ghost use Rattle.pe_records.specs.Records.{records_in};
ghost use Rattle.pe_text.specs.TextWriter.{IsReady, Adds};
ghost use Rattle.pe_json.specs.Listed.{items_text};

use pe_records::{Record, Records};
use pe_text::{Sink, TextWriter};

/// A row of a list.
pub(crate) trait Row {
    // its text
    ghost row_text: { Self → List ℕ };

    /// Adds the row.
    fn write<W: Sink>(&self, text: &mut TextWriter<W>)
        requires { IsReady W.failures text.old }
        ensures { Adds W.taken W.failures text.old text.new (row_text self.now) };
}

/// Rows, each of which is made when it is written.
pub(crate) trait Rows {
    // their texts
    ghost row_texts: { Self → List (List ℕ) };

    /// How many there are.
    fn count(&self) -> u32
        ensures { result ≡ length (row_texts self.now) };

    /// Adds row `index`.
    fn write<W: Sink>(&self, text: &mut TextWriter<W>, index: u32)
        requires ready { IsReady W.failures text.old }
        requires inside { index < length (row_texts self.now) }
        ensures { Adds W.taken W.failures text.old text.new (get_or (row_texts self.now) index []) };
}

impl<'a, R: Record + Row> Rows for Records<'a, R> {
    ghost row_texts = { λ records. map R.row_text (records_in R.record_at R.LEN (bytes_of records.table)) };

    fn count(&self) -> u32 {
        self.len()
    }

    fn write<W: Sink>(&self, text: &mut TextWriter<W>, index: u32) {
        self.get(index).unwrap().write(text);
    }
}

/// Adds a row, after a comma unless it is the first of the list.
fn write_next<W: Sink, T: Rows>(text: &mut TextWriter<W>, rows: &T, index: u32)
    requires ready { IsReady W.failures text.old }
    requires inside { index < length (T.row_texts rows.now) }
    ensures { Adds W.taken W.failures text.old text.new (items_text (index == 0) (get_or (T.row_texts rows.now) index [] ∷ [])) }
{
    if index == 0 {
        rows.write(text, index);
    } else {
        text.text(b",");
        rows.write(text, index);
    }
}

/// Adds rows, with a comma between two.
fn write_rows<W: Sink, T: Rows>(text: &mut TextWriter<W>, rows: &T)
    requires { IsReady W.failures text.old }
    ensures { Adds W.taken W.failures text.old text.new (items_text true (T.row_texts rows.now)) }
{
    for index in 0..rows.count() {
        if text.has_failed() {
            return;
        }
        write_next(text, rows, index);
    }
}

/// Adds the list of rows after its key, which ends with what comes before the first row.
pub(crate) fn write_list<W: Sink, T: Rows>(text: &mut TextWriter<W>, key: &[u8], rows: &T)
    requires { IsReady W.failures text.old }
    ensures { Adds W.taken W.failures text.old text.new (key.now ++ (items_text true (T.row_texts rows.now) ++ codes "]")) }
{
    text.text(key);
    write_rows(text, rows);
    text.text(b"]");
}
