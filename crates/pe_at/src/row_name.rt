//! `RowName`: what a field of a header, or a row of a table, is called.

use pe_page::Cell::{self, Plain};
use pe_page::NOTHING;
use pe_text::Part::{Decimal, Text};

/// What a field of a header, or a row of a table, is called: words, with up to two numbers between them.
#[derive(Clone, Copy)]
pub(crate) struct RowName {
    first: &'static str,
    number: Option<u64>,
    middle: &'static str,
    part: Option<u64>,
    last: &'static str,
}

/// A number, or nothing.
fn number_cell(number: Option<u64>) -> Cell<'static> {
    match number {
        Some(number) => Plain(Decimal(number)),
        None => NOTHING,
    }
}

impl RowName {
    /// Words alone.
    pub fn words(first: &'static str, last: &'static str) -> RowName {
        RowName {
            first,
            number: None,
            middle: "",
            part: None,
            last,
        }
    }

    /// A number between words.
    pub fn numbered(first: &'static str, number: u64, last: &'static str) -> RowName {
        RowName {
            first,
            number: Some(number),
            middle: "",
            part: None,
            last,
        }
    }

    /// A field of a directory that has a number and a name.
    pub fn directory(first: &'static str, number: u64, name: &'static str) -> RowName {
        RowName {
            first,
            number: Some(number),
            middle: ", ",
            part: None,
            last: name,
        }
    }

    /// A field of something that has a number.
    pub fn field(first: &'static str, of: &'static str, number: u64) -> RowName {
        RowName {
            first,
            number: None,
            middle: of,
            part: Some(number),
            last: "",
        }
    }

    /// An entry of a part of a table, which has a number too.
    pub fn entry(number: u64, of: &'static str, part: u64, last: &'static str) -> RowName {
        RowName {
            first: "entry ",
            number: Some(number),
            middle: of,
            part: Some(part),
            last,
        }
    }

    /// A relocation of a section.
    pub fn relocation(number: u64, section: u64) -> RowName {
        RowName {
            first: "relocation ",
            number: Some(number),
            middle: " of section ",
            part: Some(section),
            last: "",
        }
    }

    /// The cells that show it behind a gap.
    fn cells(&self) -> [Cell<'static>; 6] {
        [
            Plain(Text(b"  ")),
            Plain(Text(self.first.as_bytes())),
            number_cell(self.number),
            Plain(Text(self.middle.as_bytes())),
            number_cell(self.part),
            Plain(Text(self.last.as_bytes())),
        ]
    }
}

/// The cells that show a row's name behind a gap, or nothing if there is no row.
pub(crate) fn row_cells(row: Option<RowName>) -> [Cell<'static>; 6] {
    match row {
        Some(row) => row.cells(),
        None => [NOTHING; 6],
    }
}
