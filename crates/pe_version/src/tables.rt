//! `version_tables`: the string tables of version information.

ghost use Rattle.std.specs.Prelude.{◌≡◌, false};
ghost use Rattle.pe_view.specs.View.{bytes_of};
ghost use Rattle.pe_version.specs.Blocks.{is_block};
ghost use Rattle.pe_version.specs.Root.{files_at, files_end};
ghost use Rattle.pe_version.specs.Tables.{tables_of};
ghost use Rattle.pe_version.specs.TablesLeft.{tables_left};

use crate::block::{aligned, word};
use crate::blocks::Blocks;
use crate::fixed::has_key;
use pe_view::View;

/// A string of a string table. Each part is UTF-16, of two bytes a unit.
#[derive(Clone, Copy, Debug)]
pub struct TableString<'a> {
    /// What it is called, like `FileVersion`.
    pub key: &'a [u8],
    /// The text, without the zero that ends it.
    pub value: &'a [u8],
}

/// The strings of a string table, in the order of the bytes. Nothing is allocated.
#[derive(Clone, Debug, Drop)]
pub struct TableStrings<'a> {
    pub(crate) strings: Blocks<'a>,
}

/// A string table of version information.
#[derive(Clone, Debug, Drop)]
pub struct VersionTable<'a> {
    /// Its key, in UTF-16: eight hexadecimal digits, of a language and a code page, if the file keeps to the format.
    pub key: &'a [u8],
    /// Its strings.
    pub strings: TableStrings<'a>,
}

/// The string tables of version information, in the order of the bytes. Nothing is allocated; all tables with their strings cost what
/// the bytes do, four times at most.
#[derive(Clone, Debug, Drop)]
pub struct VersionTables<'a> {
    pub(crate) files: Blocks<'a>,
    pub(crate) tables: Blocks<'a>,
}

/// The blocks in the first block of version information.
pub(crate) fn files<'a>(view: View<'a>) -> Blocks<'a>
    ensures view { result.view ≡ view.entry }
    ensures start { result.at ≡ files_at (bytes_of view.entry) }
    ensures end { result.end ≡ files_end (bytes_of view.entry) }
{
    if !has_key(view) {
        return Blocks::none(view);
    }
    let len = u64::from(word(view, 0));
    Blocks {
        view,
        at: aligned(40 + u32::from(word(view, 2))),
        end: len.min(view.len()) as u32,
    }
}

/// The string tables of version information, in its bytes: those of all blocks `StringFileInfo`. A string whose key no zero ends has no
/// value. ("VS_VERSIONINFO", StringFileInfo, StringTable, String.)
pub fn version_tables(bytes: &[u8]) -> VersionTables<'_>
    ensures { tables_left result ≡ tables_of bytes.entry.now }
{
    let view = View::new(bytes);
    VersionTables {
        files: files(view),
        tables: Blocks::none(view),
    }
}

impl<'a> TableStrings<'a> {
    ghost use Rattle.std.specs.Prelude.{[]};
    ghost use Rattle.pe_version.specs.TablesLeft.{entries_left};

    /// No strings.
    pub(crate) fn none() -> TableStrings<'a>
        ensures { entries_left result ≡ [] }
    {
        TableStrings {
            strings: Blocks::none(View::new(&[])),
        }
    }
}

impl<'a> Iterator for TableStrings<'a> {
    ghost use Rattle.std.specs.Iterator.{YieldsFirstBy, item_count};
    ghost use Rattle.pe_version.specs.TablesLeft.{entry_view, entries_left};

    type Item = TableString<'a>;

    ghost next_gives = { YieldsFirstBy entry_view entries_left };

    ghost remaining = { item_count entries_left };

    fn next(&mut self) -> Option<TableString<'a>> {
        let block = self.strings.next()?;
        Some(TableString {
            key: block.key(),
            value: block.value(),
        })
    }
}

impl<'a> VersionTables<'a> {
    ghost use Rattle.pe_version.specs.TablesLeft.{GoesOnTo};

    /// Goes to the next block that may hold tables. Whether there was one; if not, nothing is left.
    fn go_on(&mut self) -> bool
        requires { is_block (bytes_of self.old.tables.view) self.old.tables.end self.old.tables.at ≡ false }
        ensures { GoesOnTo self.old result self.new }
    {
        let Some(file) = self.files.next() else {
            return false;
        };
        if file.is_string_file_info() {
            self.tables = file.children();
        }
        true
    }
}

impl<'a> Iterator for VersionTables<'a> {
    ghost use Rattle.std.specs.Iterator.{YieldsFirstBy, item_count};
    ghost use Rattle.pe_version.specs.TablesLeft.{table_view};

    type Item = VersionTable<'a>;

    ghost next_gives = { YieldsFirstBy table_view tables_left };

    ghost remaining = { item_count tables_left };

    fn next(&mut self) -> Option<VersionTable<'a>> {
        while !self.tables.is_block() {
            if !self.go_on() {
                return None;
            }
        }
        let block = self.tables.next()?;
        Some(VersionTable {
            key: block.key(),
            strings: TableStrings {
                strings: block.children(),
            },
        })
    }
}
