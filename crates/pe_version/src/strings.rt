//! `version_strings`: the strings of version information.

ghost use Rattle.std.specs.Prelude.{◌≡◌};
ghost use Rattle.pe_version.specs.Strings.{strings_of};
ghost use Rattle.pe_version.specs.StringsLeft.{strings_left};

use crate::tables::{TableStrings, VersionTables, version_tables};

/// A string of version information. Each part is UTF-16, of two bytes a unit.
#[derive(Clone, Copy, Debug)]
pub struct VersionString<'a> {
    /// The key of the table that has it: eight hexadecimal digits, of a language and a code page, if the file keeps to the format.
    pub table: &'a [u8],
    /// What it is called, like `FileVersion`.
    pub key: &'a [u8],
    /// The text, without the zero that ends it.
    pub value: &'a [u8],
}

/// The strings of version information, in the order of the bytes. Nothing is allocated; all strings together cost what the bytes do,
/// four times at most.
#[derive(Clone, Debug, Drop)]
pub struct VersionStrings<'a> {
    /// The tables after the one that was reached.
    pub(crate) tables: VersionTables<'a>,
    /// The key of that table.
    pub(crate) table: &'a [u8],
    /// The strings of that table that are left.
    pub(crate) strings: TableStrings<'a>,
}

/// The strings of version information, in its bytes: those of all tables in all blocks `StringFileInfo`. A string whose key no zero
/// ends has no value. ("VS_VERSIONINFO", StringFileInfo, StringTable, String.)
pub fn version_strings(bytes: &[u8]) -> VersionStrings<'_>
    ensures { strings_left result ≡ strings_of bytes.entry.now }
{
    VersionStrings {
        tables: version_tables(bytes),
        table: &[],
        strings: TableStrings::none(),
    }
}

impl<'a> Iterator for VersionStrings<'a> {
    ghost use Rattle.std.specs.Iterator.{YieldsFirstBy, item_count};
    ghost use Rattle.pe_version.specs.StringsLeft.{string_view};

    type Item = VersionString<'a>;

    ghost next_gives = { YieldsFirstBy string_view strings_left };

    ghost remaining = { item_count strings_left };

    fn next(&mut self) -> Option<VersionString<'a>> {
        loop {
            if let Some(string) = self.strings.next() {
                return Some(VersionString {
                    table: self.table,
                    key: string.key,
                    value: string.value,
                });
            }
            let table = self.tables.next()?;
            self.table = table.key;
            self.strings = table.strings;
        }
    }
}
