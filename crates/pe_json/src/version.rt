//! The version information of an image.

ghost use Rattle.std.specs.Prelude.{◌++◌, [], ◌∷◌, codes, map, option_map, true};
ghost use Rattle.pe_layout.specs.Layout.{image_of};
ghost use Rattle.pe_version.specs.Tables.{tables_of};
ghost use Rattle.pe_version.specs.TablesLeft.{entries_left, entry_view, table_view, tables_left};
ghost use Rattle.pe_text.specs.TextWriter.{IsReady, Adds};
ghost use Rattle.pe_json.specs.JsonText.{with_commas};
ghost use Rattle.pe_json.specs.Listed.{items_text, more};
ghost use Rattle.pe_json.specs.VersionRows.{fixed_members, four_numbers, kind_numbers, string_row, table_row, tables_member, version_in, version_members, version_numbers};

use crate::string::write_number;
use crate::utf16::write_units;
use pe_layout::Layout;
use pe_resources::{leaf_data, version};
use pe_text::{Sink, TextWriter};
use pe_version::{
    FixedInfo, TableString, TableStrings, VersionTable, VersionTables, fixed_info, version_tables,
};

/// Adds the four numbers of a version after their key, which ends with what comes before the first, given the two fields that have them.
fn write_four_numbers<W: Sink>(text: &mut TextWriter<W>, key: &[u8], high: u32, low: u32)
    requires { IsReady W.failures text.old }
    ensures { Adds W.taken W.failures text.old text.new (key.now ++ (with_commas (four_numbers high low) ++ codes "]")) }
{
    write_number(text, key, (high / 0x1_0000) as u64);
    write_number(text, b",", (high % 0x1_0000) as u64);
    write_number(text, b",", (low / 0x1_0000) as u64);
    write_number(text, b",", (low % 0x1_0000) as u64);
    text.text(b"]");
}

/// Adds the versions of the file and of the product.
fn write_versions<W: Sink>(text: &mut TextWriter<W>, fixed: &FixedInfo)
    requires { IsReady W.failures text.old }
    ensures { Adds W.taken W.failures text.old text.new (more (version_numbers fixed.now)) }
{
    write_four_numbers(
        text,
        b",\"file_version\":[",
        fixed.file_version_high,
        fixed.file_version_low,
    );
    write_four_numbers(
        text,
        b",\"product_version\":[",
        fixed.product_version_high,
        fixed.product_version_low,
    );
}

/// Adds what the file is, and for which system.
fn write_kind<W: Sink>(text: &mut TextWriter<W>, fixed: &FixedInfo)
    requires { IsReady W.failures text.old }
    ensures { Adds W.taken W.failures text.old text.new (more (kind_numbers fixed.now)) }
{
    write_number(text, b",\"flags_mask\":", fixed.flags_mask as u64);
    write_number(text, b",\"flags\":", fixed.flags as u64);
    write_number(text, b",\"system\":", fixed.system as u64);
    write_number(text, b",\"type\":", fixed.kind as u64);
    write_number(text, b",\"subtype\":", fixed.subkind as u64);
}

/// Adds the fixed part, if there is one.
fn write_fixed<W: Sink>(text: &mut TextWriter<W>, fixed: Option<FixedInfo>)
    requires { IsReady W.failures text.old }
    ensures { Adds W.taken W.failures text.old text.new (more (fixed_members fixed)) }
{
    let Some(fixed) = fixed else {
        return;
    };
    write_versions(text, &fixed);
    write_kind(text, &fixed);
}

/// Adds a string.
fn write_string_row<W: Sink>(text: &mut TextWriter<W>, string: &TableString)
    requires { IsReady W.failures text.old }
    ensures { Adds W.taken W.failures text.old text.new (string_row (entry_view string.now)) }
{
    text.text(b"{\"key\":");
    write_units(text, string.key);
    text.text(b",\"value\":");
    write_units(text, string.value);
    text.text(b"}");
}

/// Adds a string, after a comma unless it is the first of the list.
fn write_next_string<W: Sink>(text: &mut TextWriter<W>, first: bool, string: &TableString)
    requires { IsReady W.failures text.old }
    ensures { Adds W.taken W.failures text.old text.new (items_text first (string_row (entry_view string.now) ∷ [])) }
{
    if first {
        write_string_row(text, string);
    } else {
        text.text(b",");
        write_string_row(text, string);
    }
}

/// Adds strings, with a comma between two.
fn write_each_string<W: Sink>(text: &mut TextWriter<W>, strings: TableStrings)
    requires { IsReady W.failures text.old }
    ensures { Adds W.taken W.failures text.old text.new (items_text true (map string_row (entries_left strings.entry))) }
{
    let mut first = true;
    for string in strings {
        if text.has_failed() {
            return;
        }
        write_next_string(text, first, &string);
        first = false;
    }
}

/// Adds a string table: its key, and its strings.
fn write_table<W: Sink>(text: &mut TextWriter<W>, table: VersionTable)
    requires { IsReady W.failures text.old }
    ensures { Adds W.taken W.failures text.old text.new (table_row (table_view table.entry)) }
{
    text.text(b"{\"key\":");
    write_units(text, table.key);
    text.text(b",\"strings\":[");
    write_each_string(text, table.strings);
    text.text(b"]}");
}

/// Adds a string table, after a comma unless it is the first of the list.
fn write_next_table<W: Sink>(text: &mut TextWriter<W>, first: bool, table: VersionTable)
    requires { IsReady W.failures text.old }
    ensures { Adds W.taken W.failures text.old text.new (items_text first (table_row (table_view table.entry) ∷ [])) }
{
    if first {
        write_table(text, table);
    } else {
        text.text(b",");
        write_table(text, table);
    }
}

/// Adds string tables, with a comma between two.
fn write_each_table<W: Sink>(text: &mut TextWriter<W>, tables: VersionTables)
    requires { IsReady W.failures text.old }
    ensures { Adds W.taken W.failures text.old text.new (items_text true (map table_row (tables_left tables.entry))) }
{
    let mut first = true;
    for table in tables {
        if text.has_failed() {
            return;
        }
        write_next_table(text, first, table);
        first = false;
    }
}

/// Adds the member that lists the string tables in the bytes of version information.
fn write_tables<W: Sink>(text: &mut TextWriter<W>, bytes: &[u8])
    requires { IsReady W.failures text.old }
    ensures { Adds W.taken W.failures text.old text.new (more (tables_member (tables_of bytes.now))) }
{
    text.text(b",\"string_tables\":[");
    write_each_table(text, version_tables(bytes));
    text.text(b"]");
}

/// Adds what version information says, if the file holds its bytes in one run.
fn write_version_data<W: Sink>(text: &mut TextWriter<W>, bytes: Option<&[u8]>)
    requires { IsReady W.failures text.old }
    ensures { Adds W.taken W.failures text.old text.new (more (version_in (option_map (λ bytes. bytes.now) bytes.entry))) }
{
    let Some(bytes) = bytes else {
        return;
    };
    write_fixed(text, fixed_info(bytes));
    write_tables(text, bytes);
}

/// Adds the version information, if there is any.
pub(crate) fn write_version<W: Sink>(text: &mut TextWriter<W>, layout: &Layout)
    requires { IsReady W.failures text.old }
    ensures { Adds W.taken W.failures text.old text.new (more (version_members (image_of layout.now))) }
{
    let Some(leaf) = version(layout) else {
        return;
    };
    write_number(text, b",\"version\":{\"rva\":", leaf.rva as u64);
    write_version_data(text, leaf_data(layout, &leaf));
    text.text(b"}");
}
