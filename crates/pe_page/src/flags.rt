//! Flags by name.

ghost use Rattle.std.specs.Prelude.{◌≡◌};
ghost use Rattle.pe_text.specs.TextWriter.{IsReady};
ghost use Rattle.pe_page.specs.Page.{AddsSome};
ghost use Rattle.pe_page.specs.Rows.{permissions};

use crate::cell::blanks;
use pe_head::{FlagKind, flag_name, section_flag};
use pe_text::Part::{Hex, Name, Text};
use pe_text::{Sink, TextWriter, hex_width, write_parts};

/// The flags of a section that its columns show: its contents and permissions. The alignment is a number.
const SHOWN_BY_COLUMNS: u32 = section_flag::CODE
    | section_flag::INITIALIZED_DATA
    | section_flag::UNINITIALIZED_DATA
    | section_flag::EXECUTE
    | section_flag::READ
    | section_flag::WRITE
    | 0x00f0_0000;

/// The row of flags: the column in which they begin, the column of those that follow on further rows, and the width of the page.
#[derive(Clone, Copy)]
pub struct FlagRow {
    pub column: usize,
    pub indent: usize,
    pub width: usize,
}

/// The flags of a field that are shown by name.
fn shown_flags(kind: FlagKind, flags: u32) -> u32 {
    match kind {
        FlagKind::Section => flags & !SHOWN_BY_COLUMNS,
        FlagKind::File | FlagKind::Dll => flags,
    }
}

/// Begins a further row if `len` columns more do not fit after a column, and returns the column in which they begin.
fn write_break<W: Sink>(text: &mut TextWriter<W>, row: &FlagRow, column: usize, len: usize) -> usize
    requires { IsReady W.failures text.old }
    ensures { AddsSome W.taken W.failures text.old text.new }
{
    if column <= row.indent || column.saturating_add(len) <= row.width {
        return column;
    }
    write_parts(text, &[Text(b"\n"), Text(blanks(row.indent))]);
    row.indent
}

/// Adds a blank and the name of a flag if it has one, and returns the column after it.
fn write_flag<W: Sink>(
    text: &mut TextWriter<W>,
    row: &FlagRow,
    column: usize,
    name: Option<&'static str>,
) -> usize
    requires { IsReady W.failures text.old }
    ensures { AddsSome W.taken W.failures text.old text.new }
{
    let Some(name) = name else {
        return column;
    };
    let len = name.len().saturating_add(1);
    let column = write_break(text, row, column, len);
    write_parts(text, &[Name(Some(name.as_bytes()))]);
    column.saturating_add(len)
}

/// Adds the flags without a name, if there are any: a blank, `0x` and digits.
fn write_unnamed<W: Sink>(text: &mut TextWriter<W>, row: &FlagRow, column: usize, flags: u32)
    requires { IsReady W.failures text.old }
    ensures { AddsSome W.taken W.failures text.old text.new }
{
    if flags == 0 {
        return;
    }
    let len = usize::from(hex_width(u64::from(flags))).saturating_add(3);
    write_break(text, row, column, len);
    write_parts(text, &[Text(b" 0x"), Hex(u64::from(flags), 1)]);
}

/// Adds a blank and a name for each flag that is set, in the order of their values, and then the flags without a name. Those that
/// do not fit into the page's width are on further rows.
pub(crate) fn write_flags<W: Sink>(
    text: &mut TextWriter<W>,
    kind: FlagKind,
    flags: u32,
    row: &FlagRow,
)
    requires { IsReady W.failures text.old }
    ensures { AddsSome W.taken W.failures text.old text.new }
{
    let flags = shown_flags(kind, flags);
    let mut unnamed = 0;
    let mut column = row.column;
    for bit in 0..32_u32 {
        let flag = flags & (1 << bit);
        let name = flag_name(kind, flag);
        if name.is_none() {
            unnamed |= flag;
        }
        column = write_flag(text, row, column, name);
    }
    write_unnamed(text, row, column, unnamed);
}

/// The permissions of a section by its flags, like `r-x` ("PE Format", Section Flags).
pub fn permissions(flags: u32) -> &'static [u8]
    ensures { result.now ≡ permissions flags }
{
    let read = flags & section_flag::READ != 0;
    let write = flags & section_flag::WRITE != 0;
    let execute = flags & section_flag::EXECUTE != 0;
    match (read, write, execute) {
        (false, false, false) => b"---",
        (false, false, true) => b"--x",
        (false, true, false) => b"-w-",
        (false, true, true) => b"-wx",
        (true, false, false) => b"r--",
        (true, false, true) => b"r-x",
        (true, true, false) => b"rw-",
        (true, true, true) => b"rwx",
    }
}
