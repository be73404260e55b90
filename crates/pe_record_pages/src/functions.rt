//! The functions of the exception table of an image, one per row.

ghost use Rattle.pe_text.specs.TextWriter.{IsReady};
ghost use Rattle.pe_page.specs.Page.{AddsSome};

use crate::arm_unwind::write_arm_unwind;
use crate::shown_image::ShownImage;
use crate::unwind::{rva_width, unwind_cells, write_unwind};
use pe_layout::Layout;
use pe_page::Cell::{self, Plain};
use pe_page::{NOTHING, SectionNames, plural, write_cells, write_heading};
use pe_records::{ArmFunction, ExceptionTable, Function, Records, exception_table};
use pe_text::Part::{Hex, Text};
use pe_text::{ShowOptions, Sink, TextWriter};

/// The number of functions of an exception table; none if its machine has a table of another form.
fn count_of(table: &ExceptionTable) -> Option<u32> {
    match table {
        ExceptionTable::Amd64(functions) => Some(functions.len()),
        ExceptionTable::Arm(functions) => Some(functions.len()),
        ExceptionTable::Other => None,
    }
}

/// Adds the summary of the exception table: how many functions it has.
pub(crate) fn write_function_count<W: Sink>(text: &mut TextWriter<W>, layout: &Layout)
    requires { IsReady W.failures text.old }
    ensures { AddsSome W.taken W.failures text.old text.new }
{
    match count_of(&exception_table(layout)) {
        Some(count) => write_cells(
            text,
            &[
                Cell::Count(u64::from(count)),
                plural(count as usize, b" function", b" functions"),
            ],
        ),
        None => text.text(b"not read"),
    }
}

/// Function `index`, if it contains an RVA.
fn around(functions: &Records<Function>, index: u32, rva: u32) -> Option<Function> {
    let function = functions.get(index)?;
    (function.begin <= rva && rva < function.end).then_some(function)
}

/// The first function that contains an RVA.
fn find_around(functions: &Records<Function>, rva: u32) -> Option<Function> {
    for index in 0..functions.len() {
        let found = around(functions, index, rva);
        if found.is_some() {
            return found;
        }
    }
    None
}

/// The function of an AMD64 image that contains an RVA, like `  function 0x1010 to 0x11ff`, with its frame register and its handler if it
/// has them, like `  frame RBP+0x20  handler 0x1350`. That of another machine has no end in the exception table.
pub fn function_cells(layout: &Layout, rva: u32) -> [Cell<'static>; 10] {
    let found = match exception_table(layout) {
        ExceptionTable::Amd64(functions) => find_around(&functions, rva),
        _ => None,
    };
    let Some(function) = found else {
        return [NOTHING; 10];
    };
    let [frame, register, plus, offset, words, handler] = unwind_cells(layout, &function);
    [
        Plain(Text(b"  function 0x")),
        Plain(Hex(u64::from(function.begin), 1)),
        Plain(Text(b" to 0x")),
        Plain(Hex(u64::from(function.end), 1)),
        frame,
        register,
        plus,
        offset,
        words,
        handler,
    ]
}

/// Adds the row of a function of an AMD64 image: where it begins and ends, its unwind information, and its place.
fn write_row<W: Sink>(
    text: &mut TextWriter<W>,
    layout: &Layout,
    names: &SectionNames,
    function: &Function,
)
    requires { IsReady W.failures text.old }
    ensures { AddsSome W.taken W.failures text.old text.new }
{
    let width = rva_width(layout);
    write_cells(
        text,
        &[
            Plain(Text(b"  0x")),
            Plain(Hex(u64::from(function.begin), width)),
            Plain(Text(b"  0x")),
            Plain(Hex(u64::from(function.end), width)),
            Plain(Text(b"  0x")),
            Plain(Hex(u64::from(function.unwind), width)),
            Plain(Text(b"  ")),
            Cell::Place(names.place(layout, function.begin)),
            Plain(Text(b"\n")),
        ],
    );
}

/// Adds the rows of the unwind information of a function of an AMD64 image, if the options select them.
fn write_selected<W: Sink>(
    text: &mut TextWriter<W>,
    options: &ShowOptions,
    layout: &Layout,
    names: &SectionNames,
    function: &Function,
)
    requires { IsReady W.failures text.old }
    ensures { AddsSome W.taken W.failures text.old text.new }
{
    if options.unwind {
        write_unwind(text, layout, names, function);
    }
}

/// Adds the rows of function `index` of an AMD64 image.
fn write_function<W: Sink>(
    text: &mut TextWriter<W>,
    options: &ShowOptions,
    layout: &Layout,
    names: &SectionNames,
    functions: &Records<Function>,
    index: u32,
)
    requires { IsReady W.failures text.old }
    ensures { AddsSome W.taken W.failures text.old text.new }
{
    let Some(function) = functions.get(index) else {
        return;
    };
    write_row(text, layout, names, &function);
    write_selected(text, options, layout, names, &function);
}

/// Adds the row of a function of an ARM64 or ARMNT image: where it begins, its unwind record, and its place.
fn write_arm_row<W: Sink>(
    text: &mut TextWriter<W>,
    layout: &Layout,
    names: &SectionNames,
    function: &ArmFunction,
)
    requires { IsReady W.failures text.old }
    ensures { AddsSome W.taken W.failures text.old text.new }
{
    let words: &[u8] = if function.unwind % 4 == 0 {
        b"  record 0x"
    } else {
        b"  packed 0x"
    };
    write_cells(
        text,
        &[
            Plain(Text(b"  0x")),
            Plain(Hex(u64::from(function.begin), rva_width(layout))),
            Plain(Text(words)),
            Plain(Hex(u64::from(function.unwind), 8)),
            Plain(Text(b"  ")),
            Cell::Place(names.place(layout, function.begin)),
            Plain(Text(b"\n")),
        ],
    );
}

/// Adds the rows of the unwind record of a function of an ARM64 image, if the options select them.
fn write_selected_arm<W: Sink>(
    text: &mut TextWriter<W>,
    options: &ShowOptions,
    layout: &Layout,
    names: &SectionNames,
    function: &ArmFunction,
)
    requires { IsReady W.failures text.old }
    ensures { AddsSome W.taken W.failures text.old text.new }
{
    if options.unwind {
        write_arm_unwind(text, layout, names, function);
    }
}

/// Adds the rows of function `index` of an ARM64 or ARMNT image.
fn write_arm_function<W: Sink>(
    text: &mut TextWriter<W>,
    options: &ShowOptions,
    layout: &Layout,
    names: &SectionNames,
    functions: &Records<ArmFunction>,
    index: u32,
)
    requires { IsReady W.failures text.old }
    ensures { AddsSome W.taken W.failures text.old text.new }
{
    let Some(function) = functions.get(index) else {
        return;
    };
    write_arm_row(text, layout, names, &function);
    write_selected_arm(text, options, layout, names, &function);
}

/// Adds the rows of each function of an AMD64 image.
fn write_each<W: Sink>(
    text: &mut TextWriter<W>,
    options: &ShowOptions,
    layout: &Layout,
    names: &SectionNames,
    functions: &Records<Function>,
)
    requires { IsReady W.failures text.old }
    ensures { AddsSome W.taken W.failures text.old text.new }
{
    text.text(b"  begin     end       unwind    place\n");
    for index in 0..functions.len() {
        if text.has_failed() {
            return;
        }
        write_function(text, options, layout, names, functions, index);
    }
}

/// Adds the rows of each function of an ARM64 or ARMNT image.
fn write_each_arm<W: Sink>(
    text: &mut TextWriter<W>,
    options: &ShowOptions,
    layout: &Layout,
    names: &SectionNames,
    functions: &Records<ArmFunction>,
)
    requires { IsReady W.failures text.old }
    ensures { AddsSome W.taken W.failures text.old text.new }
{
    text.text(b"  begin     unwind             place\n");
    for index in 0..functions.len() {
        if text.has_failed() {
            return;
        }
        write_arm_function(text, options, layout, names, functions, index);
    }
}

/// Adds the rows of a table.
fn write_table<W: Sink>(
    text: &mut TextWriter<W>,
    options: &ShowOptions,
    layout: &Layout,
    names: &SectionNames,
    table: &ExceptionTable,
)
    requires { IsReady W.failures text.old }
    ensures { AddsSome W.taken W.failures text.old text.new }
{
    match table {
        ExceptionTable::Amd64(functions) => write_each(text, options, layout, names, functions),
        ExceptionTable::Arm(functions) => write_each_arm(text, options, layout, names, functions),
        ExceptionTable::Other => {}
    }
}

/// Adds the heading and the rows of a table of so many functions.
fn write_all<W: Sink>(
    text: &mut TextWriter<W>,
    options: &ShowOptions,
    layout: &Layout,
    names: &SectionNames,
    table: &ExceptionTable,
    count: u32,
)
    requires { IsReady W.failures text.old }
    ensures { AddsSome W.taken W.failures text.old text.new }
{
    write_heading(text, options, b"Functions", count as usize);
    write_table(text, options, layout, names, table);
}

/// Whether the options select the rows of functions, or of their unwind information.
fn is_selected(options: &ShowOptions) -> bool {
    options.functions || options.unwind
}

/// Adds the rows of each function of the exception table, if the options select them or those of unwind information.
pub fn write_functions<W: Sink>(
    text: &mut TextWriter<W>,
    options: &ShowOptions,
    image: &ShownImage,
    names: &SectionNames,
)
    requires { IsReady W.failures text.old }
    ensures { AddsSome W.taken W.failures text.old text.new }
{
    let table = exception_table(image.layout);
    let count = count_of(&table).unwrap_or(0);
    if count > 0 && is_selected(options) {
        write_all(text, options, image.layout, names, &table, count);
    }
}
