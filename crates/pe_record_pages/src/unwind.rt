//! The unwind information of the functions of an AMD64 image, below their rows.

ghost use Rattle.pe_text.specs.TextWriter.{IsReady};
ghost use Rattle.pe_page.specs.Page.{AddsSome};

use pe_layout::Layout;
use pe_page::Cell::{self, Plain};
use pe_page::{NOTHING, SectionNames, write_cells, write_finding};
use pe_records::Function;
use pe_text::Part::{Decimal, Hex, Hex2, Text};
use pe_text::{Sink, TextWriter, hex_width, write_parts};
use pe_unwind::{
    Chain, Operation, UnwindInformation, operation_code, operation_name, register_name,
};
use pe_view::Fault;

/// How many digits an RVA of an image has in the rows of functions.
pub(crate) fn rva_width(layout: &Layout) -> u8 {
    hex_width(u64::from(layout.size())).max(6)
}

/// The unwind information of a function. One that has that of another function has none of its own.
fn own_information(layout: &Layout, function: &Function) -> Option<UnwindInformation> {
    if function.unwind % 2 == 1 {
        return None;
    }
    UnwindInformation::at(layout, function.unwind)
}

/// The name of a general register.
fn register_cell(register: u8) -> Cell<'static> {
    match register_name(register) {
        Some(name) => Plain(Text(name.as_bytes())),
        None => NOTHING,
    }
}

/// Some words, a register and an offset from it, like `  frame RBP+0x20`.
fn frame_cells(words: &'static [u8], information: &UnwindInformation) -> [Cell<'static>; 4] {
    [
        Plain(Text(words)),
        register_cell(information.frame_register),
        Plain(Text(b"+0x")),
        Plain(Hex(u64::from(information.frame_offset), 1)),
    ]
}

/// The frame register, if the function has one.
fn own_frame_cells(information: &UnwindInformation) -> [Cell<'static>; 4] {
    if information.frame_register == 0 {
        return [NOTHING; 4];
    }
    frame_cells(b"  frame ", information)
}

/// The frame register and the handler of a function of an AMD64 image, like `  frame RBP+0x20  handler 0x1350`, if it has them.
pub(crate) fn unwind_cells(layout: &Layout, function: &Function) -> [Cell<'static>; 6] {
    let Some(information) = own_information(layout, function) else {
        return [NOTHING; 6];
    };
    let [frame, register, plus, offset] = own_frame_cells(&information);
    let (words, handler) = match information.handler(layout) {
        Some(rva) => (Plain(Text(b"  handler 0x")), Plain(Hex(u64::from(rva), 1))),
        None => (NOTHING, NOTHING),
    };
    [frame, register, plus, offset, words, handler]
}

/// The flags that are set, by name.
fn flag_words(flags: u8) -> &'static [u8] {
    match flags % 8 {
        0 => b"",
        1 => b"  EHANDLER",
        2 => b"  UHANDLER",
        3 => b"  EHANDLER UHANDLER",
        4 => b"  CHAININFO",
        5 => b"  EHANDLER CHAININFO",
        6 => b"  UHANDLER CHAININFO",
        _ => b"  EHANDLER UHANDLER CHAININFO",
    }
}

/// Adds some words, and the RVA and the place of a handler, if there is one.
pub(crate) fn write_handler<W: Sink>(
    text: &mut TextWriter<W>,
    layout: &Layout,
    names: &SectionNames,
    words: &'static [u8],
    handler: Option<u32>,
)
    requires { IsReady W.failures text.old }
    ensures { AddsSome W.taken W.failures text.old text.new }
{
    if let Some(rva) = handler {
        write_cells(
            text,
            &[
                Plain(Text(words)),
                Plain(Hex(u64::from(rva), rva_width(layout))),
                Plain(Text(b" ")),
                Cell::Place(names.place(layout, rva)),
            ],
        );
    }
}

/// Adds the row of unwind information: its version, the prologue's size, the frame register, the flags and the handler.
fn write_information<W: Sink>(
    text: &mut TextWriter<W>,
    layout: &Layout,
    names: &SectionNames,
    information: &UnwindInformation,
)
    requires { IsReady W.failures text.old }
    ensures { AddsSome W.taken W.failures text.old text.new }
{
    write_parts(
        text,
        &[
            Text(b"    version "),
            Decimal(u64::from(information.version)),
            Text(b"  prologue 0x"),
            Hex2(information.prologue),
        ],
    );
    write_cells(text, &own_frame_cells(information));
    text.text(flag_words(information.flags));
    write_handler(text, layout, names, b" 0x", information.handler(layout));
    text.text(b"\n");
}

/// What an operation saves at an offset.
fn saved_cells(name: [Cell<'static>; 2], operation: &Operation) -> [Cell<'static>; 4] {
    let [word, number] = name;
    [
        word,
        number,
        Plain(Text(b" at 0x")),
        Plain(Hex(u64::from(operation.operand), 1)),
    ]
}

/// Where the epilogs of an EPILOG are.
fn epilog_cells(operation: &Operation) -> [Cell<'static>; 4] {
    let end = if operation.info % 2 == 1 {
        Plain(Text(b" at the end"))
    } else {
        NOTHING
    };
    if operation.operand == 0 {
        return [end, NOTHING, NOTHING, NOTHING];
    }
    [
        end,
        Plain(Text(b" 0x")),
        Plain(Hex(u64::from(operation.operand), 1)),
        Plain(Text(b" before the end")),
    ]
}

/// What an operation works on.
fn operand_cells(information: &UnwindInformation, operation: &Operation) -> [Cell<'static>; 4] {
    let blank = Plain(Text(b" "));
    match operation.code {
        operation_code::PUSH_NONVOL => [blank, register_cell(operation.info), NOTHING, NOTHING],
        operation_code::ALLOC_LARGE | operation_code::ALLOC_SMALL => [
            Plain(Text(b" 0x")),
            Plain(Hex(u64::from(operation.operand), 1)),
            NOTHING,
            NOTHING,
        ],
        operation_code::SET_FPREG => frame_cells(b" ", information),
        operation_code::SAVE_NONVOL | operation_code::SAVE_NONVOL_FAR => {
            saved_cells([blank, register_cell(operation.info)], operation)
        }
        operation_code::SAVE_XMM128 | operation_code::SAVE_XMM128_FAR => saved_cells(
            [
                Plain(Text(b" XMM")),
                Plain(Decimal(u64::from(operation.info))),
            ],
            operation,
        ),
        operation_code::EPILOG => epilog_cells(operation),
        operation_code::PUSH_MACHFRAME if operation.info == 1 => {
            [Plain(Text(b" with error code")), NOTHING, NOTHING, NOTHING]
        }
        _ => [NOTHING; 4],
    }
}

/// The name of an operation.
fn operation_cell(code: u8) -> Cell<'static> {
    match operation_name(code) {
        Some(name) => Plain(Text(name.as_bytes())),
        None => NOTHING,
    }
}

/// Adds the row of an operation.
fn write_operation<W: Sink>(
    text: &mut TextWriter<W>,
    information: &UnwindInformation,
    operation: &Operation,
)
    requires { IsReady W.failures text.old }
    ensures { AddsSome W.taken W.failures text.old text.new }
{
    let [first, second, third, fourth] = operand_cells(information, operation);
    write_cells(
        text,
        &[
            Plain(Text(b"    0x")),
            Plain(Hex2(operation.offset)),
            Plain(Text(b"  ")),
            operation_cell(operation.code),
            first,
            second,
            third,
            fourth,
            Plain(Text(b"\n")),
        ],
    );
}

/// Adds the row of a finding below a function's row.
fn write_below<W: Sink>(text: &mut TextWriter<W>, finding: &Fault)
    requires { IsReady W.failures text.old }
    ensures { AddsSome W.taken W.failures text.old text.new }
{
    text.text(b"  ");
    write_finding(text, finding);
}

/// Adds the row of an operation, or of the finding that ends them.
fn write_read<W: Sink>(
    text: &mut TextWriter<W>,
    information: &UnwindInformation,
    read: &Result<Operation, Fault>,
)
    requires { IsReady W.failures text.old }
    ensures { AddsSome W.taken W.failures text.old text.new }
{
    match read {
        Ok(operation) => write_operation(text, information, operation),
        Err(finding) => write_below(text, finding),
    }
}

/// Adds a row for each operation of unwind information.
fn write_operations<W: Sink>(
    text: &mut TextWriter<W>,
    layout: &Layout,
    information: &UnwindInformation,
)
    requires { IsReady W.failures text.old }
    ensures { AddsSome W.taken W.failures text.old text.new }
{
    for read in information.operations(layout) {
        if text.has_failed() {
            return;
        }
        write_read(text, information, &read);
    }
}

/// Adds the row of the finding of unwind information, if it has one.
fn write_found<W: Sink>(text: &mut TextWriter<W>, layout: &Layout, information: &UnwindInformation)
    requires { IsReady W.failures text.old }
    ensures { AddsSome W.taken W.failures text.old text.new }
{
    if let Some(finding) = information.finding(layout) {
        write_below(text, &finding);
    }
}

/// Adds the rows of the unwind information of a function.
fn write_own<W: Sink>(
    text: &mut TextWriter<W>,
    layout: &Layout,
    names: &SectionNames,
    function: &Function,
)
    requires { IsReady W.failures text.old }
    ensures { AddsSome W.taken W.failures text.old text.new }
{
    if let Some(information) = own_information(layout, function) {
        write_information(text, layout, names, &information);
        write_found(text, layout, &information);
        write_operations(text, layout, &information);
    }
}

/// Adds the row of a function in a chain, or of the finding that ends it.
fn write_link<W: Sink>(text: &mut TextWriter<W>, layout: &Layout, link: &Result<Function, Fault>)
    requires { IsReady W.failures text.old }
    ensures { AddsSome W.taken W.failures text.old text.new }
{
    let width = rva_width(layout);
    match link {
        Ok(function) => write_parts(
            text,
            &[
                Text(b"    chained to 0x"),
                Hex(u64::from(function.begin), width),
                Text(b"  0x"),
                Hex(u64::from(function.end), width),
                Text(b"  0x"),
                Hex(u64::from(function.unwind), width),
                Text(b"\n"),
            ],
        ),
        Err(finding) => write_below(text, finding),
    }
}

/// Adds a row for each function that a function is chained to.
fn write_chain<W: Sink>(text: &mut TextWriter<W>, layout: &Layout, function: &Function)
    requires { IsReady W.failures text.old }
    ensures { AddsSome W.taken W.failures text.old text.new }
{
    for link in Chain::of(layout, function) {
        if text.has_failed() {
            return;
        }
        write_link(text, layout, &link);
    }
}

/// Adds the rows of the unwind information of a function of an AMD64 image, and of the functions that it is chained to.
pub(crate) fn write_unwind<W: Sink>(
    text: &mut TextWriter<W>,
    layout: &Layout,
    names: &SectionNames,
    function: &Function,
)
    requires { IsReady W.failures text.old }
    ensures { AddsSome W.taken W.failures text.old text.new }
{
    write_own(text, layout, names, function);
    write_chain(text, layout, function);
}
