//! The unwind records of the functions of an ARM64 image, below their rows.

ghost use Rattle.pe_text.specs.TextWriter.{IsReady};
ghost use Rattle.pe_page.specs.Page.{AddsSome};

use crate::unwind::write_handler;
use pe_head::machine;
use pe_layout::Layout;
use pe_page::SectionNames;
use pe_records::ArmFunction;
use pe_text::Part::{Decimal, Hex, Hex2, Text};
use pe_text::{Sink, TextWriter, write_parts};
use pe_unwind::ArmUnwind;

/// How many bytes of codes a row has.
const CODES_SHOWN: u32 = 16;

/// The unwind record of a function. Those of ARMNT images have another form.
fn record_of(layout: &Layout, function: &ArmFunction) -> Option<ArmUnwind> {
    if layout.machine() != machine::ARM64 || function.unwind % 4 != 0 {
        return None;
    }
    ArmUnwind::at(layout, function.unwind)
}

/// Adds the row of an unwind record: its version, the function's length, its epilogs, the size of its codes and the handler.
fn write_record<W: Sink>(
    text: &mut TextWriter<W>,
    layout: &Layout,
    names: &SectionNames,
    record: &ArmUnwind,
)
    requires { IsReady W.failures text.old }
    ensures { AddsSome W.taken W.failures text.old text.new }
{
    let words: &[u8] = if record.has_single_epilog {
        b"  single epilog at code "
    } else {
        b"  epilogs "
    };
    write_parts(
        text,
        &[
            Text(b"    version "),
            Decimal(u64::from(record.version)),
            Text(b"  length 0x"),
            Hex(u64::from(record.function_length), 1),
            Text(words),
            Decimal(u64::from(record.epilog_count)),
            Text(b"  codes "),
            Decimal(u64::from(record.code_count())),
        ],
    );
    write_handler(text, layout, names, b"  handler 0x", record.handler(layout));
    text.text(b"\n");
}

/// Adds byte `index` of the codes, if it is there.
fn write_code<W: Sink>(text: &mut TextWriter<W>, layout: &Layout, record: &ArmUnwind, index: u32)
    requires { IsReady W.failures text.old }
    ensures { AddsSome W.taken W.failures text.old text.new }
{
    if let Some(code) = record.code(layout, index) {
        write_parts(text, &[Text(b" "), Hex2(code)]);
    }
}

/// Adds a row of codes, from byte `first` on.
fn write_row<W: Sink>(text: &mut TextWriter<W>, layout: &Layout, record: &ArmUnwind, first: u32)
    requires { IsReady W.failures text.old }
    ensures { AddsSome W.taken W.failures text.old text.new }
{
    text.text(b"   ");
    for index in first..first.saturating_add(CODES_SHOWN) {
        write_code(text, layout, record, index);
    }
    text.text(b"\n");
}

/// Adds the codes of an unwind record, if they are in the image.
fn write_codes<W: Sink>(text: &mut TextWriter<W>, layout: &Layout, record: &ArmUnwind)
    requires { IsReady W.failures text.old }
    ensures { AddsSome W.taken W.failures text.old text.new }
{
    if record.code(layout, 0).is_none() {
        return;
    }
    for row in 0..record.code_count().div_ceil(CODES_SHOWN) {
        if text.has_failed() {
            return;
        }
        write_row(text, layout, record, row.saturating_mul(CODES_SHOWN));
    }
}

/// Adds the rows of the unwind record of a function of an ARM64 image, if it has one.
pub(crate) fn write_arm_unwind<W: Sink>(
    text: &mut TextWriter<W>,
    layout: &Layout,
    names: &SectionNames,
    function: &ArmFunction,
)
    requires { IsReady W.failures text.old }
    ensures { AddsSome W.taken W.failures text.old text.new }
{
    if let Some(record) = record_of(layout, function) {
        write_record(text, layout, names, &record);
        write_codes(text, layout, &record);
    }
}
