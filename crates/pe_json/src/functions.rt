//! The functions of an image's exception table.

ghost use Rattle.std.specs.Prelude.{◌≡◌};
ghost use Rattle.pe_layout.specs.Layout.{headers_of, image_of};
ghost use Rattle.pe_records.specs.Records.{table_bytes};
ghost use Rattle.pe_text.specs.TextWriter.{IsReady, Adds};
ghost use Rattle.pe_json.specs.FunctionRows.{count_member, function_count_in, function_row, arm_function_row, rows_in, list_member, function_members};
ghost use Rattle.pe_json.specs.Listed.{more};

use crate::rows::{Row, write_list};
use crate::string::write_number;
use pe_head::directory_index;
use pe_layout::Layout;
use pe_records::{ArmFunction, ExceptionTable, Function, exception_table};
use pe_text::{Sink, TextWriter};

/// How many functions the exception table has, if those of the machine have a form that is known.
fn function_count(layout: &Layout) -> Option<u32>
    ensures { result ≡ function_count_in (headers_of layout.now).machine (table_bytes (image_of layout.now) ((image_of layout.now).directory 3)) }
{
    match exception_table(layout) {
        ExceptionTable::Amd64(functions) => Some(functions.len()),
        ExceptionTable::Arm(functions) => Some(functions.len()),
        ExceptionTable::Other => None,
    }
}

/// Adds a number of functions, if there is one.
fn write_count<W: Sink>(text: &mut TextWriter<W>, count: Option<u32>)
    requires { IsReady W.failures text.old }
    ensures { Adds W.taken W.failures text.old text.new (more (count_member count)) }
{
    let Some(count) = count else {
        return;
    };
    write_number(text, b",\"function_count\":", count as u64);
}

impl Row for Function {
    ghost row_text = { function_row };

    fn write<W: Sink>(&self, text: &mut TextWriter<W>) {
        write_number(text, b"{\"begin\":", self.begin as u64);
        write_number(text, b",\"end\":", self.end as u64);
        write_number(text, b",\"unwind\":", self.unwind as u64);
        text.text(b"}");
    }
}

impl Row for ArmFunction {
    ghost row_text = { arm_function_row };

    fn write<W: Sink>(&self, text: &mut TextWriter<W>) {
        write_number(text, b"{\"begin\":", self.begin as u64);
        write_number(text, b",\"unwind\":", self.unwind as u64);
        text.text(b"}");
    }
}

/// Adds the member that lists the functions, if those of the machine have a form that is known.
fn write_rows<W: Sink>(text: &mut TextWriter<W>, layout: &Layout)
    requires { IsReady W.failures text.old }
    ensures { Adds W.taken W.failures text.old text.new
        (more (list_member (rows_in (headers_of layout.now).machine (table_bytes (image_of layout.now) ((image_of layout.now).directory 3))))) }
{
    match exception_table(layout) {
        ExceptionTable::Amd64(functions) => write_list(text, b",\"functions\":[", &functions),
        ExceptionTable::Arm(functions) => write_list(text, b",\"functions\":[", &functions),
        ExceptionTable::Other => {}
    }
}

/// Adds the number of functions, if the image has an exception directory, and the functions themselves if they are asked for.
pub(crate) fn write_functions<W: Sink>(text: &mut TextWriter<W>, layout: &Layout, listed: bool)
    requires { IsReady W.failures text.old }
    ensures { Adds W.taken W.failures text.old text.new (more (function_members listed (headers_of layout.now).machine (image_of layout.now))) }
{
    let Some(_) = layout.directory(directory_index::EXCEPTION) else {
        return;
    };
    write_count(text, function_count(layout));
    if listed {
        write_rows(text, layout);
    }
}
