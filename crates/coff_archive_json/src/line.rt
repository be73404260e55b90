//! What all lines have: their beginning, whether there is a fault, and the fault.

ghost use Rattle.std.specs.Prelude.{◌≡◌, Some, option_map};
ghost use Rattle.std.specs.Option.{option_or};
ghost use Rattle.pe_json.specs.Listed.{more};
ghost use Rattle.pe_text.specs.TextWriter.{IsReady, Adds};
ghost use Rattle.coff_archive_json.specs.Line.{alone, begun, refused_line, verdict};

use pe_detail::Detail;
use pe_json::{write_fault, write_name};
use pe_text::{Sink, TextWriter};
use pe_view::Fault;

/// Adds the beginning of a line: its schema, and the archive's name.
pub(crate) fn begin<W: Sink>(text: &mut TextWriter<W>, name: &[u8])
    requires { IsReady W.failures text.old }
    ensures { Adds W.taken W.failures text.old text.new (begun name.now) }
{
    text.text(b"{\"schema\":1");
    write_name(text, b",\"archive\":\"", b",\"archive_hex\":\"", name);
}

/// Adds a fault, with the numbers that its rule compares.
fn write_refusal<W: Sink>(text: &mut TextWriter<W>, fault: &Fault, detail: Option<Detail>)
    requires { IsReady W.failures text.old }
    ensures { Adds W.taken W.failures text.old text.new (more (verdict (Some (fault.now, detail)))) }
{
    text.text(b",\"accepted\":false");
    write_fault(text, fault, detail);
}

/// Adds whether there is no fault, and the fault if there is one.
pub(crate) fn write_verdict<W: Sink>(text: &mut TextWriter<W>, fault: &Option<Fault>)
    requires { IsReady W.failures text.old }
    ensures { Adds W.taken W.failures text.old text.new (more (verdict (option_map alone fault.now))) }
{
    match fault {
        Some(fault) => write_refusal(text, fault, None),
        None => text.text(b",\"accepted\":true"),
    }
}

/// Adds the first of two faults, of which the second has the numbers that its rule compares.
pub(crate) fn write_first_fault<W: Sink>(
    text: &mut TextWriter<W>,
    first: &Option<Fault>,
    fault: &Fault,
    detail: Option<Detail>,
)
    requires { IsReady W.failures text.old }
    ensures { Adds W.taken W.failures text.old text.new
        (more (verdict (option_or (option_map alone first.now) (Some (fault.now, detail))))) }
{
    match first {
        Some(first) => write_refusal(text, first, None),
        None => write_refusal(text, fault, detail),
    }
}

/// Adds the line of a fault for which no member is told: the file is no archive, or its members end.
pub(crate) fn write_refused_line<W: Sink>(text: &mut TextWriter<W>, name: &[u8], fault: &Fault)
    requires { IsReady W.failures text.old }
    ensures { Adds W.taken W.failures text.old text.new (refused_line name.now fault.now) }
{
    begin(text, name);
    write_refusal(text, fault, None);
    text.text(b"}");
    text.text(b"\n");
}
