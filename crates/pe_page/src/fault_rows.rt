//! The rows of a page that state a fault or a finding.

ghost use Rattle.pe_text.specs.TextWriter.{IsReady};
ghost use Rattle.pe_page.specs.Page.{AddsSome};

use crate::style::{end_style, refusal_style};
use pe_text::Part::{Decimal, Text};
use pe_text::{FileKind, ShowOptions, Sink, TextWriter, fault_sentence, write_parts};
use pe_view::Fault;

/// Begins the row of a file's fault: `Fault 304: Name of a member at 0x8: it leads to no text`.
pub fn begin_refusal<W: Sink>(text: &mut TextWriter<W>, options: &ShowOptions, fault: &Fault)
    requires { IsReady W.failures text.old }
    ensures { AddsSome W.taken W.failures text.old text.new }
{
    let sentence = fault_sentence(fault);
    write_parts(
        text,
        &[
            Text(b"\n"),
            refusal_style(options),
            Text(b"Fault "),
            Decimal(u64::from(fault.number)),
            Text(b": "),
            Text(sentence.as_slice()),
        ],
    );
}

/// Adds to the row of a fault what the file is instead, if that is known.
pub fn write_kind<W: Sink>(text: &mut TextWriter<W>, kind: Option<FileKind>)
    requires { IsReady W.failures text.old }
    ensures { AddsSome W.taken W.failures text.old text.new }
{
    if let Some(kind) = kind {
        write_parts(text, &[Text(b"; "), Text(kind.words().as_bytes())]);
    }
}

/// Ends the row of a file's fault.
pub fn end_refusal<W: Sink>(text: &mut TextWriter<W>, options: &ShowOptions)
    requires { IsReady W.failures text.old }
    ensures { AddsSome W.taken W.failures text.old text.new }
{
    write_parts(text, &[end_style(options), Text(b"\n")]);
}

/// Adds the row of a finding: its number, and its words.
pub fn write_finding<W: Sink>(text: &mut TextWriter<W>, finding: &Fault)
    requires { IsReady W.failures text.old }
    ensures { AddsSome W.taken W.failures text.old text.new }
{
    let sentence = fault_sentence(finding);
    write_parts(
        text,
        &[
            Text(b"  "),
            Decimal(u64::from(finding.number)),
            Text(b"  "),
            Text(sentence.as_slice()),
            Text(b"\n"),
        ],
    );
}
