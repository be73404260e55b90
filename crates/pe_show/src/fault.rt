//! The row of a page that states a fault.

ghost use Rattle.pe_text.specs.TextWriter.{IsReady};
ghost use Rattle.pe_page.specs.Page.{AddsSome};

use pe_detail::{Amount, DetailPart, DetailText};
use pe_page::{begin_refusal, end_refusal, write_kind};
use pe_reach::ViewFile;
use pe_text::Part::{self, Decimal, Hex, Text};
use pe_text::{Outcome, ShowOptions, Sink, TextWriter, write_parts};
use pe_view::Fault;

/// Words, and the number after them.
fn amount_parts(part: DetailPart) -> [Part<'static>; 3] {
    let (prefix, number) = match part.amount {
        Amount::Nothing => (Text(b""), Text(b"")),
        Amount::Count(count) => (Text(b""), Decimal(count)),
        Amount::Place(place) => (Text(b"0x"), Hex(place, 1)),
    };
    [Text(part.words.as_bytes()), prefix, number]
}

/// Adds the numbers that the rule of a fault compares after a colon, if there are any.
fn write_detail<W: Sink>(text: &mut TextWriter<W>, file: ViewFile, fault: &Fault)
    requires { IsReady W.failures text.old }
    ensures { AddsSome W.taken W.failures text.old text.new }
{
    let Some(detail) = file.fault_detail(fault) else {
        return;
    };
    let [first, second, third] = DetailText(detail).parts();
    write_parts(text, &[Text(b": ")]);
    write_parts(text, &amount_parts(first));
    write_parts(text, &amount_parts(second));
    write_parts(text, &amount_parts(third));
}

/// Adds the row of a file's fault, if there is one: `Fault 13: section header at 0x138: the section's raw data extends past the
/// end of the file: 16 bytes at 0x200, and the file has 520`.
pub(crate) fn write_refusal<W: Sink>(
    text: &mut TextWriter<W>,
    options: &ShowOptions,
    outcome: Outcome,
    file: ViewFile,
)
    requires { IsReady W.failures text.old }
    ensures { AddsSome W.taken W.failures text.old text.new }
{
    let Outcome::Refused(fault) = outcome else {
        return;
    };
    begin_refusal(text, options, &fault);
    write_detail(text, file, &fault);
    write_kind(text, file.other_kind(&fault));
    end_refusal(text, options);
}
