//! The rows of a page that state a fault.

ghost use Rattle.pe_text.specs.TextWriter.{IsReady};
ghost use Rattle.pe_page.specs.Page.{AddsSome};

use pe_page::{begin_refusal, blanks, end_refusal, write_kind};
use pe_text::Part::{Decimal, Text};
use pe_text::{
    FileKind, Outcome, ShowOptions, Sink, TextWriter, fault_sentence, file_kind, other_kind,
    write_parts,
};
use pe_view::Fault;

/// The number of the fault of a file that does not begin as an archive.
const NO_ARCHIVE: u16 = 300;

/// What a file is that was refused because it does not begin as an archive, by its first bytes.
fn kind_instead(file: &[u8], fault: &Fault) -> Option<FileKind> {
    if fault.number != NO_ARCHIVE {
        return None;
    }
    file_kind(file)
}

/// Adds the row of a file's fault, if there is one: `Fault 304: Name of a member at 0x8: it leads to no text`.
pub(crate) fn write_refusal<W: Sink>(
    text: &mut TextWriter<W>,
    options: &ShowOptions,
    outcome: Outcome,
    file: &[u8],
)
    requires { IsReady W.failures text.old }
    ensures { AddsSome W.taken W.failures text.old text.new }
{
    let Outcome::Refused(fault) = outcome else {
        return;
    };
    begin_refusal(text, options, &fault);
    write_kind(text, kind_instead(file, &fault));
    end_refusal(text, options);
}

/// Adds the row of the fault of what a member holds, if there is one, behind so many blanks; and what that is instead of an object, if
/// its first bytes show it.
pub(crate) fn write_contents_fault<W: Sink>(
    text: &mut TextWriter<W>,
    column: usize,
    contents: &[u8],
    fault: Option<Fault>,
)
    requires { IsReady W.failures text.old }
    ensures { AddsSome W.taken W.failures text.old text.new }
{
    let Some(fault) = fault else {
        return;
    };
    let sentence = fault_sentence(&fault);
    text.text(blanks(column));
    write_parts(
        text,
        &[
            Text(b"fault "),
            Decimal(u64::from(fault.number)),
            Text(b": "),
            Text(sentence.as_slice()),
        ],
    );
    write_kind(text, other_kind(&fault, contents));
    text.text(b"\n");
}
