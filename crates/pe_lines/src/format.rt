//! The form of an image's optional header, and the line of an accepted image.

ghost use Rattle.std.specs.Prelude.{◌≡◌};
ghost use Rattle.pe_text.specs.TextWriter.{IsReady, Adds};
ghost use Rattle.pe_lines.specs.Format.{format_name, accepted_line};

use pe_head::{Headers, Magic};
use pe_text::Part::{Decimal, Text};
use pe_text::{Sink, TextWriter, write_parts};

/// `PE32` or `PE32+`.
pub(crate) fn format_name(magic: Magic) -> &'static [u8]
    ensures { result.now ≡ format_name magic }
{
    match magic {
        Magic::Pe32 => b"PE32",
        Magic::Pe32Plus => b"PE32+",
    }
}

/// Adds the line `accepted PE32 sections N`, or `PE32+`.
#[tactic(auto, unfolding(crate::specs::Format::accepted_line))]
pub(crate) fn write_accepted_line<W: Sink>(line: &mut TextWriter<W>, headers: &Headers)
    requires { IsReady W.failures line.old }
    ensures { Adds W.taken W.failures line.old line.new (accepted_line headers.now) }
{
    write_parts(
        line,
        &[
            Text(b"accepted "),
            Text(format_name(headers.magic)),
            Text(b" sections "),
            Decimal(headers.number_of_sections as u64),
            Text(b"\n"),
        ],
    );
}
