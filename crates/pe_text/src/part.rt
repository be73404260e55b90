//! `Part`, `write_part` and `write_parts`: the parts of a line.

ghost use Rattle.std.specs.Prelude.{flat_map};
ghost use Rattle.pe_text.specs.TextWriter.{IsReady, Adds};
ghost use Rattle.pe_text.specs.Part.{part_text};

use crate::device::Sink;
use crate::text_writer::TextWriter;

/// A part of a line.
#[derive(Clone, Copy)]
pub enum Part<'a> {
    /// These bytes, unchanged.
    Text(&'a [u8]),
    /// A string in double quotes, with escapes.
    Quoted(&'a [u8]),
    /// A space and a name, if there is one.
    Name(Option<&'a [u8]>),
    /// A number in decimal.
    Decimal(u64),
    /// A number in hexadecimal, and the least number of digits.
    Hex(u64, u8),
    /// A number in 2 hexadecimal digits.
    Hex2(u8),
    /// A number in 4 hexadecimal digits.
    Hex4(u16),
    /// A number in 8 hexadecimal digits; the last 8 of a larger one.
    Hex8(u64),
    /// A number in 16 hexadecimal digits.
    Hex16(u64),
}

/// Adds a part.
pub fn write_part<W: Sink>(line: &mut TextWriter<W>, part: &Part)
    requires { IsReady W.failures line.old }
    ensures { Adds W.taken W.failures line.old line.new (part_text part.now) }
{
    match part {
        Part::Text(bytes) => line.text(bytes),
        Part::Quoted(text) => line.quoted(text),
        Part::Name(None) => {}
        Part::Name(Some(name)) => {
            line.text(b" ");
            line.text(name);
        }
        Part::Decimal(number) => line.decimal(*number),
        Part::Hex(number, least) => line.hex_at_least(*least, *number),
        Part::Hex2(number) => line.hex(2, u64::from(*number)),
        Part::Hex4(number) => line.hex(4, u64::from(*number)),
        Part::Hex8(number) => line.hex(8, *number),
        Part::Hex16(number) => line.hex(16, *number),
    }
}

/// Adds the parts of a line, in their order.
pub fn write_parts<W: Sink>(line: &mut TextWriter<W>, parts: &[Part])
    requires { IsReady W.failures line.old }
    ensures { Adds W.taken W.failures line.old line.new (flat_map part_text parts.now) }
{
    for part in parts {
        write_part(line, part);
    }
}
