//! A field of a header, and its line.

ghost use Rattle.std.specs.Prelude.{◌≤◌};

use crate::device::Sink;
use crate::text_writer::TextWriter;

/// A field of a header as a line shows it.
#[derive(Clone, Copy)]
pub struct Field {
    /// Its name in "PE Format".
    pub name: &'static [u8],
    /// How many bytes it has in the file.
    pub width: u8,
    /// Its value.
    pub value: u64,
    ghost narrow: { width ≤ 8 },
}

impl Field {
    ghost use Rattle.pe_text.specs.TextWriter.{IsReady, Adds};
    ghost use Rattle.pe_text.specs.Field.{field_of, field_line};

    /// Adds the field's line, with two digits a byte.
    #[tactic(auto, unfolding(crate::specs::Field::field_line))]
    pub(crate) fn write<W: Sink>(&self, line: &mut TextWriter<W>)
        requires { IsReady W.failures line.old }
        ensures { Adds W.taken W.failures line.old line.new (field_line (field_of self.now)) }
    {
        line.text(self.name);
        line.text(b" 0x");
        line.hex(2 * self.width, self.value);
        line.text(b"\n");
    }
}
