//! Lines of fields, and the fields that images and objects share.

ghost use Rattle.std.specs.Prelude.{◌≡◌, flat_map, map};
ghost use Rattle.pe_text.specs.Field.{field_of, field_line, time_date_stamp, characteristics};
ghost use Rattle.pe_text.specs.TextWriter.{IsReady, Adds};

use crate::device::Sink;
use crate::field::Field;
use crate::text_writer::TextWriter;

/// Adds a line for each field.
pub fn write_fields<W: Sink>(text: &mut TextWriter<W>, fields: &[Field])
    requires { IsReady W.failures text.old }
    ensures { Adds W.taken W.failures text.old text.new (flat_map field_line (map field_of fields.now)) }
{
    for field in fields {
        field.write(text);
    }
}

/// The TimeDateStamp field of a COFF header ("PE Format", COFF File Header), of an image or an object: in seconds since the
/// beginning of 1970.
pub fn time_date_stamp(value: u32) -> Field
    ensures { field_of result ≡ time_date_stamp value }
{
    Field {
        name: b"TimeDateStamp",
        width: 4,
        value: value as u64,
    }
}

/// The Characteristics field of a COFF header ("PE Format", COFF File Header), of an image or an object.
pub fn characteristics(value: u16) -> Field
    ensures { field_of result ≡ characteristics value }
{
    Field {
        name: b"Characteristics",
        width: 2,
        value: value as u64,
    }
}
