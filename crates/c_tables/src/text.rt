//! `put_text`: bytes of a file that may be absent, stored in the caller's record.

ghost use Rattle.std.specs.Prelude.{option_map};
ghost use Rattle.c_tables.specs.Texts.{text_bytes};
ghost use Rattle.c_tables.specs.Told.{TellsRecord};

use pe_records_c::status;
use pe_records_c::text::TextRecord;

/// Stores bytes, and returns the status: 0, or 3 if there are none, which leaves the record unchanged.
pub(crate) fn put_text<'a>(found: Option<&'a [u8]>, text: &mut TextRecord<'a>) -> u32
    ensures { TellsRecord text_bytes (option_map (λ bytes. bytes.now) found.entry) text.old text.new result }
{
    match found {
        Some(bytes) => {
            *text = TextRecord { bytes };
            status::DONE
        }
        None => status::ABSENT,
    }
}
