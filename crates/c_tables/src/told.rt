//! `put_record`: a record that may be absent, stored in the caller's.

ghost use Rattle.c_tables.specs.Told.{TellsRecord};

use pe_records_c::status;

/// Stores a record, and returns the status: 0, or 3 if there is none, which leaves the caller's unchanged.
pub fn put_record<R: Copy>(found: Option<R>, told: &mut R) -> u32
    ensures { TellsRecord (λ r. r) found told.old told.new result }
{
    match found {
        Some(record) => {
            *told = record;
            status::DONE
        }
        None => status::ABSENT,
    }
}
