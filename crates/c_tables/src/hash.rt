//! `tell_import_hash`: the import hash of an image as C has it.

ghost use Rattle.std.specs.Prelude.{◌≡◌, map, option_map};
ghost use Rattle.pe_tables.specs.ImportView.{import_view};
ghost use Rattle.pe_imphash.specs.ImportText.{import_hash_of};
ghost use Rattle.c_tables.specs.Told.{TellsRecord};
ghost use Rattle.c_tables.specs.DigestRecords.{digest_record};

use crate::digest::DigestRecord;
use crate::told::put_record;
use pe_imphash::import_hash;
use pe_tables::Import;

/// The import hash of an image's imports, as C has it.
fn hash_record(imports: &[Import]) -> Option<DigestRecord>
    ensures { result ≡ option_map digest_record (import_hash_of (map import_view imports.now)) }
{
    match import_hash(imports) {
        Some(hash) => Some(DigestRecord::of(&hash)),
        None => None,
    }
}

/// Stores the import hash of an image's imports, and returns the status: 0, or 3 if it has none, which leaves the record unchanged.
pub fn tell_import_hash(imports: &[Import], hash: &mut DigestRecord) -> u32
    ensures { TellsRecord (λ r. r) (option_map digest_record (import_hash_of (map import_view imports.now))) hash.old hash.new result }
{
    put_record(hash_record(imports), hash)
}
