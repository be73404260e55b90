//! The import hash: `petool_import_hash`.

ghost use Rattle.c_tables.specs.ImportHash.{ReadsImportHash};

use c_tables::digest::DigestRecord;
use c_tables::hash::tell_import_hash;
use pe_records_c::fault::{FaultRecord, refuse_for};
use pe_records_c::reading::imports_in;
use std::alloc::Global;

/// Reads the import hash of an image: the MD5 digest of what it imports, told as text, in the order of its import table.
///
/// The status is 0; 3 if the image imports nothing; 1 with the first of faults 1 to 15 and 24 to 32; or 2, out of memory: memory is
/// allocated after faults 1 to 15 and the first import. All but 0 leave the record unchanged.
#[unsafe(no_mangle)]
pub extern "C" fn petool_import_hash(
    alloc: Global,
    file: &[u8],
    hash: &mut DigestRecord,
    fault: &mut FaultRecord,
) -> u32
    ensures { ReadsImportHash file.now hash.old hash.new fault.old fault.new result }
{
    match imports_in(alloc, file) {
        Ok(imports) => tell_import_hash(imports.as_slice(), hash),
        Err(refusal) => refuse_for(refusal, fault),
    }
}
