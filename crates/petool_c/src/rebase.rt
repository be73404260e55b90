//! The file of an image for another base: `petool_rebase`.

ghost use Rattle.std.specs.Prelude.{◌≡◌, ◌≢◌, length};
ghost use Rattle.pe_write.specs.Rebase.{rebased};
ghost use Rattle.pe_write.specs.RebaseFaults.{rebase_tests};
ghost use Rattle.pe_records_c.specs.Faults.{IsAccepted, IsAnswered};
ghost use Rattle.pe_records_c.specs.Wants.{IsLaidOut};

use pe_records_c::fault::FaultRecord;
use pe_records_c::rebase::rebase_into;
use pe_records_c::status;
use std::alloc::Global;

/// Writes the file of an image for another base into a buffer of the file's length: each fixup's field is relocated by the
/// difference of the base and ImageBase, ImageBase is the base, and CheckSum is 0; every other byte is the file's.
///
/// The status is 0; 1 with the first fault of headers and sections (1 to 15), of imports (24 to 32) and base relocations (33 to
/// 38), of the base (44 to 46), and of what cannot be written (51, 52); 2, out of memory, but never for a file with one of faults
/// 1 to 15; or 5 if the buffer does not have the file's length. All but 0 leave the buffer unchanged. ("PE Format": Optional
/// Header, The .reloc Section.)
#[unsafe(no_mangle)]
pub extern "C" fn petool_rebase(
    alloc: Global,
    file: &[u8],
    base: u64,
    buffer: &mut [u8],
    fault: &mut FaultRecord,
) -> u32
    ensures argument { result ≡ 5 → length buffer.old ≢ length file.now }
    ensures same_length { result ≢ 5 → length buffer.old ≡ length file.now }
    ensures faults { result ≢ 5 → IsAnswered (IsLaidOut file.now) (rebase_tests file.now base) fault.old fault.new result }
    ensures accepted { result ≢ 5 → IsAccepted result → result ≡ 0 }
    ensures done { result ≡ 0 → buffer.new ≡ rebased file.now base }
    ensures kept { result ≢ 0 → buffer.new ≡ buffer.old }
    ensures fault_kept { result ≡ 5 → fault.new ≡ fault.old }
{
    if buffer.len() != file.len() {
        return status::ARGUMENT;
    }
    rebase_into(alloc, file, base, buffer, fault)
}
