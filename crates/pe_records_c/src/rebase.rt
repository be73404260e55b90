//! `rebase_into`: the file of an image for another base, written into the caller's buffer.

ghost use Rattle.std.specs.Prelude.{◌≡◌, ◌≢◌, length};
ghost use Rattle.pe_write.specs.Rebase.{rebased};
ghost use Rattle.pe_write.specs.RebaseFaults.{rebase_tests};
ghost use Rattle.pe_records_c.specs.Faults.{IsAccepted, IsAnswered};
ghost use Rattle.pe_records_c.specs.Wants.{IsLaidOut};

use crate::fault::{FaultRecord, refuse_for};
use crate::status;
use pe_write::rebase_file;
use std::alloc::Global;

/// Fills a buffer of the file's length with the file of the image for another base, and returns the status: 0, 1 with the first
/// fault, or 2, out of memory. All but 0 leave the buffer unchanged.
pub fn rebase_into(
    alloc: Global,
    file: &[u8],
    base: u64,
    buffer: &mut [u8],
    fault: &mut FaultRecord,
) -> u32
    requires { length buffer.old ≡ length file.now }
    ensures faults { IsAnswered (IsLaidOut file.now) (rebase_tests file.now base) fault.old fault.new result }
    ensures accepted { IsAccepted result → result ≡ 0 }
    ensures done { result ≡ 0 → buffer.new ≡ rebased file.now base }
    ensures kept { result ≢ 0 → buffer.new ≡ buffer.old }
{
    match rebase_file(alloc, file, base) {
        Ok(bytes) => {
            buffer.copy_from_slice(bytes.as_slice());
            status::DONE
        }
        Err(refusal) => refuse_for(refusal, fault),
    }
}
