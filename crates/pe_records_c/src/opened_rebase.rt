//! `tell_rebased`: the file of an opened image for another base, written into the caller's buffer.

ghost use Rattle.std.specs.Prelude.{◌≡◌, ◌≢◌, length};
ghost use Rattle.pe_write.specs.Rebase.{rebased};
ghost use Rattle.pe_write.specs.RebaseFaults.{rebase_tests};
ghost use Rattle.pe_records_c.specs.Faults.{IsAccepted, IsAnswered};
ghost use Rattle.pe_records_c.specs.Wants.{IsLaidOut};

use crate::fault::{FaultRecord, refuse_for};
use crate::status;
use pe_opened::OpenedImage;
use std::alloc::Global;

/// Copies bytes into a buffer of their length.
fn copy_all(bytes: &[u8], buffer: &mut [u8])
    requires { length bytes.now ≡ length buffer.old }
    ensures { buffer.new ≡ bytes.now }
{
    buffer.copy_from_slice(bytes);
}

/// Fills a buffer of the file's length with the file of an opened image for another base, and returns the status as [`rebase_into`](crate::rebase::rebase_into)
/// does.
fn rebase_opened_into(
    alloc: Global,
    image: &OpenedImage,
    base: u64,
    buffer: &mut [u8],
    fault: &mut FaultRecord,
) -> u32
    requires { length buffer.old ≡ length image.now }
    ensures faults { IsAnswered (IsLaidOut image.now) (rebase_tests image.now base) fault.old fault.new result }
    ensures accepted { IsAccepted result → result ≡ 0 }
    ensures done { result ≡ 0 → buffer.new ≡ rebased image.now base }
    ensures kept { result ≢ 0 → buffer.new ≡ buffer.old }
{
    pe_layout::laws::sections_are_apart();
    pe_tables::laws::fields_are_apart();
    match image.rebase(alloc, base) {
        Ok(bytes) => {
            copy_all(bytes.as_slice(), buffer);
            status::DONE
        }
        Err(refusal) => refuse_for(refusal, fault),
    }
}

/// Fills a buffer with the file of an opened image for another base, and returns the status: 0, 1 with the first of faults 44 to 46, 51
/// and 52, 2, out of memory, or 5 if the buffer does not have the file's length. All but 0 leave the buffer unchanged.
pub fn tell_rebased(
    alloc: Global,
    image: &OpenedImage,
    base: u64,
    buffer: &mut [u8],
    fault: &mut FaultRecord,
) -> u32
    ensures argument { result ≡ 5 → length buffer.old ≢ length image.now }
    ensures same_length { result ≢ 5 → length buffer.old ≡ length image.now }
    ensures faults { result ≢ 5 → IsAnswered (IsLaidOut image.now) (rebase_tests image.now base) fault.old fault.new result }
    ensures accepted { result ≢ 5 → IsAccepted result → result ≡ 0 }
    ensures done { result ≡ 0 → buffer.new ≡ rebased image.now base }
    ensures kept { result ≢ 0 → buffer.new ≡ buffer.old }
    ensures fault_kept { result ≡ 5 → fault.new ≡ fault.old }
{
    if buffer.len() != image.file().len() {
        return status::ARGUMENT;
    }
    rebase_opened_into(alloc, image, base, buffer, fault)
}
