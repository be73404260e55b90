//! CheckSum: `petool_check_sum`.

ghost use Rattle.std.specs.Prelude.{Some};
ghost use Rattle.pe_head.specs.Head.{head_of};
ghost use Rattle.pe_head.specs.HeaderFaults.{head_tests};
ghost use Rattle.c_tables.specs.Told.{ReadsRecord};
ghost use Rattle.c_tables.specs.FileRecords.{check_sum_record};

use c_tables::sum::{CheckSumRecord, file_check_sum};
use pe_records_c::fault::{FaultRecord, refuse};
use pe_records_c::status;

/// CheckSum of an image's file: what its field holds, and the checksum of the file, which it is to hold.
///
/// The status is 0, or 1 with the first of faults 1 to 12, which leaves the record unchanged. Allocates nothing. ("PE Format":
/// Optional Header Windows-Specific Fields.)
#[unsafe(no_mangle)]
pub extern "C" fn petool_check_sum(
    file: &[u8],
    sum: &mut CheckSumRecord,
    fault: &mut FaultRecord,
) -> u32
    ensures { ReadsRecord (head_tests 0 file.now) (λ r. r) (Some (check_sum_record file.now (head_of file.now))) sum.old sum.new fault.old fault.new result }
{
    match file_check_sum(file) {
        Ok(found) => {
            *sum = found;
            status::DONE
        }
        Err(first) => refuse(first, fault),
    }
}
