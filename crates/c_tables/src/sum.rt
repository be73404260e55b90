//! `CheckSumRecord`: CheckSum of an image's file, as C has it.

ghost use Rattle.std.specs.Prelude.{◌≡◌, ◌^◌, ◌≤◌};
ghost use Rattle.pe_view.specs.Faults.{Answers};
ghost use Rattle.pe_view.specs.View.{bytes_of, size_of};
ghost use Rattle.pe_head.specs.Head.{head_of};
ghost use Rattle.pe_head.specs.HeaderFaults.{head_tests};
ghost use Rattle.c_tables.specs.FileRecords.{check_sum_record};

use crate::file::file_headers;
use pe_head::Headers;
use pe_trust::check_sum;
use pe_view::{Fault, View};

/// CheckSum of an image's file.
#[repr(C)]
#[derive(Clone, Copy)]
pub struct CheckSumRecord {
    /// What the field holds; 0 if it was not set.
    pub written: u32,
    /// What it is to hold.
    pub computed: u32,
}

/// CheckSum of an image's file of at most 2^32 bytes.
fn check_sum_record(file: View, headers: &Headers) -> CheckSumRecord
    requires { size_of file ≤ 2 ^ 32 }
    ensures { result ≡ check_sum_record (bytes_of file.entry) headers.now }
{
    CheckSumRecord {
        written: headers.check_sum,
        computed: check_sum(file, headers),
    }
}

/// CheckSum of an image's file, or the first of faults 1 to 12.
pub fn file_check_sum(file: &[u8]) -> Result<CheckSumRecord, Fault>
    ensures { Answers (head_tests 0 file.now) (λ told. told ≡ check_sum_record file.now (head_of file.now)) result }
{
    let headers = file_headers(file)?;
    Ok(check_sum_record(View::new(file), &headers))
}
