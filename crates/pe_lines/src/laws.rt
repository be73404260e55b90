//! Laws of the texts, and of what they tell of a signature.

ghost use Rattle.std.specs.Prelude.{◌≡◌, ◌<◌, ℕ, List, Some, IfSome, length};
ghost use Rattle.pe_head.specs.declared.headers.Headers.{Headers};
ghost use Rattle.pe_layout.specs.Locating.{file_offset, located};
ghost use Rattle.pe_trust.specs.Covered.{table_begin};
ghost use Rattle.pe_trust.specs.SignedBytes.{authenticode_bytes};
ghost use Rattle.pe_reach.specs.Sized.{Follows};
ghost use Rattle.pe_lines.specs.Reports.{IsCheckText, IsDumpText};

use pe_reach::laws::faults_agree;
use pe_trust::laws::raw_data_are_before_the_table;

/// Files with the same headers, faults and image have the same output of [`check`](crate::check) and [`dump`](crate::dump).
pub fn texts_agree()
    ensures check { Follows IsCheckText }
    ensures dump { Follows IsDumpText }
{
    faults_agree();
}

/// If what a signature signs is not ambiguous, each byte of the laid-out image that the file holds is in the file before the certificate
/// table; all others are zeros. So a digest that is told is of all that is laid out, but CheckSum and the entry of directory 4.
pub fn loaded_bytes_are_before_the_table()
    ensures { (file signed : List ℕ) (h : Headers) (rva : ℕ) → authenticode_bytes file h ≡ Some signed
        → IfSome (file_offset (located h rva)) (λ offset. offset < table_begin (length file) h) }
{
    raw_data_are_before_the_table();
}
