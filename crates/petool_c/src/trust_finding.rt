//! Findings on what a file says of itself: `petool_trust_findings`.

ghost use Rattle.pe_head.specs.Head.{head_of};
ghost use Rattle.pe_head.specs.HeaderFaults.{head_tests};
ghost use Rattle.pe_records_c.specs.Faults.{fault_record};
ghost use Rattle.pe_records_c.specs.Rows.{ReadsTable};
ghost use Rattle.c_tables.specs.TrustFindings.{trust_findings_of};

use c_tables::file::file_headers;
use c_tables::trust_finding::tell_trust_findings;
use pe_records_c::fault::{FaultRecord, refuse};
use pe_view::View;

/// Reads the findings on the certificate table (221 to 225) and on the Rich header (241) of an image's file, at most six, into the
/// caller's rows, by number. They need the headers alone, so that they are told also of an image whose sections have faults.
///
/// The status is 0; 4 if there are more findings than rows, which then hold the first of them; or 1 with the first of faults 1 to 12.
/// The count is that of all findings; 1 leaves it and the rows unchanged. Allocates nothing.
#[unsafe(no_mangle)]
pub extern "C" fn petool_trust_findings(
    file: &[u8],
    rows: &mut [FaultRecord],
    count: &mut usize,
    fault: &mut FaultRecord,
) -> u32
    ensures { ReadsTable ⊥ (head_tests 0 file.now) (λ row. row) fault_record (trust_findings_of file.now (head_of file.now))
        rows.old rows.new count.old count.new fault.old fault.new result }
{
    match file_headers(file) {
        Ok(headers) => tell_trust_findings(View::new(file), &headers, rows, count),
        Err(first) => refuse(first, fault),
    }
}
