//! The certificate table: `petool_certificates`.

ghost use Rattle.pe_head.specs.Head.{head_of};
ghost use Rattle.pe_head.specs.HeaderFaults.{head_tests};
ghost use Rattle.pe_records_c.specs.Rows.{ReadsTable};
ghost use Rattle.c_tables.specs.CertificateRows.{certificates, certificate_text};

use c_tables::certificate::{CertificateRow, tell_certificates};
use c_tables::file::file_headers;
use pe_records_c::fault::{FaultRecord, refuse};
use pe_view::View;

/// Reads the entries of the certificate table of an image's file, in table order, into the caller's rows: those that are whole in the
/// directory's Size and in the file, up to the first that is not.
///
/// The status is 0; 4 if there are more entries than rows, which then hold the first of them; or 1 with the first of faults 1 to 12.
/// The count is that of all entries; 1 leaves it and the rows unchanged. Allocates nothing. ("PE Format": The Attribute Certificate
/// Table.)
#[unsafe(no_mangle)]
pub extern "C" fn petool_certificates<'a>(
    file: &'a [u8],
    rows: &mut [CertificateRow<'a>],
    count: &mut usize,
    fault: &mut FaultRecord,
) -> u32
    ensures { ReadsTable ⊥ (head_tests 0 file.now) certificate_text (λ entry. entry) (certificates file.now (head_of file.now))
        rows.old rows.new count.old count.new fault.old fault.new result }
{
    match file_headers(file) {
        Ok(headers) => tell_certificates(View::new(file), &headers, rows, count),
        Err(first) => refuse(first, fault),
    }
}
