//! Signatures and what they sign: `petool_authenticode` and `petool_authenticode_digest`.

ghost use Rattle.pe_head.specs.Head.{head_of};
ghost use Rattle.pe_head.specs.HeaderFaults.{head_tests};
ghost use Rattle.pe_records_c.specs.Rows.{ReadsTable};
ghost use Rattle.c_tables.specs.DigestRecords.{ReadsDigest, algorithm_numbered};
ghost use Rattle.c_tables.specs.SignatureRows.{signature_row, signature_text, signatures};

use c_tables::digest::{DigestRecord, algorithm_numbered, tell_digest};
use c_tables::file::file_headers;
use c_tables::signature::{SignatureRow, tell_signatures};
use pe_records_c::fault::{FaultRecord, refuse};
use pe_records_c::status;
use pe_view::View;

/// Reads the signatures of an image's file (Authenticode) into the caller's rows: the entries of the certificate table whose type is
/// PKCS #7, in table order, each with the digest that it signs and whether this is that of the file. Whether a signature is valid, and
/// anybody to be trusted, is not asked. A digest of the file is computed once for each algorithm that a row needs.
///
/// The status is 0; 4 if there are more signatures than rows, which then hold the first of them; or 1 with the first of faults 1 to
/// 12. The count is that of all signatures; 1 leaves it and the rows unchanged. Allocates nothing.
#[unsafe(no_mangle)]
pub extern "C" fn petool_authenticode<'a>(
    file: &'a [u8],
    rows: &mut [SignatureRow<'a>],
    count: &mut usize,
    fault: &mut FaultRecord,
) -> u32
    ensures { ReadsTable ⊥ (head_tests 0 file.now) signature_text (signature_row file.now (head_of file.now)) (signatures file.now (head_of file.now))
        rows.old rows.new count.old count.new fault.old fault.new result }
{
    match file_headers(file) {
        Ok(headers) => tell_signatures(View::new(file), &headers, rows, count),
        Err(first) => refuse(first, fault),
    }
}

/// The digest of an image's file that a signature of it is to sign: of the file without CheckSum, the entry of directory 4, and the
/// certificate table. The algorithm is 1 SHA-1, 2 SHA-256, 3 SHA-384 or 4 SHA-512.
///
/// The status is 0; 5 if the algorithm is none of these; 1 with the first of faults 1 to 12; or 3 if what a signature signs is ambiguous:
/// if raw data do not follow the headers without a gap or an overlap, or the table is not after them at the end of the file. All but 0
/// leave the record unchanged. Allocates nothing.
#[unsafe(no_mangle)]
pub extern "C" fn petool_authenticode_digest(
    file: &[u8],
    algorithm: u32,
    digest: &mut DigestRecord,
    fault: &mut FaultRecord,
) -> u32
    ensures { ReadsDigest file.now (algorithm_numbered algorithm) digest.old digest.new fault.old fault.new result }
{
    let Some(algorithm) = algorithm_numbered(algorithm) else {
        return status::ARGUMENT;
    };
    match file_headers(file) {
        Ok(headers) => tell_digest(algorithm, View::new(file), &headers, digest),
        Err(first) => refuse(first, fault),
    }
}
