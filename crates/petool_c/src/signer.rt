//! The certificates of a signature: `petool_signers`.

ghost use Rattle.pe_records_c.specs.Rows.{TellsTable};
ghost use Rattle.pe_trust.specs.Signers.{signers_of_signature};
ghost use Rattle.c_tables.specs.SignerRows.{signer_row, signer_text};

use c_tables::signer::{SignerRow, tell_signers};

/// Reads the certificates that a signature has, given its bytes, the content of an entry of the certificate table whose type is PKCS #7,
/// into the caller's rows: as far as they can be read, and none if it has none.
///
/// The status is 0; or 4 if there are more certificates than rows, which then hold the first of them. The count is that of all.
/// Allocates nothing. (RFC 2315, 9.1; RFC 5280, 4.1.)
#[unsafe(no_mangle)]
pub extern "C" fn petool_signers<'a>(
    signature: &'a [u8],
    rows: &mut [SignerRow<'a>],
    count: &mut usize,
) -> u32
    ensures { TellsTable signer_text signer_row (signers_of_signature signature.now) rows.old rows.new count.new result }
{
    tell_signers(signature, rows, count)
}
