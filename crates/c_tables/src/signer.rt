//! `SignerRow`: a certificate of a signature, as C has it.

ghost use Rattle.std.specs.Prelude.{◌≡◌, length, map};
ghost use Rattle.pe_records_c.specs.Rows.{TellsTable, filled};
ghost use Rattle.pe_trust.specs.Signers.{signers_of_signature};
ghost use Rattle.pe_trust.specs.SignersView.{signer_view, signers_left};
ghost use Rattle.c_tables.specs.SignerRows.{name_text, signer_row, signer_text};

use crate::row::put_row;
use pe_records_c::row::table_status;
use pe_trust::{Signer, Signers, common_name};

/// A certificate that a signature has (X.509, RFC 5280), by its parts in DER. Nothing says whether anybody is to be trusted.
#[repr(C)]
#[derive(Clone, Copy)]
pub struct SignerRow<'a> {
    /// The content of the serial number, a big-endian number.
    pub serial: &'a [u8],
    /// The content of the issuer's name.
    pub issuer: &'a [u8],
    /// The content of the subject's name.
    pub subject: &'a [u8],
    /// The common name in the issuer's name; empty if it has none.
    pub issuer_name: &'a [u8],
    /// The common name in the subject's name; empty if it has none.
    pub subject_name: &'a [u8],
}

/// The common name in a name; empty if it has none.
fn name_text(name: &[u8]) -> &[u8]
    ensures { result.now ≡ name_text name.now }
{
    common_name(name).unwrap_or(&[])
}

impl<'a> SignerRow<'a> {
    /// A certificate as C has it.
    fn of(signer: &Signer<'a>) -> SignerRow<'a>
        ensures { signer_text result ≡ signer_row (signer_view signer.entry.now) }
    {
        SignerRow {
            serial: signer.serial,
            issuer: signer.issuer,
            subject: signer.subject,
            issuer_name: name_text(signer.issuer),
            subject_name: name_text(signer.subject),
        }
    }
}

/// Fills the first rows with certificates of a signature, as many as fit, and returns how many there are.
fn put_signers<'a>(rows: &mut [SignerRow<'a>], signers: Signers<'a>) -> usize
    ensures rows { map signer_text rows.new ≡ filled signer_row (signers_left signers.entry) (map signer_text rows.old) }
    ensures count { result ≡ length (signers_left signers.entry) }
{
    let mut count = 0;
    for signer in signers {
        put_row(rows, count, SignerRow::of(&signer));
        count += 1;
    }
    count
}

/// Reports the certificates of a signature, given the content of an entry of the certificate table: fills the rows, counts the
/// certificates, and returns the status, 0 or 4.
pub fn tell_signers<'a>(signature: &'a [u8], rows: &mut [SignerRow<'a>], count: &mut usize) -> u32
    ensures { TellsTable signer_text signer_row (signers_of_signature signature.entry.now) rows.old rows.new count.new result }
{
    *count = put_signers(rows, Signers::of(signature));
    table_status(*count, rows.len())
}
