//! `SignatureRow`: a signature of an image's file, and the digest that it signs, as C has them.

ghost use Rattle.std.specs.Prelude.{◌≡◌, length, map, option_map, set};
ghost use Rattle.std.specs.List.{filter};
ghost use Rattle.pe_view.specs.View.{bytes_of};
ghost use Rattle.pe_records_c.specs.Rows.{TellsTable, filled};
ghost use Rattle.pe_trust.specs.Certificates.{certificate_view, certificates_left};
ghost use Rattle.pe_trust.specs.DigestsView.{AreDigestsOf};
ghost use Rattle.pe_trust.specs.SignatureView.{signed_view};
ghost use Rattle.pe_trust.specs.SignedBytes.{authenticode_bytes};
ghost use Rattle.c_tables.specs.SignatureRows.{fit_number, is_signature, signatures, signature_row, signature_text, signed_algorithm, signed_bytes, signed_fit};

use crate::digest::{algorithm_number, digest_kind};
use crate::row::put_row;
use pe_head::Headers;
use pe_records_c::row::table_status;
use pe_trust::{Certificate, Certificates, FileDigests, SignedDigest, signed_digest};
use pe_view::View;

/// A signature of an image's file (Authenticode), and the digest that it signs. Nothing says whether anybody is to be trusted.
#[repr(C)]
#[derive(Clone, Copy)]
pub struct SignatureRow<'a> {
    /// The file offset of its certificate in the certificate table.
    pub offset: u64,
    /// Its bytes, the content of that certificate (PKCS #7, SignedData).
    pub bytes: &'a [u8],
    /// The digest that it signs; empty if it has none that can be read.
    pub digest: &'a [u8],
    /// The algorithm of the digest: 0 there is none, 1 SHA-1, 2 SHA-256, 3 SHA-384, 4 SHA-512, 5 another.
    pub algorithm: u32,
    /// Whether the digest is that of the file: 0 no, 1 yes, 2 not known.
    pub fits: u32,
}

/// Whether a signed digest is that of the file.
pub mod fit {
    /// It is that of other bytes.
    pub const NO: u32 = 0;
    /// It is that of the file.
    pub const YES: u32 = 1;
    /// There is none, or none that is computed.
    pub const UNKNOWN: u32 = 2;
}

/// The type of a certificate that is a signature (PKCS #7).
const SIGNED_DATA: u16 = 2;

/// The algorithm of a signed digest.
fn signed_algorithm(signed: &Option<SignedDigest>) -> u32
    ensures { result ≡ signed_algorithm (option_map signed_view signed.now) }
{
    match signed {
        Some(signed) => match signed.known_algorithm() {
            Some(algorithm) => algorithm_number(algorithm),
            None => digest_kind::OTHER,
        },
        None => digest_kind::NONE,
    }
}

/// The bytes of a signed digest.
fn signed_bytes<'a>(signed: &Option<SignedDigest<'a>>) -> &'a [u8]
    ensures { result.now ≡ signed_bytes (option_map signed_view signed.entry.now) }
{
    match signed {
        Some(signed) => signed.digest,
        None => &[],
    }
}

/// The number that says whether a digest fits.
fn fit_number(fits: Option<bool>) -> u32
    ensures { result ≡ fit_number fits }
{
    match fits {
        Some(true) => fit::YES,
        Some(false) => fit::NO,
        None => fit::UNKNOWN,
    }
}

/// Whether what a signature signs is the digest of the file.
fn signed_fit(
    signed: &Option<SignedDigest>,
    digests: &mut FileDigests,
    file: View,
    headers: &Headers,
) -> u32
    requires { AreDigestsOf (authenticode_bytes (bytes_of file) headers.now) digests.old }
    ensures value { result ≡ signed_fit (option_map signed_view signed.now) (authenticode_bytes (bytes_of file.entry) headers.now) }
    ensures kept { AreDigestsOf (authenticode_bytes (bytes_of file.entry) headers.now) digests.new }
{
    match signed {
        Some(signed) => fit_number(digests.fits(signed, file, headers)),
        None => fit::UNKNOWN,
    }
}

impl<'a> SignatureRow<'a> {
    /// A signature as C has it.
    fn of(
        certificate: &Certificate<'a>,
        digests: &mut FileDigests,
        file: View,
        headers: &Headers,
    ) -> SignatureRow<'a>
        requires { AreDigestsOf (authenticode_bytes (bytes_of file) headers.now) digests.old }
        ensures value { signature_text result ≡ signature_row (bytes_of file.entry) headers.now (certificate_view certificate.entry.now) }
        ensures kept { AreDigestsOf (authenticode_bytes (bytes_of file.entry) headers.now) digests.new }
    {
        let signed = signed_digest(certificate.bytes);
        SignatureRow {
            offset: certificate.offset,
            bytes: certificate.bytes,
            digest: signed_bytes(&signed),
            algorithm: signed_algorithm(&signed),
            fits: signed_fit(&signed, digests, file, headers),
        }
    }
}

/// Stores the row of signature `index`. If there are fewer rows, they are unchanged, and no digest is computed.
fn put_signature<'a>(
    rows: &mut [SignatureRow<'a>],
    index: usize,
    certificate: &Certificate<'a>,
    digests: &mut FileDigests,
    file: View,
    headers: &Headers,
)
    requires { AreDigestsOf (authenticode_bytes (bytes_of file) headers.now) digests.old }
    ensures row { map signature_text rows.new ≡ set (map signature_text rows.old) index (signature_row (bytes_of file.entry) headers.now (certificate_view certificate.entry.now)) }
    ensures kept { AreDigestsOf (authenticode_bytes (bytes_of file.entry) headers.now) digests.new }
{
    if index < rows.len() {
        rows[index] = SignatureRow::of(certificate, digests, file, headers);
    }
}

/// Fills the first rows with signatures among certificates, as many as fit, and returns how many signatures there are.
fn put_signatures<'a>(
    rows: &mut [SignatureRow<'a>],
    certificates: Certificates<'a>,
    file: View,
    headers: &Headers,
) -> usize
    ensures rows { map signature_text rows.new ≡ filled (signature_row (bytes_of file.entry) headers.now) (filter is_signature (certificates_left certificates.entry)) (map signature_text rows.old) }
    ensures count { result ≡ length (filter is_signature (certificates_left certificates.entry)) }
{
    let mut count = 0;
    let mut digests = FileDigests::none();
    for certificate in certificates {
        if certificate.kind != SIGNED_DATA {
            continue;
        }
        put_signature(rows, count, &certificate, &mut digests, file, headers);
        count += 1;
    }
    count
}

/// Reports the signatures of an image's file: fills the rows, counts the signatures, and returns the status, 0 or 4. Each digest is
/// computed once, and only if a row of its algorithm is filled.
pub fn tell_signatures<'a>(
    file: View<'a>,
    headers: &Headers,
    rows: &mut [SignatureRow<'a>],
    count: &mut usize,
) -> u32
    ensures { TellsTable signature_text (signature_row (bytes_of file.entry) headers.now) (signatures (bytes_of file.entry) headers.now) rows.old rows.new count.new result }
{
    *count = put_signatures(rows, Certificates::of(file, headers), file, headers);
    table_status(*count, rows.len())
}
