//! `CertificateRow`: an entry of the certificate table, as C has it.

ghost use Rattle.std.specs.Prelude.{◌≡◌, length, map};
ghost use Rattle.pe_view.specs.View.{bytes_of};
ghost use Rattle.pe_records_c.specs.Rows.{TellsTable, filled};
ghost use Rattle.pe_trust.specs.Certificates.{certificate_view, certificates_left};
ghost use Rattle.c_tables.specs.CertificateRows.{certificates, certificate_text};

use crate::row::put_row;
use pe_head::Headers;
use pe_records_c::row::table_status;
use pe_trust::{Certificate, Certificates};
use pe_view::View;

/// An entry of the certificate table.
#[repr(C)]
#[derive(Clone, Copy)]
pub struct CertificateRow<'a> {
    /// The file offset of its header of 8 bytes.
    pub offset: u64,
    /// Its content, behind that header.
    pub bytes: &'a [u8],
    /// Its length, with the header.
    pub length: u32,
    /// The revision of its form, such as 0x200.
    pub revision: u16,
    /// Its type: 2 a signature (PKCS #7).
    pub kind: u16,
}

impl<'a> CertificateRow<'a> {
    /// An entry as C has it.
    fn of(certificate: &Certificate<'a>) -> CertificateRow<'a>
        ensures { certificate_text result ≡ certificate_view certificate.entry.now }
    {
        CertificateRow {
            offset: certificate.offset,
            bytes: certificate.bytes,
            length: certificate.length,
            revision: certificate.revision,
            kind: certificate.kind,
        }
    }
}

/// Fills the first rows with certificates, as many as fit, and returns how many certificates there are.
fn put_certificates<'a>(rows: &mut [CertificateRow<'a>], certificates: Certificates<'a>) -> usize
    ensures rows { map certificate_text rows.new ≡ filled (λ entry. entry) (certificates_left certificates.entry) (map certificate_text rows.old) }
    ensures count { result ≡ length (certificates_left certificates.entry) }
{
    let mut count = 0;
    for certificate in certificates {
        put_row(rows, count, CertificateRow::of(&certificate));
        count += 1;
    }
    count
}

/// Reports the certificate table of an image's file: fills the rows, counts the entries, and returns the status, 0 or 4.
pub fn tell_certificates<'a>(
    file: View<'a>,
    headers: &Headers,
    rows: &mut [CertificateRow<'a>],
    count: &mut usize,
) -> u32
    ensures { TellsTable certificate_text (λ entry. entry) (certificates (bytes_of file.entry) headers.now) rows.old rows.new count.new result }
{
    *count = put_certificates(rows, Certificates::of(file, headers));
    table_status(*count, rows.len())
}
