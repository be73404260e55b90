//! `certificate_table`: where the certificate table of an image's file is.

ghost use Rattle.std.specs.Prelude.{◌≡◌};
ghost use Rattle.pe_trust.specs.CertificateTable.{certificate_table, is_absent};

use pe_head::{Directory, Headers, directory_index};

/// Whether a directory tells of no certificate table: its offset or its size is 0.
pub(crate) fn is_absent(table: Directory) -> bool
    ensures { result ≡ is_absent table }
{
    table.rva == 0 || table.size == 0
}

/// Directory 4, the file offset of the certificate table and its size in bytes ("PE Format", The Attribute Certificate Table). `None` if
/// the headers do not hold it or one of the two is 0: then there is no table.
pub fn certificate_table(headers: &Headers) -> Option<Directory>
    ensures { result ≡ certificate_table headers.now }
{
    let table = headers
        .directories
        .as_slice()
        .get(directory_index::CERTIFICATE)?;
    if is_absent(*table) {
        return None;
    }
    Some(*table)
}
