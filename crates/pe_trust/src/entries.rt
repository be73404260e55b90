//! `Certificates`: the entries of the certificate table.

ghost use Rattle.std.specs.Prelude.{◌≡◌, ◌+◌, ◌*◌, ◌/◌, ◌^◌, ◌<◌, ◌≤◌, IfSome, option_map};
ghost use Rattle.pe_view.specs.View.{bytes_of, size_of};
ghost use Rattle.pe_view.specs.Number.{num, byte_of};
ghost use Rattle.pe_trust.specs.CertificateTable.{certificate_table};
ghost use Rattle.pe_trust.specs.Certificates.{certificates_of, certificates_by, certificates_left, certificate_view, whole_entry};

use crate::certificate::{Certificate, Certificates};
use crate::table::certificate_table;
use pe_head::{Directory, Headers};
use pe_view::View;

impl<'a> Iterator for Certificates<'a> {
    ghost use Rattle.std.specs.Iterator.{YieldsFirstBy, item_count};

    type Item = Certificate<'a>;

    ghost next_gives = { YieldsFirstBy certificate_view certificates_left };

    ghost remaining = { item_count certificates_left };

    fn next(&mut self) -> Option<Certificate<'a>> {
        let certificate = entry_at(self.file, self.at, self.end)?;
        self.at += padded(certificate.length);
        Some(certificate)
    }
}

/// How many bytes lead from an entry of this length to the next.
pub(crate) fn padded(length: u32) -> u64
    ensures { result ≡ (length + 7) / 8 * 8 }
{
    (u64::from(length) + 7) / 8 * 8
}

/// The entry at an offset, where it lies whole before the end.
pub(crate) fn entry_at<'a>(file: View<'a>, at: u64, end: u64) -> Option<Certificate<'a>>
    requires inside { end ≤ size_of file }
    requires small { at < 2 ^ 33 + 8 }
    ensures value { option_map certificate_view result ≡ whole_entry (bytes_of file.entry) end at }
    ensures fits { IfSome result (λ c. at + c.length ≤ end) }
{
    if at + 8 > end {
        return None;
    }
    let length = u32_in(file, at);
    if length < 8 || at + u64::from(length) > end {
        return None;
    }
    Some(Certificate {
        offset: at,
        length,
        revision: u16_in(file, at + 4),
        kind: u16_in(file, at + 6),
        bytes: file.slice(at + 8, u64::from(length) - 8).unwrap(),
    })
}

/// The number in 2 bytes that the file holds.
fn u16_in(view: View, offset: u64) -> u16
    requires { offset + 2 ≤ size_of view }
    ensures { result ≡ num (byte_of (bytes_of view.entry)) offset 2 }
{
    view.u16_at(offset).unwrap()
}

/// The number in 4 bytes that the file holds.
fn u32_in(view: View, offset: u64) -> u32
    requires { offset + 4 ≤ size_of view }
    ensures { result ≡ num (byte_of (bytes_of view.entry)) offset 4 }
{
    view.u32_at(offset).unwrap()
}

pub(crate) fn certificates_in<'a>(file: View<'a>, table: Directory) -> Certificates<'a>
    ensures { certificates_left result ≡ certificates_by (bytes_of file.entry) table }
{
    let start = u64::from(table.rva);
    Certificates {
        file,
        at: start,
        end: file.len().min(start + u64::from(table.size)),
    }
}

impl<'a> Certificates<'a> {
    /// The entries of an image's certificate table, of which directory 4 holds the file offset and the size; none if one of these is 0.
    pub fn of(file: View<'a>, headers: &Headers) -> Certificates<'a>
        ensures { certificates_left result ≡ certificates_of (bytes_of file.entry) (certificate_table headers.now) }
    {
        let Some(table) = certificate_table(headers) else {
            return Certificates {
                file,
                at: 0,
                end: 0,
            };
        };
        certificates_in(file, table)
    }
}
