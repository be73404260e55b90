//! The rows of a page for the certificates of an image's file.

ghost use Rattle.pe_view.specs.View.{bytes_of};
ghost use Rattle.pe_trust.specs.DigestsView.{AreDigestsOf};
ghost use Rattle.pe_trust.specs.SignedBytes.{authenticode_bytes};
ghost use Rattle.pe_text.specs.TextWriter.{IsReady};
ghost use Rattle.pe_page.specs.Page.{AddsSome};

use crate::debug_data::write_bytes;
use pe_head::Headers;
use pe_page::Cell::{self, Plain};
use pe_page::{plural, write_cells};
use pe_text::Part::{Hex, Hex4, Text};
use pe_text::{Sink, TextWriter, write_parts};
use pe_trust::{
    Certificate, Certificates, DigestAlgorithm, FileDigests, SignedDigest, Signer, Signers,
    common_name, signed_digest,
};
use pe_view::View;

/// The type of a certificate that is a signature (PKCS #7).
const SIGNED_DATA: u16 = 2;

/// The name of a type of certificates ("PE Format", The Attribute Certificate Table), if it has one.
fn type_name(kind: u16) -> Option<&'static [u8]> {
    match kind {
        1 => Some(b"X.509"),
        SIGNED_DATA => Some(b"PKCS #7"),
        4 => Some(b"terminal server stack"),
        _ => None,
    }
}

/// The name of the algorithm of a digest.
fn algorithm_name(signed: &SignedDigest) -> &'static [u8] {
    match signed.known_algorithm() {
        Some(DigestAlgorithm::Sha1) => b"SHA-1",
        Some(DigestAlgorithm::Sha256) => b"SHA-256",
        Some(DigestAlgorithm::Sha384) => b"SHA-384",
        Some(DigestAlgorithm::Sha512) => b"SHA-512",
        None => b"of an algorithm that is not computed",
    }
}

/// What the page says of whether a digest is that of the file.
fn fits_words(fits: Option<bool>) -> &'static [u8] {
    match fits {
        Some(true) => b", fits\n",
        Some(false) => b", does not fit\n",
        None => b"\n",
    }
}

/// Adds the type of a certificate.
fn write_type<W: Sink>(text: &mut TextWriter<W>, kind: u16)
    requires { IsReady W.failures text.old }
    ensures { AddsSome W.taken W.failures text.old text.new }
{
    match type_name(kind) {
        Some(name) => text.text(name),
        None => write_parts(text, &[Text(b"type 0x"), Hex4(kind)]),
    }
}

/// The common name in a name.
fn name_cell(name: &[u8]) -> Cell {
    match common_name(name) {
        Some(common) => Cell::Name(common),
        None => Plain(Text(b"no common name")),
    }
}

/// Adds the row of a certificate of a signature: whose it is, who issued it, and its serial number.
fn write_signer<W: Sink>(text: &mut TextWriter<W>, signer: &Signer)
    requires { IsReady W.failures text.old }
    ensures { AddsSome W.taken W.failures text.old text.new }
{
    write_cells(
        text,
        &[
            Plain(Text(b"    of ")),
            name_cell(signer.subject),
            Plain(Text(b", issued by ")),
            name_cell(signer.issuer),
            Plain(Text(b", serial number 0x")),
        ],
    );
    write_bytes(text, signer.serial);
    text.text(b"\n");
}

/// Adds a row for each certificate of a signature.
fn write_signers<W: Sink>(text: &mut TextWriter<W>, bytes: &[u8])
    requires { IsReady W.failures text.old }
    ensures { AddsSome W.taken W.failures text.old text.new }
{
    for signer in Signers::of(bytes) {
        if text.has_failed() {
            return;
        }
        write_signer(text, &signer);
    }
}

/// Adds the row of the digest that a signature signs, with whether it fits.
fn write_digest<W: Sink>(text: &mut TextWriter<W>, name: &[u8], fits: Option<bool>)
    requires { IsReady W.failures text.old }
    ensures { AddsSome W.taken W.failures text.old text.new }
{
    write_parts(
        text,
        &[
            Text(b"    signed digest "),
            Text(name),
            Text(fits_words(fits)),
        ],
    );
}

/// Adds the row of what a signature signs.
fn write_signed<W: Sink>(
    text: &mut TextWriter<W>,
    bytes: &[u8],
    file: View,
    headers: &Headers,
    digests: &mut FileDigests,
)
    requires ready { IsReady W.failures text.old }
    requires known { AreDigestsOf (authenticode_bytes (bytes_of file) headers.now) digests.old }
    ensures adds { AddsSome W.taken W.failures text.old text.new }
    ensures kept { AreDigestsOf (authenticode_bytes (bytes_of file.entry) headers.now) digests.new }
{
    match signed_digest(bytes) {
        Some(signed) => {
            let fits = digests.fits(&signed, file, headers);
            write_digest(text, algorithm_name(&signed), fits);
        }
        None => text.text(b"    no signed digest\n"),
    }
}

/// Adds the row of a certificate: its type, its revision, its size and its place.
fn write_entry<W: Sink>(text: &mut TextWriter<W>, certificate: &Certificate)
    requires { IsReady W.failures text.old }
    ensures { AddsSome W.taken W.failures text.old text.new }
{
    text.text(b"  Certificate  ");
    write_type(text, certificate.kind);
    write_cells(
        text,
        &[
            Plain(Text(b", revision 0x")),
            Plain(Hex4(certificate.revision)),
            Plain(Text(b", ")),
            Cell::Count(u64::from(certificate.length)),
            plural(certificate.length as usize, b" byte", b" bytes"),
            Plain(Text(b" at file 0x")),
            Plain(Hex(certificate.offset, 1)),
            Plain(Text(b"\n")),
        ],
    );
}

/// Adds the rows of a certificate: its own, and if it is a signature, what that signs and has.
fn write_certificate<W: Sink>(
    text: &mut TextWriter<W>,
    certificate: &Certificate,
    file: View,
    headers: &Headers,
    digests: &mut FileDigests,
)
    requires ready { IsReady W.failures text.old }
    requires known { AreDigestsOf (authenticode_bytes (bytes_of file) headers.now) digests.old }
    ensures adds { AddsSome W.taken W.failures text.old text.new }
    ensures kept { AreDigestsOf (authenticode_bytes (bytes_of file.entry) headers.now) digests.new }
{
    write_entry(text, certificate);
    if certificate.kind != SIGNED_DATA {
        return;
    }
    write_signed(text, certificate.bytes, file, headers, digests);
    write_signers(text, certificate.bytes);
}

/// Adds the rows of each certificate of an image's file.
pub(crate) fn write_certificates<W: Sink>(text: &mut TextWriter<W>, file: View, headers: &Headers)
    requires { IsReady W.failures text.old }
    ensures { AddsSome W.taken W.failures text.old text.new }
{
    let mut digests = FileDigests::none();
    for certificate in Certificates::of(file, headers) {
        if text.has_failed() {
            return;
        }
        write_certificate(text, &certificate, file, headers, &mut digests);
    }
}
