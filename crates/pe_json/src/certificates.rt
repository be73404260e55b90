//! The certificates of an image's file.

ghost use Rattle.std.specs.Prelude.{◌≡◌, ◌++◌, ◌==◌, [], ◌∷◌, codes, flat_map, map, option_map, true};
ghost use Rattle.pe_text.specs.Text.{hex};
ghost use Rattle.pe_text.specs.TextWriter.{IsReady, Adds};
ghost use Rattle.pe_trust.specs.CertificateTable.{certificate_table};
ghost use Rattle.pe_trust.specs.Certificates.{certificate_view, certificates_left};
ghost use Rattle.pe_trust.specs.Digests.{algorithm_of};
ghost use Rattle.pe_trust.specs.DigestsView.{AreDigestsOf};
ghost use Rattle.pe_trust.specs.SignatureView.{signed_view};
ghost use Rattle.pe_trust.specs.Signature.{signed_digest_of};
ghost use Rattle.pe_trust.specs.SignedBytes.{authenticode_bytes};
ghost use Rattle.pe_trust.specs.Signers.{signers_of_signature};
ghost use Rattle.pe_trust.specs.SignersView.{signer_view, signers_left};
ghost use Rattle.pe_view.specs.View.{bytes_of};
ghost use Rattle.pe_json.specs.CertificateRows.{algorithm_if, asked, certificate_members, certificate_row, digest_member, entry_numbers, fits_if, name_if, signature_members, signed_members, signer_row, signers_member, type_name};
ghost use Rattle.pe_json.specs.JsonText.{boolean, member};
ghost use Rattle.pe_json.specs.Listed.{items_text, more};
ghost use Rattle.pe_json.specs.Strings.{name_value_if};

use crate::string::{write_digits, write_name, write_number, write_text_if};
use pe_head::Headers;
use pe_text::{Sink, TextWriter};
use pe_trust::{
    Certificate, Certificates, DigestAlgorithm, FileDigests, SignedDigest, Signer, Signers,
    certificate_table, common_name, signed_digest,
};
use pe_view::View;

/// The type of an entry that is a signature (PKCS #7).
const SIGNED_DATA: u16 = 2;

/// An image's whole file, of which is told what signatures it has.
#[derive(Clone, Copy)]
pub(crate) struct SignedFile<'a, 'h> {
    pub file: View<'a>,
    pub headers: &'h Headers,
    /// Whether digests are compared.
    pub digests: bool,
}

/// The name of a type of entries ("PE Format", The Attribute Certificate Table), if it has one.
fn type_name(kind: u16) -> Option<&'static str>
    ensures { option_map (λ name. name.now) result ≡ type_name kind }
{
    if kind == 1 {
        return Some("X509");
    }
    if kind == SIGNED_DATA {
        return Some("PKCS_SIGNED_DATA");
    }
    if kind == 3 {
        return Some("RESERVED_1");
    }
    if kind == 4 {
        return Some("TS_STACK_SIGNED");
    }
    None
}

/// The name of the algorithm of a digest, if it is one whose digests are computed.
fn algorithm_name(algorithm: Option<DigestAlgorithm>) -> Option<&'static str>
    ensures { option_map (λ name. name.now) result ≡ algorithm_if algorithm }
{
    match algorithm {
        Some(DigestAlgorithm::Sha1) => Some("SHA-1"),
        Some(DigestAlgorithm::Sha256) => Some("SHA-256"),
        Some(DigestAlgorithm::Sha384) => Some("SHA-384"),
        Some(DigestAlgorithm::Sha512) => Some("SHA-512"),
        None => None,
    }
}

/// Adds bytes after their key, which ends with what comes before their first digit.
pub(crate) fn write_hex<W: Sink>(text: &mut TextWriter<W>, key: &[u8], bytes: &[u8])
    requires { IsReady W.failures text.old }
    ensures { Adds W.taken W.failures text.old text.new (key.now ++ (flat_map (hex 2) bytes.now ++ codes "\"")) }
{
    text.text(key);
    write_digits(text, bytes);
    text.text(b"\"");
}

/// The member that says whether what a file says of itself fits it, after a comma.
pub(crate) fn fits_member(fits: bool) -> &'static [u8]
    ensures { result.now ≡ codes "," ++ member (codes "fits") (boolean fits) }
{
    if fits {
        b",\"fits\":true"
    } else {
        b",\"fits\":false"
    }
}

/// Adds whether a digest fits, if that is known.
fn write_fits<W: Sink>(text: &mut TextWriter<W>, fits: Option<bool>)
    requires { IsReady W.failures text.old }
    ensures { Adds W.taken W.failures text.old text.new (more (fits_if fits)) }
{
    let Some(fits) = fits else {
        return;
    };
    text.text(fits_member(fits));
}

/// Whether a signed digest is that of the file, if digests are compared.
fn fits(digests: &mut FileDigests, of: SignedFile, signed: &SignedDigest) -> Option<bool>
    requires { AreDigestsOf (authenticode_bytes (bytes_of of.file) of.headers.now) digests.old }
    ensures value { result ≡ asked of.entry.digests (signed_view signed.now) (authenticode_bytes (bytes_of of.entry.file) of.entry.headers.now) }
    ensures kept { AreDigestsOf (authenticode_bytes (bytes_of of.entry.file) of.entry.headers.now) digests.new }
{
    if !of.digests {
        return None;
    }
    digests.fits(signed, of.file, of.headers)
}

/// Adds what a signature signs, if it has a signed digest.
fn write_signed<W: Sink>(
    text: &mut TextWriter<W>,
    digests: &mut FileDigests,
    of: SignedFile,
    signed: Option<SignedDigest>,
)
    requires ready { IsReady W.failures text.old }
    requires own { AreDigestsOf (authenticode_bytes (bytes_of of.file) of.headers.now) digests.old }
    ensures adds { Adds W.taken W.failures text.old text.new
        (more (signed_members of.entry.digests (authenticode_bytes (bytes_of of.entry.file) of.entry.headers.now) (option_map signed_view signed.entry))) }
    ensures kept { AreDigestsOf (authenticode_bytes (bytes_of of.entry.file) of.entry.headers.now) digests.new }
{
    let Some(signed) = signed else {
        return;
    };
    write_text_if(
        text,
        b",\"digest_algorithm\":",
        algorithm_name(signed.known_algorithm()),
    );
    write_hex(text, b",\"digest_hex\":\"", signed.digest);
    write_fits(text, fits(digests, of, &signed));
}

/// Adds a common name after one of two keys, if there is one.
fn write_name_if<W: Sink>(text: &mut TextWriter<W>, key: &[u8], key_hex: &[u8], name: Option<&[u8]>)
    requires { IsReady W.failures text.old }
    ensures { Adds W.taken W.failures text.old text.new (name_value_if key.now key_hex.now (option_map (λ name. name.now) name.entry)) }
{
    let Some(name) = name else {
        return;
    };
    write_name(text, key, key_hex, name);
}

/// Adds a certificate of a signature: its serial number, and the common names of whose it is and of who issued it.
fn write_signer<W: Sink>(text: &mut TextWriter<W>, signer: &Signer)
    requires { IsReady W.failures text.old }
    ensures { Adds W.taken W.failures text.old text.new (signer_row (signer_view signer.now)) }
{
    write_hex(text, b"{\"serial_hex\":\"", signer.serial);
    write_name_if(
        text,
        b",\"subject\":\"",
        b",\"subject_hex\":\"",
        common_name(signer.subject),
    );
    write_name_if(
        text,
        b",\"issuer\":\"",
        b",\"issuer_hex\":\"",
        common_name(signer.issuer),
    );
    text.text(b"}");
}

/// Adds a certificate of a signature, after a comma unless it is the first of the list.
fn write_next_signer<W: Sink>(text: &mut TextWriter<W>, first: bool, signer: &Signer)
    requires { IsReady W.failures text.old }
    ensures { Adds W.taken W.failures text.old text.new (items_text first (signer_row (signer_view signer.now) ∷ [])) }
{
    if first {
        write_signer(text, signer);
    } else {
        text.text(b",");
        write_signer(text, signer);
    }
}

/// Adds the certificates of a signature.
fn write_each_signer<W: Sink>(text: &mut TextWriter<W>, signers: Signers)
    requires { IsReady W.failures text.old }
    ensures { Adds W.taken W.failures text.old text.new (items_text true (map signer_row (signers_left signers.entry))) }
{
    let mut first = true;
    for signer in signers {
        if text.has_failed() {
            return;
        }
        write_next_signer(text, first, &signer);
        first = false;
    }
}

/// Adds what an entry signs and which certificates it has, if it is a signature.
fn write_signature<W: Sink>(
    text: &mut TextWriter<W>,
    digests: &mut FileDigests,
    of: SignedFile,
    certificate: &Certificate,
)
    requires ready { IsReady W.failures text.old }
    requires own { AreDigestsOf (authenticode_bytes (bytes_of of.file) of.headers.now) digests.old }
    ensures adds { Adds W.taken W.failures text.old text.new
        (more (signature_members of.entry.digests (authenticode_bytes (bytes_of of.entry.file) of.entry.headers.now) (certificate_view certificate.now))) }
    ensures kept { AreDigestsOf (authenticode_bytes (bytes_of of.entry.file) of.entry.headers.now) digests.new }
{
    if certificate.kind != SIGNED_DATA {
        return;
    }
    write_signed(text, digests, of, signed_digest(certificate.bytes));
    text.text(b",\"signers\":[");
    write_each_signer(text, Signers::of(certificate.bytes));
    text.text(b"]");
}

/// Adds how long an entry is, and of what revision and type.
fn write_numbers<W: Sink>(text: &mut TextWriter<W>, certificate: &Certificate)
    requires { IsReady W.failures text.old }
    ensures { Adds W.taken W.failures text.old text.new (more (entry_numbers (certificate_view certificate.now))) }
{
    write_number(text, b",\"length\":", certificate.length as u64);
    write_number(text, b",\"revision\":", certificate.revision as u64);
    write_number(text, b",\"type\":", certificate.kind as u64);
}

/// Adds an entry of the certificate table.
fn write_certificate<W: Sink>(
    text: &mut TextWriter<W>,
    digests: &mut FileDigests,
    of: SignedFile,
    certificate: &Certificate,
)
    requires ready { IsReady W.failures text.old }
    requires own { AreDigestsOf (authenticode_bytes (bytes_of of.file) of.headers.now) digests.old }
    ensures adds { Adds W.taken W.failures text.old text.new
        (certificate_row of.entry.digests (authenticode_bytes (bytes_of of.entry.file) of.entry.headers.now) (certificate_view certificate.now)) }
    ensures kept { AreDigestsOf (authenticode_bytes (bytes_of of.entry.file) of.entry.headers.now) digests.new }
{
    write_number(text, b"{\"offset\":", certificate.offset);
    write_numbers(text, certificate);
    write_text_if(text, b",\"type_name\":", type_name(certificate.kind));
    write_signature(text, digests, of, certificate);
    text.text(b"}");
}

/// Adds an entry of the certificate table, after a comma unless it is the first of the list.
fn write_next<W: Sink>(
    text: &mut TextWriter<W>,
    digests: &mut FileDigests,
    of: SignedFile,
    first: bool,
    certificate: &Certificate,
)
    requires ready { IsReady W.failures text.old }
    requires own { AreDigestsOf (authenticode_bytes (bytes_of of.file) of.headers.now) digests.old }
    ensures adds { Adds W.taken W.failures text.old text.new
        (items_text first (certificate_row of.entry.digests (authenticode_bytes (bytes_of of.entry.file) of.entry.headers.now) (certificate_view certificate.now) ∷ [])) }
    ensures kept { AreDigestsOf (authenticode_bytes (bytes_of of.entry.file) of.entry.headers.now) digests.new }
{
    if first {
        write_certificate(text, digests, of, certificate);
    } else {
        text.text(b",");
        write_certificate(text, digests, of, certificate);
    }
}

/// Adds entries of the certificate table.
fn write_each<W: Sink>(text: &mut TextWriter<W>, of: SignedFile, certificates: Certificates)
    requires { IsReady W.failures text.old }
    ensures { Adds W.taken W.failures text.old text.new
        (items_text true (map (certificate_row of.entry.digests (authenticode_bytes (bytes_of of.entry.file) of.entry.headers.now)) (certificates_left certificates.entry))) }
{
    let mut digests = FileDigests::none();
    let mut first = true;
    for certificate in certificates {
        if text.has_failed() {
            return;
        }
        write_next(text, &mut digests, of, first, &certificate);
        first = false;
    }
}

/// Adds the member that lists the entries of the certificate table, if there is one.
pub(crate) fn write_certificates<W: Sink>(text: &mut TextWriter<W>, of: SignedFile)
    requires { IsReady W.failures text.old }
    ensures { Adds W.taken W.failures text.old text.new
        (more (certificate_members of.entry.digests (bytes_of of.entry.file) (authenticode_bytes (bytes_of of.entry.file) of.entry.headers.now)
        (certificate_table of.entry.headers.now))) }
{
    if certificate_table(of.headers).is_none() {
        return;
    }
    text.text(b",\"certificates\":[");
    write_each(text, of, Certificates::of(of.file, of.headers));
    text.text(b"]");
}
