//! The digests of what an Authenticode signature signs, and whether one fits.

ghost use Rattle.std.specs.Prelude.{◌≡◌, option_map};
ghost use Rattle.sha1.specs.Sha1.{sha1};
ghost use Rattle.sha2.specs.Sha256.{sha256};
ghost use Rattle.sha2.specs.Sha512.{sha384, sha512};
ghost use Rattle.pe_view.specs.View.{bytes_of};
ghost use Rattle.pe_trust.specs.Digests.{algorithm_of, fits_of};
ghost use Rattle.pe_trust.specs.SignatureView.{signed_view};
ghost use Rattle.pe_trust.specs.SignedBytes.{authenticode_bytes, parts_view};

use crate::signature::SignedDigest;
use crate::signed_bytes::{Parts, signed_parts};
use pe_head::Headers;
use pe_view::View;
use sha1::Sha1;
use sha2::{Digest, Sha256, Sha384, Sha512};

/// An algorithm whose digests are computed here.
#[derive(Clone, Copy, Debug, PartialEq, Eq)]
pub enum DigestAlgorithm {
    /// 1.3.14.3.2.26.
    Sha1,
    /// 2.16.840.1.101.3.4.2.1.
    Sha256,
    /// 2.16.840.1.101.3.4.2.2.
    Sha384,
    /// 2.16.840.1.101.3.4.2.3.
    Sha512,
}

const SHA1: [u8; 5] = [0x2b, 0x0e, 0x03, 0x02, 0x1a];

const SHA256: [u8; 9] = [0x60, 0x86, 0x48, 0x01, 0x65, 0x03, 0x04, 0x02, 0x01];

const SHA384: [u8; 9] = [0x60, 0x86, 0x48, 0x01, 0x65, 0x03, 0x04, 0x02, 0x02];

const SHA512: [u8; 9] = [0x60, 0x86, 0x48, 0x01, 0x65, 0x03, 0x04, 0x02, 0x03];

/// The algorithm of an object identifier in DER, if its digests are computed here.
fn algorithm_of(identifier: &[u8]) -> Option<DigestAlgorithm>
    ensures { result ≡ algorithm_of identifier.now }
{
    if identifier == SHA1.as_slice() {
        return Some(DigestAlgorithm::Sha1);
    }
    if identifier == SHA256.as_slice() {
        return Some(DigestAlgorithm::Sha256);
    }
    if identifier == SHA384.as_slice() {
        return Some(DigestAlgorithm::Sha384);
    }
    if identifier == SHA512.as_slice() {
        return Some(DigestAlgorithm::Sha512);
    }
    None
}

/// The SHA-1 digest of the parts, one behind the other.
fn sha1_of(parts: &Parts) -> [u8; 20]
    ensures { result ≡ sha1 (parts_view parts.now) }
{
    let mut hasher = Sha1::new();
    hasher.update(parts.first);
    hasher.update(parts.second);
    hasher.update(parts.third);
    hasher.finalize()
}

/// The digest of the parts, one behind the other.
fn sha2_of<D: Digest>(parts: &Parts) -> D::Output
    ensures { D.digest_of (parts_view parts.now) result }
{
    let mut hasher = D::new();
    hasher.update(parts.first);
    hasher.update(parts.second);
    hasher.update(parts.third);
    hasher.finalize()
}

/// The SHA-1 digest that a signature of an image's file is to have: of the file without CheckSum, the entry of directory 4, and the
/// certificate table ("Windows Authenticode Portable Executable Signature Format", Calculating the PE Image Hash).
///
/// `None` if that is not what the text's rule hashes: if the entry is not in the headers, raw data do not follow the headers without a gap
/// or an overlap, or the certificate table is not after them at the end of the file. So the headers and the raw data of all sections of
/// a file that has a digest lie before its certificate table.
pub fn authenticode_sha1(file: View, headers: &Headers) -> Option<[u8; 20]>
    ensures { result ≡ option_map sha1 (authenticode_bytes (bytes_of file.entry) headers.now) }
{
    let parts = signed_parts(file, headers)?;
    Some(sha1_of(&parts))
}

/// The SHA-256 digest of the same bytes.
pub fn authenticode_sha256(file: View, headers: &Headers) -> Option<[u8; 32]>
    ensures { result ≡ option_map sha256 (authenticode_bytes (bytes_of file.entry) headers.now) }
{
    let parts = signed_parts(file, headers)?;
    Some(sha2_of::<Sha256>(&parts))
}

/// The SHA-384 digest of the same bytes.
pub fn authenticode_sha384(file: View, headers: &Headers) -> Option<[u8; 48]>
    ensures { result ≡ option_map sha384 (authenticode_bytes (bytes_of file.entry) headers.now) }
{
    let parts = signed_parts(file, headers)?;
    Some(sha2_of::<Sha384>(&parts))
}

/// The SHA-512 digest of the same bytes.
pub fn authenticode_sha512(file: View, headers: &Headers) -> Option<[u8; 64]>
    ensures { result ≡ option_map sha512 (authenticode_bytes (bytes_of file.entry) headers.now) }
{
    let parts = signed_parts(file, headers)?;
    Some(sha2_of::<Sha512>(&parts))
}

impl<'a> SignedDigest<'a> {
    ghost use Rattle.std.specs.Prelude.{option_and_then};

    /// The algorithm, if its digests are computed here.
    pub fn known_algorithm(&self) -> Option<DigestAlgorithm>
        ensures { result ≡ algorithm_of (signed_view self.now).algorithm }
    {
        algorithm_of(self.algorithm)
    }

    /// Whether the digest is that of an image's file. `None` where the algorithm is none of those here, or what a signature signs is
    /// ambiguous, as for [`authenticode_sha256`]. Whether the signature is valid is another question, which is not asked.
    pub fn fits(&self, file: View, headers: &Headers) -> Option<bool>
        ensures { result ≡ fits_of (signed_view self.now) (authenticode_bytes (bytes_of file.entry) headers.now) }
    {
        let algorithm = self.known_algorithm()?;
        let parts = signed_parts(file, headers)?;
        Some(match algorithm {
            DigestAlgorithm::Sha1 => self.digest == sha1_of(&parts).as_slice(),
            DigestAlgorithm::Sha256 => self.digest == sha2_of::<Sha256>(&parts).as_slice(),
            DigestAlgorithm::Sha384 => self.digest == sha2_of::<Sha384>(&parts).as_slice(),
            DigestAlgorithm::Sha512 => self.digest == sha2_of::<Sha512>(&parts).as_slice(),
        })
    }
}
