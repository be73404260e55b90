//! `DigestRecord`: the digest of what a signature of an image's file signs, as C has it.

ghost use Rattle.std.specs.Prelude.{◌≡◌, ◌≤◌, length, option_map};
ghost use Rattle.pe_view.specs.View.{bytes_of};
ghost use Rattle.c_tables.specs.Told.{TellsRecord};
ghost use Rattle.c_tables.specs.DigestRecords.{algorithm_number, algorithm_numbered, digest_record, own_record};

use crate::told::put_record;
use pe_head::Headers;
use pe_trust::{
    DigestAlgorithm, authenticode_sha1, authenticode_sha256, authenticode_sha384,
    authenticode_sha512,
};
use pe_view::View;

/// A digest.
#[repr(C)]
#[derive(Clone, Copy)]
pub struct DigestRecord {
    /// Its bytes, with zeros after them.
    pub bytes: [u8; 64],
    /// How many bytes it has: 16, 20, 32, 48 or 64.
    pub len: u32,
}

/// Which algorithm a digest has.
pub mod digest_kind {
    /// There is no digest.
    pub const NONE: u32 = 0;
    /// SHA-1.
    pub const SHA1: u32 = 1;
    /// SHA-256.
    pub const SHA256: u32 = 2;
    /// SHA-384.
    pub const SHA384: u32 = 3;
    /// SHA-512.
    pub const SHA512: u32 = 4;
    /// An algorithm whose digests are not computed.
    pub const OTHER: u32 = 5;
}

/// The number of an algorithm.
pub(crate) fn algorithm_number(algorithm: DigestAlgorithm) -> u32
    ensures { result ≡ algorithm_number algorithm }
{
    match algorithm {
        DigestAlgorithm::Sha1 => digest_kind::SHA1,
        DigestAlgorithm::Sha256 => digest_kind::SHA256,
        DigestAlgorithm::Sha384 => digest_kind::SHA384,
        DigestAlgorithm::Sha512 => digest_kind::SHA512,
    }
}

/// The algorithm of a number, or `None` if there is none whose digests are computed.
pub fn algorithm_numbered(number: u32) -> Option<DigestAlgorithm>
    ensures { result ≡ algorithm_numbered number }
{
    match number {
        digest_kind::SHA1 => Some(DigestAlgorithm::Sha1),
        digest_kind::SHA256 => Some(DigestAlgorithm::Sha256),
        digest_kind::SHA384 => Some(DigestAlgorithm::Sha384),
        digest_kind::SHA512 => Some(DigestAlgorithm::Sha512),
        _ => None,
    }
}

impl DigestRecord {
    /// A digest as C has it.
    pub fn of(digest: &[u8]) -> DigestRecord
        requires { length digest.now ≤ 64 }
        ensures { result ≡ digest_record digest.now }
    {
        let mut bytes = [0; 64];
        bytes[..digest.len()].copy_from_slice(digest);
        DigestRecord {
            bytes,
            len: digest.len() as u32,
        }
    }
}

/// A digest, if there is one, as C has it.
fn some_record<const N: usize>(digest: Option<[u8; N]>) -> Option<DigestRecord>
    requires { N ≤ 64 }
    ensures { result ≡ option_map digest_record digest.entry }
{
    match digest {
        Some(digest) => Some(DigestRecord::of(&digest)),
        None => None,
    }
}

/// The digest by an algorithm of what a signature of an image's file signs. `None` if that is ambiguous.
fn file_digest(algorithm: DigestAlgorithm, file: View, headers: &Headers) -> Option<DigestRecord>
    ensures { result ≡ own_record algorithm (bytes_of file.entry) headers.now }
{
    match algorithm {
        DigestAlgorithm::Sha1 => some_record(authenticode_sha1(file, headers)),
        DigestAlgorithm::Sha256 => some_record(authenticode_sha256(file, headers)),
        DigestAlgorithm::Sha384 => some_record(authenticode_sha384(file, headers)),
        DigestAlgorithm::Sha512 => some_record(authenticode_sha512(file, headers)),
    }
}

/// Stores the digest by an algorithm of what a signature of an image's file signs, and returns the status: 0, or 3 if the file has no
/// such bytes, which leaves the record unchanged.
pub fn tell_digest(
    algorithm: DigestAlgorithm,
    file: View,
    headers: &Headers,
    digest: &mut DigestRecord,
) -> u32
    ensures { TellsRecord (λ r. r) (own_record algorithm (bytes_of file.entry) headers.now) digest.old digest.new result }
{
    put_record(file_digest(algorithm, file, headers), digest)
}
