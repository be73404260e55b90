//! `FileDigests`: the digests of what signatures of a file sign, each computed once.

ghost use Rattle.std.specs.Prelude.{◌≡◌, ℕ, List, Option, option_map};
ghost use Rattle.std.specs.Str.{bytes_eq};
ghost use Rattle.sha1.specs.Sha1.{sha1};
ghost use Rattle.sha2.specs.Sha256.{sha256};
ghost use Rattle.sha2.specs.Sha512.{sha384, sha512};
ghost use Rattle.pe_view.specs.View.{bytes_of};
ghost use Rattle.pe_trust.specs.Digests.{fits_of};
ghost use Rattle.pe_trust.specs.DigestsView.{AreDigestsOf};
ghost use Rattle.pe_trust.specs.SignatureView.{signed_view};
ghost use Rattle.pe_trust.specs.SignedBytes.{authenticode_bytes};

use crate::digests::{
    DigestAlgorithm, authenticode_sha1, authenticode_sha256, authenticode_sha384,
    authenticode_sha512,
};
use crate::signature::SignedDigest;
use pe_head::Headers;
use pe_view::View;

/// The digests of a file that were asked for, so that a file with many signatures is not read once for each.
#[derive(Clone, Copy)]
pub struct FileDigests {
    pub(crate) sha1: Option<Option<[u8; 20]>>,
    pub(crate) sha256: Option<Option<[u8; 32]>>,
    pub(crate) sha384: Option<Option<[u8; 48]>>,
    pub(crate) sha512: Option<Option<[u8; 64]>>,
}

/// Whether a digest is that of the file; `None` if the file has none.
fn equals<const N: usize>(own: Option<[u8; N]>, digest: &[u8]) -> Option<bool>
    ensures { result ≡ option_map (bytes_eq digest.entry.now) own.entry }
{
    match own {
        Some(own) => Some(digest == own.as_slice()),
        None => None,
    }
}

impl FileDigests {
    /// Those of any file: none was asked for yet.
    pub fn none() -> FileDigests
        ensures { (message : Option (List ℕ)) → AreDigestsOf message result }
    {
        FileDigests {
            sha1: None,
            sha256: None,
            sha384: None,
            sha512: None,
        }
    }

    /// The SHA-1 digest that a signature of the file is to have, as for [`authenticode_sha1`].
    fn sha1(&mut self, file: View, headers: &Headers) -> Option<[u8; 20]>
        requires { AreDigestsOf (authenticode_bytes (bytes_of file) headers.now) self.old }
        ensures value { result ≡ option_map sha1 (authenticode_bytes (bytes_of file.entry) headers.now) }
        ensures kept { AreDigestsOf (authenticode_bytes (bytes_of file.entry) headers.now) self.new }
    {
        let own = match self.sha1 {
            Some(own) => own,
            None => authenticode_sha1(file, headers),
        };
        self.sha1 = Some(own);
        own
    }

    /// The SHA-256 digest that a signature of the file is to have, as for [`authenticode_sha256`].
    pub fn sha256(&mut self, file: View, headers: &Headers) -> Option<[u8; 32]>
        requires { AreDigestsOf (authenticode_bytes (bytes_of file) headers.now) self.old }
        ensures value { result ≡ option_map sha256 (authenticode_bytes (bytes_of file.entry) headers.now) }
        ensures kept { AreDigestsOf (authenticode_bytes (bytes_of file.entry) headers.now) self.new }
    {
        let own = match self.sha256 {
            Some(own) => own,
            None => authenticode_sha256(file, headers),
        };
        self.sha256 = Some(own);
        own
    }

    /// The SHA-384 digest that a signature of the file is to have, as for [`authenticode_sha384`].
    fn sha384(&mut self, file: View, headers: &Headers) -> Option<[u8; 48]>
        requires { AreDigestsOf (authenticode_bytes (bytes_of file) headers.now) self.old }
        ensures value { result ≡ option_map sha384 (authenticode_bytes (bytes_of file.entry) headers.now) }
        ensures kept { AreDigestsOf (authenticode_bytes (bytes_of file.entry) headers.now) self.new }
    {
        let own = match self.sha384 {
            Some(own) => own,
            None => authenticode_sha384(file, headers),
        };
        self.sha384 = Some(own);
        own
    }

    /// The SHA-512 digest that a signature of the file is to have, as for [`authenticode_sha512`].
    fn sha512(&mut self, file: View, headers: &Headers) -> Option<[u8; 64]>
        requires { AreDigestsOf (authenticode_bytes (bytes_of file) headers.now) self.old }
        ensures value { result ≡ option_map sha512 (authenticode_bytes (bytes_of file.entry) headers.now) }
        ensures kept { AreDigestsOf (authenticode_bytes (bytes_of file.entry) headers.now) self.new }
    {
        let own = match self.sha512 {
            Some(own) => own,
            None => authenticode_sha512(file, headers),
        };
        self.sha512 = Some(own);
        own
    }

    /// Whether a signed digest is that of the file, as [`SignedDigest::fits`] says.
    pub fn fits(&mut self, signed: &SignedDigest, file: View, headers: &Headers) -> Option<bool>
        requires { AreDigestsOf (authenticode_bytes (bytes_of file) headers.now) self.old }
        ensures value { result ≡ fits_of (signed_view signed.now) (authenticode_bytes (bytes_of file.entry) headers.now) }
        ensures kept { AreDigestsOf (authenticode_bytes (bytes_of file.entry) headers.now) self.new }
    {
        match signed.known_algorithm()? {
            DigestAlgorithm::Sha1 => equals(self.sha1(file, headers), signed.digest),
            DigestAlgorithm::Sha256 => equals(self.sha256(file, headers), signed.digest),
            DigestAlgorithm::Sha384 => equals(self.sha384(file, headers), signed.digest),
            DigestAlgorithm::Sha512 => equals(self.sha512(file, headers), signed.digest),
        }
    }
}
