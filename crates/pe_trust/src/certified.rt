//! The certificates of a signature, one by one.

ghost use Rattle.std.specs.Prelude.{◌≡◌, option_map};
ghost use Rattle.pe_trust.specs.Signers.{behind_first, from_issuer, from_subject, signer_by, signer_of, signers_of_signature, unversioned};
ghost use Rattle.pe_trust.specs.SignersView.{signer_view, signers_left};

use crate::signature::{behind, certificates_in, content_under, tag};
use crate::signer::{Signer, Signers};

impl<'a> Iterator for Signers<'a> {
    ghost use Rattle.std.specs.Iterator.{YieldsFirstBy, item_count};

    type Item = Signer<'a>;

    ghost next_gives = { YieldsFirstBy signer_view signers_left };

    ghost remaining = { item_count signers_left };

    fn next(&mut self) -> Option<Signer<'a>> {
        let signer = signer_of(self.bytes)?;
        self.bytes = behind_first(self.bytes);
        Some(signer)
    }
}

/// The certificates behind the first.
fn behind_first(bytes: &[u8]) -> &[u8]
    ensures { result.now ≡ behind_first bytes.now }
{
    behind(tag::SEQUENCE, bytes).unwrap_or(&[])
}

/// The members of a certificate from its serial number on.
fn unversioned(members: &[u8]) -> &[u8]
    ensures { result.now ≡ unversioned members.now }
{
    behind(tag::CONTEXT_0, members).unwrap_or(members)
}

/// The members from the issuer's name on.
fn from_issuer(numbered: &[u8]) -> Option<&[u8]>
    ensures { option_map (λ bytes. bytes.now) result ≡ from_issuer numbered.now }
{
    let signature = behind(tag::INTEGER, numbered)?;
    behind(tag::SEQUENCE, signature)
}

/// The members from the subject's name on.
fn from_subject(numbered: &[u8]) -> Option<&[u8]>
    ensures { option_map (λ bytes. bytes.now) result ≡ from_subject numbered.now }
{
    let issuer = from_issuer(numbered)?;
    let validity = behind(tag::SEQUENCE, issuer)?;
    behind(tag::SEQUENCE, validity)
}

/// The parts of a certificate whose members from the serial number on these are.
fn signer_by(numbered: &[u8]) -> Option<Signer>
    ensures { option_map signer_view result ≡ signer_by numbered.now }
{
    let serial = content_under(tag::INTEGER, numbered)?;
    let issuer = content_under(tag::SEQUENCE, from_issuer(numbered)?)?;
    let subject = content_under(tag::SEQUENCE, from_subject(numbered)?)?;
    Some(Signer {
        serial,
        issuer,
        subject,
    })
}

/// The certificate with which the bytes begin.
fn signer_of(bytes: &[u8]) -> Option<Signer>
    ensures { option_map signer_view result ≡ signer_of bytes.now }
{
    let certificate = content_under(tag::SEQUENCE, bytes)?;
    let members = content_under(tag::SEQUENCE, certificate)?;
    signer_by(unversioned(members))
}

impl<'a> Signers<'a> {
    /// The certificates of a signature, given the bytes of an entry of the certificate table whose type is PKCS #7: as far as they can
    /// be read, and none if it has none.
    pub fn of(bytes: &'a [u8]) -> Signers<'a>
        ensures { signers_left result ≡ signers_of_signature bytes.entry.now }
    {
        Signers {
            bytes: certificates_in(bytes).unwrap_or(&[]),
        }
    }
}
