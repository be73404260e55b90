//! `signed_digest`: the digest that an Authenticode signature signs.

ghost use Rattle.std.specs.Prelude.{◌≡◌, option_map};
ghost use Rattle.pe_trust.specs.Signature.{behind, behind_identifier, content_info, content_under, digest_info, signed_content, signed_digest_of, signed_in, signers_of};
ghost use Rattle.pe_trust.specs.SignatureView.{signed_view};

use crate::der::first_element;

/// The tags of the elements on the way to the digest.
pub(crate) mod tag {
    pub(crate) const INTEGER: u8 = 0x02;

    pub(crate) const OCTET_STRING: u8 = 0x04;

    pub(crate) const OBJECT_IDENTIFIER: u8 = 0x06;

    pub(crate) const SEQUENCE: u8 = 0x30;

    pub(crate) const SET: u8 = 0x31;

    pub(crate) const CONTEXT_0: u8 = 0xa0;
}

/// 1.2.840.113549.1.7.2, signedData.
const SIGNED_DATA: [u8; 9] = [0x2a, 0x86, 0x48, 0x86, 0xf7, 0x0d, 0x01, 0x07, 0x02];

/// 1.3.6.1.4.1.311.2.1.4, SPC_INDIRECT_DATA_OBJID.
const SPC_INDIRECT_DATA: [u8; 10] = [0x2b, 0x06, 0x01, 0x04, 0x01, 0x82, 0x37, 0x02, 0x01, 0x04];

/// A digest, and the object identifier of its algorithm in DER, as a signature has them.
#[derive(Clone, Copy, Debug)]
pub struct SignedDigest<'a> {
    /// The content of the object identifier of the algorithm, such as that of 2.16.840.1.101.3.4.2.1 for SHA-256.
    pub algorithm: &'a [u8],
    /// The digest.
    pub digest: &'a [u8],
}

/// The content of the first element, if it has this tag.
pub(crate) fn content_under(tag: u8, bytes: &[u8]) -> Option<&[u8]>
    ensures { option_map (λ content. content.now) result ≡ content_under tag bytes.now }
{
    let first = first_element(bytes)?;
    if first.tag != tag {
        return None;
    }
    Some(first.content)
}

/// What is behind the first element, if it has this tag.
pub(crate) fn behind(tag: u8, bytes: &[u8]) -> Option<&[u8]>
    ensures { option_map (λ rest. rest.now) result ≡ behind tag bytes.now }
{
    let first = first_element(bytes)?;
    if first.tag != tag {
        return None;
    }
    Some(first.rest)
}

/// What is behind the first element, if it is this object identifier.
pub(crate) fn behind_identifier<'a>(identifier: &[u8], bytes: &'a [u8]) -> Option<&'a [u8]>
    ensures { option_map (λ rest. rest.now) result ≡ behind_identifier identifier.now bytes.now }
{
    let first = first_element(bytes)?;
    if first.tag != tag::OBJECT_IDENTIFIER || first.content != identifier {
        return None;
    }
    Some(first.rest)
}

/// The content of a ContentInfo of this type.
fn content_info<'a>(identifier: &[u8], bytes: &'a [u8]) -> Option<&'a [u8]>
    ensures { option_map (λ content. content.now) result ≡ content_info identifier.now bytes.now }
{
    let members = content_under(tag::SEQUENCE, bytes)?;
    let content = behind_identifier(identifier, members)?;
    content_under(tag::CONTEXT_0, content)
}

/// The members of SignedData from its contentInfo on.
fn signed_content(bytes: &[u8]) -> Option<&[u8]>
    ensures { option_map (λ content. content.now) result ≡ signed_content bytes.now }
{
    let content = content_info(&SIGNED_DATA, bytes)?;
    let version = content_under(tag::SEQUENCE, content)?;
    let algorithms = behind(tag::INTEGER, version)?;
    behind(tag::SET, algorithms)
}

/// The members of the DigestInfo that is signed.
fn digest_info(bytes: &[u8]) -> Option<&[u8]>
    ensures { option_map (λ info. info.now) result ≡ digest_info bytes.now }
{
    let signed = signed_content(bytes)?;
    let content = content_info(&SPC_INDIRECT_DATA, signed)?;
    let data = content_under(tag::SEQUENCE, content)?;
    let message_digest = behind(tag::SEQUENCE, data)?;
    content_under(tag::SEQUENCE, message_digest)
}

/// The algorithm and the digest that are the members of a DigestInfo.
fn signed_in(info: &[u8]) -> Option<SignedDigest>
    ensures { option_map signed_view result ≡ signed_in info.now }
{
    let identifier = content_under(tag::SEQUENCE, info)?;
    let algorithm = content_under(tag::OBJECT_IDENTIFIER, identifier)?;
    let octets = behind(tag::SEQUENCE, info)?;
    let digest = content_under(tag::OCTET_STRING, octets)?;
    Some(SignedDigest { algorithm, digest })
}

/// The digest that a signature signs, given the bytes of an entry of the certificate table whose type is PKCS #7; `None` if they do not
/// begin with an Authenticode signature. Whether anybody is to be trusted is not asked.
pub fn signed_digest(bytes: &[u8]) -> Option<SignedDigest>
    ensures { option_map signed_view result ≡ signed_digest_of bytes.now }
{
    let info = digest_info(bytes)?;
    signed_in(info)
}

/// The certificates of a signature, one behind the other.
pub(crate) fn certificates_in(bytes: &[u8]) -> Option<&[u8]>
    ensures { option_map (λ certificates. certificates.now) result ≡ signers_of bytes.now }
{
    let content = signed_content(bytes)?;
    let certificates = behind(tag::SEQUENCE, content)?;
    content_under(tag::CONTEXT_0, certificates)
}
