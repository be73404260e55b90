//! `Signer`: a certificate of a signature; and `Signers`, which are those of one.

/// A certificate that a signature has (X.509, RFC 5280), by its parts in DER. Nothing says whether anybody is to be trusted.
#[derive(Clone, Copy, Debug)]
pub struct Signer<'a> {
    /// The content of the serial number, a big-endian number.
    pub serial: &'a [u8],
    /// The content of the issuer's name.
    pub issuer: &'a [u8],
    /// The content of the subject's name.
    pub subject: &'a [u8],
}

/// The certificates of a signature, up to the first that is none.
#[derive(Clone, Copy, Debug)]
pub struct Signers<'a> {
    pub(crate) bytes: &'a [u8],
}
