//! What a file says of itself: its CheckSum, its certificates, the digest that a signature signs, where the image's file ends, and which
//! tools made it.
//!
//! Nothing here refuses an image, and no call allocates. All calls take the headers of an image whose headers have no fault, and are
//! defined for an image with other faults too:
//!
//! ```text
//! let is_right = check_sum(file, &headers) == headers.check_sum;
//! for certificate in Certificates::of(file, &headers) {
//!     if let Some(signed) = signed_digest(certificate.bytes) {
//!         show(signed.fits(file, &headers));
//!     }
//! }
//! ```
#![tactic(auto)]

mod certificate;
mod certificate_finding;
mod certified;
mod der;
mod digests;
mod entries;
mod file_digests;
pub mod laws;
mod name;
mod overlay;
mod overlay_data;
mod raw_data;
mod rich;
mod rich_pairs;
mod rich_rule;
mod rich_words;
mod signature;
mod signed_bytes;
mod signer;
mod sum;
mod table;

pub use certificate::{Certificate, Certificates};
pub use certificate_finding::certificate_findings;
pub use digests::{
    DigestAlgorithm, authenticode_sha1, authenticode_sha256, authenticode_sha384,
    authenticode_sha512,
};
pub use file_digests::FileDigests;
pub use name::common_name;
pub use overlay::file_end;
pub use overlay_data::{OverlayKind, overlay_kind};
pub use rich::rich_header;
pub use rich_rule::rich_finding;
pub use rich_words::{RichHeader, RichPair};
pub use signature::{SignedDigest, signed_digest};
pub use signer::{Signer, Signers};
pub use sum::check_sum;
pub use table::certificate_table;
