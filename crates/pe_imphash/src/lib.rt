//! The import hash of an image: the MD5 digest of the names of what it imports, by which analysts find programs that are built alike.
//!
//! No call allocates, and each reads at most 512 bytes of a name:
//!
//! ```text
//! let image = read_image(Global, file, 0)?;
//! if let Some(hash) = import_hash(image.imports.as_slice()) {
//!     show(hash);
//! }
//! ```
#![tactic(auto)]

mod hash;
mod import_name;
mod oleaut32;
mod ordinal;
mod winsock;

pub use hash::import_hash;
