//! Version information of an image: the fixed part, and strings by table and key.
//!
//! The bytes are those of a resource of type 16. They are blocks ("VS_VERSIONINFO"): each begins with its length, the length of its
//! value and a type, of two bytes each, then has a key, which is zero-terminated UTF-16, and a value and further blocks, each at a
//! multiple of four bytes. The first block holds all others, and its length has two bytes, so no more than 65,535 bytes count:
//!
//! ```text
//! if let Some(fixed) = fixed_info(bytes) {
//!     show(fixed.file_version())?;
//! }
//! for string in version_strings(bytes) {
//!     for character in decode_utf16(string.value) {
//!         write(character)?;
//!     }
//! }
//! ```
//!
//! No call refuses anything: what is broken is a finding, and what stands before it is read. Only the call for findings allocates.
#![tactic(auto)]

mod block;
mod blocks;
mod findings;
mod fixed;
mod strings;
mod tables;
mod utf16;

pub use findings::version_findings;
pub use fixed::{FixedInfo, fixed_info};
pub use strings::{VersionString, VersionStrings, version_strings};
pub use tables::{TableString, TableStrings, VersionTable, VersionTables, version_tables};
pub use utf16::{DecodeUtf16, decode_utf16};
