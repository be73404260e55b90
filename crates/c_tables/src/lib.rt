//! Tables of images, objects and archives that the profile leaves out, as C has them, and what was found in them: debug data, functions,
//! TLS, load configuration, bound imports and CLR header; what a file says of itself; resources; symbols; objects of either form;
//! archives.
//!
//! A table is an [`items::Items`], whose items are read when they are asked for, so that no table is copied before its rows are:
//!
//! ```text
//! let mut rows = [row; 4];
//! let mut count = 0;
//! let entries: Records<DebugEntry> = Records::of(&layout);
//! let status = put_items(&mut rows, &entries, &mut count);
//! ```
#![tactic(auto)]

pub mod all_findings;
pub mod archive_finding;
pub mod archive_symbol;
pub mod bound_import;
pub mod certificate;
pub mod debug;
pub mod digest;
pub mod field;
pub mod file;
pub mod finding;
pub mod function;
pub mod hash;
pub mod header;
pub mod image_symbol;
pub mod import_object;
pub mod items;
pub mod manifest;
pub mod member;
pub mod name;
pub mod overlay;
pub mod pdb;
pub mod relocation;
pub mod resource;
pub mod resource_finding;
pub mod rich;
pub mod row;
pub mod section;
pub mod signature;
pub mod signer;
pub mod sum;
pub mod symbol;
pub mod text;
pub mod tls;
pub mod told;
pub mod trust_finding;
pub mod version;
pub mod version_text;
