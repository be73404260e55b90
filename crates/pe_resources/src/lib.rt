//! The resource tree of an image: directories of three levels, whose entries are named by a type, a name and a language.
//!
//! It is read beside the profile by which an image is accepted: no call refuses an image. A directory is read by level, without
//! memory, or the whole tree at once:
//!
//! ```text
//! let root = resources(&layout);
//! let version = root.and_then(|root| root.by_id(16));
//! let tree = leaves(alloc, &layout)?;
//! for leaf in &tree.leaves {
//!     let kind = leaf.path.kind;
//! }
//! ```
//!
//! Offsets count from the RVA of the resource directory, and what is read lies in what the file holds in one run from there on. A
//! directory that has a byte in common with one that was read before it is not entered, so that the walk takes a step for each 8 bytes
//! of that run at most, and the logarithm of how many directories there are for each directory.
#![tactic(auto)]

mod directory;
mod entry;
mod found;
pub mod laws;
mod leaf;
mod order;
mod root;
mod section;
mod single;
mod text;
mod tree;
mod version_info;
mod walk;

pub use directory::Directory;
pub use entry::Entry;
pub use leaf::{Leaf, Path};
pub use root::resources;
pub use single::{manifest, version};
pub use text::{leaf_data, name_text};
pub use version_info::{version_data, version_findings};
pub use walk::{Tree, leaves};
