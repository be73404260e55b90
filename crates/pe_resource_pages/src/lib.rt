//! The parts of a page on an image's resources: the tree with names of types and languages, version information and the manifest.
//!
//! ```text
//! let resources = ImageResources::read(alloc, &layout, &mut findings)?;
//! let shown = ShownResources { leaves: &resources.leaves, version: resources.version, manifest: resources.manifest };
//! write_resource_summary(text, &shown);
//! write_resources(text, options, &layout, &shown);
//! ```
//!
//! Contracts say that some text is added, not which.
#![tactic(auto)]

mod identity;
mod image_resources;
mod languages;
mod leaf_path;
mod leaf_rows;
mod manifest_rows;
mod resource_rows;
mod resource_types;
mod summary;
mod version_numbers;
mod version_rows;
mod version_text;
mod wide_text;

pub use identity::{has_version_identity, write_version_identity};
pub use image_resources::{ImageResources, ShownResources};
pub use leaf_path::write_leaf_path;
pub use resource_rows::write_resources;
pub use resource_types::{resource_type_name, resource_type_number};
pub use summary::write_resource_summary;
