//! `ImageResources`: what a page shows of the resources of an image.

use pe_layout::Layout;
use pe_resources::{Leaf, leaf_data, leaves, manifest, version_data, version_findings};
use pe_view::Fault;
use std::alloc::{AllocError, Allocator};

/// The resources of an image, which were read from it.
#[derive(Drop)]
pub struct ImageResources<'a, A: Allocator> {
    /// In the order of the tree.
    pub leaves: Vec<Leaf, A>,
    /// The data of the version information, if there is some and the file holds it.
    pub version: Option<&'a [u8]>,
    /// The manifest, if there is one and the file holds it.
    pub manifest: Option<&'a [u8]>,
}

/// The resources of an image, as its page shows them: those of an [`ImageResources`].
#[derive(Clone, Copy)]
pub struct ShownResources<'s, 'a> {
    pub leaves: &'s [Leaf],
    pub version: Option<&'a [u8]>,
    pub manifest: Option<&'a [u8]>,
}

/// The bytes of the manifest of an image, if there is one and the file holds it.
fn manifest_data<'a>(layout: &Layout<'a>) -> Option<&'a [u8]> {
    leaf_data(layout, &manifest(layout)?)
}

impl<'a, A: Allocator + Copy> ImageResources<'a, A> {
    /// Reads the resources of an image, and adds their findings, and then those of its version information, to those of the image.
    pub fn read(
        alloc: A,
        layout: &Layout<'a>,
        findings: &mut Vec<Fault, A>,
    ) -> Result<ImageResources<'a, A>, AllocError> {
        let tree = leaves(alloc, layout)?;
        findings.extend(tree.findings)?;
        findings.extend(version_findings(alloc, layout)?)?;
        Ok(ImageResources {
            leaves: tree.leaves,
            version: version_data(layout),
            manifest: manifest_data(layout),
        })
    }
}
