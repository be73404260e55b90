//! The parts of a page on resources.

ghost use Rattle.pe_text.specs.TextWriter.{IsReady};
ghost use Rattle.pe_page.specs.Page.{AddsSome};

use crate::image_resources::ShownResources;
use crate::leaf_rows::write_tree;
use crate::manifest_rows::write_manifest;
use crate::version_rows::write_version;
use pe_layout::Layout;
use pe_text::{ShowOptions, Sink, TextWriter};

/// Adds the resources of an image, its version information and its manifest, if the options select them.
pub fn write_resources<W: Sink>(
    text: &mut TextWriter<W>,
    options: &ShowOptions,
    layout: &Layout,
    resources: &ShownResources,
)
    requires { IsReady W.failures text.old }
    ensures { AddsSome W.taken W.failures text.old text.new }
{
    if !options.resources {
        return;
    }
    write_tree(text, options, layout, resources.leaves);
    write_version(text, options, resources.version);
    write_manifest(text, options, resources.manifest);
}
