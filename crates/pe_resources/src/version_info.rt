//! `version_data` and `version_findings`: the bytes of an image's version information, and the rules of these that are broken.

ghost use Rattle.std.specs.Prelude.{◌≡◌, IfOk, option_map};
ghost use Rattle.pe_view.specs.Standing.{standing};
ghost use Rattle.pe_layout.specs.Layout.{image_of};
ghost use Rattle.pe_resources.specs.Version.{version_data_of, image_version_tests};

use crate::single::version;
use crate::text::leaf_data;
use pe_layout::Layout;
use pe_view::Fault;
use std::alloc::{AllocError, Allocator};

/// The data of the leaf that [`version`] returns, which the calls of `pe_version` read. `None` if there is none, or the file does not
/// hold all of it in one run.
pub fn version_data<'a>(layout: &Layout<'a>) -> Option<&'a [u8]>
    ensures { option_map (λ bytes. bytes.now) result ≡ version_data_of (image_of layout.now) }
{
    let leaf = version(layout)?;
    leaf_data(layout, &leaf)
}

/// The findings of an image's version information, in the order of its data: 211 to 214. Nothing is allocated if there is no data.
pub fn version_findings<A: Allocator + Copy>(
    alloc: A,
    layout: &Layout,
) -> Result<Vec<Fault, A>, AllocError>
    ensures { IfOk result (λ findings. findings.items ≡ standing (image_version_tests (image_of layout.now))) }
{
    let Some(leaf) = version(layout) else {
        return Ok(Vec::new(alloc));
    };
    let Some(bytes) = leaf_data(layout, &leaf) else {
        return Ok(Vec::new(alloc));
    };
    pe_version::version_findings(alloc, layout.image(), leaf.rva, bytes)
}
