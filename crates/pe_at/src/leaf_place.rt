//! The resource whose data have an RVA.

ghost use Rattle.pe_text.specs.TextWriter.{IsReady};
ghost use Rattle.pe_page.specs.Page.{AddsSome};

use crate::table_places::is_within;
use pe_layout::Layout;
use pe_resource_pages::write_leaf_path;
use pe_resources::Leaf;
use pe_text::Part::{Hex, Text};
use pe_text::{Sink, TextWriter, write_parts};

/// Adds the first resource whose data contain an RVA, and how far behind its beginning that is, like `  in leaf version/1/1033 +0x12`,
/// or nothing if there is none. The time is linear in the number of resources.
pub(crate) fn write_leaf_at<W: Sink>(
    text: &mut TextWriter<W>,
    layout: &Layout,
    leaves: &[Leaf],
    rva: u32,
)
    requires { IsReady W.failures text.old }
    ensures { AddsSome W.taken W.failures text.old text.new }
{
    let found = leaves
        .iter()
        .find(|leaf| is_within(rva, leaf.rva, leaf.size));
    let Some(leaf) = found else {
        return;
    };
    text.text(b"  in leaf ");
    write_leaf_path(text, layout, &leaf.path);
    let behind = rva.saturating_sub(leaf.rva);
    write_parts(text, &[Text(b" +0x"), Hex(u64::from(behind), 1)]);
}
