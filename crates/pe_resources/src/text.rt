//! `name_text` and `leaf_data`: the bytes that names and leaves lead to.

ghost use Rattle.std.specs.Prelude.{◌≡◌, ◌+◌, ◌≤◌, ◌^◌, IfSome, length, option_map};
ghost use Rattle.pe_layout.specs.Layout.{image_of};
ghost use Rattle.pe_resources.specs.Texts.{name_text_of, data_of};

use crate::leaf::Leaf;
use crate::section::Section;
use pe_layout::Layout;

/// The text of a name of the resource tree, which is the offset of one if its top bit is set: its UTF-16 units, of two bytes each.
/// `None` for an id, and if the file does not hold all of the text in the run of the resource directory (finding 183). ("PE Format":
/// Resource Directory String.)
pub fn name_text<'a>(layout: &Layout<'a>, name: u32) -> Option<&'a [u8]>
    ensures { option_map (λ text. text.now) result ≡ name_text_of (image_of layout.now) name }
{
    let section = Section::of(layout)?;
    if name < 0x8000_0000 {
        return None;
    }
    section.text(name % 0x8000_0000)
}

/// The data of a leaf: the `size` bytes at its RVA, or `None` if the file does not hold all of them in one run.
pub fn leaf_data<'a>(layout: &Layout<'a>, leaf: &Leaf) -> Option<&'a [u8]>
    ensures value { option_map (λ bytes. bytes.now) result ≡ data_of (image_of layout.now) leaf.now }
    ensures inside { IfSome result (λ bytes. leaf.now.rva + length bytes.now ≤ 2 ^ 32) }
{
    let Leaf { rva, size, .. } = *leaf;
    let size = size as usize;
    let held = layout.raw_bytes(rva);
    if size > held.len() {
        return None;
    }
    Some(&held[..size])
}
