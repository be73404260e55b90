//! `resources`: the root of an image's resource tree.

ghost use Rattle.std.specs.Prelude.{◌≡◌, option_map};
ghost use Rattle.pe_layout.specs.Layout.{image_of};
ghost use Rattle.pe_resources.specs.Root.{entries_in, root_of};

use crate::directory::Directory;
use crate::section::Section;
use pe_layout::Layout;

/// The root of an image's resource tree, or `None` if the image has none, or the file does not hold its first 16 bytes.
pub fn resources<'l, 'a>(layout: &'l Layout<'a>) -> Option<Directory<'l, 'a>>
    ensures { option_map entries_in result ≡ root_of (image_of layout.entry.now) }
{
    let section = Section::of(layout)?;
    Directory::at(section, 0)
}
