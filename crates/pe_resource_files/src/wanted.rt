//! `Wanted`: which resource of an image is asked for.

ghost use Rattle.std.specs.Prelude.{◌≡◌, find, option_map};
ghost use Rattle.pe_layout.specs.Layout.{image_of};
ghost use Rattle.pe_resource_files.specs.Wanted.{is_named, is_wished, is_wanted};

use pe_layout::Layout;
use pe_resources::{Leaf, name_text};

/// What an entry of the resource tree is to be called.
#[derive(Clone, Copy, Debug, PartialEq, Eq)]
pub enum Wish<'w> {
    /// By a number. No entry is called by one of 2^31 or more: there a name is the place of a text.
    Id(u32),
    /// By a text, whose UTF-16 units are given by their bytes.
    Text(&'w [u8]),
}

/// What the entries that lead to a resource are to be called; one that is `None` may be called anything.
#[derive(Clone, Copy, Debug, Default, PartialEq, Eq)]
pub struct Wanted<'w> {
    /// The type.
    pub kind: Option<Wish<'w>>,
    pub name: Option<Wish<'w>>,
    pub language: Option<Wish<'w>>,
}

/// Whether a name of an entry, as it stands there, is this text.
fn is_text(layout: &Layout, name: u32, text: &[u8]) -> bool
    ensures { result ≡ is_named (image_of layout.now) name text.now }
{
    match name_text(layout, name) {
        Some(units) => units == text,
        None => false,
    }
}

/// Whether an entry, if there is one, is called as wished.
fn is_wished(layout: &Layout, wish: Option<Wish>, name: Option<u32>) -> bool
    ensures { result ≡ is_wished (image_of layout.now) wish.entry name }
{
    match (wish, name) {
        (None, _) => true,
        (Some(_), None) => false,
        (Some(Wish::Id(id)), Some(name)) => name < 0x8000_0000 && name == id,
        (Some(Wish::Text(text)), Some(name)) => is_text(layout, name, text),
    }
}

/// Whether a leaf is the resource that is wanted.
fn is_wanted(layout: &Layout, wanted: &Wanted, leaf: &Leaf) -> bool
    ensures { result ≡ is_wanted (image_of layout.now) wanted.now leaf.now }
{
    is_wished(layout, wanted.kind, leaf.path.kind)
        && is_wished(layout, wanted.name, leaf.path.name)
        && is_wished(layout, wanted.language, leaf.path.language)
}

/// The first of an image's leaves, in the order in which they are given, that is wanted.
pub fn wanted_leaf(layout: &Layout, leaves: &[Leaf], wanted: &Wanted) -> Option<Leaf>
    ensures { result ≡ find (is_wanted (image_of layout.now) wanted.now) leaves.now }
{
    for leaf in leaves {
        if is_wanted(layout, wanted, leaf) {
            return Some(*leaf);
        }
    }
    None
}
