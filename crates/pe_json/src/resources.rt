//! The resources of an image: the leaves of its resource tree, and its manifest.

ghost use Rattle.std.specs.Prelude.{◌≡◌, ◌++◌, codes, flat_map, map, option_map};
ghost use Rattle.json.specs.Print.{quoted};
ghost use Rattle.pe_layout.specs.Layout.{image_of};
ghost use Rattle.pe_resources.specs.Texts.{name_text_of};
ghost use Rattle.pe_text.specs.TextWriter.{IsReady, Adds};
ghost use Rattle.pe_json.specs.JsonText.{with_commas};
ghost use Rattle.pe_json.specs.Listed.{more};
ghost use Rattle.pe_json.specs.ResourceRows.{leaf_names, leaf_numbers, leaf_row, leaves_members, level_key, level_name, manifest_members, told_units};

use crate::string::{write_name, write_number};
use crate::utf16::write_units_if;
use pe_head::directory_index;
use pe_layout::Layout;
use pe_resources::{Leaf, leaf_data, manifest, name_text};
use pe_text::{Sink, TextWriter};

/// The bit of an entry's name that says that the other bits are where a text is.
const IS_TEXT: u32 = 0x8000_0000;

/// How many bytes of the text of a name are told: many entries may be named by one long text.
const TEXT_LEN: usize = 512;

/// A level of the resource tree.
#[derive(Clone, Copy)]
pub(crate) enum Level {
    /// The type.
    Kind,
    /// The name.
    Name,
    /// The language.
    Language,
}

/// The key of what names a level, after a comma, and its colon.
#[inline]
fn level_key(level: Level) -> &'static [u8]
    ensures { result.now ≡ codes "," ++ (quoted (level_key level) ++ codes ":") }
{
    match level {
        Level::Kind => b",\"type\":",
        Level::Name => b",\"name\":",
        Level::Language => b",\"language\":",
    }
}

/// The text of a name, as far as it is told.
fn told_text<'a>(layout: &Layout<'a>, name: u32) -> Option<&'a [u8]>
    ensures { option_map (λ units. units.now) result ≡ option_map told_units (name_text_of (image_of layout.now) name) }
{
    match name_text(layout, name) {
        Some(units) => {
            let len = TEXT_LEN.min(units.len());
            Some(&units[..len])
        }
        None => None,
    }
}

/// Adds what names a level, if the tree has it there. It is in line, so that the length of the key is known.
#[inline(always)]
fn write_level<W: Sink>(text: &mut TextWriter<W>, level: Level, layout: &Layout, name: Option<u32>)
    requires { IsReady W.failures text.old }
    ensures { Adds W.taken W.failures text.old text.new (more (level_name (image_of layout.now) (level_key level) name)) }
{
    let Some(name) = name else {
        return;
    };
    if name >= IS_TEXT {
        write_units_if(text, level_key(level), told_text(layout, name));
    } else {
        write_number(text, level_key(level), name as u64);
    }
}

/// Adds the names that lead to a leaf.
fn write_names<W: Sink>(text: &mut TextWriter<W>, layout: &Layout, leaf: &Leaf)
    requires { IsReady W.failures text.old }
    ensures { Adds W.taken W.failures text.old text.new (more (leaf_names (image_of layout.now) leaf.now)) }
{
    write_level(text, Level::Kind, layout, leaf.path.kind);
    write_level(text, Level::Name, layout, leaf.path.name);
    write_level(text, Level::Language, layout, leaf.path.language);
}

/// Adds how many bytes the data of a leaf have, and their code page.
fn write_numbers<W: Sink>(text: &mut TextWriter<W>, leaf: &Leaf)
    requires { IsReady W.failures text.old }
    ensures { Adds W.taken W.failures text.old text.new (more (leaf_numbers leaf.now)) }
{
    write_number(text, b",\"size\":", leaf.size as u64);
    write_number(text, b",\"code_page\":", leaf.code_page as u64);
}

/// Adds a leaf.
fn write_leaf<W: Sink>(text: &mut TextWriter<W>, layout: &Layout, leaf: &Leaf)
    requires { IsReady W.failures text.old }
    ensures { Adds W.taken W.failures text.old text.new (leaf_row (image_of layout.now) leaf.now) }
{
    write_number(text, b"{\"rva\":", leaf.rva as u64);
    write_numbers(text, leaf);
    write_names(text, layout, leaf);
    text.text(b"}");
}

/// Adds a leaf after a comma.
fn write_next_leaf<W: Sink>(text: &mut TextWriter<W>, layout: &Layout, leaf: &Leaf)
    requires { IsReady W.failures text.old }
    ensures { Adds W.taken W.failures text.old text.new (codes "," ++ leaf_row (image_of layout.now) leaf.now) }
{
    text.text(b",");
    write_leaf(text, layout, leaf);
}

/// Adds leaves, each after a comma.
fn write_next_leaves<W: Sink>(text: &mut TextWriter<W>, layout: &Layout, leaves: &[Leaf])
    requires { IsReady W.failures text.old }
    ensures { Adds W.taken W.failures text.old text.new (flat_map (λ leaf. codes "," ++ leaf_row (image_of layout.now) leaf) leaves.now) }
{
    for leaf in leaves {
        if text.has_failed() {
            return;
        }
        write_next_leaf(text, layout, leaf);
    }
}

/// Adds leaves, with a comma between two.
fn write_each_leaf<W: Sink>(text: &mut TextWriter<W>, layout: &Layout, leaves: &[Leaf])
    requires { IsReady W.failures text.old }
    ensures { Adds W.taken W.failures text.old text.new (with_commas (map (leaf_row (image_of layout.now)) leaves.now)) }
{
    let Some((first, rest)) = leaves.split_first() else {
        return;
    };
    write_leaf(text, layout, first);
    write_next_leaves(text, layout, rest);
}

/// Adds the member that lists these leaves, if the image has a resource directory.
pub(crate) fn write_leaves<W: Sink>(text: &mut TextWriter<W>, layout: &Layout, leaves: &[Leaf])
    requires { IsReady W.failures text.old }
    ensures { Adds W.taken W.failures text.old text.new (more (leaves_members (image_of layout.now) leaves.now ((image_of layout.now).directory 2))) }
{
    let Some(_) = layout.directory(directory_index::RESOURCE) else {
        return;
    };
    text.text(b",\"resources\":[");
    write_each_leaf(text, layout, leaves);
    text.text(b"]");
}

/// Adds the manifest, if there is one that the file holds in one run.
pub(crate) fn write_manifest<W: Sink>(text: &mut TextWriter<W>, layout: &Layout)
    requires { IsReady W.failures text.old }
    ensures { Adds W.taken W.failures text.old text.new (more (manifest_members (image_of layout.now))) }
{
    let Some(leaf) = manifest(layout) else {
        return;
    };
    let Some(data) = leaf_data(layout, &leaf) else {
        return;
    };
    write_name(text, b",\"manifest\":\"", b",\"manifest_hex\":\"", data);
}
