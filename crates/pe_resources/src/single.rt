//! `version` and `manifest`: single resources that are found by level.

ghost use Rattle.std.specs.Prelude.{◌≡◌, ◌<◌, ◌^◌, IfSome, option_map};
ghost use Rattle.pe_layout.specs.Layout.{image_of};
ghost use Rattle.pe_resources.specs.Root.{entries_in};
ghost use Rattle.pe_resources.specs.Single.{names_from, leaf_of_name, version_of, manifest_name, manifest_of};

use crate::directory::Directory;
use crate::entry::Entry;
use crate::leaf::{Leaf, Path};
use crate::section::Section;
use pe_layout::Layout;

/// The type of version information, RT_VERSION.
const VERSION: u16 = 16;

/// The type of manifests, RT_MANIFEST.
const MANIFEST: u16 = 24;

/// The directory of the names of a type.
fn names_of<'l, 'a>(section: Section<'l, 'a>, kind: u16) -> Option<Directory<'l, 'a>>
    ensures entries { option_map entries_in result ≡ names_from (image_of section.entry.layout.now) section.entry.start kind }
    ensures section { IfSome result (λ names. names.section ≡ section.entry) }
{
    let root = Directory::at(section, 0)?;
    let entry = root.by_id(kind)?;
    root.directory(entry)
}

/// The leaf of a name: that of its first language.
fn leaf_of_name(names: Directory, kind: u16, name: Entry) -> Option<Leaf>
    ensures { result ≡ leaf_of_name (image_of names.entry.section.layout.now) names.entry.section.start kind name }
{
    let languages = names.directory(name)?;
    let language = languages.first()?;
    let path = Path {
        kind: Some(kind as u32),
        name: Some(name.name),
        language: Some(language.name),
    };
    languages.leaf(language, path)
}

/// The name of the manifest that is read: that with id 1, else that with id 2, else the first.
fn manifest_name(names: Directory) -> Option<Entry>
    ensures { result ≡ manifest_name (entries_in names.entry) }
{
    names.by_id(1).or(names.by_id(2)).or(names.first())
}

/// The leaf of an image's version information: type 16, its first name, and the first language of that. `None` if one of these is not
/// there, or a directory takes the place of the leaf. Costs the entries of one directory.
pub fn version(layout: &Layout) -> Option<Leaf>
    ensures { result ≡ version_of (image_of layout.now) }
{
    let section = Section::of(layout)?;
    let names = names_of(section, VERSION)?;
    let name = names.first()?;
    leaf_of_name(names, VERSION, name)
}

/// The leaf of an image's manifest: type 24, of its names that with id 1, else that with id 2, else the first, and the first language
/// of that. `None` if one of these is not there, or a directory takes the place of the leaf. Costs the entries of two directories.
pub fn manifest(layout: &Layout) -> Option<Leaf>
    ensures { result ≡ manifest_of (image_of layout.now) }
{
    let section = Section::of(layout)?;
    let names = names_of(section, MANIFEST)?;
    let name = manifest_name(names)?;
    leaf_of_name(names, MANIFEST, name)
}
