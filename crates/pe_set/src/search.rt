//! The search from an import through forwarders: where it ends, or the length of the cycle that it runs in.

ghost use Rattle.std.specs.Prelude.{◌≡◌, ◌^◌, ◌<◌, ◌≤◌, [], length, option_map, IfOk, IfSome, OnOk};
ghost use Rattle.pe_layout.specs.Layout.{file_of, image_of};
ghost use Rattle.pe_tables.specs.ImportNames.{IsNamedAt};
ghost use Rattle.pe_tables.specs.ImportView.{import_view};
ghost use Rattle.pe_tables.specs.Key.{Name, key_view, target_view};
ghost use Rattle.pe_tables.specs.Exports.{target_at};
ghost use Rattle.pe_set.specs.Set.{named};
ghost use Rattle.pe_set.specs.SetView.{module_view, modules_view};
ghost use Rattle.pe_set.specs.NamesView.{names_in, lowered};
ghost use Rattle.pe_set.specs.Search.{resolve, pairs_of, target_in};
ghost use Rattle.pe_set.specs.EndsView.{AreEnds};
ghost use Rattle.pe_set.specs.PathView.{path_view, IsPath, LeadsTo};
ghost use Rattle.pe_set.specs.RememberedView.{AreRemembered, text_at};
ghost use Rattle.pe_set.specs.TrailsView.{AreTrailsOf};

use crate::ends::Ends;
use crate::module_names::Names;
use crate::path::Path;
use crate::reading::Module;
use crate::remembered::{Remembered, place_of, query_of};
use crate::standing::Standing;
use crate::trails::Trails;
use pe_layout::Layout;
use pe_tables::{Import, Key, Target};
use std::alloc::{AllocError, Allocator};

/// How the search for the export of a module by a key ends.
#[derive(Clone, Copy)]
pub(crate) enum Resolution {
    /// At an RVA of an image of the set.
    Bound {
        /// The image's number.
        image: u16,
        /// The RVA.
        rva: u32,
    },
    /// At a module that is not in the set.
    Missing,
    /// At a module that has no such export.
    Unknown,
    /// Never: it runs in a cycle of forwarders.
    Endless {
        /// The number of hops from a key of an image to the same key and image again.
        length: u32,
    },
}

/// What a module exports by a key.
#[tactic(auto, unfolding(crate::specs::SetView::module_view))]
fn target<'a, A: Allocator + Copy>(image: &Module<'a, A>, key: Key) -> Option<Target<'a>>
    ensures { option_map target_view result ≡ target_at (module_view image.now).exports (key_view key.entry) }
{
    match key {
        Key::Ordinal(ordinal) => image.image.exports.by_ordinal(u32::from(ordinal)),
        Key::Name(name) => image.image.exports.by_name(name),
    }
}

/// What image `number` exports by a key. A long name is looked up by its trail, if its RVA in the image with this layout is known.
#[inline(always)]
fn target_of<'a, A: Allocator + Copy>(
    modules: &[Module<'a, A>],
    layout: &Layout<'a>,
    number: usize,
    key: Key,
    place: Option<u32>,
    trails: &mut Trails<A>,
) -> Option<Target<'a>>
    requires number { number < length modules.now }
    requires placed { IfSome place (λ rva. key_view key ≡ Name (text_at (image_of layout.now) rva)) }
    requires trails { AreTrailsOf modules.now (file_of layout.now) trails.old }
    ensures exact { option_map target_view result ≡ target_in (modules_view modules.now) (key_view key.entry) number }
    ensures trails { AreTrailsOf modules.now (file_of layout.now) trails.new }
{
    match place {
        Some(rva) => trails.look_up(modules, layout, number, rva),
        None => target(&modules[number], key),
    }
}

/// How the search for an import of the image with this layout ends. `image` is the number of the image with the name of its module,
/// and `place` the RVA of the import's name, if that is long and the RVA is known. The forwarders that the search passes are added
/// to the path, which is empty before, up to the first one whose end is known. `buffer` is scratch space for names.
///
/// A search that comes to a forwarder of its path runs in a cycle, which is as long as that is back.
fn search<'a, A: Allocator + Copy>(
    modules: &[Module<'a, A>],
    names: &Names<A>,
    layout: &Layout<'a>,
    import: &Import<'a>,
    image: Option<usize>,
    place: Option<u32>,
    ends: &Ends<'a, A>,
    path: &mut Path<'a, A>,
    trails: &mut Trails<A>,
    buffer: &mut Vec<u8, A>,
) -> Result<Resolution, AllocError>
    requires few { length modules.now ≤ 256 }
    requires named { names_in names.now ≡ lowered (modules_view modules.now) }
    requires few_exports { pairs_of (modules_view modules.now) ≤ 2 ^ 25 }
    requires known { AreEnds (modules_view modules.now) ends.now }
    requires image { image ≡ named (modules_view modules.now) import.now.«module».now }
    requires placed { IfSome place (λ rva. key_view import.now.key ≡ Name (text_at (image_of layout.now) rva)) }
    requires trails { AreTrailsOf modules.now (file_of layout.now) trails.old }
    requires path { path_view path.old ≡ [] }
    requires whole { IsPath path.old }
    ensures exact { IfOk result (λ end. end ≡ resolve (modules_view modules.now) import.now.«module».now (key_view import.now.key)) }
    ensures leads { IfOk result (λ end. LeadsTo (modules_view modules.now) import.now.«module».now (key_view import.now.key) end (path_view path.new)) }
    ensures trails { OnOk result (AreTrailsOf modules.now (file_of layout.now) trails.new) }
{
    let (mut image, mut key, mut place) = (image, import.key, place);
    while let Some(number) = image {
        match target_of(modules, layout, number, key, place, trails) {
            None => return Ok(Resolution::Unknown),
            Some(Target::Rva(rva)) => {
                return Ok(Resolution::Bound {
                    image: number as u16,
                    rva,
                });
            }
            Some(Target::Forward { module, key: next }) => {
                let at = Standing::at(number, key);
                if let Some(end) = ends.get(at) {
                    return Ok(end);
                }
                if let Some(length) = path.add(at)? {
                    return Ok(Resolution::Endless { length });
                }
                image = names.find_forwarded(buffer, module)?;
                key = next;
                place = None;
            }
        }
    }
    Ok(Resolution::Missing)
}

/// How the search for an import of the image with this layout ends. `image` is the number of the image with the name of its module,
/// and `place` the RVA of the import's name, if that is long and the RVA is known. Unless it is a cycle, the end is remembered for
/// the forwarders that the search passed. `buffer` is scratch space for names.
pub(crate) fn resolve<'a, A: Allocator + Copy>(
    modules: &[Module<'a, A>],
    names: &Names<A>,
    layout: &Layout<'a>,
    import: &Import<'a>,
    image: Option<usize>,
    place: Option<u32>,
    ends: &mut Ends<'a, A>,
    trails: &mut Trails<A>,
    buffer: &mut Vec<u8, A>,
) -> Result<Resolution, AllocError>
    requires few { length modules.now ≤ 256 }
    requires named { names_in names.now ≡ lowered (modules_view modules.now) }
    requires few_exports { pairs_of (modules_view modules.now) ≤ 2 ^ 25 }
    requires known { AreEnds (modules_view modules.now) ends.old }
    requires image { image ≡ named (modules_view modules.now) import.now.«module».now }
    requires placed { IfSome place (λ rva. key_view import.now.key ≡ Name (text_at (image_of layout.now) rva)) }
    requires trails { AreTrailsOf modules.now (file_of layout.now) trails.old }
    ensures exact { IfOk result (λ end. end ≡ resolve (modules_view modules.now) import.now.«module».now (key_view import.now.key)) }
    ensures known { OnOk result (AreEnds (modules_view modules.now) ends.new) }
    ensures trails { OnOk result (AreTrailsOf modules.now (file_of layout.now) trails.new) }
{
    let mut path = Path::new(ends.alloc);
    let end = search(
        modules, names, layout, import, image, place, ends, &mut path, trails, buffer,
    )?;
    if let Resolution::Endless { .. } = end {
        return Ok(end);
    }
    for at in &path.stands {
        ends.keep(*at, end)?;
    }
    Ok(end)
}

/// How the search for an import of the image with this layout ends. `place` is the RVA of its name, if that is known: then a long
/// name is looked up once for all imports whose names are at that RVA, and along the trail of those with the same end. `buffer` is
/// scratch space for names.
pub(crate) fn resolve_once<'a, A: Allocator + Copy>(
    modules: &[Module<'a, A>],
    names: &Names<A>,
    layout: &Layout<'a>,
    import: &Import<'a>,
    place: Option<u32>,
    image: Option<usize>,
    ends: &mut Ends<'a, A>,
    remembered: &mut Remembered<A>,
    trails: &mut Trails<A>,
    buffer: &mut Vec<u8, A>,
) -> Result<Resolution, AllocError>
    requires few { length modules.now ≤ 256 }
    requires named { names_in names.now ≡ lowered (modules_view modules.now) }
    requires few_exports { pairs_of (modules_view modules.now) ≤ 2 ^ 25 }
    requires known { AreEnds (modules_view modules.now) ends.old }
    requires image { image ≡ named (modules_view modules.now) import.now.«module».now }
    requires placed { IfSome place (λ rva. IsNamedAt (image_of layout.now) rva (import_view import.now)) }
    requires remembered { AreRemembered (modules_view modules.now) (image_of layout.now) remembered.old }
    requires trails { AreTrailsOf modules.now (file_of layout.now) trails.old }
    ensures exact { IfOk result (λ end. end ≡ resolve (modules_view modules.now) import.now.«module».now (key_view import.now.key)) }
    ensures known { OnOk result (AreEnds (modules_view modules.now) ends.new) }
    ensures remembered { OnOk result (AreRemembered (modules_view modules.now) (image_of layout.now) remembered.new) }
    ensures trails { OnOk result (AreTrailsOf modules.now (file_of layout.now) trails.new) }
{
    let query = query_of(import, image, place);
    if let Some(end) = remembered.find(query) {
        return Ok(end);
    }
    let place = place_of(query);
    let end = resolve(
        modules, names, layout, import, image, place, ends, trails, buffer,
    )?;
    remembered.keep(query, end)?;
    Ok(end)
}
