//! `Trails`: how far the long names by which an image imports have been looked up in the images that export them.

ghost use Rattle.std.specs.Prelude.{◌≡◌, ◌<◌, ℕ, List, [], length, slice_get, option_map, IfSome};
ghost use Rattle.pe_view.specs.TextEnds.{AreEndsOf};
ghost use Rattle.pe_layout.specs.Layout.{file_of, image_of};
ghost use Rattle.pe_tables.specs.Key.{Name, target_view};
ghost use Rattle.pe_tables.specs.NameTrail.{IsTrailOf};
ghost use Rattle.pe_set.specs.RememberedView.{text_at};
ghost use Rattle.pe_set.specs.Search.{target_in};
ghost use Rattle.pe_set.specs.SetView.{modules_view};

use crate::reading::Module;
use pe_layout::Layout;
use pe_tables::{NameTrail, Target};
use pe_view::TextEnds;
use std::alloc::Allocator;
use std::collections::BTreeMap;

/// The trails of the long names of one image's imports, in each exporter.
///
/// Names that are ends of one string share a trail, so each block of 256 bytes of the string is looked up once in an exporter, and
/// each name costs log n steps and one look-up of fewer than 256 bytes more. A trail has an entry of 16 bytes for each block of its
/// longest name, up to the first block that ends no name of the exporter.
#[derive(Drop)]
pub(crate) struct Trails<A: Allocator> {
    alloc: A,
    /// Where the image's strings end.
    pub texts: TextEnds<A>,
    /// The trails, by the number of the exporter and the file offset at which the names end.
    pub trails: BTreeMap<(usize, u64), NameTrail<A>, A>,
}

impl<A: Allocator + Copy> Trails<A> {
    ghost use Rattle.pe_set.specs.TrailsView.{AreTrailsOf};

    /// No trail. Allocates nothing.
    pub fn new(alloc: A) -> Trails<A>
        ensures texts { (file : List ℕ) → AreEndsOf file result.texts }
        ensures trails { result.trails.entries ≡ [] }
    {
        Trails {
            alloc,
            texts: TextEnds::new(alloc),
            trails: BTreeMap::new(alloc),
        }
    }

    /// Takes out the trail of the names with one end in the exports of image `number`, or starts one.
    fn take(&mut self, modules: &[Module<A>], number: usize, end: u64) -> NameTrail<A>
        requires { number < length modules.now }
        ensures trail { (file : List ℕ) → AreTrailsOf modules.now file self.old → IfSome (slice_get modules.now number) (λ m. IsTrailOf m.image.exports file end result) }
        ensures known { (file : List ℕ) → AreTrailsOf modules.now file self.old → AreTrailsOf modules.now file self.new }
    {
        match self.trails.remove(&(number, end)) {
            Some(trail) => trail,
            None => modules[number].image.exports.name_trail(self.alloc),
        }
    }

    /// What image `number` exports by the name at an RVA of the image with this layout. If memory for the trail is refused, the
    /// names that follow start another.
    #[inline(never)]
    pub fn look_up<'a>(
        &mut self,
        modules: &[Module<'a, A>],
        layout: &Layout<'a>,
        number: usize,
        rva: u32,
    ) -> Option<Target<'a>>
        requires number { number < length modules.now }
        requires known { AreTrailsOf modules.now (file_of layout.now) self.old }
        ensures found { option_map target_view result ≡ target_in (modules_view modules.now) (Name (text_at (image_of layout.now) rva)) number }
        ensures known { AreTrailsOf modules.now (file_of layout.now) self.new }
    {
        let Some(text) = layout.text_at(&mut self.texts, rva) else {
            return modules[number].image.exports.by_name(b"");
        };
        let mut trail = self.take(modules, number, text.end);
        let target = modules[number]
            .image
            .exports
            .by_name_along(text, &mut trail);
        let _ = self.trails.insert((number, text.end), trail);
        target
    }
}
