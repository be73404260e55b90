//! `Exports`: the exports of an image, looked up by ordinal and by name.

ghost use Rattle.std.specs.Prelude.{◌≡◌, ◌<◌, ◌≤◌, ◌==◌, ℕ, List, [], Some, length, slice_index_or, IfSome, IsTrue, option_map, map, AllPairs};
ghost use Rattle.std.specs.List.{find};
ghost use Rattle.std.specs.Str.{bytes_eq};
ghost use Rattle.pe_tables.specs.NameIndex.{AreHeld, IsSearchable};
ghost use Rattle.pe_tables.specs.declared.key.Target.{Target};

use crate::guesses::Guesses;
use crate::key::Target;
use crate::long_texts::BLOCK;
use crate::name_index::NameIndex;
use crate::name_trail::NameTrail;
use pe_layout::Text;
use std::alloc::Allocator;

/// The exports of an image ("PE Format", The .edata Section).
#[derive(Drop)]
pub struct Exports<'a, A: Allocator> {
    pub(crate) ordinals: Vec<(u64, Target<'a>), A>,
    pub(crate) names: NameIndex<'a, A>,
    /// Guesses of each name's index, after [`Exports::guess_names`].
    pub(crate) guesses: Guesses<A>,
    ghost ascending: { AllPairs (λ export later. export.0 < later.0) ordinals.items },
    ghost searchable: { IsSearchable names },
    ghost held: { AreHeld names },
}

/// The index of the export with an ordinal if no ordinal before it is missing: its distance from the first ordinal.
fn guess_of(exports: &[(u64, Target)], ordinal: u64) -> usize {
    match exports.first() {
        Some(first) => ordinal.saturating_sub(first.0) as usize,
        None => 0,
    }
}

/// Whether the export at an index has this ordinal.
fn has_ordinal(exports: &[(u64, Target)], index: usize, ordinal: u64) -> bool
    ensures within { IsTrue result → index < length exports.now }
    ensures same { IsTrue result → (export : ℕ × Target) → (slice_index_or exports.now index export).0 ≡ ordinal }
{
    index < exports.len() && exports[index].0 == ordinal
}

/// The index of the first export with this ordinal or a greater one, or the number of exports. Most tables have no gap, so the
/// index without gaps is tried before a binary search.
fn first_from(exports: &[(u64, Target)], ordinal: u64) -> usize
    requires { AllPairs (λ export later. export.0 < later.0) exports.now }
    ensures bound { result ≤ length exports.now }
    ensures before { (k : ℕ) (export : ℕ × Target) → k < result → (slice_index_or exports.now k export).0 < ordinal }
    ensures after { (k : ℕ) (export : ℕ × Target) → result ≤ k → k < length exports.now → ordinal ≤ (slice_index_or exports.now k export).0 }
{
    let guess = guess_of(exports, ordinal);
    if has_ordinal(exports, guess, ordinal) {
        return guess;
    }
    exports.partition_point(|export| export.0 < ordinal)
}

/// What an ordinal exports.
pub(crate) fn target_by_ordinal<'a>(
    exports: &[(u64, Target<'a>)],
    ordinal: u64,
) -> Option<Target<'a>>
    requires { AllPairs (λ export later. export.0 < later.0) exports.now }
    ensures { result ≡ option_map (λ export. export.1) (find (λ export. export.0 == ordinal) exports.now) }
{
    let index = first_from(exports, ordinal);
    if index == exports.len() {
        return None;
    }
    let (found, target) = exports[index];
    if found != ordinal {
        return None;
    }
    Some(target)
}

/// Whether two strings are equal. They are compared from the end, since long names of one file may end alike and differ before, and
/// in parts that double in size, so that a difference near the end is found soon.
fn is_same(text: &[u8], other: &[u8]) -> bool
    ensures { result ≡ bytes_eq text.now other.now }
{
    if text.len() != other.len() {
        return false;
    }
    let mut end = text.len();
    let mut part = BLOCK;
    while end > part {
        let start = end - part;
        if text[start..end] != other[start..end] {
            return false;
        }
        end = start;
        part = part.saturating_mul(2);
    }
    text[..end] == other[..end]
}

impl<'a, A: Allocator + Copy> Exports<'a, A> {
    ghost use Rattle.pe_tables.specs.Key.{Ordinal, Name, target_view};
    ghost use Rattle.pe_tables.specs.Exports.{target_at};
    ghost use Rattle.pe_tables.specs.ExportsView.{ordinal_view, exports_view};
    ghost use Rattle.pe_tables.specs.NameIndex.{export_view, held};
    ghost use Rattle.pe_tables.specs.NameTrail.{IsTrailOf};
    ghost use Rattle.pe_layout.specs.Span.{IsTextOf};

    /// No exports.
    pub(crate) fn new(alloc: A) -> Exports<'a, A>
        ensures ordinals { result.ordinals.items ≡ [] }
        ensures names { result.names.exports.items ≡ [] }
        ensures name_ordinals { result.names.ordinals.items ≡ [] }
    {
        Exports {
            ordinals: Vec::new(alloc),
            names: NameIndex::new(alloc),
            guesses: Guesses::none(alloc),
        }
    }

    /// What an ordinal exports. Allocates nothing.
    pub fn by_ordinal(&self, ordinal: u32) -> Option<Target<'a>>
        ensures { option_map target_view result ≡ target_at (exports_view self.now) (Ordinal ordinal) }
    {
        target_by_ordinal(self.ordinals.as_slice(), u64::from(ordinal))
    }

    /// Makes [`Exports::by_name`] find most names without a search, which pays if many are looked up. It takes 8 to 16 bytes of
    /// memory for each name; if memory runs out, it changes nothing.
    pub fn guess_names(&mut self, alloc: A)
        ensures { exports_view self.new ≡ exports_view self.old }
    {
        self.guesses = Guesses::of(alloc, self.names.exports.as_slice());
    }

    /// What the export at an index exports, if it has this name.
    fn export_at(&self, index: usize, name: &[u8]) -> Option<Target<'a>>
        ensures { IfSome result (λ target. held self.now.names name.now ≡ Some (Some target)) }
    {
        let exports = self.names.exports.as_slice();
        if index >= exports.len() {
            return None;
        }
        let (text, target) = exports[index];
        if !is_same(text, name) {
            return None;
        }
        Some(target)
    }

    /// The first of a name's guesses that is the index of a name of the same length.
    fn likely_index(&self, name: &[u8]) -> Option<usize> {
        let exports = self.names.exports.as_slice();
        for guess in self.guesses.get(name) {
            let index = guess as usize;
            if index < exports.len() && exports[index].0.len() == name.len() {
                return Some(index);
            }
        }
        None
    }

    /// What a name exports, if it is the one at the first guess of its length. No other guess is compared: a file may choose its
    /// names so that each guess is wrong.
    fn guessed(&self, name: &[u8]) -> Option<Target<'a>>
        ensures { IfSome result (λ target. held self.now.names name.now ≡ Some (Some target)) }
    {
        self.export_at(self.likely_index(name)?, name)
    }

    /// What a name exports, by a search.
    fn searched(&self, name: &[u8]) -> Option<Target<'a>>
        ensures { option_map target_view result ≡ target_at (exports_view self.now) (Name name.now) }
    {
        self.names.get(name)?
    }

    /// What a name exports, by a guess if that is right. It is a function of its own so that a search without guesses keeps its
    /// registers.
    #[inline(never)]
    fn by_guess(&self, name: &[u8]) -> Option<Target<'a>>
        ensures { option_map target_view result ≡ target_at (exports_view self.now) (Name name.now) }
    {
        match self.guessed(name) {
            Some(target) => Some(target),
            None => self.searched(name),
        }
    }

    /// What a name exports: what the first name with these bytes does. Allocates nothing.
    pub fn by_name(&self, name: &[u8]) -> Option<Target<'a>>
        ensures { option_map target_view result ≡ target_at (exports_view self.now) (Name name.now) }
    {
        if self.guesses.is_empty() {
            self.searched(name)
        } else {
            self.by_guess(name)
        }
    }

    /// An empty trail, for [`Exports::by_name_along`]. Allocates nothing.
    pub fn name_trail(&self, alloc: A) -> NameTrail<A>
        ensures { (file : List ℕ) (end : ℕ) → IsTrailOf self.now file end result }
    {
        NameTrail {
            nodes: Vec::new(alloc),
        }
    }

    /// What a name exports, as [`Exports::by_name`] returns it, for looking up names of another image's file that may be ends of
    /// one string. `trail` is that of the names with the same end, and is extended to this name.
    ///
    /// So each block of 256 bytes is looked up once for all names with one end, and then each name costs one look-up of less than a
    /// block: no name is compared as a whole. If memory for the trail is refused, the name is looked up without it.
    pub fn by_name_along(&self, name: Text, trail: &mut NameTrail<A>) -> Option<Target<'a>>
        ensures exact { (file : List ℕ) → IsTextOf file name.entry → IsTrailOf self.now file name.entry.end trail.old
            → option_map target_view result ≡ target_at (exports_view self.now) (Name name.entry.bytes.now) }
        ensures follows { (file : List ℕ) → IsTextOf file name.entry → IsTrailOf self.now file name.entry.end trail.old → IsTrailOf self.now file name.entry.end trail.new }
    {
        match self.names.get_along(name, &mut trail.nodes) {
            Ok(found) => found?,
            Err(_) => self.by_name(name.bytes),
        }
    }

    /// The exports by ordinal, in the order of the export address table.
    pub fn ordinals(&self) -> &[(u64, Target<'a>)]
        ensures { map ordinal_view result.now ≡ (exports_view self.now).ordinals }
    {
        self.ordinals.as_slice()
    }

    /// The exports by name, in the order of the name pointer table: each name once, where it first occurs.
    pub fn names(&self) -> &[(&'a [u8], Target<'a>)]
        ensures { map export_view result.now ≡ (exports_view self.now).names }
    {
        self.names.exports.as_slice()
    }

    /// The ordinal of each of [`Exports::names`], in their order.
    pub fn name_ordinals(&self) -> &[u64]
        ensures { result.now ≡ (exports_view self.now).name_ordinals }
    {
        self.names.ordinals.as_slice()
    }
}
