//! `TextMap`: what each name of under 256 bytes exports, in the order of the names' bytes.

ghost use Rattle.std.specs.Prelude.{◌≡◌, ◌↔◌, ◌&&◌, ℕ, List, [], None, Some, All, IsTrue, OnOk, IfOk, is_none, is_some, if◌then◌else◌};
ghost use Rattle.std.specs.Str.{bytes_eq};
ghost use Rattle.pe_tables.specs.TextMap.{IsBefore, TextsAscend, found};

use crate::key::Target;
use crate::text_run::{all_before, position};
use std::alloc::{AllocError, Allocator};
use std::collections::BTreeMap;

/// What each of some strings exports, or that it exports nothing, by the string.
///
/// The strings of most tables ascend; then they are all in one run, and only its end is compared with the next one.
#[derive(Drop)]
pub(crate) struct TextMap<'a, A: Allocator> {
    /// The strings that come after all those of the run before them, in the order of their bytes.
    run: Vec<(&'a [u8], Option<Target<'a>>), A>,
    /// The other strings.
    others: BTreeMap<&'a [u8], Option<Target<'a>>, A>,
    ghost ascending: { TextsAscend run.items },
}

/// What a string of a run exports, if it is there. One after the last of the run is not, which is tested first.
fn find<'a>(run: &[(&[u8], Option<Target<'a>>)], text: &[u8]) -> Option<Option<Target<'a>>>
    requires { TextsAscend run.now }
    ensures { result ≡ found text.now run.now }
{
    if all_before(run, text) {
        return None;
    }
    search(run, text)
}

/// What a string of a run exports, if it is there, by a binary search.
fn search<'a>(run: &[(&[u8], Option<Target<'a>>)], text: &[u8]) -> Option<Option<Target<'a>>>
    requires { TextsAscend run.now }
    ensures { result ≡ found text.now run.now }
{
    match position(run, text) {
        Some(index) => Some(run[index].1),
        None => None,
    }
}

/// Whether a string is in a run; `behind` says that it comes after all strings of the run.
fn is_in(run: &[(&[u8], Option<Target>)], text: &[u8], behind: bool) -> bool
    requires ascending { TextsAscend run.now }
    requires tells { IsTrue behind → All (λ entry. IsBefore entry.0.now text.now) run.now }
    ensures { result ≡ is_some (found text.now run.now) }
{
    if behind {
        return false;
    }
    search(run, text).is_some()
}

impl<'a, A: Allocator + Copy> TextMap<'a, A> {
    ghost use Rattle.pe_tables.specs.TextMapView.{entries_in};

    /// No strings. Allocates nothing.
    pub fn new(alloc: A) -> TextMap<'a, A>
        ensures { entries_in result ≡ [] }
    {
        TextMap {
            run: Vec::new(alloc),
            others: BTreeMap::new(alloc),
        }
    }

    /// No strings yet, with capacity for `texts` of them if they ascend.
    pub fn with_capacity(alloc: A, texts: usize) -> Result<TextMap<'a, A>, AllocError>
        ensures { IfOk result (λ map. entries_in map ≡ []) }
    {
        Ok(TextMap {
            run: Vec::with_capacity(alloc, texts)?,
            others: BTreeMap::new(alloc),
        })
    }

    /// What a string exports, if it is stored.
    #[inline]
    pub fn get(&self, text: &[u8]) -> Option<Option<Target<'a>>>
        ensures { result ≡ found text.now (entries_in self.now) }
    {
        match find(self.run.as_slice(), text) {
            Some(target) => Some(target),
            None => self.others.get(text).copied(),
        }
    }

    /// Whether all strings that were added ascend.
    #[inline]
    pub fn ascends(&self) -> bool {
        self.others.is_empty()
    }

    /// Whether a string is stored; `is_behind` says that it comes after the whole run.
    fn holds(&self, text: &[u8], is_behind: bool) -> bool
        requires { IsTrue is_behind → All (λ entry. IsBefore entry.0.now text.now) self.now.run.items }
        ensures { result ≡ is_some (found text.now (entries_in self.now)) }
    {
        if is_in(self.run.as_slice(), text, is_behind) {
            return true;
        }
        if self.others.is_empty() {
            return false;
        }
        self.others.get(text).copied().is_some()
    }

    /// Adds a string that isn't stored yet; `is_behind` says that it comes after the whole run.
    fn insert(
        &mut self,
        text: &'a [u8],
        target: Option<Target<'a>>,
        is_behind: bool,
    ) -> Result<(), AllocError>
        requires behind { IsTrue is_behind → All (λ entry. IsBefore entry.0.now text.now) self.old.run.items }
        requires new { found text.now (entries_in self.old) ≡ None }
        ensures { OnOk result ((other : List ℕ) → found other (entries_in self.new) ≡ (if bytes_eq other text.now then Some target.entry else found other (entries_in self.old))) }
    {
        if is_behind {
            self.run.push((text, target))?;
        } else {
            self.others.insert(text, target)?;
        }
        Ok(())
    }

    /// Adds a string unless it is stored, and returns whether it is new. It is compared with the last string of the run once: one
    /// after it, as those of most tables are, with no other of the run.
    pub fn add(&mut self, text: &'a [u8], target: Option<Target<'a>>) -> Result<bool, AllocError>
        ensures { IfOk result (λ is_new. (is_new ≡ is_none (found text.entry.now (entries_in self.old)))
            × ((other : List ℕ) → found other (entries_in self.new) ≡ (if is_new && bytes_eq other text.entry.now then Some target.entry else found other (entries_in self.old)))) }
    {
        let is_behind = all_before(self.run.as_slice(), text);
        if self.holds(text, is_behind) {
            return Ok(false);
        }
        self.insert(text, target, is_behind)?;
        Ok(true)
    }
}
