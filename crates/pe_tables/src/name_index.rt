//! `NameIndex`: the exports by name, where only the first of equal names counts.

ghost use Rattle.std.specs.Prelude.{◌≡◌, ◌<◌, ◌&&◌, ℕ, List, length, [], None, Some, OnOk, IfOk, is_none, if◌then◌else◌};
ghost use Rattle.std.specs.Str.{bytes_eq};
ghost use Rattle.pe_layout.specs.Layout.{file_of};
ghost use Rattle.pe_layout.specs.Span.{IsTextOf};
ghost use Rattle.pe_tables.specs.LongTexts.{AreLongTextsOf};
ghost use Rattle.pe_tables.specs.NameIndex.{held, IsSame, Learns};
ghost use Rattle.pe_tables.specs.TextMap.{found};
ghost use Rattle.pe_tables.specs.TextMapView.{entries_in};
ghost use Rattle.pe_tables.specs.TextSlots.{slot_or};
ghost use Rattle.pe_tables.specs.NameTrail.{IsTrail};

use crate::exports::Name;
use crate::key::Target;
use crate::long_texts::{BLOCK, LongTexts};
use crate::text_map::TextMap;
use crate::text_slots::TextSlots;
use pe_layout::{Layout, Text};
use std::alloc::{AllocError, Allocator};

/// The exports of an image by name.
#[derive(Drop)]
pub(crate) struct NameIndex<'a, A: Allocator> {
    /// Each name that exports something, once, where it first occurs.
    pub exports: Vec<(&'a [u8], Target<'a>), A>,
    /// The ordinal of each of these.
    pub ordinals: Vec<u64, A>,
    /// What each name of less than a block exports, or that it exports nothing.
    pub short: TextMap<'a, A>,
    /// The same for names that have a place here, which `short` then does not say.
    pub slots: TextSlots<'a, A>,
    /// Whether places were asked for.
    pub has_asked: bool,
    /// The same for each longer name.
    pub long: LongTexts<'a, A>,
}

impl<'a, A: Allocator + Copy> NameIndex<'a, A> {
    /// No names. Allocates nothing.
    pub fn new(alloc: A) -> NameIndex<'a, A>
        ensures exports { result.exports.items ≡ [] }
        ensures ordinals { result.ordinals.items ≡ [] }
        ensures held { (text : List ℕ) → held result text ≡ None }
        ensures known { (file : List ℕ) → AreLongTextsOf file result.long }
    {
        NameIndex {
            exports: Vec::new(alloc),
            ordinals: Vec::new(alloc),
            short: TextMap::new(alloc),
            slots: TextSlots::new(alloc),
            has_asked: false,
            long: LongTexts::new(alloc),
        }
    }

    /// No names yet, with capacity for `names` of them.
    pub fn with_capacity(alloc: A, names: usize) -> Result<NameIndex<'a, A>, AllocError>
        ensures exports { IfOk result (λ index. index.exports.items ≡ []) }
        ensures ordinals { IfOk result (λ index. index.ordinals.items ≡ []) }
        ensures held { IfOk result (λ index. (text : List ℕ) → held index text ≡ None) }
        ensures known { IfOk result (λ index. (file : List ℕ) → AreLongTextsOf file index.long) }
    {
        Ok(NameIndex {
            exports: Vec::with_capacity(alloc, names)?,
            ordinals: Vec::with_capacity(alloc, names)?,
            short: TextMap::with_capacity(alloc, names)?,
            slots: TextSlots::new(alloc),
            has_asked: false,
            long: LongTexts::new(alloc),
        })
    }

    /// What a name of less than a block exports, if it is stored.
    #[inline]
    fn get_short(&self, text: &[u8]) -> Option<Option<Target<'a>>>
        ensures { result ≡ slot_or (found text.now self.now.slots.slots.items) (found text.now (entries_in self.now.short)) }
    {
        match self.slots.get(text) {
            Some(slot) => slot,
            None => self.short.get(text),
        }
    }

    /// What a name exports, if it is stored.
    pub fn get(&self, text: &[u8]) -> Option<Option<Target<'a>>>
        ensures { result ≡ held self.now text.now }
    {
        if text.len() < BLOCK {
            self.get_short(text)
        } else {
            self.long.get(text)
        }
    }

    /// What a name exports, if it is stored, by the trail of its end in its file.
    pub fn get_along(
        &self,
        text: Text,
        trail: &mut Vec<Option<usize>, A>,
    ) -> Result<Option<Option<Target<'a>>>, AllocError>
        ensures exact { (file : List ℕ) → IsTextOf file text.entry → IsTrail self.now.long.nodes.items file text.entry.end trail.old.items
            → IfOk result (λ found. found ≡ held self.now text.entry.bytes.now) }
        ensures follows { (file : List ℕ) → IsTextOf file text.entry → IsTrail self.now.long.nodes.items file text.entry.end trail.old.items
            → IsTrail self.now.long.nodes.items file text.entry.end trail.new.items }
    {
        if text.bytes.len() < BLOCK {
            return Ok(self.get_short(text.bytes));
        }
        self.long.get_along(text, trail)
    }

    /// Stores what a name of less than a block exports, unless it is stored, and returns whether it is new.
    fn hold_short(&mut self, text: &'a [u8], target: Option<Target<'a>>) -> Result<bool, AllocError>
        requires { length text.now < 256 }
        ensures held { IfOk result (λ is_new. (is_new ≡ is_none (held self.old text.entry.now))
            × ((other : List ℕ) → held self.new other ≡ (if is_new && bytes_eq other text.entry.now then Some target.entry else held self.old other))) }
        ensures exports { self.new.exports ≡ self.old.exports }
        ensures ordinals { self.new.ordinals ≡ self.old.ordinals }
        ensures long { self.new.long ≡ self.old.long }
    {
        match self.slots.add(text, target) {
            Some(is_new) => Ok(is_new),
            None => self.short.add(text, target),
        }
    }

    /// Makes places for these names, which are to come, if those before did not ascend, unless it was asked before. If memory for
    /// places is refused, there are none.
    #[inline]
    pub fn expect(&mut self, alloc: A, names: &[Name<'a>])
        ensures { IsSame self.old self.new }
    {
        if self.short.ascends() || self.has_asked {
            return;
        }
        self.make_places(alloc, names);
    }

    /// Makes places for these names, if there are none. It is a function of its own because few tables need it.
    #[cold]
    #[inline(never)]
    fn make_places(&mut self, alloc: A, names: &[Name<'a>])
        ensures { IsSame self.old self.new }
    {
        self.has_asked = true;
        if !self.slots.is_empty() {
            return;
        }
        if let Ok(slots) = TextSlots::for_names(alloc, &self.short, names) {
            self.slots = slots;
        }
    }

    /// Stores what a name of this layout's file exports, unless it is stored, and returns whether it is new.
    fn hold(
        &mut self,
        layout: &Layout<'a>,
        text: Text<'a>,
        target: Option<Target<'a>>,
    ) -> Result<bool, AllocError>
        requires known { AreLongTextsOf (file_of layout.now) self.old.long }
        requires text { IsTextOf (file_of layout.now) text }
        ensures known { OnOk result (AreLongTextsOf (file_of layout.now) self.new.long) }
        ensures held { IfOk result (λ is_new. (is_new ≡ is_none (held self.old text.entry.bytes.now))
            × ((other : List ℕ) → held self.new other ≡ (if is_new && bytes_eq other text.entry.bytes.now then Some target.entry else held self.old other))) }
        ensures exports { self.new.exports ≡ self.old.exports }
        ensures ordinals { self.new.ordinals ≡ self.old.ordinals }
    {
        if text.bytes.len() < BLOCK {
            return self.hold_short(text.bytes, target);
        }
        self.long.add(layout, text, target)
    }

    /// Adds a name of this layout's file, with its ordinal and what this exports, unless an equal name came before.
    pub fn add(
        &mut self,
        layout: &Layout<'a>,
        text: Text<'a>,
        ordinal: u64,
        target: Option<Target<'a>>,
    ) -> Result<(), AllocError>
        requires known { AreLongTextsOf (file_of layout.now) self.old.long }
        requires text { IsTextOf (file_of layout.now) text }
        ensures known { OnOk result (AreLongTextsOf (file_of layout.now) self.new.long) }
        ensures learns { OnOk result (Learns self.old self.new text.entry.bytes ordinal target.entry (held self.old text.entry.bytes.now)) }
    {
        if !self.hold(layout, text, target)? {
            return Ok(());
        }
        if let Some(target) = target {
            self.exports.push((text.bytes, target))?;
            self.ordinals.push(ordinal)?;
        }
        Ok(())
    }
}
