//! `Forwarders`: the forwarders of an export table. Long strings that share bytes are searched once.

ghost use Rattle.std.specs.Prelude.{◌≡◌, ◌≤◌, ℕ, List, length, Some, option_map};
ghost use Rattle.pe_layout.specs.Layout.{file_of, image_of};
ghost use Rattle.pe_layout.specs.Span.{IsTextOf};
ghost use Rattle.pe_tables.specs.Key.{target_view};
ghost use Rattle.pe_tables.specs.Forwarder.{forwarder_of, forwarder_at};
ghost use Rattle.pe_tables.specs.Forwarders.{part_before, IsEndingOf, AreForwardersOf};

use crate::forwarder::forwarder_of;
use crate::key::{Key, Target};
use pe_layout::{Layout, Text};
use pe_view::TextEnds;
use std::alloc::Allocator;
use std::collections::BTreeMap;

/// A forwarder string of fewer bytes is parsed anew each time.
const SHORT: usize = 256;

/// The end that forwarder strings with one terminator share: the last dot and the key after it.
#[derive(Clone, Copy)]
pub(crate) struct Ending<'a> {
    /// How many bytes the dot and the key have.
    pub len: usize,
    /// By what the module's export is looked up.
    pub key: Key<'a>,
}

/// The forwarder whose string has an ending.
fn with_ending<'a>(text: &'a [u8], ending: Ending<'a>) -> Option<Target<'a>>
    ensures { (file : List ℕ) (end : ℕ) → IsEndingOf file end ending.entry → length text.entry.now ≤ end → text.entry.now ≡ part_before file end (length text.entry.now) → option_map target_view result ≡ forwarder_of text.entry.now }
{
    if text.len() <= ending.len {
        return None;
    }
    Some(Target::Forward {
        module: &text[..text.len() - ending.len],
        key: ending.key,
    })
}

/// The forwarders of an image that were read. Many may share one long string: none of its bytes is searched again for a terminator,
/// for the last dot, or for an ordinal.
#[derive(Drop)]
pub(crate) struct Forwarders<'a, A: Allocator> {
    /// Where strings end.
    pub ends: TextEnds<A>,
    /// The endings of forwarder strings, by the file offset of their end.
    pub endings: BTreeMap<u64, Ending<'a>, A>,
}

impl<'a, A: Allocator + Copy> Forwarders<'a, A> {
    /// Nothing is known yet. Allocates nothing.
    pub fn new(alloc: A) -> Forwarders<'a, A>
        ensures { (file : List ℕ) → AreForwardersOf file result }
    {
        Forwarders {
            ends: TextEnds::new(alloc),
            endings: BTreeMap::new(alloc),
        }
    }

    /// Remembers the ending of a forwarder string, unless memory runs out.
    fn keep(&mut self, text: Text<'a>, target: Target<'a>)
        requires { forwarder_of text.bytes.now ≡ Some (target_view target) }
        ensures { (file : List ℕ) → AreForwardersOf file self.old → IsTextOf file text.entry → AreForwardersOf file self.new }
    {
        let Target::Forward { module, key } = target else {
            return;
        };
        let len = text.bytes.len() - module.len();
        let Ok(_) = self.endings.insert(text.end, Ending { len, key }) else {
            return;
        };
    }

    /// The forwarder that a long string names, by its end if that is known.
    fn of_text(&mut self, text: Text<'a>) -> Option<Target<'a>>
        ensures target { (file : List ℕ) → AreForwardersOf file self.old → IsTextOf file text.entry → option_map target_view result ≡ forwarder_of text.entry.bytes.now }
        ensures known { (file : List ℕ) → AreForwardersOf file self.old → IsTextOf file text.entry → AreForwardersOf file self.new }
    {
        if let Some(ending) = self.endings.get(&text.end) {
            return with_ending(text.bytes, *ending);
        }
        let target = forwarder_of(text.bytes)?;
        self.keep(text, target);
        Some(target)
    }

    /// The forwarder whose string is at an RVA.
    pub fn get(&mut self, layout: &Layout<'a>, rva: u32) -> Option<Target<'a>>
        requires { AreForwardersOf (file_of layout.now) self.old }
        ensures target { option_map target_view result ≡ forwarder_at (image_of layout.now) rva }
        ensures known { AreForwardersOf (file_of layout.now) self.new }
    {
        let text = layout.text_at(&mut self.ends, rva)?;
        if text.bytes.len() < SHORT {
            return forwarder_of(text.bytes);
        }
        self.of_text(text)
    }
}
