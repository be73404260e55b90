//! `Ends`: how the searches that pass a forwarder end, so that no forwarder is followed twice.

ghost use Rattle.std.specs.Prelude.{◌≡◌, ℕ, List, IfSome, OnOk};
ghost use Rattle.pe_tables.specs.Key.{Key};
ghost use Rattle.pe_set.specs.Set.{Module};
ghost use Rattle.pe_set.specs.SearchEnds.{EndsFrom};
ghost use Rattle.pe_set.specs.StandView.{stand_view, stand_of};

use crate::search::Resolution;
use crate::standing::Standing;
use std::alloc::{AllocError, Allocator};
use std::collections::BTreeMap;

/// How the searches that pass a forwarder end, by forwarder.
#[derive(Drop)]
pub(crate) struct Ends<'a, A: Allocator> {
    pub alloc: A,
    pub ends: BTreeMap<Standing<'a>, Resolution, A>,
}

impl<'a, A: Allocator + Copy> Ends<'a, A> {
    ghost use Rattle.pe_set.specs.EndsView.{AreEnds};

    /// No forwarder is known. Allocates nothing.
    pub fn new(alloc: A) -> Ends<'a, A>
        ensures { (s : List Module) → AreEnds s result }
    {
        Ends {
            alloc,
            ends: BTreeMap::new(alloc),
        }
    }

    /// How a search that passes a forwarder ends, if that is known.
    pub fn get(&self, at: Standing<'a>) -> Option<Resolution>
        ensures { (s : List Module) (p : ℕ × Key) → AreEnds s self.now → stand_view at.entry ≡ stand_of p → IfSome result (λ end. EndsFrom s end p) }
    {
        self.ends.get(&at).copied()
    }

    /// Remembers how a search that passes a forwarder ends.
    pub fn keep(&mut self, at: Standing<'a>, end: Resolution) -> Result<(), AllocError>
        ensures { (s : List Module) (p : ℕ × Key) → AreEnds s self.old → stand_view at.entry ≡ stand_of p → EndsFrom s end p → OnOk result (AreEnds s self.new) }
    {
        self.ends.insert(at, end)?;
        Ok(())
    }
}
