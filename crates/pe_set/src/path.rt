//! `Path`: the forwarders that one search passed, in order, by which a cycle is detected.

ghost use Rattle.std.specs.Prelude.{◌≡◌, ◌<◌, ◌-◌, ◌^◌, ◌≤◌, [], length, OnOk, IfOk};
ghost use Rattle.pe_set.specs.StandView.{stand_view};

use crate::standing::Standing;
use std::alloc::{AllocError, Allocator};
use std::collections::BTreeMap;

/// The forwarders that a search passed, each once.
#[derive(Drop)]
pub(crate) struct Path<'a, A: Allocator> {
    /// In the order in which it passed them.
    pub stands: Vec<Standing<'a>, A>,
    /// How many hops came before each.
    pub hops: BTreeMap<Standing<'a>, u32, A>,
}

impl<'a, A: Allocator + Copy> Path<'a, A> {
    ghost use Rattle.pe_set.specs.PathView.{path_view, IsPath, Adds};

    /// No forwarder. Allocates nothing.
    pub fn new(alloc: A) -> Path<'a, A>
        ensures empty { path_view result ≡ [] }
        ensures whole { IsPath result }
    {
        Path {
            stands: Vec::new(alloc),
            hops: BTreeMap::new(alloc),
        }
    }

    /// Adds a forwarder, or returns how many hops ago the search passed it before.
    pub fn add(&mut self, at: Standing<'a>) -> Result<Option<u32>, AllocError>
        requires few { length (path_view self.old) ≤ 2 ^ 25 }
        requires whole { IsPath self.old }
        ensures whole { OnOk result (IsPath self.new) }
        ensures adds { IfOk result (Adds (path_view self.old) (path_view self.new) (stand_view at.entry)) }
    {
        let hops = self.stands.len() as u32;
        if let Some(before) = self.hops.get(&at) {
            return Ok(Some(hops - *before));
        }
        self.stands.push(at)?;
        self.hops.insert(at, hops)?;
        Ok(None)
    }
}
