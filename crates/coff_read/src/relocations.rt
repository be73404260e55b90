//! `Relocations`: the relocations of a section, each decoded on demand.

ghost use Rattle.std.specs.Prelude.{◌+◌, ◌*◌, ◌≤◌, ◌<◌, ◌^◌};
ghost use Rattle.pe_view.specs.View.{size_of};

use crate::fields::{u16_in, u32_in};
use crate::relocation::{RELOCATION_LEN, Relocation, relocation_at};
use pe_view::View;
use std::alloc::{AllocError, Allocator};

/// The relocations of a section, each decoded on demand ("PE Format", COFF Relocations). No call allocates.
#[derive(Clone, Copy)]
pub struct Relocations<'a> {
    pub(crate) view: View<'a>,
    pub(crate) start: u64,
    pub(crate) count: u64,
    ghost inside: { 0 < count → start + 10 * count ≤ size_of view },
    ghost near: { start < 2 ^ 32 },
    ghost few: { count < 2 ^ 16 },
}

impl<'a> Relocations<'a> {
    ghost use Rattle.std.specs.Prelude.{◌≡◌, ◌↔◌, length, map, slice_get, IfOk, IsTrue};
    ghost use Rattle.std.specs.List.{range_with_len};
    ghost use Rattle.pe_view.specs.View.{bytes_of};
    ghost use Rattle.coff_read.specs.Field.{field};
    ghost use Rattle.coff_read.specs.FileView.{relocations_view};
    ghost use Rattle.coff_read.specs.Reading.{relocation_at, relocation_start};

    /// The relocations of the section whose header is at a file offset.
    pub(crate) fn of_section(view: View<'a>, h: u64) -> Relocations<'a>
        requires inside { h + 40 ≤ size_of view }
        requires fits { 0 < field (bytes_of view) h 32 2 → relocation_start (bytes_of view) h (field (bytes_of view) h 32 2) ≤ size_of view }
        ensures { relocations_view result ≡ map (λ k. relocation_at (bytes_of view.entry) (relocation_start (bytes_of view.entry) h k)) (range_with_len 0 (field (bytes_of view.entry) h 32 2)) }
    {
        Relocations {
            view,
            start: u64::from(u32_in(view, h, 24)),
            count: u64::from(u16_in(view, h, 32)),
        }
    }

    /// The number of relocations: under 2^16.
    pub fn len(&self) -> usize
        ensures value { result ≡ length (relocations_view self.now) }
        ensures few { result < 2 ^ 16 }
    {
        self.count as usize
    }

    /// Whether there are none.
    pub fn is_empty(&self) -> bool
        ensures { IsTrue result ↔ (length (relocations_view self.now) ≡ 0) }
    {
        self.count == 0
    }

    /// Relocation `index` in table order, counted from 0; `None` exactly if there is no such one.
    pub fn get(&self, index: usize) -> Option<Relocation>
        ensures { result ≡ slice_get (relocations_view self.now) index }
    {
        if index as u64 >= self.count {
            return None;
        }
        let start = self.start + RELOCATION_LEN * index as u64;
        Some(relocation_at(self.view, start))
    }

    /// A list of them.
    // both forms of an object ask for it, most often for a few
    #[inline(always)]
    pub(crate) fn read<A: Allocator>(self, alloc: A) -> Result<Vec<Relocation, A>, AllocError>
        ensures { IfOk result (λ list. list.items ≡ relocations_view self.entry) }
    {
        let mut list = Vec::with_capacity(alloc, self.count as usize)?;
        for k in 0..self.count {
            list.push(relocation_at(self.view, self.start + RELOCATION_LEN * k))?;
        }
        Ok(list)
    }
}
