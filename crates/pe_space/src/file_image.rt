//! `FileImage`: an image whose bytes stay in its file, with its fixups ordered by field.

ghost use Rattle.std.specs.Prelude.{◌≡◌, ◌+◌, ◌≤◌, ◌<◌, length, pos, ◌-ℤ◌, Contains};
ghost use Rattle.pe_set.specs.SetView.{module_view};
ghost use Rattle.pe_tables.specs.Fixups.{width_of};
ghost use Rattle.pe_tables.specs.declared.fixups.Fixup.{Fixup};
ghost use Rattle.pe_space.specs.Relocated.{FieldsFit};
ghost use Rattle.pe_space.specs.Number.{number_in, shift};
ghost use Rattle.pe_space.specs.SetContent.{image_content};
ghost use Rattle.pe_space.specs.FieldsAndSlots.{IsImage};
ghost use Rattle.pe_space.specs.Windows.{fixed_bytes};

use crate::hints::Hints;
use crate::ordered::{ByField, between, put_in_order};
use crate::window::{REACH, lay_on};
use pe_head::Magic;
use pe_layout::Layout;
use pe_set::{Module, Placed};
use pe_tables::{Fixup, FixupKind, shift_32, shift_64, shift_high, shift_low};
use std::alloc::Allocator;
use std::marker::Model;
use std::snapshot::Snapshot;

/// An image whose bytes stay in its file. `fixups` are ordered by field; `listed`, for proofs only, has the same in table order.
#[derive(Drop)]
pub(crate) struct FileImage<'a, A: Allocator> {
    base: u64,
    layout: Layout<'a>,
    fixups: Vec<Fixup, A>,
    listed: Snapshot<Vec<Fixup, A>>,
}

impl<'a, A: Allocator> Model for FileImage<'a, A> {
    ghost use Rattle.pe_space.specs.Content.{SpaceImage};

    ghost Value = { SpaceImage };

    ghost use Rattle.std.specs.Prelude.{length, ◌<◌, ◌^◌};
    ghost use Rattle.pe_layout.specs.Image.{bytes_at};
    ghost use Rattle.pe_layout.specs.Layout.{headers_of, image_of};
    ghost use Rattle.pe_space.specs.Ordered.{IsOrdered, field_of};

    ghost view = { λ m. record {
      base = m.base;
      size = (image_of m.layout).size;
      magic = (headers_of m.layout).magic;
      image_base = (image_of m.layout).image_base;
      is_stripped = (image_of m.layout).is_stripped;
      plain = bytes_at (image_of m.layout) 0 (image_of m.layout).size;
      fixups = m.listed.value.items;
    } };

    ghost invariant = { λ m. IsOrdered field_of m.listed.value.items m.fixups.items × (length m.fixups.items < 2 ^ 32) };
}

impl<'a, A: Allocator + Copy> Placed for FileImage<'a, A> {
    ghost use Rattle.pe_space.specs.Content.{placement_of};

    ghost placement = { placement_of };

    fn base(&self) -> u64 {
        self.base
    }

    fn size(&self) -> u32 {
        self.layout.size()
    }

    fn magic(&self) -> Magic {
        self.layout.magic()
    }

    fn image_base(&self) -> u64 {
        self.layout.image_base()
    }

    fn is_stripped(&self) -> bool {
        self.layout.is_stripped()
    }
}

impl<'a, A: Allocator + Copy> FileImage<'a, A> {
    /// An image that was read, at its base.
    #[tactic(auto, unfolding(pe_set::specs::SetView::module_view))]
    pub(crate) fn new(own: Module<'a, A>) -> FileImage<'a, A>
        requires { FieldsFit (module_view own) }
        ensures { result ≡ image_content (module_view own.entry) }
    {
        let (base, layout) = (own.base, own.image.layout);
        let mut fixups = own.image.fixups;
        let listed = Snapshot::of(&fixups);
        put_in_order::<ByField, _>(fixups.as_mut_slice());
        FileImage {
            base,
            layout,
            fixups,
            listed,
        }
    }

    /// Guesses where its fields are in `fixups`.
    pub(crate) fn hint_fields(&self, alloc: A) -> Hints<A> {
        Hints::of::<ByField, _>(alloc, self.fixups.as_slice(), 0)
    }

    /// The fixups whose fields may overlap the bytes from RVA `start` up to `end`. `guess` is how many may come before them.
    fn fixups_in(&self, guess: Option<usize>, start: u32, end: u64) -> &[Fixup]
        requires { start ≤ end }
        ensures held { (fixup : Fixup) → Contains result.now fixup → Contains self.now.fixups fixup }
        ensures all { (fixup : Fixup) → Contains self.now.fixups fixup → start < fixup.field + 8 → fixup.field < end → Contains result.now fixup }
    {
        let low = u64::from(start.saturating_sub(REACH));
        between::<ByField, _>(self.fixups.as_slice(), guess, low, end)
    }

    /// The number of a field: that in the file, relocated from ImageBase to the base.
    fn relocated(&self, fixup: Fixup) -> u64
        requires { fixup.field + width_of fixup.kind ≤ self.now.size }
        ensures { result ≡ shift fixup.kind (number_in self.now.plain fixup.field (width_of fixup.kind)) (pos self.now.base -ℤ pos self.now.image_base) }
    {
        let (from, to) = (self.layout.image_base(), self.base);
        match fixup.kind {
            FixupKind::Bits32 => {
                let number = self.layout.u32_at(fixup.field).unwrap();
                u64::from(shift_32(number, from, to))
            }
            FixupKind::Bits64 => shift_64(self.layout.u64_at(fixup.field).unwrap(), from, to),
            FixupKind::High => {
                let number = self.layout.u16_at(fixup.field).unwrap();
                u64::from(shift_high(number, from, to))
            }
            FixupKind::Low => {
                let number = self.layout.u16_at(fixup.field).unwrap();
                u64::from(shift_low(number, from, to))
            }
        }
    }

    /// Fills a window with the bytes from RVA `start` on, without bound slots: the file's bytes, with the fields that overlap the
    /// window written over them. `guess` is how many fixups may come before those.
    pub(crate) fn read(&self, guess: Option<usize>, start: u32, window: &mut [u8])
        requires sound { IsImage self.now }
        requires inside { start + length window.old ≤ self.now.size }
        ensures { window.new ≡ fixed_bytes self.now start (length window.old) }
    {
        self.layout.fill(start, window);
        let end = u64::from(start) + window.len() as u64;
        for fixup in self.fixups_in(guess, start, end) {
            let value = self.relocated(*fixup);
            lay_on(
                window,
                start,
                fixup.field,
                value,
                fixup.kind.width() as usize,
            );
        }
    }

    /// How many fixups it has.
    pub(crate) fn field_count(&self) -> u32
        ensures { result ≡ length self.now.fixups }
    {
        self.fixups.len() as u32
    }

    /// Changes its base.
    pub(crate) fn rebase(&mut self, base: u64)
        ensures { self.new ≡ record self.old { base = base } }
    {
        self.base = base;
    }
}
