//! `MappedImage`: an image in memory, with its fields relocated for its base.

ghost use Rattle.std.specs.Prelude.{◌≡◌, ◌+◌, ◌≤◌, ◌<◌, ◌^◌, length, slice_index, slice_range, vec_len};
ghost use Rattle.pe_layout.specs.Image.{slot_width_of};
ghost use Rattle.pe_tables.specs.Fixups.{width_of};
ghost use Rattle.pe_space.specs.Memory.{patch, bytes};
ghost use Rattle.pe_space.specs.InMemory.{relocated_image, rebased_image};
ghost use Rattle.pe_space.specs.FieldsAndSlots.{Each};

use crate::bytes::{shift_fields, slot_width};
use pe_head::Magic;
use pe_set::Placed;
use pe_tables::{Fixup, write_low};
use std::alloc::Allocator;
use std::marker::Model;
use std::snapshot::Snapshot;

/// An image in memory. `plain`, for proofs only, is its memory before fields and slots were written.
#[derive(Drop)]
pub(crate) struct MappedImage<A: Allocator> {
    base: u64,
    size: u32,
    magic: Magic,
    image_base: u64,
    is_stripped: bool,
    fixups: Vec<Fixup, A>,
    memory: Vec<u8, A>,
    plain: Snapshot<Vec<u8, A>>,
}

impl<A: Allocator> Model for MappedImage<A> {
    ghost use Rattle.pe_space.specs.InMemory.{InMemory};

    ghost Value = { InMemory };

    ghost use Rattle.std.specs.Prelude.{length, ◌≡◌, ◌+◌, ◌≤◌, ◌<◌, ◌^◌};
    ghost use Rattle.pe_tables.specs.Fixups.{width_of};
    ghost use Rattle.pe_space.specs.FieldsAndSlots.{Each};

    ghost view = { λ m. record {
      image = record { base = m.base; size = m.size; magic = m.magic; image_base = m.image_base; is_stripped = m.is_stripped; plain = m.plain.value.items; fixups = m.fixups.items };
      memory = m.memory.items;
    } };

    ghost invariant = { λ m. (length m.memory.items ≡ m.size) × (length m.fixups.items < 2 ^ 32) × Each (λ f. f.field + width_of f.kind ≤ length m.memory.items) m.fixups.items };
}

impl<A: Allocator + Copy> Placed for MappedImage<A> {
    ghost use Rattle.pe_space.specs.Content.{placement_of};

    ghost placement = { λ m. placement_of m.image };

    fn base(&self) -> u64 {
        self.base
    }

    fn size(&self) -> u32 {
        self.size
    }

    fn magic(&self) -> Magic {
        self.magic
    }

    fn image_base(&self) -> u64 {
        self.image_base
    }

    fn is_stripped(&self) -> bool {
        self.is_stripped
    }
}

impl<A: Allocator + Copy> MappedImage<A> {
    /// An image at a base, from its plain bytes: fields are relocated from ImageBase, and slots are not yet bound.
    pub(crate) fn new(
        base: u64,
        size: u32,
        magic: Magic,
        image_base: u64,
        is_stripped: bool,
        fixups: Vec<Fixup, A>,
        plain: Vec<u8, A>,
    ) -> MappedImage<A>
        requires size { length plain.items ≡ size }
        requires few { vec_len fixups < 2 ^ 32 }
        requires inside { Each (λ f. f.field + width_of f.kind ≤ length plain.items) fixups.items }
        ensures { result ≡ relocated_image base magic image_base is_stripped fixups.items plain.items }
    {
        let mut memory = plain;
        let plain = Snapshot::of(&memory);
        shift_fields(memory.as_mut_slice(), fixups.as_slice(), image_base, base);
        MappedImage {
            base,
            size,
            magic,
            image_base,
            is_stripped,
            fixups,
            memory,
            plain,
        }
    }

    /// The byte at an RVA.
    pub(crate) fn byte(&self, rva: usize) -> u8
        requires { rva < self.now.image.size }
        ensures { result ≡ slice_index self.now.memory rva }
    {
        self.memory[rva]
    }

    /// The bytes from an RVA on, enough to fill the buffer.
    pub(crate) fn read(&self, rva: usize, buffer: &mut [u8])
        requires { rva + length buffer.old ≤ self.now.image.size }
        ensures { buffer.new ≡ slice_range self.now.memory rva (rva + length buffer.old) }
    {
        buffer.copy_from_slice(&self.memory[rva..rva + buffer.len()]);
    }

    /// How many fixups it has.
    pub(crate) fn field_count(&self) -> u32
        ensures { result ≡ length self.now.image.fixups }
    {
        self.fixups.len() as u32
    }

    /// Relocates each field to a new base.
    pub(crate) fn rebase(&mut self, base: u64)
        ensures { self.new ≡ rebased_image base self.old }
    {
        shift_fields(
            self.memory.as_mut_slice(),
            self.fixups.as_slice(),
            self.base,
            base,
        );
        self.base = base;
    }

    /// Writes an address into a slot.
    pub(crate) fn put_slot(&mut self, slot: u32, address: u64)
        requires { slot + slot_width_of self.old.image.magic ≤ self.old.image.size }
        ensures { self.new ≡ record self.old { memory = patch self.old.memory slot (bytes (slot_width_of self.old.image.magic) address) } }
    {
        write_low(
            self.memory.as_mut_slice(),
            slot as usize,
            address,
            slot_width(self.magic),
        );
    }
}
