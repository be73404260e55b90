//! `MappedSpace`: a space whose images are in memory.

ghost use Rattle.std.specs.Prelude.{◌≡◌, ◌+◌, ◌≤◌, ◌^◌, ℕ, Contains, IfOk, IsOk, length, count_by};
ghost use Rattle.std.specs.List.Sorted.{IsNonDecreasingBy};
ghost use Rattle.pe_set.specs.declared.binding.Binding.{Binding};
ghost use Rattle.pe_space.specs.Unbound.{unbound};
ghost use Rattle.pe_space.specs.Content.{nth_image};
ghost use Rattle.pe_space.specs.Memory.{put_slot, bound, ends_in};
ghost use Rattle.pe_space.specs.InMemory.{images_of, memories_of};
ghost use Rattle.pe_space.specs.Ordered.{exporter_of};
ghost use Rattle.pe_space.specs.FieldsAndSlots.{Each, IsSlot, FieldsAndSlotsApart};
ghost use Rattle.pe_space.specs.ImagesApart.{ImagesApart};
ghost use Rattle.pe_space.specs.MappedSpaceView.{mapped_content, SlotsUnbound};

use crate::address_ranges::{base_of, holder, move_fault, size_of, window_image};
use crate::by_base::{NumberAt, by_base, rebase};
use crate::mapped_image::MappedImage;
use crate::ordered::{ByExporter, between, ordered_copy};
use crate::space::{Moved, Space};
use pe_set::{Binding, Placed};
use pe_view::Fault;
use std::alloc::{AllocError, Allocator};
use std::marker::Model;

/// Images in memory, each with its bytes for its base. It owns its bytes and borrows no file. `order` has the images by base,
/// `slots` the bindings by exporter.
#[derive(Drop)]
pub struct MappedSpace<A: Allocator> {
    images: Vec<MappedImage<A>, A>,
    order: Vec<NumberAt, A>,
    bindings: Vec<Binding, A>,
    slots: Vec<Binding, A>,
}

impl<A: Allocator> Model for MappedSpace<A> {
    ghost use Rattle.pe_space.specs.Content.{Content};

    ghost Value = { Content };

    ghost use Rattle.pe_space.specs.Unbound.{unbound};
    ghost use Rattle.pe_space.specs.MappedSpaceView.{mapped_content, MappedSpaceHolds};

    ghost view = { λ s. unbound (mapped_content s.images.items s.bindings.items) };

    ghost invariant = { λ s. MappedSpaceHolds s.images.items s.order.items s.bindings.items s.slots.items };
}

/// Writes an address into the slot of a binding.
fn put_address<A: Allocator + Copy>(images: &mut [MappedImage<A>], binding: &Binding, address: u64)
    requires { IsSlot (images_of images.old) binding.now }
    ensures images { images_of images.new ≡ images_of images.old }
    ensures memories { memories_of images.new ≡ put_slot (images_of images.old) binding.now address (memories_of images.old) }
{
    images[binding.image as usize].put_slot(binding.slot, address);
}

/// Writes the address of its export into each slot.
fn bind<A: Allocator + Copy>(images: &mut [MappedImage<A>], slots: &[Binding])
    requires slots { Each (IsSlot (images_of images.old)) slots.now }
    requires room { (j : ℕ) → (nth_image (images_of images.old) j).base + (nth_image (images_of images.old) j).size ≤ 2 ^ 64 }
    ensures images { images_of images.new ≡ images_of images.old }
    ensures memories { memories_of images.new ≡ bound (images_of images.old) slots.now (memories_of images.old) }
{
    for slot in slots {
        let address = images[slot.exporter as usize].base() + u64::from(slot.rva);
        put_address(images, slot, address);
    }
}

/// The slots bound to exports of an image, among bindings ordered by exporter.
fn slots_of(slots: &[Binding], exporter: u16) -> &[Binding]
    requires { IsNonDecreasingBy exporter_of slots.now }
    ensures held { (b : Binding) → Contains result.now b → Contains slots.now b × (b.exporter ≡ exporter) }
    ensures all { (b : Binding) → Contains slots.now b → b.exporter ≡ exporter → Contains result.now b }
    ensures count { length result.now ≡ count_by (ends_in exporter) slots.now }
{
    let exporter = u64::from(exporter);
    between::<ByExporter, _>(slots, None, exporter, exporter + 1)
}

impl<A: Allocator + Copy> MappedSpace<A> {
    /// A space of images whose slots are not yet bound.
    pub(crate) fn new(
        alloc: A,
        mut images: Vec<MappedImage<A>, A>,
        bindings: Vec<Binding, A>,
    ) -> Result<MappedSpace<A>, AllocError>
        requires fields_and_slots { FieldsAndSlotsApart (mapped_content images.items bindings.items) }
        requires placed { ImagesApart (mapped_content images.items bindings.items) }
        requires slots_unbound { SlotsUnbound (mapped_content images.items bindings.items) (memories_of images.items) }
        ensures content { IfOk result (λ space. space ≡ unbound (mapped_content images.items bindings.items)) }
        ensures empty { length images.items ≡ 0 → length bindings.items ≡ 0 → IsOk result }
    {
        let order = by_base(alloc, images.as_slice())?;
        let slots = ordered_copy::<ByExporter, _, _>(alloc, bindings.as_slice())?;
        bind(images.as_mut_slice(), bindings.as_slice());
        Ok(MappedSpace {
            images,
            order,
            bindings,
            slots,
        })
    }
}

impl<A: Allocator + Copy> Space for MappedSpace<A> {
    ghost content = { λ s. s };

    fn byte(&self, address: u64) -> Option<u8> {
        let number = holder(self.images.as_slice(), self.order.as_slice(), address)?;
        let image = &self.images[number as usize];
        Some(image.byte((address - image.base()) as usize))
    }

    fn image_at(&self, address: u64, count: usize) -> Result<u16, Fault> {
        window_image(
            self.images.as_slice(),
            self.order.as_slice(),
            address,
            count,
        )
    }

    fn window(&self, address: u64, buffer: &mut [u8]) -> Result<(), Fault> {
        if buffer.is_empty() {
            return Ok(());
        }
        let number = self.image_at(address, buffer.len())?;
        let image = &self.images[number as usize];
        image.read((address - image.base()) as usize, buffer);
        Ok(())
    }

    fn move_image(&mut self, image: u16, base: u64) -> Result<Moved, Fault> {
        if let Some(fault) = move_fault(
            self.images.as_slice(),
            self.order.as_slice(),
            image,
            base,
        ) {
            return Err(fault);
        }
        let own = &mut self.images[image as usize];
        own.rebase(base);
        let fields = own.field_count();
        rebase(self.order.as_mut_slice(), image, base);
        let slots = slots_of(self.slots.as_slice(), image);
        bind(self.images.as_mut_slice(), slots);
        Ok(Moved {
            fields,
            slots: slots.len() as u32,
        })
    }

    fn image_count(&self) -> u16 {
        self.images.len() as u16
    }

    fn base_of(&self, image: u16) -> Option<u64> {
        base_of(self.images.as_slice(), image)
    }

    fn size_of(&self, image: u16) -> Option<u32> {
        size_of(self.images.as_slice(), image)
    }

    fn bindings(&self) -> &[Binding] {
        self.bindings.as_slice()
    }
}
