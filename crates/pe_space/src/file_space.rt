//! `FileSpace`: a space whose bytes stay in the files, which it borrows.

ghost use Rattle.std.specs.Prelude.{◌≡◌, ◌+◌, ◌≤◌, ◌<◌, ◌^◌, ℕ, [], Contains, length, IsOk, IfOk};
ghost use Rattle.pe_set.specs.declared.binding.Binding.{Binding};
ghost use Rattle.pe_space.specs.Unbound.{unbound};
ghost use Rattle.pe_space.specs.Content.{nth_image};
ghost use Rattle.pe_space.specs.FileSpaceView.{file_content, SlotCounts};
ghost use Rattle.pe_space.specs.ImagesApart.{ImagesApart};
ghost use Rattle.pe_space.specs.FieldsAndSlots.{Each, FieldsAndSlotsApart};
ghost use Rattle.pe_space.specs.Windows.{bytes_in};

use crate::address_ranges::{base_of, holder, move_fault, size_of, window_image};
use crate::by_base::{NumberAt, by_base, rebase};
use crate::bytes::slot_width;
use crate::file_image::FileImage;
use crate::hints::{Hints, guess_of};
use crate::ordered::{BySlot, IMAGE_STEP, between, ordered_copy};
use crate::space::{Moved, Space};
use crate::window::{REACH, lay_on};
use pe_set::{Binding, Placed};
use pe_view::Fault;
use std::alloc::{AllocError, Allocator};
use std::marker::Model;

/// A count of 0 for each image.
fn no_slots<A: Allocator + Copy>(alloc: A, images: usize) -> Result<Vec<u32, A>, AllocError>
    ensures counts { IfOk result (λ counts. SlotCounts images [] counts.items) }
    ensures empty { images ≡ 0 → IsOk result }
{
    let mut counts = Vec::with_capacity(alloc, images)?;
    for _ in 0..images {
        counts.push(0)?;
    }
    Ok(counts)
}

/// How many bound slots each image is the exporter of.
fn count_slots<A: Allocator + Copy>(
    alloc: A,
    images: usize,
    bindings: &[Binding],
) -> Result<Vec<u32, A>, AllocError>
    requires few { length bindings.now < 2 ^ 32 }
    requires exporters { Each (λ b. b.exporter < images) bindings.now }
    ensures counts { IfOk result (λ counts. SlotCounts images bindings.now counts.items) }
    ensures empty { images ≡ 0 → IsOk result }
{
    let mut counts = no_slots(alloc, images)?;
    for binding in bindings {
        counts[binding.exporter as usize] += 1;
    }
    Ok(counts)
}

/// Guesses where the fields of each image are, or an empty list if memory for it ran out.
fn hint_fields<A: Allocator + Copy>(alloc: A, images: &[FileImage<A>]) -> Vec<Hints<A>, A> {
    let Ok(mut hints) = Vec::with_capacity(alloc, images.len()) else {
        return Vec::new(alloc);
    };
    for image in images {
        let _ = hints.push(image.hint_fields(alloc));
    }
    hints
}

/// Guesses where the slots of each image are among all slots, which are ordered by image, or an empty list if memory for it ran
/// out.
fn hint_slots<A: Allocator + Copy>(alloc: A, images: usize, slots: &[Binding]) -> Vec<Hints<A>, A> {
    let Ok(mut hints) = Vec::with_capacity(alloc, images) else {
        return Vec::new(alloc);
    };
    let mut start = 0;
    for image in 0..images {
        let end = slots.partition_point(|slot| slot.image as usize <= image);
        let own = slots.get(start..end).unwrap_or(&[]);
        let _ = hints.push(Hints::of::<BySlot, _>(alloc, own, start));
        start = end;
    }
    hints
}

/// Images whose bytes stay in their files, which it borrows. `order` has the images by base, `slots` the bindings by image and
/// then by slot; `counts` has how many slots are bound to each image. `field_hints` guess where the fields of each image are, and
/// `slot_hints` where its slots are among all.
#[derive(Drop)]
pub struct FileSpace<'a, A: Allocator> {
    images: Vec<FileImage<'a, A>, A>,
    order: Vec<NumberAt, A>,
    bindings: Vec<Binding, A>,
    slots: Vec<Binding, A>,
    counts: Vec<u32, A>,
    field_hints: Vec<Hints<A>, A>,
    slot_hints: Vec<Hints<A>, A>,
}

impl<'a, A: Allocator> Model for FileSpace<'a, A> {
    ghost use Rattle.pe_space.specs.Content.{Content};

    ghost Value = { Content };

    ghost use Rattle.pe_space.specs.Unbound.{unbound};
    ghost use Rattle.pe_space.specs.FileSpaceView.{file_content, FileSpaceHolds};

    ghost view = { λ s. unbound (file_content s.images.items s.bindings.items) };

    ghost invariant = { λ s. FileSpaceHolds s.images.items s.order.items s.bindings.items s.slots.items s.counts.items };
}

impl<'a, A: Allocator + Copy> FileSpace<'a, A> {
    /// A space of images with these bindings.
    pub(crate) fn new(
        alloc: A,
        images: Vec<FileImage<'a, A>, A>,
        bindings: Vec<Binding, A>,
    ) -> Result<FileSpace<'a, A>, AllocError>
        requires fields_and_slots { FieldsAndSlotsApart (file_content images.items bindings.items) }
        requires placed { ImagesApart (file_content images.items bindings.items) }
        requires whole { (j : ℕ) → length (nth_image images.items j).plain ≡ (nth_image images.items j).size }
        requires small { (j : ℕ) → (nth_image images.items j).size ≤ 2 ^ 31 }
        ensures content { IfOk result (λ space. space ≡ unbound (file_content images.entry.items bindings.items)) }
        ensures empty { length images.entry.items ≡ 0 → length bindings.items ≡ 0 → IsOk result }
    {
        let order = by_base(alloc, images.as_slice())?;
        let slots = ordered_copy::<BySlot, _, _>(alloc, bindings.as_slice())?;
        let counts = count_slots(alloc, images.len(), bindings.as_slice())?;
        let field_hints = hint_fields(alloc, images.as_slice());
        let slot_hints = hint_slots(alloc, images.len(), slots.as_slice());
        Ok(FileSpace {
            images,
            order,
            bindings,
            slots,
            counts,
            field_hints,
            slot_hints,
        })
    }

    /// A guess of how many fields of an image come before those that may overlap its bytes from RVA `start` on.
    fn fields_before(&self, number: u16, start: u32) -> Option<usize> {
        let low = start.saturating_sub(REACH);
        guess_of(&self.field_hints, number, u64::from(low))
    }

    /// The bound slots of an image that may overlap its bytes from RVA `start` up to `end`.
    fn slots_in(&self, number: u16, start: u32, end: u64) -> &[Binding]
        requires order { start ≤ end }
        requires small { end ≤ 2 ^ 32 }
        ensures held { (b : Binding) → Contains result.now b → Contains self.now.bindings b × (b.image ≡ number) }
        ensures all { (b : Binding) → Contains self.now.bindings b → b.image ≡ number → start < b.slot + 8 → b.slot < end → Contains result.now b }
    {
        let image_start = u64::from(number) * IMAGE_STEP;
        let low = image_start + u64::from(start.saturating_sub(REACH));
        let guess = guess_of(&self.slot_hints, number, low);
        between::<BySlot, _>(self.slots.as_slice(), guess, low, image_start + end)
    }

    /// Fills a window with the bytes of an image from RVA `start` on: its bytes without bound slots, and then the slots that
    /// overlap the window are written over them.
    fn read(&self, number: u16, start: u32, window: &mut [u8])
        requires number { number < length self.now.images }
        requires inside { start + length window.old ≤ (nth_image self.now.images number).size }
        ensures { window.new ≡ bytes_in self.now number start (length window.old) }
    {
        let image = &self.images[number as usize];
        image.read(self.fields_before(number, start), start, window);
        let width = slot_width(image.magic());
        let end = u64::from(start) + window.len() as u64;
        for slot in self.slots_in(number, start, end) {
            let address = self.images[slot.exporter as usize].base() + u64::from(slot.rva);
            lay_on(window, start, slot.slot, address, width);
        }
    }
}

impl<'a, A: Allocator + Copy> Space for FileSpace<'a, A> {
    ghost content = { λ s. s };

    fn byte(&self, address: u64) -> Option<u8> {
        let number = holder(self.images.as_slice(), self.order.as_slice(), address)?;
        let rva = address - self.images[number as usize].base();
        let mut byte = [0];
        self.read(number, rva as u32, &mut byte);
        Some(byte[0])
    }

    fn image_at(&self, address: u64, count: usize) -> Result<u16, Fault> {
        window_image(
            self.images.as_slice(),
            self.order.as_slice(),
            address,
            count,
        )
    }

    fn window(&self, address: u64, buffer: &mut [u8]) -> Result<(), Fault> {
        if buffer.is_empty() {
            return Ok(());
        }
        let number = self.image_at(address, buffer.len())?;
        let rva = address - self.images[number as usize].base();
        self.read(number, rva as u32, buffer);
        Ok(())
    }

    fn move_image(&mut self, image: u16, base: u64) -> Result<Moved, Fault> {
        if let Some(fault) = move_fault(
            self.images.as_slice(),
            self.order.as_slice(),
            image,
            base,
        ) {
            return Err(fault);
        }
        let own = &mut self.images[image as usize];
        own.rebase(base);
        let fields = own.field_count();
        rebase(self.order.as_mut_slice(), image, base);
        Ok(Moved {
            fields,
            slots: self.counts[image as usize],
        })
    }

    fn image_count(&self) -> u16 {
        self.images.len() as u16
    }

    fn base_of(&self, image: u16) -> Option<u64> {
        base_of(self.images.as_slice(), image)
    }

    fn size_of(&self, image: u16) -> Option<u32> {
        size_of(self.images.as_slice(), image)
    }

    fn bindings(&self) -> &[Binding] {
        self.bindings.as_slice()
    }
}
