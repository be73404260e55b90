//! The images of a space in the order of their bases, for binary search.

ghost use Rattle.std.specs.Prelude.{◌≡◌, ◌<◌, ◌≤◌, List, IfOk, IsOk, length, map, slice_set};
ghost use Rattle.pe_set.specs.Placement.{Placement, placement_at};
ghost use Rattle.pe_space.specs.ByBase.{IsByBase, with_base};

use crate::ordered::{Order, put_in_order};
use pe_set::Placed;
use std::alloc::{AllocError, Allocator};

/// The number of an image, and the address of its first byte.
#[derive(Clone, Copy)]
pub(crate) struct NumberAt {
    pub(crate) base: u64,
    pub(crate) number: u16,
}

/// Images by their bases.
pub(crate) struct ByBase;

impl Order<NumberAt> for ByBase {
    ghost use Rattle.pe_space.specs.ByBase.{base_of};

    ghost key = { base_of };

    fn key(at: &NumberAt) -> u64 {
        at.base
    }
}

/// The numbers of images in the order of their bases.
pub(crate) fn by_base<P: Placed, A: Allocator + Copy>(
    alloc: A,
    images: &[P],
) -> Result<Vec<NumberAt, A>, AllocError>
    requires { length images.now ≤ 256 }
    ensures order { IfOk result (λ order. IsByBase (map P.placement images.now) order.items) }
    ensures empty { length images.now ≡ 0 → IsOk result }
{
    let mut order = Vec::with_capacity(alloc, images.len())?;
    for (index, image) in images.iter().enumerate() {
        order.push(NumberAt {
            base: image.base(),
            number: index as u16,
        })?;
    }
    put_in_order::<ByBase, _>(order.as_mut_slice());
    Ok(order)
}

/// Changes the base of the image with this number. There are at most 256 images, and each is compared.
fn set_base(order: &mut [NumberAt], number: u16, base: u64)
    ensures { order.new ≡ map (with_base number base) order.old }
{
    for at in order {
        if at.number == number {
            at.base = base;
        }
    }
}

/// Changes the base of the image with this number, and keeps the order.
pub(crate) fn rebase(order: &mut [NumberAt], number: u16, base: u64)
    ensures { (ps : List Placement) → number < length ps → IsByBase ps order.old → IsByBase (slice_set ps number (record (placement_at ps number) { base = base })) order.new }
{
    set_base(order, number, base);
    put_in_order::<ByBase, _>(order);
}
