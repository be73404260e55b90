//! Images at their bases: which one contains an address or a window, and the faults of a move.

ghost use Rattle.std.specs.Prelude.{◌≡◌, ◌+◌, ◌<◌, ◌≤◌, ◌^◌, length, map, IfSome, IfOk};
ghost use Rattle.std.specs.List.{list_any};
ghost use Rattle.pe_view.specs.Faults.{first_standing};
ghost use Rattle.pe_ranges.specs.Ranges.{meets};
ghost use Rattle.pe_set.specs.Placement.{move_tests, others_than};
ghost use Rattle.pe_space.specs.ByBase.{IsByBase, StandApart};
ghost use Rattle.pe_space.specs.Content.{placed_from, base_in, size_in, window_fault, window_image};

use crate::by_base::{ByBase, NumberAt};
use crate::ordered::at_most;
use pe_set::{Placed, base_fault};
use pe_view::{Fault, Place};

/// The image that fault 54 names if no image contains the window's address.
const NO_IMAGE: u16 = u16::MAX;

/// The address after an image's last byte.
fn end<P: Placed>(image: &P) -> u128
    ensures { result ≡ (P.placement image.now).base + (P.placement image.now).size }
{
    u128::from(image.base()) + u128::from(image.size())
}

/// The number of the image that contains an address: the last one that begins there or before it, if it is long enough. `order`
/// has the images by base; the search takes log n steps.
pub(crate) fn holder<P: Placed>(images: &[P], order: &[NumberAt], address: u64) -> Option<u16>
    requires order { IsByBase (map P.placement images.now) order.now }
    requires apart { StandApart (map P.placement images.now) }
    ensures holder { result ≡ placed_from 0 (map P.placement images.now) address }
    ensures inside { IfSome result (λ number. number < length images.now) }
{
    let number = at_most::<ByBase, _>(order, address).last()?.number;
    if u128::from(address) < end(&images[number as usize]) {
        Some(number)
    } else {
        None
    }
}

/// Fault 54 of a window at an address, with the image that contains the address.
fn window_fault(image: u16, address: u64) -> Fault
    ensures { result ≡ window_fault image address }
{
    Fault {
        number: 54,
        image,
        place: Place::Address(address),
    }
}

/// The number of the image that contains a window of this size, or fault 54.
pub(crate) fn window_image<P: Placed>(
    images: &[P],
    order: &[NumberAt],
    address: u64,
    count: usize,
) -> Result<u16, Fault>
    requires order { IsByBase (map P.placement images.now) order.now }
    requires apart { StandApart (map P.placement images.now) }
    ensures image { result ≡ window_image (map P.placement images.now) address count }
    ensures inside { IfOk result (λ number. number < length images.now) }
{
    let Some(number) = holder(images, order, address) else {
        return Err(window_fault(NO_IMAGE, address));
    };
    if u128::from(address) + count as u128 > end(&images[number as usize]) {
        return Err(window_fault(number, address));
    }
    Ok(number)
}

/// Whether an image of this number and size would overlap another one at this base. If any other image does, the last one that
/// begins before its end does.
fn overlaps_another<P: Placed>(
    images: &[P],
    order: &[NumberAt],
    number: u16,
    base: u64,
    size: u32,
) -> bool
    requires order { IsByBase (map P.placement images.now) order.now }
    requires apart { StandApart (map P.placement images.now) }
    requires some { 0 < size }
    requires room { base + size ≤ 2 ^ 64 }
    ensures { result ≡ list_any (λ other. meets base size other.base other.size) (others_than number (map P.placement images.now)) }
{
    let last = base + u64::from(size - 1);
    for at in at_most::<ByBase, _>(order, last).iter().rev() {
        if at.number != number {
            return u128::from(base) < end(&images[at.number as usize]);
        }
    }
    false
}

/// The first fault of a move of an image to a base: 55, then 44 to 47.
pub(crate) fn move_fault<P: Placed>(
    images: &[P],
    order: &[NumberAt],
    number: u16,
    base: u64,
) -> Option<Fault>
    requires order { IsByBase (map P.placement images.now) order.now }
    requires apart { StandApart (map P.placement images.now) }
    ensures { result ≡ first_standing (move_tests (map P.placement images.now) number base) }
{
    let Some(own) = images.get(number as usize) else {
        return Some(Fault {
            number: 55,
            image: number,
            place: Place::Item(u32::from(number)),
        });
    };
    if let Some(fault) = base_fault(&[], &[], number, own, base) {
        return Some(fault);
    }
    if overlaps_another(images, order, number, base, own.size()) {
        Some(Fault {
            number: 47,
            image: number,
            place: Place::Address(base),
        })
    } else {
        None
    }
}

/// The base of the image with this number.
pub(crate) fn base_of<P: Placed>(images: &[P], number: u16) -> Option<u64>
    ensures { result ≡ base_in (map P.placement images.now) number }
{
    images.get(number as usize).map(|image| image.base())
}

/// The size of the image with this number.
pub(crate) fn size_of<P: Placed>(images: &[P], number: u16) -> Option<u32>
    ensures { result ≡ size_in (map P.placement images.now) number }
{
    images.get(number as usize).map(|image| image.size())
}
