//! The images of a set next to each other: faults 43 to 47.

use super::images::Judged;
use super::ordering::{Class, Faults, Row};
use super::overlaps::Span;
use pe_view::Place;
use std::alloc::AllocError;

/// Each base must be a multiple of this.
const BASE_ALIGNMENT: u64 = 65_536;

/// Lists the faults of images at their bases.
pub(super) fn list_bases(images: &[Judged], faults: &mut Faults) -> Result<(), AllocError> {
    let Some(first) = images.first() else {
        return Ok(());
    };
    for (index, judged) in images.iter().enumerate() {
        faults.begin(Class::Bases, index);
        let overlaps_earlier = overlaps_earlier(images, index, judged);
        faults.record(&rows(index, judged, first, overlaps_earlier))?;
    }
    Ok(())
}

/// The tests of an image, given the first image of the set.
fn rows(index: usize, judged: &Judged, first: &Judged, overlaps_earlier: bool) -> [Row; 5] {
    let headers = &judged.image.headers;
    let base = judged.entry.base;
    let place = Place::Address(base);
    let item = Place::Item(u32::try_from(index).unwrap_or(u32::MAX));
    let end = u128::from(base) + u128::from(headers.size_of_image);
    let limit: u128 = if headers.is_plus() { 1 << 64 } else { 1 << 32 };
    let is_other_form = headers.magic != first.image.headers.magic;
    let is_moved = headers.is_stripped() && base != headers.image_base;
    [
        Row::new(43, is_other_form, item),
        Row::new(44, base % BASE_ALIGNMENT != 0, place),
        Row::new(45, end > limit, place),
        Row::new(46, is_moved, place),
        Row::new(47, overlaps_earlier, place),
    ]
}

/// The addresses of an image.
fn addresses(judged: &Judged) -> Span {
    Span {
        start: judged.entry.base,
        len: judged.image.headers.size_of_image as u64,
    }
}

/// Whether an image overlaps one of the first `count` images.
fn overlaps_earlier(images: &[Judged], count: usize, judged: &Judged) -> bool {
    let own = addresses(judged);
    for earlier in images.iter().take(count) {
        if own.overlaps(&addresses(earlier)) {
            return true;
        }
    }
    false
}
