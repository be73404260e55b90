//! Moves of images in both spaces of a set.

use crate::spaces::both::Both;
use crate::spaces::commands::move_of;
use crate::spaces::windows::{agree_in, whole};
use pe_space::Space;
use std::alloc::Global;

/// The bytes of all images of a space.
fn all_bytes<S: Space>(alloc: Global, space: &S) -> Option<Vec<Vec<u8>>> {
    let mut images = Vec::new(alloc);
    for image in 0..space.image_count() {
        images.push(whole(alloc, space, image)?).ok()?;
    }
    Some(images)
}

/// Whether each byte of a space is the same after an image was moved away and back.
fn returns<S: Space>(alloc: Global, space: &mut S, image: u16, away: u64) -> Option<bool> {
    let home = space.base_of(image)?;
    let before = all_bytes(alloc, space)?;
    space.move_image(image, away).ok()?;
    space.move_image(image, home).ok()?;
    Some(all_bytes(alloc, space)? == before)
}

/// Prints whether the move of a word, and the one back, restore every byte, in both spaces.
pub(crate) fn print_returned<R: Print + AllocGlobal>(
    rt: &R,
    both: &mut Both,
    word: &str,
) -> Option<()> {
    let (image, away) = move_of(word)?;
    let mapped = returns(rt.alloc(), &mut both.mapped, image, away)?;
    let filed = returns(rt.alloc(), &mut both.filed, image, away)?;
    println!(rt; "as before {mapped} {filed}").ok()
}

/// The next of a sequence of pseudo-random numbers.
fn next(state: &mut u64) -> u64 {
    *state = state
        .wrapping_mul(6_364_136_223_846_793_005)
        .wrapping_add(1_442_695_040_888_963_407);
    *state >> 33
}

/// Reads a window and moves an image in both spaces, as the next numbers say, and returns whether the results are equal.
fn step(alloc: Global, both: &mut Both, state: &mut u64) -> Option<bool> {
    let image = (next(state) % 5) as u16;
    let base = both.mapped.base_of(image);
    let address = base.unwrap_or(0).wrapping_add(next(state) % 0x3008);
    let len = (next(state) % 65) as usize;
    let same = base == both.filed.base_of(image) && agree_in(alloc, both, address, len)?;
    let to = (next(state) % 16).wrapping_mul(0x8000);
    let moved = both.mapped.move_image(image, to);
    Some(same && moved == both.filed.move_image(image, to))
}

/// Prints for how many of 400 windows and moves both spaces of a set have the same result.
pub(crate) fn print_random<R: Print + AllocGlobal>(rt: &R, both: &mut Both) -> Option<()> {
    let (mut state, mut same) = (1, 0_u32);
    for _ in 0..400_u32 {
        if step(rt.alloc(), both, &mut state)? {
            same = same.saturating_add(1);
        }
    }
    println!(rt; "{same} steps are the same").ok()
}
