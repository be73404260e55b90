//! The use of a space by a workload: it reads bytes and bindings, and moves images.

use crate::chance::Chance;
use crate::digest::Digest;
use pe_space::Space;

/// The greatest length of a window in bytes.
const WINDOW: usize = 4096;

/// Mixes in all bytes of an image, a window at a time.
fn read_image<S: Space>(digest: &mut Digest, space: &S, image: u16) -> Option<()> {
    let mut window = [0; WINDOW];
    let base = space.base_of(image)?;
    let mut left = space.size_of(image)? as usize;
    let mut address = base;
    for _ in 0..1 + left / WINDOW {
        let count = left.min(WINDOW);
        let part = window.get_mut(..count)?;
        space.window(address, part).ok()?;
        digest.bytes(part);
        left -= count;
        address = address.checked_add(count as u64)?;
    }
    Some(())
}

/// Mixes in all bytes of all images.
pub(crate) fn read_images<S: Space>(digest: &mut Digest, space: &S) -> Option<()> {
    for image in 0..space.image_count() {
        read_image(digest, space, image)?;
    }
    Some(())
}

/// A pseudo-random address in an image, at least `count` bytes before its end.
fn some_address<S: Space>(space: &S, chance: &mut Chance, image: u16, count: u32) -> Option<u64> {
    let size = space.size_of(image)?;
    let offset = chance.below(size.checked_sub(count)?);
    space.base_of(image)?.checked_add(u64::from(offset))
}

/// Mixes in bytes at pseudo-random addresses: each time a byte, an address and a line of sixteen bytes, as a debugger reads them.
pub(crate) fn read_here_and_there<S: Space>(
    digest: &mut Digest,
    space: &S,
    chance: &mut Chance,
    times: u32,
) -> Option<()> {
    let mut line = [0; 16];
    let mut field = [0; 8];
    for _ in 0..times {
        let image = u16::try_from(chance.below(u32::from(space.image_count()))).ok()?;
        let address = some_address(space, chance, image, 32)?;
        digest.number(u64::from(space.byte(address)?));
        space.window(address, &mut field).ok()?;
        digest.bytes(&field);
        space.window(address, &mut line).ok()?;
        digest.bytes(&line);
    }
    Some(())
}

/// Moves each image by `step`.
pub(crate) fn move_images<S: Space>(digest: &mut Digest, space: &mut S, step: u64) -> Option<()> {
    for image in 0..space.image_count() {
        let base = space.base_of(image)?.checked_add(step)?;
        let moved = space.move_image(image, base).ok()?;
        digest.number(u64::from(moved.fields));
        digest.number(u64::from(moved.slots));
    }
    Some(())
}

/// Mixes in each binding: the image and RVA of its slot, and those of the export.
pub(crate) fn read_bindings<S: Space>(digest: &mut Digest, space: &S) {
    for binding in space.bindings() {
        digest.number(u64::from(binding.image));
        digest.number(u64::from(binding.slot));
        digest.number(u64::from(binding.exporter));
        digest.number(u64::from(binding.rva));
    }
}
