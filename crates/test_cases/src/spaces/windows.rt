//! Windows of both spaces of a set, which must be equal.

use crate::numbers::number_of;
use crate::spaces::both::Both;
use crate::spaces::commands::move_of;
use pe_space::Space;
use std::alloc::Global;

/// Whether both spaces have the same result for a window, and leave the same bytes in the buffer.
pub(crate) fn agree_in(alloc: Global, both: &Both, address: u64, len: usize) -> Option<bool> {
    let mut bytes = vec![in alloc; 0xee; len].ok()?;
    let mut others = vec![in alloc; 0xee; len].ok()?;
    let answer = both.mapped.window(address, bytes.as_mut_slice());
    let other = both.filed.window(address, others.as_mut_slice());
    Some(
        answer == other && bytes == others && both.mapped.byte(address) == both.filed.byte(address),
    )
}

/// How many of the windows of up to 12 bytes, from each of 16 addresses on, are equal in both spaces.
fn count_same(alloc: Global, both: &Both, first: u64) -> Option<u32> {
    let mut same = 0_u32;
    for offset in 0..16_u64 {
        for len in 0..=12_usize {
            if agree_in(alloc, both, first.wrapping_add(offset), len)? {
                same = same.saturating_add(1);
            }
        }
    }
    Some(same)
}

/// Moves an image of both spaces if the word is an image and a base; otherwise prints how many windows are equal that begin at the
/// address of the word, and up to 15 bytes after it.
pub(crate) fn print_edge<R: Print + AllocGlobal>(
    rt: &R,
    both: &mut Both,
    word: &str,
) -> Option<()> {
    if let Some((image, base)) = move_of(word) {
        let moved = both.mapped.move_image(image, base).is_ok();
        let other = both.filed.move_image(image, base).is_ok();
        return println!(rt; "moved {moved} {other}").ok();
    }
    let same = count_same(rt.alloc(), both, number_of(word)?)?;
    println!(rt; "{same} windows are the same").ok()
}

/// The bytes of an image of a space, if they are those at its addresses, read one by one.
pub(crate) fn whole<S: Space>(alloc: Global, space: &S, image: u16) -> Option<Vec<u8>> {
    let base = space.base_of(image)?;
    let mut bytes = vec![in alloc; 0; space.size_of(image)? as usize].ok()?;
    space.window(base, bytes.as_mut_slice()).ok()?;
    for (rva, byte) in bytes.iter().enumerate() {
        if space.byte(base.wrapping_add(rva as u64)) != Some(*byte) {
            return None;
        }
    }
    Some(bytes)
}

/// Whether a space refuses a window that is one byte longer than an image, and leaves its buffer as it was.
fn refuses_longer<S: Space>(alloc: Global, space: &S, image: u16) -> Option<bool> {
    let base = space.base_of(image)?;
    let len = (space.size_of(image)? as usize).checked_add(1)?;
    let mut longer = vec![in alloc; 0xee; len].ok()?;
    let is_refused = space.window(base, longer.as_mut_slice()).is_err();
    Some(is_refused && longer.iter().all(|byte| *byte == 0xee))
}

/// The size of an image, if its bytes are equal in both spaces.
fn same_len(alloc: Global, both: &Both, image: u16) -> Option<usize> {
    let bytes = whole(alloc, &both.mapped, image)?;
    let others = whole(alloc, &both.filed, image)?;
    if bytes == others {
        Some(bytes.len())
    } else {
        None
    }
}

/// Prints the base and the size of an image, if its bytes are equal in both spaces.
fn print_image<R: Print + AllocGlobal>(rt: &R, both: &Both, image: u16) -> Option<()> {
    let len = same_len(rt.alloc(), both, image)?;
    let is_refused = refuses_longer(rt.alloc(), &both.mapped, image)?
        && refuses_longer(rt.alloc(), &both.filed, image)?;
    let base = both.filed.base_of(image)?;
    println!(rt; "image {image} base {base:#x} size {len:#x} longer refused {is_refused}").ok()
}

/// Prints the number of images of both spaces, and whether any image past them has a size.
fn print_count<R: Print>(rt: &R, both: &Both) -> Option<()> {
    let count = both.mapped.image_count();
    if both.filed.image_count() != count {
        return None;
    }
    let mut has_size = false;
    for number in [count, 257, u16::MAX] {
        let sizes = (both.mapped.size_of(number), both.filed.size_of(number));
        has_size = has_size || sizes != (None, None);
    }
    println!(rt; "images {count} size past them {has_size}").ok()
}

/// Prints the base and the size of each image, if its window has the bytes that are read one by one, and the number of images.
pub(crate) fn print_whole<R: Print + AllocGlobal>(rt: &R, both: &Both) -> Option<()> {
    for image in 0..both.mapped.image_count() {
        print_image(rt, both, image)?;
    }
    print_count(rt, both)
}
