//! The images of a set that hold one of some addresses.

use crate::at_image::AtImage;
use pe_reach::ViewFile;
use pe_space::{SetEntry, Space};
use std::alloc::{AllocError, Allocator};

/// The images of a set by their numbers, as far as they are read.
pub(crate) type Images<'a, A> = Vec<Option<AtImage<'a, A>>, A>;

/// Whether an image holds one of some addresses.
fn is_asked<S: Space>(space: &S, number: usize, addresses: &[u64]) -> bool {
    for address in addresses {
        if matches!(space.image_at(*address, 1), Ok(holder) if usize::from(holder) == number) {
            return true;
        }
    }
    false
}

/// The image of a file, unless it cannot be laid out.
fn read_image<'a, A: Allocator + Copy>(
    alloc: A,
    file: &'a [u8],
) -> Result<Option<AtImage<'a, A>>, AllocError> {
    let file = ViewFile::whole(file);
    match file.lay_out() {
        Ok(layout) => Ok(Some(AtImage::new(alloc, file, layout)?)),
        Err(_) => Ok(None),
    }
}

/// Reads each image of a set that holds one of some addresses. It takes the time of these images, and of the addresses for each image of
/// the set, which has at most 256.
pub(crate) fn read_images<'a, A: Allocator + Copy, S: Space>(
    alloc: A,
    space: &S,
    set: &[SetEntry<'a>],
    addresses: &[u64],
) -> Result<Images<'a, A>, AllocError> {
    let mut images = Vec::new(alloc);
    for (number, entry) in set.iter().enumerate() {
        let image = match is_asked(space, number, addresses) {
            true => read_image(alloc, entry.file)?,
            false => None,
        };
        images.push(image)?;
    }
    Ok(images)
}
