//! `ImageHandle`: an opened image that a C program holds, or none if the handle is closed.

ghost use Rattle.std.specs.Prelude.{◌≡◌, true, false, None, Some, is_some, is_ok, option_map};
ghost use Rattle.std.specs.declared.option.Option.{Option};
ghost use Rattle.pe_opened.specs.Held.{held, image_coded, file_in, Owner};

use crate::box_parts::BoxParts;
use crate::opened::OpenedImage;
use std::alloc::{AllocError, Global};
use std::marker::Model;
use std::sync::Arc;

/// An opened image, or none. In C it is `struct { void *state; bool is_open; }`; all zeros are a closed handle.
///
/// The handle is one of the owners of the image: a bytewise copy of it is no second owner, but [`share`] makes one. Dropping the
/// last owner frees the memory.
#[repr(C)]
pub struct ImageHandle {
    state: *mut u8,
    /// Whether there is an image.
    pub is_open: bool,
    alloc: Global,
    /// One of the owners of the image.
    pub ghost image: { Option Owner } by { image_coded },
}

impl Model for ImageHandle {
    ghost also_owns = { λ handle. held handle.alloc handle.is_open handle.state handle.image };
}

impl ImageHandle {
    /// A handle without an image. Allocates nothing.
    pub fn closed(alloc: Global) -> ImageHandle
        ensures none { result.image ≡ None }
        ensures shut { result.is_open ≡ false }
    {
        ImageHandle {
            state: std::ptr::null_mut(),
            is_open: false,
            alloc,
        }
    }

    /// The handle that has the image of a box in parts.
    fn hold(parts: BoxParts<Arc<OpenedImage<'static>>, Global>) -> ImageHandle
        ensures image { result.image ≡ Some parts.entry.value }
        ensures open { result.is_open ≡ true }
    {
        let BoxParts { address, alloc } = parts;
        ImageHandle {
            state: address as *mut u8,
            is_open: true,
            alloc,
        }
    }

    /// The parts of the box of an open handle, or `None` if it is closed.
    fn release(self) -> Option<BoxParts<Arc<OpenedImage<'static>>, Global>>
        ensures image { option_map (λ parts. parts.value) result ≡ self.image }
        ensures open { is_some result ≡ self.is_open }
    {
        let ImageHandle {
            state,
            is_open,
            alloc,
        } = self;
        if is_open {
            Some(BoxParts {
                address: state as *mut Arc<OpenedImage<'static>>,
                alloc,
            })
        } else {
            None
        }
    }

    /// A handle that has this image. Allocates nothing.
    pub fn of(image: Box<Arc<OpenedImage<'static>>>) -> ImageHandle
        ensures image { result.image ≡ Some image.entry.value }
        ensures open { result.is_open ≡ true }
    {
        ImageHandle::hold(BoxParts::of(image))
    }

    /// The image of the handle, or `None` if it is closed.
    pub fn take(self) -> Option<Box<Arc<OpenedImage<'static>>>>
        ensures image { option_map (λ image. image.value) result ≡ self.image }
        ensures open { is_some result ≡ self.is_open }
    {
        match self.release() {
            Some(parts) => Some(parts.into_box()),
            None => None,
        }
    }
}

/// Makes `other` a second handle of an image, after closing what it held: the image is freed with the last of its handles. If
/// `image` is closed, so is `other`. If an allocation fails, `other` stays closed; for a closed `image` nothing is allocated.
pub fn share(
    alloc: Global,
    image: &mut ImageHandle,
    other: &mut ImageHandle,
) -> Result<(), AllocError>
    ensures kept { file_in image.new.image ≡ file_in image.old.image }
    ensures same { is_ok result ≡ true → file_in other.new.image ≡ file_in image.old.image }
    ensures none { is_ok result ≡ false → other.new.image ≡ None }
    ensures open_kept { image.new.is_open ≡ image.old.is_open }
    ensures open { is_ok result ≡ true → other.new.is_open ≡ image.old.is_open }
    ensures shut { is_ok result ≡ false → other.new.is_open ≡ false }
    ensures memory { is_ok result ≡ false → image.old.is_open ≡ true }
{
    *other = ImageHandle::closed(alloc);
    let Some(owner) = std::mem::replace(image, ImageHandle::closed(alloc)).take() else {
        return Ok(());
    };
    let copied = Arc::try_clone(&owner);
    *image = ImageHandle::of(owner);
    *other = ImageHandle::of(Box::new(alloc, copied?)?);
    Ok(())
}

impl Drop for ImageHandle {
    fn drop(self) {
        match self.take() {
            Some(image) => drop(image),
            None => {}
        }
    }
}

// many threads may read an image at once, and any of them may drop its last owner
unsafe impl Send for ImageHandle {}
