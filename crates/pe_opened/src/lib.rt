//! An image opened once: its file is checked by one call, which keeps the contents of its tables for the look-ups that follow.
//!
//! [`OpenedImage::open`] reads a whole image; each other call returns what it would if it read the file again. [`open_shared`]
//! opens one for several owners. A program in another language holds such an owner as an [`ImageHandle`]: a pointer, and a flag
//! that says whether there is an image. [`share`] makes another handle of the same image, which another thread may use.
//!
//! ```text
//! let mut handle = ImageHandle::of(open_shared(alloc, file)?);
//! if let Some(image) = std::mem::replace(&mut handle, ImageHandle::closed(alloc)).take() {
//!     let first = image.by_name(b"CreateFileW");
//!     let second = image.by_ordinal(12);
//!     handle = ImageHandle::of(image);
//! }
//! ```
#![tactic(auto)]

mod box_parts;
mod handle;
mod opened;
mod opening;

pub use handle::{ImageHandle, share};
pub use opened::OpenedImage;
pub use opening::open_shared;
