//! `with_image!` and `with_space!`: lend a call the image or the space of an open handle.

/// Evaluates `$ask` with `$opened`, the image of an open handle, and returns the status that it gives; the handle keeps the image.
/// If the handle is closed, `$ask` is not evaluated, and the status is 6. It is a macro since `$ask` fills records that borrow for
/// `'static`, which no closure of a generic lifetime may do.
macro_rules! with_image {
    ($alloc:expr, $image:expr, |$opened:ident| $ask:expr) => {
        match std::mem::replace($image, ImageHandle::closed($alloc)).take() {
            Some(held) => {
                let $opened = &held;
                let answer = $ask;
                *$image = ImageHandle::of(held);
                answer
            }
            None => pe_records_c::status::CLOSED,
        }
    };
}

/// Evaluates `$ask` with `$opened`, the space of an open handle, to read, and returns the status that it gives; the handle keeps the
/// space. If the handle is closed, `$ask` is not evaluated, and the status is 6. It is a macro since no closure may be called through
/// a bound that names a space which borrows for `'static`.
macro_rules! with_space {
    ($alloc:expr, $space:expr, |$opened:ident| $ask:expr) => {
        match std::mem::replace($space, Handle::closed($alloc)).take() {
            Some(owner) => {
                let $opened = owner.space();
                let answer = $ask;
                *$space = Handle::of(owner);
                answer
            }
            None => pe_records_c::status::CLOSED,
        }
    };
}

pub(crate) use with_image;
pub(crate) use with_space;
