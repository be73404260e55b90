//! The sizes of blocks: 16 bytes, and each twice the one before.

ghost use Rattle.std.specs.Prelude.{◌≡◌, ◌^◌, ◌<◌};
ghost use Rattle.page_heap.specs.Class.{class_of, class_size};

/// The size of the smallest block, and the alignment of all.
pub(crate) const UNIT: usize = 16;

/// How many sizes there are: the largest block has 2^43 bytes, more than any engine's memory.
pub(crate) const CLASSES: usize = 40;

/// The number of the smallest size that has room for `size` bytes.
pub(crate) fn class_of(size: usize) -> usize
    requires { size < 2 ^ 63 }
    ensures { result ≡ class_of size }
{
    let last = size.max(UNIT) - 1;
    60 - last.leading_zeros() as usize
}

/// The size with this number.
pub(crate) fn class_size(class: usize) -> usize
    requires { class < CLASSES }
    ensures { result ≡ class_size class }
{
    UNIT << class
}
