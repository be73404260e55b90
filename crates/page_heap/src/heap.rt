//! The allocator.

ghost use Rattle.std.specs.Prelude.{◌≡◌, ◌%◌, ◌^◌, ◌<◌, ◌≤◌, IfSome};
ghost use Rattle.page_heap.specs.Class.{block_size, class_size};
ghost use Rattle.page_heap.specs.Ownership.{block_token};

use crate::bytes::Bytes;
use crate::class::{CLASSES, UNIT, class_of, class_size};
use crate::free_blocks::FreeBlocks;
use crate::memory::Memory;
use std::alloc::{AllocError, Allocator};
use std::array;
use std::cell::Cell;

/// An allocator over lent memory, for one thread. A `&PageHeap` is handed to collections.
#[derive(Drop)]
pub struct PageHeap {
    rest: Cell<Option<Memory>>,
    free: [Cell<FreeBlocks>; CLASSES],
}

impl PageHeap {
    /// An allocator that has handed out nothing.
    pub fn new(memory: Memory) -> PageHeap {
        PageHeap {
            rest: Cell::new(Some(memory)),
            free: array::from_fn(|_| Cell::new(FreeBlocks::new(UNIT))),
        }
    }

    /// A block of this class from the memory that is left.
    fn cut(&self, size: usize) -> Option<Bytes>
        requires { size % 16 ≡ 0 }
        ensures { IfSome result (λ b. b.size ≡ size) }
    {
        let rest = self.rest.replace(None)?;
        if rest.size() < size {
            self.rest.set(Some(rest));
            return None;
        }
        let (block, rest) = rest.split(size);
        self.rest.set(Some(rest));
        Some(block)
    }

    /// The block of this class that was freed last.
    fn reuse(&self, class: usize) -> Option<Bytes>
        requires { class < CLASSES }
        ensures { IfSome result (λ b. b.size ≡ class_size class) }
    {
        let size = class_size(class);
        let blocks = self.free[class].replace(FreeBlocks::new(size));
        if blocks.size() != size {
            return None;
        }
        let (block, blocks) = blocks.pop();
        self.free[class].set(blocks);
        block
    }

    /// A block for a request.
    fn take(&self, size: usize, align: usize) -> Option<Bytes>
        ensures { IfSome result (λ b. (b.size ≡ block_size size) × (size < 2 ^ 63) × (align ≤ 16)) }
    {
        if align > UNIT || size > isize::MAX as usize {
            return None;
        }
        let class = class_of(size);
        if class >= CLASSES {
            return None;
        }
        match self.reuse(class) {
            Some(block) => Some(block),
            None => self.cut(class_size(class)),
        }
    }

    /// Keeps the block of a request of `size` bytes for the next of its class.
    fn give(&self, block: Bytes, size: usize)
        requires { (block.size ≡ block_size size) × (size < 2 ^ 63) }
    {
        let class = class_of(size);
        if class >= CLASSES {
            return;
        }
        let size = class_size(class);
        let blocks = self.free[class].replace(FreeBlocks::new(size));
        if blocks.size() == size {
            self.free[class].set(blocks.push(block));
        } else {
            self.free[class].set(FreeBlocks::new(size).push(block));
        }
    }
}

unsafe impl Allocator for PageHeap {
    ghost dealloc_token = { λ _. block_token };

    fn allocate(&self, size: usize, align: usize) -> Result<*mut u8, AllocError> {
        match self.take(size, align) {
            Some(Bytes { ptr }) => Ok(ptr),
            None => Err(AllocError),
        }
    }

    unsafe fn deallocate(&self, ptr: *mut u8, size: usize, _align: usize) {
        self.give(Bytes { ptr }, size);
    }
}
