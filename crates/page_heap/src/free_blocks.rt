//! The freed blocks of one size, and how many there are.

ghost use Rattle.std.specs.Prelude.{◌≡◌, ◌+◌, ◌%◌, ◌≤◌, ◌↔◌, min, None, MatchOption};

use crate::bytes::Bytes;
use crate::chain::Chain;

/// The freed blocks of one size.
#[derive(Drop)]
pub(crate) struct FreeBlocks {
    size: usize,
    count: usize,
    chain: Chain,
    ghost sized: { chain.size ≡ size },
    ghost counted: { chain.count ≡ count },
    ghost units: { (16 ≤ size) × (size % 16 ≡ 0) },
}

impl FreeBlocks {
    /// No blocks of this size.
    pub(crate) fn new(size: usize) -> FreeBlocks
        requires { (16 ≤ size) × (size % 16 ≡ 0) }
        ensures { (result.size ≡ size) × (result.count ≡ 0) }
    {
        FreeBlocks {
            size,
            count: 0,
            chain: Chain::new(size),
        }
    }

    /// The size of each block.
    pub(crate) fn size(&self) -> usize
        ensures { result ≡ self.now.size }
    {
        self.size
    }

    /// The block that was freed last.
    pub(crate) fn pop(self) -> (Option<Bytes>, FreeBlocks)
        ensures taken { MatchOption result.0 (result.1 ≡ self) (λ b. (b.size ≡ self.size) × (result.1.count + 1 ≡ self.count)) }
        ensures empty { result.0 ≡ None ↔ (self.count ≡ 0) }
        ensures size { result.1.size ≡ self.size }
    {
        let FreeBlocks { size, count, chain } = self;
        if count == 0 {
            return (None, FreeBlocks { size, count, chain });
        }
        let (block, chain) = chain.pop();
        let count = count - 1;
        (Some(block), FreeBlocks { size, count, chain })
    }

    /// These blocks and this one, which is the next to be taken. If there are as many as a number counts, it is not kept.
    pub(crate) fn push(self, block: Bytes) -> FreeBlocks
        requires { block.size ≡ self.size }
        ensures size { result.size ≡ self.size }
        ensures count { result.count ≡ min (self.count + 1) usize.MAX }
    {
        let FreeBlocks { size, count, chain } = self;
        if count == usize::MAX {
            return FreeBlocks { size, count, chain };
        }
        let chain = chain.push(block);
        let count = count + 1;
        FreeBlocks { size, count, chain }
    }
}
