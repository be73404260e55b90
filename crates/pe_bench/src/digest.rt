//! `Digest`: everything that a workload returns, as one number.

/// A number that each result changes. It distinguishes results that differ by chance, not ones made to collide.
#[derive(Clone, Copy)]
pub(crate) struct Digest {
    state: u64,
}

/// A state with a number mixed in.
fn mix(state: u64, number: u64) -> u64 {
    let mixed = (state ^ number).wrapping_mul(0x9e37_79b9_7f4a_7c15);
    mixed ^ (mixed >> 29)
}

/// Sums of the words of blocks, and sums of these sums, which depend on the order of the blocks.
#[derive(Drop)]
struct Sums {
    words: [u64; 8],
    sums: [u64; 8],
}

/// Adds the eight words of a block, each to sums of its own.
fn add_block(sums: &mut Sums, block: &[u8; 64]) {
    let (words, _) = block.as_chunks::<8>();
    for ((lane, sum), word) in sums.words.iter_mut().zip(&mut sums.sums).zip(words) {
        *lane = lane.wrapping_add(u64::from_le_bytes(*word));
        *sum = sum.wrapping_add(*lane);
    }
}

impl Digest {
    /// The digest of no results.
    pub(crate) fn new() -> Digest {
        Digest { state: 0 }
    }

    /// The number.
    pub(crate) fn value(self) -> u64 {
        self.state
    }

    /// Mixes in a number.
    pub(crate) fn number(&mut self, number: u64) {
        self.state = mix(self.state, number);
    }

    /// Mixes in blocks of 64 bytes by sums, so that this takes little time next to the work that is measured.
    fn blocks(&mut self, blocks: &[[u8; 64]]) {
        let mut sums = Sums {
            words: [0; 8],
            sums: [0; 8],
        };
        for block in blocks {
            add_block(&mut sums, block);
        }
        for (word, sum) in sums.words.iter().zip(&sums.sums) {
            self.number(*word);
            self.number(*sum);
        }
    }

    /// Mixes in bytes and their number.
    pub(crate) fn bytes(&mut self, bytes: &[u8]) {
        let (blocks, rest) = bytes.as_chunks::<64>();
        if !blocks.is_empty() {
            self.blocks(blocks);
        }
        let (words, rest) = rest.as_chunks::<8>();
        for word in words {
            self.number(u64::from_le_bytes(*word));
        }
        for byte in rest {
            self.number(u64::from(*byte));
        }
        self.number(bytes.len() as u64);
    }
}
