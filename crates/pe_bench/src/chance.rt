//! Pseudo-random numbers and names, the same for the same seed.

ghost use Rattle.std.specs.Prelude.{◌<◌};

use rand_core::{Rng, SeedableRng};
use rand_xoshiro::SplitMix64;

/// A source of numbers.
#[derive(Drop)]
pub(crate) struct Chance {
    numbers: SplitMix64,
}

impl Chance {
    /// The sequence of a seed.
    pub(crate) fn new(seed: u64) -> Chance {
        Chance {
            numbers: SplitMix64::seed_from_u64(seed),
        }
    }

    /// The next number.
    pub(crate) fn next(&mut self) -> u64 {
        self.numbers.next_u64()
    }

    /// Fills a slice with pseudo-random bytes.
    fn fill(&mut self, bytes: &mut [u8]) {
        self.numbers.fill_bytes(bytes);
    }

    /// The next number below a limit; 0 if the limit is 0.
    pub(crate) fn below(&mut self, limit: u32) -> u32 {
        let high = (self.next() >> 32) * u64::from(limit) >> 32;
        high as u32
    }
}

/// After how many bytes pseudo-random code repeats; no library reads the code of a section.
const BLOCK: usize = 512;

/// Appends pseudo-random bytes.
pub(crate) fn push_bytes(bytes: &mut Vec<u8>, chance: &mut Chance, count: usize) -> Option<()> {
    let mut block = [0; BLOCK];
    chance.fill(&mut block);
    bytes.reserve(count).ok()?;
    for _ in 0..count / BLOCK {
        bytes.extend_from_slice(&block).ok()?;
    }
    bytes.extend_from_slice(&block[..count % BLOCK]).ok()
}

/// The letters at the beginning of names.
const LETTERS: &[u8; 16] = b"ABCDEFGHILMNOPRS";

/// The words from which a name takes a part.
const WORDS: &[u8; 128] =
    b"CreateWindowFileExGetProcessTokenInformationQueryObjectThreadPoolBufferHandleSetFirstNextNamedPipeMessageSectionRegistryKeyValue";

/// A letter at the beginning of a name.
fn letter(number: u32, shift: u32) -> u8
    requires { shift < 32 }
{
    LETTERS[(number >> shift) as usize % 16]
}

/// Appends the name of an export of a module, of 10 to 41 bytes. The names of a module are in the order of their numbers, which
/// are below 65,536.
pub(crate) fn push_name(text: &mut Vec<u8>, seed: u64, module: u32, number: u32) -> Option<()> {
    let mixed = (seed ^ (u64::from(module) << 32) ^ u64::from(number)).wrapping_mul(
        0x9e37_79b9_7f4a_7c15,
    );
    let start = (mixed >> 58) as usize;
    let len = 6 + (mixed >> 40) as usize % 32;
    let beginning = [
        letter(number, 12),
        letter(number, 8),
        letter(number, 4),
        letter(number, 0),
    ];
    text.extend_from_slice(&beginning).ok()?;
    let words: &[u8] = WORDS;
    text.extend_from_slice(&words[start..start + len]).ok()
}
