//! The sizes of a synthetic module, and its number in a set.

/// The seed of a round; no other round has files with the same names and bytes.
pub(crate) fn round_seed(seed: u64, round: u32) -> u64 {
    seed ^ u64::from(round).wrapping_mul(0xd134_2543_de82_ef95)
}

/// A module of a set.
#[derive(Clone, Copy)]
pub(crate) struct Module {
    /// The seed of its set.
    pub(crate) seed: u64,
    /// Its number in the set.
    pub(crate) number: u32,
    /// How many modules the set has.
    pub(crate) count: u32,
}

impl Module {
    /// The number of the module `steps` after it, where the first follows the last.
    pub(crate) fn next(self, steps: u32) -> u32 {
        let sum = u64::from(self.number) + u64::from(steps);
        sum.checked_rem(u64::from(self.count))
            .map_or(0, |number| number as u32)
    }

    /// A seed that no other module of the set has.
    pub(crate) fn own_seed(self) -> u64 {
        self.seed ^ (u64::from(self.number) << 40) ^ 0x5eed
    }
}

/// The sizes of a module's parts.
#[derive(Clone, Copy)]
pub(crate) struct Shape {
    /// Whether it is PE32+.
    pub(crate) is_wide: bool,
    /// The RVA of its code.
    pub(crate) code_rva: u32,
    /// The size of its code, and of its data, in bytes.
    pub(crate) code: u32,
    /// How many exports it has.
    pub(crate) exports: u32,
    /// One export in this many is a forwarder to the next module; 0 means none.
    pub(crate) forwarders: u32,
    /// How many of the modules after it it imports from.
    pub(crate) imported: u32,
    /// How many exports of each of these it imports.
    pub(crate) imports: u32,
    /// Whether its names are ends of one string, its exports forwarders to the next one, and its base relocations have a block
    /// each, the last page first.
    pub(crate) is_awkward: bool,
    /// How many base relocations it has: fewer than a sixteenth of the bytes of its code.
    pub(crate) fixups: u32,
}

impl Shape {
    /// Whether the export with this number is a forwarder. One module in four has none, so that every search ends.
    pub(crate) fn is_forwarder(self, module: Module, number: u32) -> bool {
        self.forwarders != 0 && module.number % 4 != 3 && number % self.forwarders == 1
    }
}
