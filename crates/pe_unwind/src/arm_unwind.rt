//! `ArmUnwind`: the unwind record of a function of an ARM64 image.

ghost use Rattle.std.specs.Prelude.{◌≡◌, ◌*◌, ◌<◌, ◌^◌};
ghost use Rattle.pe_layout.specs.Layout.{image_of};
ghost use Rattle.pe_unwind.specs.ArmRecord.{arm_code_at, arm_handler_of, arm_unwind_at, codes_start, record_of};

use crate::information::u32_at;
use pe_layout::Layout;

/// The unwind record of a function of an ARM64 image (ARM64 exception handling, .xdata records).
#[derive(Clone, Copy, Debug, PartialEq, Eq)]
pub struct ArmUnwind {
    /// Its RVA.
    pub rva: u32,
    /// The length of the function in bytes.
    pub function_length: u32,
    /// The version of its format: 0 is known.
    pub version: u8,
    /// Whether a handler and its data follow the codes.
    pub has_data: bool,
    /// Whether the function has a single epilog, which needs no word of its own.
    pub has_single_epilog: bool,
    /// Whether its header has a second word with the counts.
    pub is_extended: bool,
    /// How many epilogs the function has; if it has a single one, the index of that one's first code.
    pub epilog_count: u16,
    /// The size of its codes in words of 4 bytes.
    pub code_words: u8,
}

/// The record of a header's words, of which the second counts only if the first has no counts.
fn record_of(rva: u32, first: u32, second: u32) -> ArmUnwind
    ensures { result ≡ record_of rva first second }
{
    let is_extended = first >> 22 == 0;
    let (epilog_count, code_words) = if is_extended {
        ((second % 0x1_0000) as u16, (second >> 16 & 0xff) as u8)
    } else {
        ((first >> 22 & 0x1f) as u16, (first >> 27) as u8)
    };
    ArmUnwind {
        rva,
        function_length: 4 * (first % 0x4_0000),
        version: (first >> 18 & 3) as u8,
        has_data: first >> 20 & 1 == 1,
        has_single_epilog: first >> 21 & 1 == 1,
        is_extended,
        epilog_count,
        code_words,
    }
}

impl ArmUnwind {
    /// The record at an RVA, or `None` if its header is not entirely in the image. Whether the image is of ARM64 is not asked.
    pub fn at(layout: &Layout, rva: u32) -> Option<ArmUnwind>
        ensures { result ≡ arm_unwind_at (image_of layout.now) rva }
    {
        let first = layout.u32_at(rva)?;
        if first >> 22 != 0 {
            return Some(record_of(rva, first, 0));
        }
        let second = u32_at(layout, u64::from(rva) + 4)?;
        Some(record_of(rva, first, second))
    }

    /// The RVA of its codes.
    fn codes_start(&self) -> u64
        ensures value { result ≡ codes_start self.now }
        ensures small { result < 2 ^ 33 }
    {
        let header = if self.is_extended { 8 } else { 4 };
        let epilogs = if self.has_single_epilog {
            0
        } else {
            4 * u64::from(self.epilog_count)
        };
        u64::from(self.rva) + header + epilogs
    }

    /// How many bytes of codes it has: at most 1,020, a multiple of 4.
    pub fn code_count(&self) -> u32
        ensures { result ≡ 4 * self.now.code_words }
    {
        4 * u32::from(self.code_words)
    }

    /// Byte `index` of its codes, or `None` if it has fewer, or if its codes are not all in the image.
    pub fn code(&self, layout: &Layout, index: u32) -> Option<u8>
        ensures { result ≡ arm_code_at (image_of layout.now) self.now index }
    {
        let start = self.codes_start();
        let end = start + u64::from(self.code_count());
        if index >= self.code_count() || end > u64::from(layout.size()) {
            return None;
        }
        layout.byte((start + u64::from(index)) as u32)
    }

    /// The RVA of the function's handler if it has one. `None` also if its 4 bytes are not all in the image.
    pub fn handler(&self, layout: &Layout) -> Option<u32>
        ensures { result ≡ arm_handler_of (image_of layout.now) self.now }
    {
        if !self.has_data {
            return None;
        }
        u32_at(layout, self.codes_start() + u64::from(self.code_count()))
    }
}
