//! `UnwindInformation`: the unwind information of a function of an AMD64 image.

ghost use Rattle.std.specs.Prelude.{◌≡◌, ◌+◌, ◌≤◌, ◌<◌, ◌^◌, SomeIff};
ghost use Rattle.pe_view.specs.Faults.{first_standing};
ghost use Rattle.pe_layout.specs.Image.{number_at};
ghost use Rattle.pe_layout.specs.Layout.{image_of};
ghost use Rattle.pe_unwind.specs.Information.{after_codes, chained_of, function_at, handler_of, has_known_version, information_at, information_tests, is_chained, is_handled};
ghost use Rattle.pe_unwind.specs.Chains.{after_chained};
ghost use Rattle.pe_unwind.specs.Operations.{operations_of};
ghost use Rattle.pe_unwind.specs.Left.{operations_left};

use crate::operations::Operations;
use pe_layout::Layout;
use pe_records::Function;
use pe_view::{Fault, Place};

/// The flag CHAININFO: the unwind information goes on with that of another function.
const CHAININFO: u8 = 4;

/// The unwind information of a function of an AMD64 image (x64 exception handling, struct UNWIND_INFO).
#[derive(Clone, Copy, Debug, PartialEq, Eq)]
pub struct UnwindInformation {
    /// Its RVA.
    pub rva: u32,
    /// The version of its format: 1 and 2 are known.
    pub version: u8,
    /// Its flags: 1 EHANDLER, a handler is called when an exception is dispatched; 2 UHANDLER, one is called when the stack is unwound;
    /// 4 CHAININFO, it goes on with that of another function.
    pub flags: u8,
    /// The size of the function's prologue in bytes.
    pub prologue: u8,
    /// How many slots its unwind codes have.
    pub code_count: u8,
    /// The number of the frame register; 0 if the function has none.
    pub frame_register: u8,
    /// How far the frame register is above the stack pointer that it was set from, in bytes: a multiple of 16.
    pub frame_offset: u8,
}

/// The number in the 4 bytes at an RVA, or `None` if they pass the end of the image.
pub(crate) fn u32_at(layout: &Layout, rva: u64) -> Option<u32>
    ensures { SomeIff result (rva + 4 ≤ (image_of layout.now).size) (number_at 4 (image_of layout.now) rva) }
{
    if rva >= u64::from(layout.size()) {
        return None;
    }
    layout.u32_at(rva as u32)
}

/// The function record at an RVA, or `None` if it passes the end of the image.
pub(crate) fn function_at(layout: &Layout, rva: u64) -> Option<Function>
    requires { rva < 2 ^ 63 }
    ensures { result ≡ function_at (image_of layout.now) rva }
{
    Some(Function {
        begin: u32_at(layout, rva)?,
        end: u32_at(layout, rva + 4)?,
        unwind: u32_at(layout, rva + 8)?,
    })
}

impl UnwindInformation {
    /// The unwind information at an RVA, or `None` if its first 4 bytes are not all in the image.
    pub fn at(layout: &Layout, rva: u32) -> Option<UnwindInformation>
        ensures { result ≡ information_at (image_of layout.now) rva }
    {
        let mut bytes = [0; 4];
        if !layout.fill(rva, &mut bytes) {
            return None;
        }
        let [form, prologue, code_count, frame] = bytes;
        Some(UnwindInformation {
            rva,
            version: form % 8,
            flags: form / 8,
            prologue,
            code_count,
            frame_register: frame % 16,
            frame_offset: frame / 16 * 16,
        })
    }

    /// Whether its version is 1 or 2. Of another version neither codes nor what follows them are read.
    pub fn has_known_version(&self) -> bool
        ensures { result ≡ has_known_version self.now }
    {
        self.version == 1 || self.version == 2
    }

    /// Its finding, if it has one: 117 if its version is not known.
    pub fn finding(&self, layout: &Layout) -> Option<Fault>
        ensures { result ≡ first_standing (information_tests (image_of layout.now) self.now) }
    {
        if self.has_known_version() {
            return None;
        }
        Some(Fault {
            number: 117,
            image: layout.image(),
            place: Place::Rva(self.rva),
        })
    }

    /// Whether the flag CHAININFO is set: a function record follows its codes.
    fn is_chained(&self) -> bool
        ensures { result ≡ is_chained self.now }
    {
        self.has_known_version() && self.flags / CHAININFO % 2 == 1
    }

    /// Whether the RVA of a handler follows its codes.
    fn is_handled(&self) -> bool
        ensures { result ≡ is_handled self.now }
    {
        self.has_known_version() && self.flags / CHAININFO % 2 != 1 && self.flags % 4 != 0
    }

    /// The RVA after its codes, whose slots are padded to an even count.
    fn after_codes(&self) -> u64
        ensures value { result ≡ after_codes self.now }
        ensures small { result < 2 ^ 33 }
    {
        let count = u64::from(self.code_count);
        u64::from(self.rva) + 4 + 2 * (count + count % 2)
    }

    /// The RVA of the function's handler if it has one: EHANDLER or UHANDLER is set, and CHAININFO is not. `None` also if its 4 bytes
    /// are not all in the image.
    pub fn handler(&self, layout: &Layout) -> Option<u32>
        ensures { result ≡ handler_of (image_of layout.now) self.now }
    {
        if !self.is_handled() {
            return None;
        }
        u32_at(layout, self.after_codes())
    }

    /// Where the record of the function is that it is chained to, if CHAININFO is set.
    pub(crate) fn link(&self) -> Option<u64>
        ensures { result ≡ after_chained self.now }
    {
        self.is_chained().then_some(self.after_codes())
    }

    /// The function whose unwind information it goes on with, if CHAININFO is set. `None` also if the 12 bytes of its record are not all
    /// in the image. [`Chain`](crate::Chain) goes on from there.
    pub fn chained(&self, layout: &Layout) -> Option<Function>
        ensures { result ≡ chained_of (image_of layout.now) self.now }
    {
        if !self.is_chained() {
            return None;
        }
        function_at(layout, self.after_codes())
    }

    /// Its operations, in the order of their slots: at most 255. Unwind information of another version than 1 and 2 has none.
    pub fn operations<'l, 'a>(&self, layout: &'l Layout<'a>) -> Operations<'l, 'a>
        ensures { operations_left result ≡ operations_of (image_of layout.now) self.now }
    {
        if !self.has_known_version() || !layout.contains(self.rva, 4) {
            return Operations {
                layout,
                version: self.version,
                left: 0,
                at: 0,
            };
        }
        Operations {
            layout,
            version: self.version,
            left: u32::from(self.code_count),
            at: self.rva + 4,
        }
    }
}
