//! `ArmFunction`: a function of an ARM64 or ARMNT image, as its exception table has it.

ghost use Rattle.std.proofs.Common.{lit≤};
ghost use Rattle.std.specs.Prelude.{◌≡◌};
ghost use Rattle.pe_view.specs.Standing.{Adds};
ghost use Rattle.pe_layout.specs.Layout.{image_of};
ghost use Rattle.pe_view.specs.View.{bytes_of};
ghost use Rattle.pe_records.specs.ArmFunctions.{arm_function_at, arm_function_tests, begins_early, is_lost};

use crate::finding::add;
use crate::record::Record;
use pe_head::directory_index;
use pe_layout::Layout;
use pe_view::{Fault, Place, View};
use std::alloc::{AllocError, Allocator};

/// A function of the exception table of an ARM64 or ARMNT image ("PE Format", The .pdata Section).
#[derive(Clone, Copy, Debug, PartialEq, Eq)]
pub struct ArmFunction {
    /// The RVA of its first byte; on ARMNT with 1 added, as for all Thumb code.
    pub begin: u32,
    /// The RVA of its unwind record if the low two bits are 0; otherwise that record, packed.
    pub unwind: u32,
}

impl Record for ArmFunction {
    ghost LEN = { 8 };

    ghost DIRECTORY = { 3 };

    ghost FINDING = { 111 };

    ghost record_at = { arm_function_at };

    ghost tests = { arm_function_tests };

    ghost some = { lit≤ tt };

    ghost low = { lit≤ tt };

    const LEN: u32 = 8;

    const DIRECTORY: usize = directory_index::EXCEPTION;

    const FINDING: u16 = 111;

    fn read(table: View, offset: u64) -> Self {
        ArmFunction {
            begin: table.u32_at(offset).unwrap(),
            unwind: table.u32_at(offset + 4).unwrap(),
        }
    }

    fn find<A: Allocator>(
        &self,
        findings: &mut Vec<Fault, A>,
        layout: &Layout,
        _file: View,
        before: Option<Self>,
        rva: u32,
    ) -> Result<(), AllocError>
        ensures { Adds (arm_function_tests (image_of layout.now) (bytes_of _file.entry) before self.now rva) findings.old.items findings.new.items result }
    {
        let rules = [
            (114, self.begin >= layout.size()),
            (115, self.is_lost(layout)),
            (116, self.begins_before(before)),
        ];
        add(findings, layout.image(), Place::Rva(rva), &rules)
    }
}

impl ArmFunction {
    /// Whether it has an unwind record that is not in the image.
    fn is_lost(&self, layout: &Layout) -> bool
        ensures { result ≡ is_lost (image_of layout.now) self.now }
    {
        self.unwind % 4 == 0 && !layout.contains(self.unwind, 4)
    }

    /// Whether it begins before the function before it does.
    fn begins_before(&self, before: Option<ArmFunction>) -> bool
        ensures { result ≡ begins_early before self.now }
    {
        match before {
            None => false,
            Some(function) => self.begin < function.begin,
        }
    }
}
