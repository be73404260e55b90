//! `Function`: a function of an AMD64 image, as its exception table has it.

ghost use Rattle.std.proofs.Common.{lit≤};
ghost use Rattle.std.specs.Prelude.{◌≡◌};
ghost use Rattle.pe_view.specs.Standing.{Adds};
ghost use Rattle.pe_layout.specs.Layout.{image_of};
ghost use Rattle.pe_view.specs.View.{bytes_of};
ghost use Rattle.pe_records.specs.Functions.{begins_early, function_at, function_tests, is_lost};

use crate::finding::add;
use crate::record::Record;
use pe_head::directory_index;
use pe_layout::Layout;
use pe_view::{Fault, Place, View};
use std::alloc::{AllocError, Allocator};

/// A function of the exception table of an AMD64 image ("PE Format", The .pdata Section).
#[derive(Clone, Copy, Debug, PartialEq, Eq)]
pub struct Function {
    /// The RVA of its first byte.
    pub begin: u32,
    /// The RVA after its last byte.
    pub end: u32,
    /// The RVA of its unwind information; if it is odd, the RVA after the first byte of another function of the table, whose unwind
    /// information it has.
    pub unwind: u32,
}

impl Record for Function {
    ghost LEN = { 12 };

    ghost DIRECTORY = { 3 };

    ghost FINDING = { 111 };

    ghost record_at = { function_at };

    ghost tests = { function_tests };

    ghost some = { lit≤ tt };

    ghost low = { lit≤ tt };

    const LEN: u32 = 12;

    const DIRECTORY: usize = directory_index::EXCEPTION;

    const FINDING: u16 = 111;

    fn read(table: View, offset: u64) -> Self {
        Function {
            begin: table.u32_at(offset).unwrap(),
            end: table.u32_at(offset + 4).unwrap(),
            unwind: table.u32_at(offset + 8).unwrap(),
        }
    }

    fn find<A: Allocator>(
        &self,
        findings: &mut Vec<Fault, A>,
        layout: &Layout,
        _file: View,
        before: Option<Self>,
        rva: u32,
    ) -> Result<(), AllocError>
        ensures { Adds (function_tests (image_of layout.now) (bytes_of _file.entry) before self.now rva) findings.old.items findings.new.items result }
    {
        let rules = [
            (113, self.end < self.begin),
            (114, self.end > layout.size()),
            (115, self.is_lost(layout)),
            (116, self.begins_before(before)),
        ];
        add(findings, layout.image(), Place::Rva(rva), &rules)
    }
}

impl Function {
    /// Whether its unwind information is not in the image.
    fn is_lost(&self, layout: &Layout) -> bool
        ensures { result ≡ is_lost (image_of layout.now) self.now }
    {
        let information = self.unwind - self.unwind % 2;
        !layout.contains(information, 4)
    }

    /// Whether it begins before the function before it does.
    fn begins_before(&self, before: Option<Function>) -> bool
        ensures { result ≡ begins_early before self.now }
    {
        match before {
            None => false,
            Some(function) => self.begin < function.begin,
        }
    }
}
