//! `Record`: what a table of equal records is made of.

ghost use Rattle.std.specs.Prelude.{◌≡◌, ℕ, List, Option, ◌+◌, ◌<◌, ◌≤◌, ◌^◌};
ghost use Rattle.pe_view.specs.View.{bytes_of, size_of};
ghost use Rattle.pe_view.specs.Faults.{Test};
ghost use Rattle.pe_view.specs.Standing.{Adds};
ghost use Rattle.pe_layout.specs.Image.{LaidOut};
ghost use Rattle.pe_layout.specs.Layout.{image_of};

use pe_layout::Layout;
use pe_view::{Fault, View};
use std::alloc::{AllocError, Allocator};

/// A record of a table in which all have one length, and each is right after the one before it.
pub trait Record: Copy {
    ghost LEN: { ℕ };

    ghost DIRECTORY: { ℕ };

    ghost FINDING: { ℕ };

    ghost record_at: { List ℕ → ℕ → Self };

    ghost tests: { LaidOut → List ℕ → Option Self → Self → ℕ → List Test };

    /// The length of a record, in bytes.
    const LEN: u32;

    /// The index of the table's directory.
    const DIRECTORY: usize;

    /// The finding of a table that goes on after the bytes that the file holds in one run. The next number is that of a Size which is
    /// no multiple of the length of a record.
    const FINDING: u16;

    /// The record at an offset of its table.
    fn read(table: View, offset: u64) -> Self
        requires inside { offset + LEN ≤ size_of table }
        requires small { offset + LEN < 2 ^ 32 }
        ensures { result ≡ record_at (bytes_of table.entry) offset };

    /// Adds the findings of a record at an RVA, given the record before it.
    fn find<A: Allocator>(
        &self,
        findings: &mut Vec<Fault, A>,
        layout: &Layout,
        file: View,
        before: Option<Self>,
        rva: u32,
    ) -> Result<(), AllocError>
        ensures { Adds (tests (image_of layout.now) (bytes_of file.entry) before self.now rva) findings.old.items findings.new.items result };

    ghost some: { 0 < LEN };

    ghost low: { FINDING < 1000 };
}
