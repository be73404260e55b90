//! `DebugEntry`: an entry of the debug directory, and its data.

ghost use Rattle.std.proofs.Common.{lit≤};
ghost use Rattle.std.specs.Prelude.{◌≡◌, option_map};
ghost use Rattle.pe_view.specs.Standing.{Adds};
ghost use Rattle.pe_layout.specs.Layout.{image_of};
ghost use Rattle.pe_view.specs.View.{bytes_of};
ghost use Rattle.pe_records.specs.Debug.{debug_entry_at, data_of};
ghost use Rattle.pe_records.specs.DebugTests.{entry_tests, is_early, is_endless, passes_file, passes_image};

use crate::finding::add;
use crate::pdb::code_view;
use crate::record::Record;
use pe_head::directory_index;
use pe_layout::Layout;
use pe_view::{Fault, Place, View};
use std::alloc::{AllocError, Allocator};

/// Types of entries of the debug directory ("PE Format", Debug Type).
pub mod debug_type {
    /// A CodeView record, which names the PDB file.
    pub const CODE_VIEW: u32 = 2;
    /// How many object files were compiled how.
    pub const VC_FEATURE: u32 = 12;
    /// Where parts of the image's sections came from.
    pub const POGO: u32 = 13;
    /// The image is the same whenever it is linked; a hash of its contents.
    pub const REPRO: u32 = 16;
    /// A checksum of the PDB file.
    pub const PDB_CHECKSUM: u32 = 19;
    /// Flags beyond DllCharacteristics.
    pub const EX_DLL_CHARACTERISTICS: u32 = 20;
}

/// An entry of the debug directory ("PE Format", Debug Directory).
#[derive(Clone, Copy, Debug, PartialEq, Eq)]
pub struct DebugEntry {
    /// Reserved.
    pub characteristics: u32,
    /// When the data was made, or a hash.
    pub time_date_stamp: u32,
    /// The major version of the data's format.
    pub major_version: u16,
    /// The minor version of the data's format.
    pub minor_version: u16,
    /// The type of the data.
    pub kind: u32,
    /// The size of the data in bytes.
    pub size_of_data: u32,
    /// The RVA of the data; 0 if it is not laid out.
    pub address_of_raw_data: u32,
    /// The file offset of the data; 0 if the file does not hold it.
    pub pointer_to_raw_data: u32,
}

impl Record for DebugEntry {
    ghost LEN = { 28 };

    ghost DIRECTORY = { 6 };

    ghost FINDING = { 101 };

    ghost record_at = { debug_entry_at };

    ghost tests = { entry_tests };

    ghost some = { lit≤ tt };

    ghost low = { lit≤ tt };

    const LEN: u32 = 28;

    const DIRECTORY: usize = directory_index::DEBUG;

    const FINDING: u16 = 101;

    fn read(table: View, offset: u64) -> Self {
        DebugEntry {
            characteristics: table.u32_at(offset).unwrap(),
            time_date_stamp: table.u32_at(offset + 4).unwrap(),
            major_version: table.u16_at(offset + 8).unwrap(),
            minor_version: table.u16_at(offset + 10).unwrap(),
            kind: table.u32_at(offset + 12).unwrap(),
            size_of_data: table.u32_at(offset + 16).unwrap(),
            address_of_raw_data: table.u32_at(offset + 20).unwrap(),
            pointer_to_raw_data: table.u32_at(offset + 24).unwrap(),
        }
    }

    fn find<A: Allocator>(
        &self,
        findings: &mut Vec<Fault, A>,
        layout: &Layout,
        file: View,
        _before: Option<Self>,
        rva: u32,
    ) -> Result<(), AllocError>
        ensures { Adds (entry_tests (image_of layout.now) (bytes_of file.entry) _before self.now rva) findings.old.items findings.new.items result }
    {
        let rules = [
            (103, self.passes_file(file)),
            (104, self.passes_image(layout)),
            (105, is_early(layout, rva) && self.is_endless(file)),
        ];
        add(findings, layout.image(), Place::Rva(rva), &rules)
    }
}

/// Whether the entry at an RVA is one of the first 32 of the debug directory.
fn is_early(layout: &Layout, rva: u32) -> bool
    ensures { result ≡ is_early (image_of layout.now) rva }
{
    let start = match layout.directory(directory_index::DEBUG) {
        None => 0,
        Some(directory) => directory.rva,
    };
    u64::from(rva) < u64::from(start) + 896
}

impl DebugEntry {
    /// The entry's data, as the file holds it at PointerToRawData: `None` if that is 0, or the data passes the end of the file.
    pub fn data<'a>(&self, file: View<'a>) -> Option<&'a [u8]>
        ensures { option_map (λ bytes. bytes.now) result ≡ data_of (bytes_of file.entry) self.now }
    {
        if self.pointer_to_raw_data == 0 {
            return None;
        }
        file.slice(
            u64::from(self.pointer_to_raw_data),
            u64::from(self.size_of_data),
        )
    }

    /// Whether the data passes the end of the file.
    fn passes_file(&self, file: View) -> bool
        ensures { result ≡ passes_file (bytes_of file.entry) self.now }
    {
        let end = u64::from(self.pointer_to_raw_data) + u64::from(self.size_of_data);
        self.pointer_to_raw_data != 0 && file.len() < end
    }

    /// Whether the data, as it is laid out, passes the end of the image.
    fn passes_image(&self, layout: &Layout) -> bool
        ensures { result ≡ passes_image (image_of layout.now) self.now }
    {
        let size = u64::from(self.size_of_data);
        self.address_of_raw_data != 0 && !layout.contains(self.address_of_raw_data, size)
    }

    /// Whether this is a CodeView entry whose path has no zero byte.
    fn is_endless(&self, file: View) -> bool
        ensures { result ≡ is_endless (bytes_of file.entry) self.now }
    {
        if self.kind != debug_type::CODE_VIEW {
            return false;
        }
        match self.data(file) {
            None => false,
            Some(data) => code_view(data).is_endless(),
        }
    }
}
