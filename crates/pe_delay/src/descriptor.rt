//! `DelayDescriptor`: a descriptor of the delay-load directory table.

ghost use Rattle.std.specs.Prelude.{◌≡◌, ◌+◌, ◌*◌, ◌≤◌, ◌^◌, ◌<◌, option_map};
ghost use Rattle.pe_view.specs.View.{bytes_of, size_of};
ghost use Rattle.pe_view.specs.TextEnds.{AreEndsOf};
ghost use Rattle.pe_layout.specs.Layout.{file_of, image_of};
ghost use Rattle.pe_delay.specs.Descriptors.{descriptor_at, is_null};
ghost use Rattle.pe_delay.specs.Tables.{field_rva, has_rvas, module_of};

use crate::address::rva_of;
use pe_layout::Layout;
use pe_view::{TextEnds, View};
use std::alloc::Allocator;

/// A descriptor of the delay-load directory table ("PE Format", The Delay-Load Directory Table).
#[derive(Clone, Copy, Debug, PartialEq, Eq)]
pub struct DelayDescriptor {
    /// Its RVA.
    pub rva: u32,
    /// Bit 0 is set if its fields are RVAs. The first linkers wrote addresses, those of an image at its ImageBase.
    pub attributes: u32,
    /// Where the name of the module is.
    pub name: u32,
    /// Where the module's handle is kept.
    pub module_handle: u32,
    /// Where the delay import address table is.
    pub import_address_table: u32,
    /// Where the delay import name table is.
    pub import_name_table: u32,
    /// Where the bound delay import table is, or 0.
    pub bound_import_table: u32,
    /// Where the unload delay import table is, or 0.
    pub unload_import_table: u32,
    /// The time stamp of the module to which the image was bound, or 0.
    pub time_stamp: u32,
}

impl DelayDescriptor {
    /// Whether its fields are RVAs, and not addresses.
    pub fn has_rvas(&self) -> bool
        ensures { result ≡ has_rvas self.now }
    {
        self.attributes % 2 == 1
    }

    /// Whether it ends the table: it has no name or no address table.
    pub(crate) fn is_null(&self) -> bool
        ensures { result ≡ is_null self.now }
    {
        self.name == 0 || self.import_address_table == 0
    }

    /// The RVA that one of its fields leads to. 0 leads nowhere, nor does an address that is not in the image.
    pub fn field_rva(&self, layout: &Layout, field: u32) -> Option<u32>
        ensures { result ≡ field_rva (image_of layout.now) self.now field }
    {
        if field == 0 {
            return None;
        }
        if self.has_rvas() {
            return Some(field);
        }
        rva_of(layout, u64::from(field))
    }

    /// The name of the module that its imports are from, or `None` if there is no string. It is searched for its end.
    pub fn module<'a>(&self, layout: &Layout<'a>) -> Option<&'a [u8]>
        ensures { option_map (λ text. text.now) result ≡ module_of (image_of layout.now) self.now }
    {
        layout.name_at(self.field_rva(layout, self.name)?)
    }

    /// The name of the module, as [`DelayDescriptor::module`] returns it, with the ends of strings that are known.
    pub(crate) fn module_kept<'a, A: Allocator + Copy>(
        &self,
        ends: &mut TextEnds<A>,
        layout: &Layout<'a>,
    ) -> Option<&'a [u8]>
        requires { AreEndsOf (file_of layout.now) ends.old }
        ensures known { AreEndsOf (file_of layout.now) ends.new }
        ensures name { option_map (λ text. text.now) result ≡ module_of (image_of layout.now) self.now }
    {
        let name = layout.text_at(ends, self.field_rva(layout, self.name)?)?;
        Some(name.bytes)
    }
}

/// Descriptor `index` of a table that begins at an RVA.
pub(crate) fn descriptor_at(table: View, start: u32, index: u32) -> DelayDescriptor
    requires whole { 32 * index + 32 ≤ size_of table }
    requires small { start + size_of table ≤ 2 ^ 31 }
    ensures { result ≡ descriptor_at start (bytes_of table.entry) index }
{
    let offset = 32 * u64::from(index);
    DelayDescriptor {
        rva: start + 32 * index,
        attributes: table.u32_at(offset).unwrap(),
        name: table.u32_at(offset + 4).unwrap(),
        module_handle: table.u32_at(offset + 8).unwrap(),
        import_address_table: table.u32_at(offset + 12).unwrap(),
        import_name_table: table.u32_at(offset + 16).unwrap(),
        bound_import_table: table.u32_at(offset + 20).unwrap(),
        unload_import_table: table.u32_at(offset + 24).unwrap(),
        time_stamp: table.u32_at(offset + 28).unwrap(),
    }
}
