//! `Tables`: where a descriptor's tables are.

ghost use Rattle.std.specs.Prelude.{◌≡◌};
ghost use Rattle.pe_layout.specs.Layout.{image_of};
ghost use Rattle.pe_delay.specs.Tables.{tables_of};

use crate::descriptor::DelayDescriptor;
use pe_layout::Layout;

/// The tables of a descriptor, by their RVAs. One that leads nowhere is at the end of the image.
#[derive(Clone, Copy, Debug)]
pub(crate) struct Tables {
    /// The delay import name table.
    pub names: u32,
    /// The delay import address table.
    pub addresses: u32,
    /// Whether the entries of the name table hold RVAs, and not addresses.
    pub has_rvas: bool,
}

/// The tables of a descriptor.
pub(crate) fn tables_of(layout: &Layout, descriptor: &DelayDescriptor) -> Tables
    ensures { result ≡ tables_of (image_of layout.now) descriptor.now }
{
    let end = layout.size();
    let names = descriptor.field_rva(layout, descriptor.import_name_table);
    let addresses = descriptor.field_rva(layout, descriptor.import_address_table);
    Tables {
        names: names.unwrap_or(end),
        addresses: addresses.unwrap_or(end),
        has_rvas: descriptor.has_rvas(),
    }
}
