//! `DelayImports`: an iterator over the imports of a descriptor, which takes no memory.

ghost use Rattle.std.specs.Prelude.{◌≤◌};

use crate::descriptor::DelayDescriptor;
use crate::entry::{placed_value, slot_rva};
use crate::key::key_at;
use crate::tables::{Tables, tables_of};
use crate::walk::most_after;
use pe_layout::Layout;
use pe_tables::Import;

/// The imports of a descriptor in the order of its name table, up to the first entry that ends the table or has a finding, at most
/// 1,048,576. Each name is searched for its end.
#[derive(Clone, Copy, Drop)]
pub struct DelayImports<'l, 'a> {
    pub(crate) layout: &'l Layout<'a>,
    pub(crate) module: &'a [u8],
    pub(crate) tables: Tables,
    pub(crate) most: u32,
    pub(crate) index: u32,
}

impl<'l, 'a> Iterator for DelayImports<'l, 'a> {
    ghost use Rattle.std.specs.Iterator.{YieldsFirstBy, item_count};
    ghost use Rattle.pe_tables.specs.ImportView.{import_view};
    ghost use Rattle.pe_delay.specs.Left.{imports_left};

    type Item = Import<'a>;

    ghost next_gives = { YieldsFirstBy import_view imports_left };

    ghost remaining = { item_count imports_left };

    fn next(&mut self) -> Option<Import<'a>> {
        if self.index >= self.most {
            return None;
        }
        let value = placed_value(self.layout, &self.tables, self.index)?;
        let key = key_at(self.layout, &self.tables, value)?;
        let slot = slot_rva(self.layout, &self.tables, self.index) as u32;
        self.index += 1;
        Some(Import {
            module: self.module,
            key,
            slot,
        })
    }
}

impl<'l, 'a> DelayImports<'l, 'a> {
    ghost use Rattle.std.specs.Prelude.{◌≡◌};
    ghost use Rattle.pe_layout.specs.Layout.{image_of};
    ghost use Rattle.pe_delay.specs.Imports.{imports_from};
    ghost use Rattle.pe_delay.specs.Left.{imports_left};

    /// The imports of a descriptor. Without a string at its name the module is empty.
    pub fn of(layout: &'l Layout<'a>, descriptor: &DelayDescriptor) -> DelayImports<'l, 'a>
        ensures { imports_left result ≡ imports_from (image_of layout.now) 0 descriptor.now }
    {
        DelayImports {
            layout,
            module: descriptor.module(layout).unwrap_or(&[]),
            tables: tables_of(layout, descriptor),
            most: most_after(layout, 0),
            index: 0,
        }
    }
}
