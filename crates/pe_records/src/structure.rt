//! `Structure`: a structure that a directory leads to, whose fields are at offsets of their own.

ghost use Rattle.std.specs.Prelude.{◌≡◌};
ghost use Rattle.pe_view.specs.View.{bytes_of};
ghost use Rattle.pe_layout.specs.Layout.{image_of};

use crate::address::address_at;
use pe_layout::Layout;
use pe_view::View;

/// The size of a field.
#[derive(Clone, Copy, Debug, PartialEq, Eq)]
pub enum Width {
    /// 2 bytes.
    Two,
    /// 4 bytes.
    Four,
    /// 4 bytes in PE32, 8 in PE32+.
    Address,
}

/// A field of a structure: its offset in PE32, its offset in PE32+, and its size.
#[derive(Clone, Copy, Debug, PartialEq, Eq)]
pub struct Field(pub u32, pub u32, pub Width);

/// A structure of an image. It has the fields that are whole in its bytes. No call allocates.
#[derive(Clone, Copy, Debug)]
pub struct Structure<'a> {
    pub(crate) bytes: View<'a>,
    pub(crate) is_plus: bool,
}

impl<'a> Structure<'a> {
    ghost use Rattle.pe_records.specs.Structure.{address_width, field_in, structure_bytes};

    /// The structure at an RVA, of so many bytes, or as many as the file holds in one run.
    pub(crate) fn of(layout: &Layout<'a>, rva: u32, size: u32) -> Structure<'a>
        ensures bytes { bytes_of result.bytes ≡ structure_bytes (image_of layout.now) rva size }
        ensures width { address_width result.is_plus ≡ (image_of layout.now).slot_width }
    {
        let held = layout.raw_bytes(rva);
        let len = held.len().min(size as usize);
        Structure {
            bytes: View::new(&held[..len]),
            is_plus: layout.slot_width() == 8,
        }
    }

    /// The number in a field, or `None` if the structure ends before the field does.
    pub fn field(&self, field: Field) -> Option<u64>
        ensures { result ≡ field_in (address_width self.now.is_plus) (bytes_of self.now.bytes) field }
    {
        let Field(offset, plus_offset, width) = field;
        let offset = u64::from(if self.is_plus { plus_offset } else { offset });
        match width {
            Width::Two => self.bytes.u16_at(offset).map(u64::from),
            Width::Four => self.bytes.u32_at(offset).map(u64::from),
            Width::Address => address_at(self.bytes, offset, self.is_plus),
        }
    }
}
