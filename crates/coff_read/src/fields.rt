//! The fields of an object's records: numbers at an offset of a record.

ghost use Rattle.std.specs.Prelude.{◌≡◌, ◌+◌, ◌≤◌};
ghost use Rattle.pe_view.specs.View.{bytes_of, size_of};
ghost use Rattle.coff_read.specs.Field.{field};

use pe_view::View;

/// The number in a field of 1 byte.
#[tactic(auto, unfolding(crate::specs::Field::field))]
pub(crate) fn u8_in(view: View, at: u64, offset: u64) -> u8
    requires { at + offset + 1 ≤ size_of view }
    ensures { result ≡ field (bytes_of view.entry) at offset 1 }
{
    view.slice(at + offset, 1).unwrap()[0]
}

/// The number in a field of 2 bytes.
#[tactic(auto, unfolding(crate::specs::Field::field))]
pub(crate) fn u16_in(view: View, at: u64, offset: u64) -> u16
    requires { at + offset + 2 ≤ size_of view }
    ensures { result ≡ field (bytes_of view.entry) at offset 2 }
{
    view.u16_at(at + offset).unwrap()
}

/// The number in a field of 4 bytes.
#[tactic(auto, unfolding(crate::specs::Field::field))]
pub(crate) fn u32_in(view: View, at: u64, offset: u64) -> u32
    requires { at + offset + 4 ≤ size_of view }
    ensures { result ≡ field (bytes_of view.entry) at offset 4 }
{
    view.u32_at(at + offset).unwrap()
}
