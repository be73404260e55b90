//! Numbers in the bytes of images.

ghost use Rattle.std.specs.Prelude.{◌≡◌, ◌+◌, ◌≤◌, length, pos, ◌-ℤ◌};
ghost use Rattle.pe_layout.specs.Image.{slot_width_of};
ghost use Rattle.pe_tables.specs.Fixups.{width_of};
ghost use Rattle.pe_space.specs.Memory.{shifted_all};
ghost use Rattle.pe_space.specs.FieldsAndSlots.{Each};

use pe_head::Magic;
use pe_tables::{Fixup, shift_field};

/// The size of a slot in bytes.
pub(crate) fn slot_width(magic: Magic) -> usize
    ensures { result ≡ slot_width_of magic }
{
    magic.image_base_width() as usize
}

/// Relocates fields from one base to another. For HIGH fields this gives the same as relocating them from ImageBase only because
/// bases are multiples of 65,536 (fault 44).
pub(crate) fn shift_fields(memory: &mut [u8], fixups: &[Fixup], from: u64, to: u64)
    requires { Each (λ f. f.field + width_of f.kind ≤ length memory.old) fixups.now }
    ensures { memory.new ≡ shifted_all (pos to -ℤ pos from) fixups.now memory.old }
{
    for fixup in fixups {
        shift_field(memory, fixup.field as usize, fixup.kind, from, to);
    }
}
