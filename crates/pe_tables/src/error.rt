//! `TableError`: why a table was not read.

ghost use Rattle.std.specs.Prelude.{◌≡◌};
ghost use Rattle.pe_view.specs.declared.refusal.Refusal.{Refusal};
ghost use Rattle.pe_layout.specs.Layout.{image_of};
ghost use Rattle.pe_layout.specs.Image.{fault_at};

use pe_layout::Layout;
use pe_view::{Fault, Place, Refusal};

/// Why a table was not read: the first rule of the format that it breaks, or out of memory.
pub type TableError = Refusal;

/// A fault of the image at an RVA.
pub(crate) fn fault_at(number: u16, layout: &Layout, rva: u32) -> TableError
    ensures { result ≡ Refusal.Fault (fault_at number (image_of layout.now) rva) }
{
    TableError::Fault(Fault {
        number,
        image: layout.image(),
        place: Place::Rva(rva),
    })
}
