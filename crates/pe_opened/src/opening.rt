//! `open_shared`: an image opened for several owners.

ghost use Rattle.std.specs.Prelude.{◌≡◌, None, IsErrOf};
ghost use Rattle.pe_view.specs.Faults.{AnswersOrWants, first_standing};
ghost use Rattle.pe_view.specs.declared.refusal.Refusal.{Refusal};
ghost use Rattle.pe_layout.specs.SectionFaults.{layout_tests};
ghost use Rattle.pe_image.specs.ImageTests.{image_tests};

use crate::opened::OpenedImage;
use pe_view::Refusal;
use std::alloc::Global;
use std::sync::Arc;

/// Opens the image of a file, as [`OpenedImage::open`] does, for its first owner.
pub fn open_shared(alloc: Global, file: &[u8]) -> Result<Box<Arc<OpenedImage<'_>>>, Refusal>
    ensures exact { AnswersOrWants (image_tests 0 file.now) (λ owner. owner.value.value ≡ file.now) result }
    ensures memory { IsErrOf result Refusal.Memory → first_standing (layout_tests 0 file.now) ≡ None }
{
    let opened = OpenedImage::open(alloc, file)?;
    let owner = Arc::new(alloc, opened)?;
    Ok(Box::new(alloc, owner)?)
}
