//! `Module`: an image of a set with its name and base; and the reading of all files of a set.

ghost use Rattle.std.specs.Prelude.{◌≡◌, ◌≤◌, length, map, IsOk};
ghost use Rattle.pe_view.specs.Faults.{AnswersOrWants};
ghost use Rattle.pe_image.specs.ImageTests.{image_tests};
ghost use Rattle.pe_image.specs.ImageOf.{IsImageOf};
ghost use Rattle.pe_set.specs.Set.{modules_of};
ghost use Rattle.pe_set.specs.SetView.{entries_of, module_view};
ghost use Rattle.pe_set.specs.SetFaults.{ClassAnswers, files_tests};

use crate::entry::SetEntry;
use crate::error::MapError;
use crate::placement::Placed;
use pe_head::Magic;
use pe_image::{Image, read_image};
use pe_tables::TableError;
use std::alloc::Allocator;

/// An image of a set: its name, its base, and the contents of its file. It borrows both the name and the file.
#[derive(Drop)]
pub struct Module<'a, A: Allocator> {
    /// The name by which other images import from it.
    pub name: &'a [u8],
    /// The address of its first byte.
    pub base: u64,
    /// Its layout and its tables.
    pub image: Image<'a, A>,
}

impl<'a, A: Allocator + Copy> Placed for Module<'a, A> {
    ghost use Rattle.pe_set.specs.Set.{placement_of};
    ghost use Rattle.pe_set.specs.SetView.{module_view};

    ghost placement = { λ m. placement_of (module_view m) };

    #[tactic(auto, unfolding(crate::specs::SetView::module_view))]
    fn base(&self) -> u64 {
        self.base
    }

    #[tactic(auto, unfolding(crate::specs::SetView::module_view))]
    fn size(&self) -> u32 {
        self.image.layout.size()
    }

    #[tactic(auto, unfolding(crate::specs::SetView::module_view))]
    fn magic(&self) -> Magic {
        self.image.layout.magic()
    }

    #[tactic(auto, unfolding(crate::specs::SetView::module_view))]
    fn image_base(&self) -> u64 {
        self.image.layout.image_base()
    }

    #[tactic(auto, unfolding(crate::specs::SetView::module_view))]
    fn is_stripped(&self) -> bool {
        self.image.layout.is_stripped()
    }
}

/// Reads an image, as `read_image` does; if others may import from it, builds the guesses of its exports' names.
fn read_exporter<A: Allocator + Copy>(
    alloc: A,
    file: &[u8],
    number: u16,
    is_alone: bool,
) -> Result<Image<'_, A>, TableError>
    ensures { AnswersOrWants (image_tests number file.now) (IsImageOf number file.now) result }
{
    let mut image = read_image(alloc, file, number)?;
    if !is_alone {
        image.exports.guess_names(alloc);
    }
    Ok(image)
}

/// Reads the images of a set, or returns the first of their image faults.
pub(crate) fn read_modules<'a, A: Allocator + Copy>(
    alloc: A,
    set: &[SetEntry<'a>],
) -> Result<Vec<Module<'a, A>, A>, MapError>
    requires { length set.now ≤ 256 }
    ensures exact { ClassAnswers (files_tests (entries_of set.now)) (λ modules. map module_view modules.items ≡ modules_of (entries_of set.now)) result }
    ensures empty { length set.now ≡ 0 → IsOk result }
{
    let mut modules = Vec::with_capacity(alloc, set.len())?;
    for (index, entry) in set.iter().enumerate() {
        modules.push(Module {
            name: entry.name,
            base: entry.base,
            image: read_exporter(alloc, entry.file, index as u16, set.len() == 1)?,
        })?;
    }
    Ok(modules)
}
