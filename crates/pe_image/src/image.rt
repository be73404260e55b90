//! `read_image`: a whole image, or its first fault; and `lay_out`, which reads its headers and sections only.

ghost use Rattle.std.specs.Prelude.{◌≡◌, ◌<◌, None, length, IsErrOf};
ghost use Rattle.pe_view.specs.Faults.{first_standing, Answers, AnswersOrWants};
ghost use Rattle.pe_layout.specs.SectionFaults.{layout_tests};
ghost use Rattle.pe_layout.specs.Layout.{image_of, IsLayoutOf};
ghost use Rattle.pe_image.specs.ImageTests.{table_tests, image_tests};
ghost use Rattle.pe_image.specs.ImageOf.{HoldsTablesOf, IsImageOf};
ghost use Rattle.pe_view.specs.declared.refusal.Refusal.{Refusal};

use pe_layout::Layout;
use pe_tables::{Exports, Fixup, Import, TableError, read_exports, read_fixups, read_imports};
use pe_view::{Fault, View};
use std::alloc::Allocator;

/// An image without a fault, and the contents of its tables. It borrows the image's file.
#[derive(Drop)]
pub struct Image<'a, A: Allocator> {
    /// The headers and sections, and the bytes that they lay out.
    pub layout: Layout<'a>,
    /// What the image exports, by ordinal and by name; empty if it has no export table.
    pub exports: Exports<'a, A>,
    /// What the image imports, in the order of its import table.
    pub imports: Vec<Import<'a>, A>,
    /// The fields that change with the image's base, in the order of its base relocation table.
    pub fixups: Vec<Fixup, A>,
}

/// The layout of an image's file, or the first fault of its headers and sections (1 to 15), which names the image by `number`.
/// Allocates nothing. ("PE Format": Optional Header, Section Table.)
pub fn lay_out(file: &[u8], number: u16) -> Result<Layout<'_>, Fault>
    ensures { Answers (layout_tests number file.now) (IsLayoutOf file.now number) result }
{
    Layout::new(View::new(file), number)
}

/// Reads all tables of a layout, or returns the first of faults 16 to 38. It does not use [`crate::read_tables`], whose record of
/// options takes room that each call would have to clear.
fn read_whole<A: Allocator + Copy>(alloc: A, layout: Layout<'_>) -> Result<Image<'_, A>, TableError>
    ensures { AnswersOrWants (table_tests (image_of layout.entry)) (HoldsTablesOf layout.entry) result }
{
    let exports = read_exports(alloc, &layout)?;
    let imports = read_imports(alloc, &layout)?;
    let fixups = read_fixups(alloc, &layout, &imports)?;
    Ok(Image {
        layout,
        exports,
        imports,
        fixups,
    })
}

/// Reads a whole image: `file` is its complete file, and faults name the image by `number`.
///
/// Faults are tested in phases: headers and sections (1 to 15), exports (16 to 22), imports (24 to 32), base relocations, whose
/// fields may not overlap import address table entries (33 to 38). The error is [`TableError::Fault`] with the first fault, or
/// [`TableError::Memory`] if an allocation failed and no earlier phase has a fault; it is never [`TableError::Memory`] for a file
/// with one of faults 1 to 15, such as an empty file. On an error all memory is freed.
///
/// ("PE Format": Optional Header, Section Table, The .edata Section, The .idata Section, The .reloc Section.)
pub fn read_image<A: Allocator + Copy>(
    alloc: A,
    file: &[u8],
    number: u16,
) -> Result<Image<'_, A>, TableError>
    ensures exact { AnswersOrWants (image_tests number file.now) (IsImageOf number file.now) result }
    ensures memory { IsErrOf result Refusal.Memory → first_standing (layout_tests number file.now) ≡ None }
    ensures not_empty { IsErrOf result Refusal.Memory → 0 < length file.now }
{
    let layout = lay_out(file, number)?;
    read_whole(alloc, layout)
}
