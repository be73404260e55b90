//! `read_tables`: an image's tables before the first with a fault; and `read_relocations`, its base relocations only.

ghost use Rattle.std.specs.Prelude.{◌≡◌, None, Some, option_map, IsErrOf, IfOk, OnErr};
ghost use Rattle.pe_view.specs.Faults.{AnswersOrWants};
ghost use Rattle.pe_view.specs.declared.refusal.Refusal.{Refusal};
ghost use Rattle.pe_layout.specs.Layout.{image_of};
ghost use Rattle.pe_tables.specs.Fixups.{fixups_of};
ghost use Rattle.pe_image.specs.ImageTests.{relocation_tests};
ghost use Rattle.pe_image.specs.ImageOf.{AreTablesOf};
ghost use Rattle.pe_image.specs.Wants.{FixupsTakeMemory, TablesTakeMemory};

use pe_layout::Layout;
use pe_tables::{Exports, Fixup, Import, TableError, read_exports, read_fixups, read_imports};
use pe_view::Fault;
use std::alloc::{AllocError, Allocator};

/// The tables of an image before the first with a fault. It borrows the image's file.
#[derive(Drop)]
pub struct Tables<'a, A: Allocator> {
    /// What the image exports, unless it has one of faults 16 to 22.
    pub exports: Option<Exports<'a, A>>,
    /// What it imports, in the order of its import table, unless it has one of faults 16 to 32.
    pub imports: Option<Vec<Import<'a>, A>>,
    /// The fields that change with its base, in the order of its base relocation table, unless it has one of faults 16 to 38.
    pub fixups: Option<Vec<Fixup, A>>,
    /// The first of faults 16 to 38, if there is one.
    pub fault: Option<Fault>,
}

/// The tables before the one with a fault.
fn tables_before<'a, A: Allocator>(
    error: TableError,
    exports: Option<Exports<'a, A>>,
    imports: Option<Vec<Import<'a>, A>>,
) -> Result<Tables<'a, A>, AllocError>
    ensures kept { IfOk result (λ tables. (tables.exports ≡ exports.entry) × (tables.imports ≡ imports.entry) × (tables.fixups ≡ None)) }
    ensures refused { IfOk result (λ tables. option_map Refusal.Fault tables.fault ≡ Some error) }
    ensures memory { OnErr result (error ≡ Refusal.Memory) }
{
    match error {
        TableError::Fault(fault) => Ok(Tables {
            exports,
            imports,
            fixups: None,
            fault: Some(fault),
        }),
        TableError::Memory => Err(AllocError),
    }
}

/// Reads an image's tables up to the first with a fault: exports, imports, and base relocations, whose fields may not overlap
/// import address table entries.
///
/// Faults are tested table by table (16 to 22, 24 to 32, 33 to 38); tables after the first fault are not read. The only error is
/// out of memory; then all memory is freed. ("PE Format": The .edata Section, The .idata Section, The .reloc Section.)
pub fn read_tables<'a, A: Allocator + Copy>(
    alloc: A,
    layout: &Layout<'a>,
) -> Result<Tables<'a, A>, AllocError>
    ensures tables { IfOk result (AreTablesOf (image_of layout.now)) }
    ensures memory { OnErr result (TablesTakeMemory (image_of layout.now)) }
{
    let exports = match read_exports(alloc, layout) {
        Ok(exports) => exports,
        Err(error) => return tables_before(error, None, None),
    };
    let imports = match read_imports(alloc, layout) {
        Ok(imports) => imports,
        Err(error) => return tables_before(error, Some(exports), None),
    };
    match read_fixups(alloc, layout, &imports) {
        Ok(fixups) => Ok(Tables {
            exports: Some(exports),
            imports: Some(imports),
            fixups: Some(fixups),
            fault: None,
        }),
        Err(error) => tables_before(error, Some(exports), Some(imports)),
    }
}

/// The base relocations of an image, or the first fault of the imports (24 to 32) and then of the base relocation table (33 to
/// 38), or out of memory. Imports are read first, since no field may overlap an import address table entry. ("PE Format": The
/// .reloc Section.)
pub fn read_relocations<A: Allocator + Copy>(
    alloc: A,
    layout: &Layout,
) -> Result<Vec<Fixup, A>, TableError>
    ensures exact { AnswersOrWants (relocation_tests (image_of layout.now)) (λ fixups. fixups.items ≡ fixups_of (image_of layout.now)) result }
    ensures memory { IsErrOf result Refusal.Memory → FixupsTakeMemory (image_of layout.now) }
{
    let imports = read_imports(alloc, layout)?;
    read_fixups(alloc, layout, &imports)
}
