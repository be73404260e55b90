//! `read_whole_tables`: the tables of an image that have no fault, whichever table has the first.

ghost use Rattle.std.specs.Prelude.{◌≡◌, None, option_map, map, IfOk, OnErr};
ghost use Rattle.pe_layout.specs.Layout.{image_of};
ghost use Rattle.pe_image.specs.ImageOf.{unless};
ghost use Rattle.pe_image.specs.ImageTests.{relocation_tests};
ghost use Rattle.pe_image.specs.Wants.{FixupsTakeMemory};
ghost use Rattle.pe_tables.specs.Fixups.{fixups_of};
ghost use Rattle.pe_tables.specs.ImportFaults.{import_tests};
ghost use Rattle.pe_tables.specs.Imports.{imports_of};
ghost use Rattle.pe_tables.specs.ImportView.{import_view};
ghost use Rattle.pe_reach.specs.WholeTables.{AreWholeTablesOf, TakeMemory};

use pe_image::{Tables, read_tables};
use pe_layout::Layout;
use pe_tables::{Fixup, Import, TableError, read_fixups, read_imports};
use pe_view::Fault;
use std::alloc::{AllocError, Allocator};

/// Tables without exports, which have this fault.
fn tables_behind<'a, A: Allocator>(
    imports: Option<Vec<Import<'a>, A>>,
    fixups: Option<Vec<Fixup, A>>,
    fault: Option<Fault>,
) -> Tables<'a, A>
    ensures exports { result.exports ≡ None }
    ensures imports { result.imports ≡ imports.entry }
    ensures fixups { result.fixups ≡ fixups }
    ensures fault { result.fault ≡ fault }
{
    Tables {
        exports: None,
        imports,
        fixups,
        fault,
    }
}

/// The imports and the base relocations of an image whose exports have this fault.
fn read_behind<'a, A: Allocator + Copy>(
    alloc: A,
    layout: &Layout<'a>,
    fault: Option<Fault>,
) -> Result<Tables<'a, A>, AllocError>
    ensures exports { IfOk result (λ tables. tables.exports ≡ None) }
    ensures imports { IfOk result (λ tables. let i = image_of layout.now in option_map (λ imports. map import_view imports.items) tables.imports ≡ unless (import_tests i) (imports_of i)) }
    ensures fixups { IfOk result (λ tables. let i = image_of layout.now in option_map (λ fixups. fixups.items) tables.fixups ≡ unless (relocation_tests i) (fixups_of i)) }
    ensures fault { IfOk result (λ tables. tables.fault ≡ fault) }
    ensures memory { OnErr result (FixupsTakeMemory (image_of layout.now)) }
{
    let imports = match read_imports(alloc, layout) {
        Ok(imports) => imports,
        Err(TableError::Fault(_)) => return Ok(tables_behind(None, None, fault)),
        Err(TableError::Memory) => return Err(AllocError),
    };
    match read_fixups(alloc, layout, &imports) {
        Ok(fixups) => Ok(tables_behind(Some(imports), Some(fixups), fault)),
        Err(TableError::Fault(_)) => Ok(tables_behind(Some(imports), None, fault)),
        Err(TableError::Memory) => Err(AllocError),
    }
}

/// The tables of an image that have no fault: exports; imports; and base relocations, if the imports have none either, since no
/// field may overlap an import address table entry. Unlike [`read_tables`] it reads on after a fault of the exports.
///
/// The only error is out of memory; then all memory is freed. ("PE Format": The .edata Section, The .idata Section, The .reloc
/// Section.)
pub fn read_whole_tables<'a, A: Allocator + Copy>(
    alloc: A,
    layout: &Layout<'a>,
) -> Result<Tables<'a, A>, AllocError>
    ensures tables { IfOk result (AreWholeTablesOf (image_of layout.now)) }
    ensures memory { OnErr result (TakeMemory (image_of layout.now)) }
{
    let tables = read_tables(alloc, layout)?;
    if tables.exports.is_some() {
        return Ok(tables);
    }
    read_behind(alloc, layout, tables.fault)
}
