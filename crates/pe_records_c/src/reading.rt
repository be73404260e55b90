//! One table of an image's file: `exports_in`, `imports_in` and `fixups_in`.

ghost use Rattle.std.specs.Prelude.{◌≡◌, IsErrOf, map};
ghost use Rattle.pe_view.specs.Faults.{AnswersOrWants};
ghost use Rattle.pe_view.specs.declared.refusal.Refusal.{Refusal};
ghost use Rattle.pe_layout.specs.Image.{image_of_file};
ghost use Rattle.pe_tables.specs.Exports.{exports_of};
ghost use Rattle.pe_tables.specs.ExportsView.{exports_view};
ghost use Rattle.pe_tables.specs.Fixups.{fixups_of};
ghost use Rattle.pe_tables.specs.Imports.{imports_of};
ghost use Rattle.pe_tables.specs.ImportView.{import_view};
ghost use Rattle.pe_records_c.specs.TableTests.{file_export_tests, file_import_tests, file_relocation_tests};
ghost use Rattle.pe_image.specs.Wants.{ExportsTakeMemory, ImportsTakeMemory, FixupsTakeMemory};
ghost use Rattle.pe_records_c.specs.Wants.{IsLaidOutAnd};

use pe_image::{lay_out, read_relocations};
use pe_tables::{Exports, Fixup, Import, read_exports, read_imports};
use pe_view::Refusal;
use std::alloc::Global;

/// The exports of a file's image, or the first fault of its headers and sections (1 to 15) and of its export table (16 to 22), or
/// out of memory. ("PE Format": The .edata Section.)
pub fn exports_in(alloc: Global, file: &[u8]) -> Result<Exports<'_, Global>, Refusal>
    ensures exact { AnswersOrWants (file_export_tests file.now) (λ exports. exports_view exports ≡ exports_of (image_of_file 0 file.now)) result }
    ensures memory { IsErrOf result Refusal.Memory → IsLaidOutAnd ExportsTakeMemory file.now }
{
    let layout = lay_out(file, 0)?;
    read_exports(alloc, &layout)
}

/// The imports of a file's image, or the first fault of its headers and sections (1 to 15) and of its import table (24 to 32), or
/// out of memory. ("PE Format": The .idata Section.)
pub fn imports_in(alloc: Global, file: &[u8]) -> Result<Vec<Import<'_>, Global>, Refusal>
    ensures exact { AnswersOrWants (file_import_tests file.now) (λ imports. map import_view imports.items ≡ imports_of (image_of_file 0 file.now)) result }
    ensures memory { IsErrOf result Refusal.Memory → IsLaidOutAnd ImportsTakeMemory file.now }
{
    let layout = lay_out(file, 0)?;
    read_imports(alloc, &layout)
}

/// The base relocations of a file's image, or the first fault of its headers and sections (1 to 15), of its imports (24 to 32)
/// and of its base relocation table (33 to 38), or out of memory. ("PE Format": The .reloc Section.)
pub fn fixups_in(alloc: Global, file: &[u8]) -> Result<Vec<Fixup, Global>, Refusal>
    ensures exact { AnswersOrWants (file_relocation_tests file.now) (λ fixups. fixups.items ≡ fixups_of (image_of_file 0 file.now)) result }
    ensures memory { IsErrOf result Refusal.Memory → IsLaidOutAnd FixupsTakeMemory file.now }
{
    let layout = lay_out(file, 0)?;
    read_relocations(alloc, &layout)
}
