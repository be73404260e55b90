//! `import_at`: the import that an import address table entry belongs to.

ghost use Rattle.std.specs.Prelude.{◌≡◌, ◌==◌, IsTrue, IsErrOf, map, option_map};
ghost use Rattle.std.specs.List.{find};
ghost use Rattle.pe_view.specs.Faults.{AnswersOrWants};
ghost use Rattle.pe_view.specs.declared.refusal.Refusal.{Refusal};
ghost use Rattle.pe_layout.specs.Layout.{image_of};
ghost use Rattle.pe_tables.specs.ImportFaults.{import_tests};
ghost use Rattle.pe_tables.specs.Imports.{imports_of};
ghost use Rattle.pe_tables.specs.ImportView.{import_view};
ghost use Rattle.pe_tables.specs.TableFaults.{goes_past};

use pe_layout::Layout;
use pe_tables::{Import, TableError, read_imports};
use std::alloc::Allocator;

/// The first of these imports with this slot.
fn with_slot<'a>(imports: &[Import<'a>], slot: u32) -> Option<Import<'a>>
    ensures { option_map import_view result ≡ find (λ m. m.slot == slot) (map import_view imports.now) }
{
    for import in imports {
        if import.slot == slot {
            return Some(*import);
        }
    }
    None
}

/// The import whose import address table entry is at this RVA, or `None` if there is none; or the first fault of the imports (24
/// to 32), or out of memory. No other table is read. ("PE Format": The .idata Section.)
pub fn import_at<'a, A: Allocator + Copy>(
    alloc: A,
    layout: &Layout<'a>,
    slot: u32,
) -> Result<Option<Import<'a>>, TableError>
    ensures exact { AnswersOrWants (import_tests (image_of layout.now))
        (λ import. option_map import_view import ≡ find (λ m. m.slot == slot) (imports_of (image_of layout.now))) result }
    ensures memory { IsErrOf result Refusal.Memory → IsTrue (goes_past 31 (import_tests (image_of layout.now))) }
{
    let imports = read_imports(alloc, layout)?;
    Ok(with_slot(&imports, slot))
}
