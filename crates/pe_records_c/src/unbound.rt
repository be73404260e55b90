//! `UnboundRow`: an import that is bound to nothing, as C has it; and those of a set.

ghost use Rattle.std.specs.Prelude.{◌≡◌, ◌++◌, ◌∷◌, [], ◌+◌, ◌*◌, ◌<◌, ◌≤◌, ◌^◌, ℕ, List, All, IsErr, IsErrOf, None, true, length, map, unwrap_or};
ghost use Rattle.std.specs.List.{filter_map};
ghost use Rattle.pe_view.specs.Faults.{first_standing};
ghost use Rattle.pe_tables.specs.ImportView.{import_view};
ghost use Rattle.pe_tables.specs.Imports as tables;
ghost use Rattle.pe_set.specs.Bindings.{binding_of, bindings_of};
ghost use Rattle.pe_set.specs.Set as set;
ghost use Rattle.pe_set.specs.Set.{modules_of};
ghost use Rattle.pe_set.specs.SetErrors.{set_error, SetAnswers};
ghost use Rattle.pe_set.specs.SetFaults.{names_tests};
ghost use Rattle.pe_set.specs.SetView.{modules_view};
ghost use Rattle.pe_set.specs.declared.binding.Binding.{Binding};
ghost use Rattle.pe_unbound.specs.Unbound.{after_slot, kept_unless, unbound_import, unbound_of, HaveOwnSlots};
ghost use Rattle.pe_records_c.specs.Rows.{TellsTable};
ghost use Rattle.pe_records_c.specs.SetRows.{entry_text, policy_of};
ghost use Rattle.pe_records_c.specs.UnboundRows.{unbound_row, unbound_text, IsPut};

use crate::import::ImportRow;
use crate::row::{Row, table_status};
use crate::set::{EntryRecord, judged};
use pe_set::{Binding, MapError, Module};
use pe_tables::Import;
use pe_unbound::after_slot;
use std::alloc::Global;

/// An import of an image of a set that is bound to nothing, since its search comes to a module that is not in the set.
#[repr(C)]
#[derive(Clone, Copy)]
pub struct UnboundRow<'a> {
    /// The module that exports it, as written in the image.
    pub module: &'a [u8],
    /// The name; empty for an import by ordinal.
    pub name: &'a [u8],
    /// The ordinal of an import by ordinal; otherwise 0.
    pub ordinal: u64,
    /// The index of the entry whose image has the slot.
    pub image: u32,
    /// The RVA of the slot, which keeps its bytes from the file.
    pub slot: u32,
    /// Whether it is imported by ordinal.
    pub by_ordinal: bool,
}

impl<'a> UnboundRow<'a> {
    /// An import of an image as C has it.
    fn of(image: u16, import: &Import<'a>) -> UnboundRow<'a>
        ensures { unbound_text result ≡ unbound_row (image, import_view import.now) }
    {
        let row = ImportRow::of(import);
        UnboundRow {
            module: row.module,
            name: row.name,
            ordinal: row.ordinal,
            image: u32::from(image),
            slot: row.slot,
            by_ordinal: row.by_ordinal,
        }
    }
}

/// Fills the row after the first `count` ones with an import of an image, if there is room for it.
fn put_next<'a>(rows: &mut [UnboundRow<'a>], count: usize, image: u16, import: &Import<'a>)
    ensures { (first : List (ℕ × tables.Import)) (old : List UnboundRow) → IsPut first old rows.old count
        → IsPut (first ++ ((image, import_view import.now) ∷ [])) old rows.new (count + 1) }
{
    if count < rows.len() {
        rows[count] = UnboundRow::of(image, import);
    }
}

/// Adds an import of an image to the first `count` rows unless the first binding is that of its slot, and returns the bindings of
/// later imports.
fn put_one<'a, 'b>(
    number: u16,
    import: &Import<'a>,
    bindings: &'b [Binding],
    rows: &mut [UnboundRow<'a>],
    count: &mut usize,
) -> &'b [Binding]
    requires { count.old < 2 ^ 63 }
    ensures left { result.now ≡ unwrap_or (after_slot bindings.now number import.now.slot) bindings.now }
    ensures put { (first : List (ℕ × tables.Import)) (old : List UnboundRow) → IsPut first old rows.old count.old
        → IsPut (first ++ kept_unless (after_slot bindings.now number import.now.slot) (number, import_view import.now)) old rows.new count.new }
    ensures few { count.new ≤ count.old + 1 }
{
    match after_slot(bindings, number, import.slot) {
        Some(left) => left,
        None => {
            put_next(rows, *count, number, import);
            *count += 1;
            bindings
        }
    }
}

/// Adds the imports of an image that are bound to nothing, and returns the bindings of later images. `bindings` are those of this
/// image and later ones.
fn put_image<'a, 'b>(
    number: u16,
    imports: &[Import<'a>],
    bindings: &'b [Binding],
    rows: &mut [UnboundRow<'a>],
    count: &mut usize,
) -> &'b [Binding]
    requires few { length imports.now ≤ 1048576 }
    requires room { count.old ≤ 1048576 * 256 }
    ensures put { (s : List set.Module) (later : List Binding) (first : List (ℕ × tables.Import)) (old : List UnboundRow)
        → bindings.now ≡ filter_map (binding_of s number) (map import_view imports.now) ++ later
        → All (λ b. number < b.image) later → HaveOwnSlots (map import_view imports.now) → IsPut first old rows.old count.old
        → (result.now ≡ later) × IsPut (first ++ filter_map (unbound_import s number) (map import_view imports.now)) old rows.new count.new }
    ensures few { count.new ≤ count.old + length imports.now }
{
    let mut left = bindings;
    for import in imports {
        left = put_one(number, import, left, rows, count);
    }
    left
}

/// Fills the first rows with the imports of images that are bound to nothing, given all bindings, and returns how many there are.
/// It takes a step for each import, and allocates nothing.
fn put_unbound<'a>(
    modules: &[Module<'a, Global>],
    bindings: &[Binding],
    rows: &mut [UnboundRow<'a>],
) -> usize
    requires few { length modules.now ≤ 256 }
    requires bound { bindings.now ≡ bindings_of (modules_view modules.now) }
    requires apart { All (λ (m : set.Module). HaveOwnSlots m.imports) (modules_view modules.now) }
    requires small { All (λ (m : set.Module). length m.imports ≤ 1048576) (modules_view modules.now) }
    ensures { IsPut (unbound_of (modules_view modules.now)) rows.old rows.new result }
{
    let mut count = 0;
    let mut left = bindings;
    for (number, module) in modules.iter().enumerate() {
        let imports = module.image.imports.as_slice();
        left = put_image(number as u16, imports, left, rows, &mut count);
    }
    count
}

/// Reads and checks a set, in which a module that is not there is no fault, and reports the imports that are bound to nothing: fills
/// the rows, counts the imports, and returns the status, 0 or 4; or returns the set's first error. Past the check it allocates
/// nothing.
pub fn tell_unbound<'a>(
    alloc: Global,
    set: &[EntryRecord<'a>],
    rows: &mut [UnboundRow<'a>],
    count: &mut usize,
) -> Result<u32, MapError>
    ensures table { SetAnswers (set_error (policy_of true) (map entry_text set.now))
        (λ status. TellsTable unbound_text unbound_row (unbound_of (modules_of (map entry_text set.now))) rows.old rows.new count.new status) result }
    ensures named { IsErrOf result MapError.Memory → first_standing (names_tests (map entry_text set.now)) ≡ None }
    ensures not_empty { IsErrOf result MapError.Memory → 0 < length set.now }
    ensures rows_kept { IsErr result → rows.new ≡ rows.old }
    ensures count_kept { IsErr result → count.new ≡ count.old }
{
    pe_layout::laws::images_are_small();
    pe_tables::laws::slots_are_apart();
    pe_tables::laws::fields_are_apart();
    pe_tables::laws::targets_are_inside();
    pe_set::laws::accepted_sets_have_no_fault();
    let accepted = judged(alloc, set, true)?;
    *count = put_unbound(&accepted.modules, &accepted.bindings, rows);
    Ok(table_status(*count, rows.len()))
}
