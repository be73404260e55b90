//! Sets of images: `petool_judge`.

ghost use Rattle.std.specs.Prelude.{◌≡◌, ◌<◌, None, length, map};
ghost use Rattle.pe_view.specs.Faults.{first_standing};
ghost use Rattle.pe_set.specs.Bindings.{bindings_of};
ghost use Rattle.pe_set.specs.Set.{modules_of};
ghost use Rattle.pe_set.specs.SetErrors.{set_error};
ghost use Rattle.pe_set.specs.SetFaults.{names_tests};
ghost use Rattle.pe_records_c.specs.Faults.{IsAccepted, IsRefused};
ghost use Rattle.pe_records_c.specs.Rows.{TellsTable};
ghost use Rattle.pe_records_c.specs.SetRows.{entry_text, binding_row, policy_of, IsJudged};

use pe_records_c::fault::FaultRecord;
use pe_records_c::row::put_table;
use pe_records_c::set::{BindingRow, EntryRecord, judged, refuse_set};
use std::alloc::Global;

/// Checks a set of images for one address space, and reports what their imports are bound to, image by image and in the order of
/// each image's imports. Images and their faults are numbered by entry. With `known`, an import that leads to a module that is not
/// in the set is no fault, and its slot is not bound.
///
/// The status is 0; 4 if there are more bindings than rows, which then hold the first bindings; 1 with the first fault of the set;
/// or 2, out of memory, which never comes if a name has a fault (41, 42) or the set is empty. The count is that of all bindings; 1
/// and 2 leave it and the rows unchanged. For fault 50, a cycle of forwarders, `cycle` is the cycle's length; otherwise it is
/// unchanged.
#[unsafe(no_mangle)]
pub extern "C" fn petool_judge(
    alloc: Global,
    set: &[EntryRecord],
    known: bool,
    rows: &mut [BindingRow],
    count: &mut usize,
    cycle: &mut u32,
    fault: &mut FaultRecord,
) -> u32
    ensures faults { IsJudged (set_error (policy_of known) (map entry_text set.now)) fault.old fault.new cycle.old cycle.new result }
    ensures table { IsAccepted result → TellsTable (λ row. row) binding_row (bindings_of (modules_of (map entry_text set.now))) rows.old rows.new count.new result }
    ensures memory { result ≡ 2 → first_standing (names_tests (map entry_text set.now)) ≡ None }
    ensures not_empty { result ≡ 2 → 0 < length set.now }
    ensures rows_kept { IsRefused result → rows.new ≡ rows.old }
    ensures count_kept { IsRefused result → count.new ≡ count.old }
{
    match judged(alloc, set, known) {
        Ok(accepted) => put_table(rows, accepted.bindings.as_slice(), count),
        Err(error) => refuse_set(error, fault, cycle),
    }
}
