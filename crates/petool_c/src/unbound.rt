//! Imports of a set that are bound to nothing: `petool_unbound`.

ghost use Rattle.std.specs.Prelude.{◌≡◌, ◌<◌, None, true, length, map};
ghost use Rattle.pe_view.specs.Faults.{first_standing};
ghost use Rattle.pe_set.specs.Set.{modules_of};
ghost use Rattle.pe_set.specs.SetErrors.{set_error};
ghost use Rattle.pe_set.specs.SetFaults.{names_tests};
ghost use Rattle.pe_unbound.specs.Unbound.{unbound_of};
ghost use Rattle.pe_records_c.specs.Faults.{IsAccepted, IsRefused};
ghost use Rattle.pe_records_c.specs.Rows.{TellsTable};
ghost use Rattle.pe_records_c.specs.SetRows.{entry_text, policy_of, IsJudged};
ghost use Rattle.pe_records_c.specs.UnboundRows.{unbound_row, unbound_text};

use pe_records_c::fault::FaultRecord;
use pe_records_c::set::{EntryRecord, refuse_set};
use pe_records_c::unbound::{UnboundRow, tell_unbound};
use std::alloc::Global;

/// Checks a set of images for one address space, in which a module that is not in the set is no fault, and reports the imports that
/// are therefore bound to nothing, so that their slots keep their bytes from the file: image by image and in the order of each
/// image's imports.
///
/// The status is 0; 4 if there are more of these imports than rows, which then hold the first of them; 1 with the first fault of the
/// set; or 2, out of memory, which never comes if a name has a fault (41, 42) or the set is empty. The count is that of all of these
/// imports; 1 and 2 leave it and the rows unchanged. For fault 50, a cycle of forwarders, `cycle` is the cycle's length; otherwise it
/// is unchanged.
#[unsafe(no_mangle)]
pub extern "C" fn petool_unbound<'a>(
    alloc: Global,
    set: &[EntryRecord<'a>],
    rows: &mut [UnboundRow<'a>],
    count: &mut usize,
    cycle: &mut u32,
    fault: &mut FaultRecord,
) -> u32
    ensures faults { IsJudged (set_error (policy_of true) (map entry_text set.now)) fault.old fault.new cycle.old cycle.new result }
    ensures table { IsAccepted result → TellsTable unbound_text unbound_row (unbound_of (modules_of (map entry_text set.now))) rows.old rows.new count.new result }
    ensures memory { result ≡ 2 → first_standing (names_tests (map entry_text set.now)) ≡ None }
    ensures not_empty { result ≡ 2 → 0 < length set.now }
    ensures rows_kept { IsRefused result → rows.new ≡ rows.old }
    ensures count_kept { IsRefused result → count.new ≡ count.old }
{
    match tell_unbound(alloc, set, rows, count) {
        Ok(status) => status,
        Err(error) => refuse_set(error, fault, cycle),
    }
}
