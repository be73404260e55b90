//! `map_report_delayed`: the report of a mapped set whose delay-loaded imports are bound too.

ghost use Rattle.std.specs.Prelude.{◌≡◌, ◌≢◌, ◌-◌, ◌^◌, ◌<◌, ◌⊎◌, ◌↔◌, ℕ, List, None, Err, length, IfOk, OnErr, IsOk, IsErrOf};
ghost use Rattle.pe_view.specs.Faults.{first_standing};
ghost use Rattle.pe_set.specs.SetErrors.{set_error};
ghost use Rattle.pe_set.specs.SetView.{entries_of};
ghost use Rattle.pe_set.specs.SetFaults.{names_tests};
ghost use Rattle.pe_text.specs.Engine.{Puts};
ghost use Rattle.pe_text.specs.TextWriter.{IsReady, Adds};
ghost use Rattle.pe_map_lines.specs.DelayedReport.{IsDelayedReport, IsDelayedText, IsToldIn};

use crate::space_report::tell_opened;
use crate::unbound_imports::{UnboundImport, told_after, unbound_imports, write_unbound};
use pe_space::{Policy, SetEntry, open_space_delayed};
use pe_text::{Outcome, Sink, TextWriter, ToolError};
use std::alloc::{AllocError, Allocator};

/// Checks a set and a window, and then adds the report with delay-loaded imports, or a fault's line. If memory runs out, it adds
/// nothing.
fn write_delayed<A: Allocator + Copy, W: Sink>(
    alloc: A,
    text: &mut TextWriter<W>,
    set: &[SetEntry],
    policy: Policy,
    window: Option<(u64, u32)>,
) -> Result<Outcome, AllocError>
    requires { IsReady W.failures text.old }
    ensures same { text.new.writer.ghost_name ≡ text.old.writer.ghost_name }
    ensures adds { IfOk result (λ outcome. (added : List ℕ) × IsDelayedReport policy (entries_of set.now) window outcome added × Adds W.taken W.failures text.old text.new added) }
    ensures adds_none { OnErr result (text.new.writer.now ≡ text.old.writer.now) }
    ensures no_memory { (length set.now ≡ 0) ⊎ (256 < length set.now) → IsOk result }
    ensures named { OnErr result (first_standing (names_tests (entries_of set.now)) ≡ None) }
{
    pe_set::laws::delayed_sets_are_sound();
    pe_space::laws::delayed_content_serves_at_all_bases();
    tell_opened(text, open_space_delayed(alloc, set, policy), set, window)
}

/// The imports of a set that are bound to nothing, if they are asked for.
fn unbound_if<'a, A: Allocator + Copy>(
    alloc: A,
    set: &[SetEntry<'a>],
    policy: Policy,
    is_unbound: bool,
) -> Result<Vec<UnboundImport<'a>, A>, AllocError>
    ensures exact { IfOk result (λ unbound. set_error policy (entries_of set.now) ≡ None → IsToldIn is_unbound (entries_of set.now) unbound.items) }
    ensures no_memory { (length set.now ≡ 0) ⊎ (256 < length set.now) → IsOk result }
    ensures named { OnErr result (first_standing (names_tests (entries_of set.now)) ≡ None) }
{
    if is_unbound {
        unbound_imports(alloc, set, policy)
    } else {
        Ok(Vec::new(alloc))
    }
}

/// Checks a set and a window, and then adds the report with delay-loaded imports and what is asked for after it, or a fault's line.
/// If memory runs out, it adds nothing.
fn write_all<A: Allocator + Copy, W: Sink>(
    alloc: A,
    text: &mut TextWriter<W>,
    set: &[SetEntry],
    policy: Policy,
    is_unbound: bool,
    window: Option<(u64, u32)>,
) -> Result<Outcome, AllocError>
    requires { IsReady W.failures text.old }
    ensures same { text.new.writer.ghost_name ≡ text.old.writer.ghost_name }
    ensures adds { IfOk result (λ outcome. (added : List ℕ) × IsDelayedText is_unbound policy (entries_of set.now) window outcome added × Adds W.taken W.failures text.old text.new added) }
    ensures adds_none { OnErr result (text.new.writer.now ≡ text.old.writer.now) }
    ensures no_memory { (length set.now ≡ 0) ⊎ (256 < length set.now) → IsOk result }
    ensures named { OnErr result (first_standing (names_tests (entries_of set.now)) ≡ None) }
{
    pe_set::laws::delayed_sets_are_accepted_without();
    let unbound = unbound_if(alloc, set, policy, is_unbound)?;
    let outcome = write_delayed(alloc, text, set, policy, window)?;
    write_unbound(text, told_after(outcome, &unbound));
    Ok(outcome)
}

/// The report of [`map_report`](crate::map_report) for a set whose delay-loaded imports are bound too, unless the search for one comes
/// to a module that is not in the set; with `is_unbound` it has at its end the lines of
/// [`map_report_unbound`](crate::map_report_unbound), of the imports of import tables alone.
///
/// The slots of an image's delay-loaded imports come after those of its imports. Faults 49 and 50 are also those of delay-loaded
/// imports. Everything else is as there. ("PE Format": Delay-Load Import Tables.)
pub fn map_report_delayed<A: Allocator + Copy, W: Sink>(
    alloc: A,
    set: &[SetEntry],
    policy: Policy,
    is_unbound: bool,
    window: Option<(u64, u32)>,
    writer: &mut W,
) -> Result<Outcome, ToolError>
    requires { W.failures writer.old < 2 ^ 64 - 1 }
    ensures puts { Puts (IsDelayedText is_unbound policy (entries_of set.now) window) (W.taken writer.old) (W.taken writer.new)
        (W.failures writer.old) (W.failures writer.new) result }
    ensures write { IsErrOf result ToolError.Write ↔ (W.failures writer.old < W.failures writer.new) }
    ensures no_memory { (length set.now ≡ 0) ⊎ (256 < length set.now) → result ≢ Err ToolError.Memory }
    ensures named { IsErrOf result ToolError.Memory → first_standing (names_tests (entries_of set.now)) ≡ None }
{
    let mut text = TextWriter::new(writer);
    let Ok(outcome) = write_all(alloc, &mut text, set, policy, is_unbound, window) else {
        return Err(ToolError::Memory);
    };
    match text.finish() {
        Ok(()) => Ok(outcome),
        Err(_) => Err(ToolError::Write),
    }
}
