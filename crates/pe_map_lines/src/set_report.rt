//! `map_report`: the report of a mapped set, or the line of its first fault; and `map_report_unbound`, which adds the imports that
//! are bound to nothing.

ghost use Rattle.std.specs.Prelude.{◌≡◌, ◌≢◌, ◌-◌, ◌^◌, ◌<◌, ◌⊎◌, ◌↔◌, ℕ, List, None, Err, length, IfOk, OnErr, IsOk, IsErrOf};
ghost use Rattle.pe_view.specs.Faults.{first_standing};
ghost use Rattle.pe_set.specs.SetView.{entries_of};
ghost use Rattle.pe_set.specs.SetFaults.{names_tests};
ghost use Rattle.pe_text.specs.Engine.{Puts};
ghost use Rattle.pe_text.specs.TextWriter.{IsReady, Adds};
ghost use Rattle.pe_map_lines.specs.MapReport.{IsMapText};
ghost use Rattle.pe_map_lines.specs.UnboundImports.{IsUnboundText};

use crate::space_report::tell_opened;
use crate::unbound_imports::{told_after, unbound_imports, write_unbound};
use pe_space::{Policy, SetEntry, open_space};
use pe_text::{Outcome, Sink, TextWriter, ToolError};
use std::alloc::{AllocError, Allocator};

/// Checks a set and a window, and then adds the report or a fault's line. If memory runs out, it adds nothing.
fn write_map<A: Allocator + Copy, W: Sink>(
    alloc: A,
    text: &mut TextWriter<W>,
    set: &[SetEntry],
    policy: Policy,
    window: Option<(u64, u32)>,
) -> Result<Outcome, AllocError>
    requires { IsReady W.failures text.old }
    ensures same { text.new.writer.ghost_name ≡ text.old.writer.ghost_name }
    ensures adds { IfOk result (λ outcome. (added : List ℕ) × IsMapText policy (entries_of set.now) window outcome added × Adds W.taken W.failures text.old text.new added) }
    ensures adds_none { OnErr result (text.new.writer.now ≡ text.old.writer.now) }
    ensures no_memory { (length set.now ≡ 0) ⊎ (256 < length set.now) → IsOk result }
    ensures named { OnErr result (first_standing (names_tests (entries_of set.now)) ≡ None) }
{
    pe_set::laws::accepted_sets_are_sound();
    pe_space::laws::content_serves_at_all_bases();
    tell_opened(text, open_space(alloc, set, policy), set, window)
}

/// Maps a set of images and writes the report: a line for each image, with its number, name, base and SizeOfImage; a line for each
/// bound slot, by image and then in import order, with the RVAs of slot and export and the address in the slot; and the bytes of
/// the window, if there is one (its first address and its length), sixteen per line.
///
/// All faults are tested first: those of the set, as in `pe_space::map`, and then 54 if the window is not inside one image. For a
/// refused set or window the output is the line of the first fault; for fault 50 it ends with ` cycle ` and the length of the
/// cycle. On the error `Write` the beginning of the output was written, on `Memory` nothing; `Memory` comes only if an allocation
/// failed, and never if the names of the set have a fault or the set is empty. There is no `Read`. Condition: the writer has
/// counted fewer than 2^64 - 1 failures so far.
pub fn map_report<A: Allocator + Copy, W: Sink>(
    alloc: A,
    set: &[SetEntry],
    policy: Policy,
    window: Option<(u64, u32)>,
    writer: &mut W,
) -> Result<Outcome, ToolError>
    requires { W.failures writer.old < 2 ^ 64 - 1 }
    ensures puts { Puts (IsMapText policy (entries_of set.now) window) (W.taken writer.old) (W.taken writer.new)
        (W.failures writer.old) (W.failures writer.new) result }
    ensures write { IsErrOf result ToolError.Write ↔ (W.failures writer.old < W.failures writer.new) }
    ensures no_memory { (length set.now ≡ 0) ⊎ (256 < length set.now) → result ≢ Err ToolError.Memory }
    ensures named { IsErrOf result ToolError.Memory → first_standing (names_tests (entries_of set.now)) ≡ None }
{
    let mut text = TextWriter::new(writer);
    let Ok(outcome) = write_map(alloc, &mut text, set, policy, window) else {
        return Err(ToolError::Memory);
    };
    match text.finish() {
        Ok(()) => Ok(outcome),
        Err(_) => Err(ToolError::Write),
    }
}

/// Checks a set and a window, and then adds the report and a line for each import that is bound to nothing, or a fault's line. If
/// memory runs out, it adds nothing.
fn write_map_unbound<A: Allocator + Copy, W: Sink>(
    alloc: A,
    text: &mut TextWriter<W>,
    set: &[SetEntry],
    policy: Policy,
    window: Option<(u64, u32)>,
) -> Result<Outcome, AllocError>
    requires { IsReady W.failures text.old }
    ensures same { text.new.writer.ghost_name ≡ text.old.writer.ghost_name }
    ensures adds { IfOk result (λ outcome. (added : List ℕ) × IsUnboundText policy (entries_of set.now) window outcome added × Adds W.taken W.failures text.old text.new added) }
    ensures adds_none { OnErr result (text.new.writer.now ≡ text.old.writer.now) }
    ensures no_memory { (length set.now ≡ 0) ⊎ (256 < length set.now) → IsOk result }
    ensures named { OnErr result (first_standing (names_tests (entries_of set.now)) ≡ None) }
{
    let unbound = unbound_imports(alloc, set, policy)?;
    let outcome = write_map(alloc, text, set, policy, window)?;
    write_unbound(text, told_after(outcome, &unbound));
    Ok(outcome)
}

/// [`map_report`], and after a report a line for each import that is bound to nothing, by image and then in the order of its
/// imports: `unbound`, its image, the RVA of its slot, its module, and its name or `#` and its ordinal. With the policy `Strict` an
/// accepted set has none.
///
/// The set is checked twice, which takes twice the time; the imports that are bound to nothing are kept meanwhile. Everything else
/// is as with [`map_report`].
pub fn map_report_unbound<A: Allocator + Copy, W: Sink>(
    alloc: A,
    set: &[SetEntry],
    policy: Policy,
    window: Option<(u64, u32)>,
    writer: &mut W,
) -> Result<Outcome, ToolError>
    requires { W.failures writer.old < 2 ^ 64 - 1 }
    ensures puts { Puts (IsUnboundText policy (entries_of set.now) window) (W.taken writer.old) (W.taken writer.new)
        (W.failures writer.old) (W.failures writer.new) result }
    ensures write { IsErrOf result ToolError.Write ↔ (W.failures writer.old < W.failures writer.new) }
    ensures no_memory { (length set.now ≡ 0) ⊎ (256 < length set.now) → result ≢ Err ToolError.Memory }
    ensures named { IsErrOf result ToolError.Memory → first_standing (names_tests (entries_of set.now)) ≡ None }
{
    let mut text = TextWriter::new(writer);
    let Ok(outcome) = write_map_unbound(alloc, &mut text, set, policy, window) else {
        return Err(ToolError::Memory);
    };
    match text.finish() {
        Ok(()) => Ok(outcome),
        Err(_) => Err(ToolError::Write),
    }
}
