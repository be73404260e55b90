//! The report of a space of images, and what is told of a set that was opened or refused.

ghost use Rattle.std.specs.Prelude.{◌≡◌, ◌≤◌, ◌<◌, ◌^◌, ℕ, List, All, None, Err, length, map, IfOk, OnErr};
ghost use Rattle.pe_space.specs.Content.{placement_of};
ghost use Rattle.pe_space.specs.ImagesApart.{ImagesApart};
ghost use Rattle.pe_text.specs.FaultLine.{cycle_line};
ghost use Rattle.pe_text.specs.TextWriter.{IsReady, Adds};
ghost use Rattle.pe_map_lines.specs.MapReport.{export_address};
ghost use Rattle.pe_map_lines.specs.SpaceReport.{space_text, space_fault, IsAnswerText, IsSpaceReport, IsTellable};

use crate::map_lines::{write_bindings, write_images, write_window};
use crate::window::window_fault;
use pe_space::{FileSpace, MapError, SetEntry, Space};
use pe_text::{Outcome, Sink, TextWriter, refuse, write_cycle_line};
use pe_view::Fault;
use std::alloc::{AllocError, Allocator};

/// Adds the report of a space; `set` has the images' names.
fn write_space<S: Space, W: Sink>(
    text: &mut TextWriter<W>,
    space: &S,
    set: &[SetEntry],
    window: Option<(u64, u32)>,
)
    requires ready { IsReady W.failures text.old }
    requires tellable { IsTellable set.now (S.content space.now) }
    requires window { space_fault (S.content space.now) window ≡ None }
    ensures { Adds W.taken W.failures text.old text.new (space_text set.now (S.content space.now) window) }
{
    write_images(text, space, set);
    write_bindings(text, space);
    if let Some((address, count)) = window {
        write_window(text, space, address, count);
    }
    text.text(b"end\n");
}

/// Tests where the window is, and then adds the report of a space, or the line of fault 54.
fn tell_space<S: Space, W: Sink>(
    text: &mut TextWriter<W>,
    space: &S,
    set: &[SetEntry],
    window: Option<(u64, u32)>,
) -> Outcome
    requires ready { IsReady W.failures text.old }
    requires tellable { IsTellable set.now (S.content space.now) }
    ensures { (added : List ℕ) × IsSpaceReport set.now (S.content space.now) window result added × Adds W.taken W.failures text.old text.new added }
{
    if let Some((address, count)) = window
        && let Some(fault) = window_fault(space, address, count)
    {
        return refuse(text, fault);
    }
    write_space(text, space, set, window);
    Outcome::Done
}

/// Adds the line of a cycle of forwarders, with its length.
fn refuse_cycle<W: Sink>(text: &mut TextWriter<W>, fault: Fault, length: u32) -> Outcome
    requires { IsReady W.failures text.old }
    ensures adds { Adds W.taken W.failures text.old text.new (cycle_line fault length) }
    ensures outcome { result ≡ Outcome.Refused fault }
{
    write_cycle_line(text, &fault, length);
    Outcome::Refused(fault)
}

/// Adds the report of the space that a set was opened as, or the line of the error that refused it. If memory ran out, it adds
/// nothing.
pub(crate) fn tell_opened<A: Allocator + Copy, W: Sink>(
    text: &mut TextWriter<W>,
    opened: Result<FileSpace<'_, A>, MapError>,
    set: &[SetEntry],
    window: Option<(u64, u32)>,
) -> Result<Outcome, AllocError>
    requires ready { IsReady W.failures text.old }
    requires tellable { IfOk opened (IsTellable set.now) }
    ensures same { text.new.writer.ghost_name ≡ text.old.writer.ghost_name }
    ensures adds { IfOk result (λ outcome. (added : List ℕ) × IsAnswerText set.now window opened.entry outcome added × Adds W.taken W.failures text.old text.new added) }
    ensures adds_none { OnErr result (text.new.writer.now ≡ text.old.writer.now) }
    ensures memory { OnErr result (opened.entry ≡ Err MapError.Memory) }
{
    match opened {
        Ok(space) => Ok(tell_space(text, &space, set, window)),
        Err(MapError::Fault(fault)) => Ok(refuse(text, fault)),
        Err(MapError::Cycle { fault, length }) => Ok(refuse_cycle(text, fault, length)),
        Err(MapError::Memory) => Err(AllocError),
    }
}
