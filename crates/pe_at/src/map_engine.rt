//! `at_map`: the engine of `petool at --map`.

ghost use Rattle.std.specs.Prelude.{◌≡◌, ◌-◌, ◌^◌, ◌<◌, ◌↔◌, ℕ, List, IfOk, OnErr, IsErrOf};
ghost use Rattle.pe_set.specs.SetView.{entries_of};
ghost use Rattle.pe_text.specs.Engine.{Puts};
ghost use Rattle.pe_text.specs.FaultLine.{cycle_line};
ghost use Rattle.pe_text.specs.TextWriter.{IsReady, Adds};
ghost use Rattle.pe_at.specs.SetJudged.{IsSetJudged};

use crate::mapped_images::read_images;
use crate::mapped_place::write_addresses;
use pe_space::{MapError, Policy, SetEntry, open_space};
use pe_text::{Outcome, Sink, TextWriter, ToolError, refuse, write_cycle_line};
use pe_view::Fault;
use std::alloc::{AllocError, Allocator};

/// Adds the line of a cycle of forwarders, with its length.
fn refuse_cycle<W: Sink>(text: &mut TextWriter<W>, fault: Fault, length: u32) -> Outcome
    requires { IsReady W.failures text.old }
    ensures adds { Adds W.taken W.failures text.old text.new (cycle_line fault length) }
    ensures outcome { result ≡ Outcome.Refused fault }
{
    write_cycle_line(text, &fault, length);
    Outcome::Refused(fault)
}

/// Checks a set, and adds what is at addresses of its space, or the line of its first fault. If memory runs out, it adds nothing.
fn write_map<A: Allocator + Copy, W: Sink>(
    alloc: A,
    text: &mut TextWriter<W>,
    set: &[SetEntry],
    policy: Policy,
    addresses: &[u64],
) -> Result<Outcome, AllocError>
    requires { IsReady W.failures text.old }
    ensures same { text.new.writer.ghost_name ≡ text.old.writer.ghost_name }
    ensures adds { IfOk result (λ outcome. (added : List ℕ) × IsSetJudged policy (entries_of set.now) outcome added × Adds W.taken W.failures text.old text.new added) }
    ensures adds_none { OnErr result (text.new.writer.now ≡ text.old.writer.now) }
{
    match open_space(alloc, set, policy) {
        Ok(space) => {
            let images = read_images(alloc, &space, set, addresses)?;
            write_addresses(text, &space, set, &images, addresses);
            Ok(Outcome::Done)
        }
        Err(MapError::Fault(fault)) => Ok(refuse(text, fault)),
        Err(MapError::Cycle { fault, length }) => Ok(refuse_cycle(text, fault, length)),
        Err(MapError::Memory) => Err(AllocError),
    }
}

/// Maps a set of images, and writes what is at each of some addresses of the space: the number and the name of the image; what
/// `write_place` of `pe_at` says of the place, with the image at its base; what the slot there is bound to; and 16 bytes as they stand in
/// the space.
///
/// For a refused set the output is the line of its first fault, as of `map_report`. On the error `Write` the beginning of the output was
/// written, on `Memory` nothing; there is no `Read`. It takes the time of mapping the set, of the tables of the images that hold an
/// address, and for each address that of the image's tables and of the bindings. Condition: the writer has counted fewer than 2^64 - 1
/// failures so far.
pub fn at_map<A: Allocator + Copy, W: Sink>(
    alloc: A,
    set: &[SetEntry],
    policy: Policy,
    addresses: &[u64],
    writer: &mut W,
) -> Result<Outcome, ToolError>
    requires { W.failures writer.old < 2 ^ 64 - 1 }
    ensures puts { Puts (IsSetJudged policy (entries_of set.now)) (W.taken writer.old) (W.taken writer.new)
        (W.failures writer.old) (W.failures writer.new) result }
    ensures write { IsErrOf result ToolError.Write ↔ (W.failures writer.old < W.failures writer.new) }
{
    let mut text = TextWriter::new(writer);
    let Ok(outcome) = write_map(alloc, &mut text, set, policy, addresses) else {
        return Err(ToolError::Memory);
    };
    match text.finish() {
        Ok(()) => Ok(outcome),
        Err(_) => Err(ToolError::Write),
    }
}
