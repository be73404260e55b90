//! The engines that read one file, and the report of a set, run over devices that work in steps and fail.

ghost use Rattle.std.specs.Prelude.{◌≡◌, ◌<◌};

use coff_lines::dump_object;
use pe_at::at;
use pe_json::json;
use pe_lines::{check, dump};
use pe_map_lines::map_report;
use pe_show::{ShowOptions, show};
use pe_space::{Policy, SetEntry};
use pe_text::{Outcome, ToolError};
use pe_vectors::{StepReader, StepWriter};
use pe_view::Place;
use std::alloc::{AllocError, Allocator, Global};

/// An engine that reads one file.
#[derive(Clone, Copy)]
pub(super) enum Engine {
    Check,
    Dump,
    Object,
    Show,
    Json,
    At,
}

/// The name of the file in views.
const NAME: &[u8] = b"a.dll";

/// The place that `at` shows.
const PLACE: Place = Place::Rva(0x40);

/// How the reader and the writer of a run work: the most bytes per call, and the read and the write that fail.
#[derive(Clone, Copy)]
pub(super) struct Devices {
    pub step: usize,
    pub failing_read: Option<u64>,
    pub failing_write: Option<u64>,
}

/// Devices without a failing call.
pub(super) fn steps_of(step: usize) -> Devices
    ensures { result.step ≡ step }
{
    Devices {
        step,
        failing_read: None,
        failing_write: None,
    }
}

/// The result of an engine, and the writer with its output.
pub(super) type Answered = (Result<Outcome, ToolError>, StepWriter);

/// Runs an engine with the memory of an allocator, which may run out. An error means that the writer's own 0x2000 bytes could not
/// be allocated.
pub(super) fn run_over<A: Allocator + Copy>(
    alloc: Global,
    memory: A,
    engine: Engine,
    file: &[u8],
    devices: Devices,
) -> Result<Answered, AllocError>
    requires { 0 < devices.step }
{
    let mut reader = StepReader::new(file, devices.step, devices.failing_read);
    let mut writer = StepWriter::new(alloc, 0x2000, devices.step, devices.failing_write)?;
    let answer = match engine {
        Engine::Check => check(memory, &mut reader, &mut writer),
        Engine::Dump => dump(memory, &mut reader, &mut writer),
        Engine::Object => dump_object(memory, &mut reader, &mut writer),
        Engine::Show => show(
            memory,
            NAME,
            &ShowOptions::ALL_ROWS,
            &mut reader,
            &mut writer,
        ),
        Engine::Json => json(memory, NAME, None, &mut reader, &mut writer),
        Engine::At => at(memory, PLACE, &mut reader, &mut writer),
    };
    Ok((answer, writer))
}

/// Runs an engine with enough memory.
pub(super) fn run(
    alloc: Global,
    engine: Engine,
    file: &[u8],
    devices: Devices,
) -> Result<Answered, AllocError>
    requires { 0 < devices.step }
{
    run_over(alloc, alloc, engine, file, devices)
}

/// Reports a set, perhaps with a window, with the memory of an allocator, which may run out. An error means that the writer's own
/// 0x800 bytes could not be allocated.
pub(super) fn report_over<A: Allocator + Copy>(
    alloc: Global,
    memory: A,
    set: &[SetEntry],
    window: Option<(u64, u32)>,
    devices: Devices,
) -> Result<Answered, AllocError>
    requires { 0 < devices.step }
{
    let mut writer = StepWriter::new(alloc, 0x800, devices.step, devices.failing_write)?;
    let answer = map_report(memory, set, Policy::Strict, window, &mut writer);
    Ok((answer, writer))
}
