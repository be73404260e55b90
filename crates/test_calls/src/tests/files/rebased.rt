//! Files for other bases: the output of the engine, also over devices that fail.

use crate::tests::asserts::assert_holds;
use pe_text::{Outcome, Sink, ToolError, status};
use pe_tool::rebase;
use pe_vectors::files::{Vector, file_of};
use pe_vectors::{StepReader, StepWriter};
use pe_write::rebase_file;
use std::alloc::{Allocator, Global};
use std::process::Abort;

/// The base of the new files.
const BASE: u64 = 0x2000_0000;

/// How the devices of a run work: the most bytes per call, and the read, and the write of either output, that fails.
#[derive(Clone, Copy)]
pub(super) struct Devices {
    pub step: usize,
    pub failing_read: Option<u64>,
    pub failing_out: Option<u64>,
    pub failing_line: Option<u64>,
}

/// Devices without a failing call.
pub(super) const FINE: Devices = Devices {
    step: 7,
    failing_read: None,
    failing_out: None,
    failing_line: None,
};

/// The result of a run, and both outputs.
#[derive(Drop)]
pub(super) struct Run {
    pub answer: Result<Outcome, ToolError>,
    pub out: StepWriter,
    pub line: StepWriter,
}

/// Rebases V2 to this base with the memory of an allocator.
pub(super) fn rebased_over<A: Allocator + Copy>(
    rt: &impl Abort,
    alloc: Global,
    memory: A,
    devices: Devices,
) -> Run {
    assert!(rt; devices.step > 0);
    let file = file_of(alloc, Vector::V2).expect(rt, "memory");
    let mut reader = StepReader::new(&file, devices.step, devices.failing_read);
    let mut out = StepWriter::new(alloc, 0x800, devices.step, devices.failing_out).expect(
        rt, "memory",
    );
    let mut line = StepWriter::new(alloc, 0x100, devices.step, devices.failing_line).expect(
        rt, "memory",
    );
    let answer = rebase(memory, &mut reader, BASE, &mut out, &mut line);
    Run { answer, out, line }
}

/// V2 at this base.
pub(super) fn rebased_v2(rt: &impl Abort, alloc: Global) -> Vec<u8> {
    let file = file_of(alloc, Vector::V2).expect(rt, "memory");
    rebase_file(alloc, &file, BASE).expect(rt, "a file")
}

/// Whether a run has this result, and both outputs got these bytes.
fn has_written(run: &Run, answer: Result<Outcome, ToolError>, out: &[u8], line: &[u8]) -> bool {
    run.answer == answer && run.out.taken() == out && run.line.taken() == line
}

#[test]
fn a_rebased_file_goes_to_one_output_and_its_line_to_another(rt: HostRuntime) {
    let expected = rebased_v2(&rt, rt.alloc());
    for step in [1, 7, 0x1000] {
        let devices = Devices { step, ..FINE };
        let run = rebased_over(&rt, rt.alloc(), rt.alloc(), devices);
        assert_holds(
            &rt,
            step,
            has_written(&run, Ok(Outcome::Done), &expected, LINE),
        );
        assert_holds(&rt, step, status(&run.answer) == 0);
    }
}

/// Devices with one failing call, the error, how many bytes of the file and which of its line were written, and the failures that
/// the two outputs counted.
type Failure = (Devices, ToolError, usize, &'static [u8], (u64, u64));

const FAILURES: &[Failure] = &[
    (
        Devices {
            failing_read: Some(3),
            ..FINE
        },
        ToolError::Read,
        0,
        b"",
        (0, 0),
    ),
    (
        Devices {
            failing_out: Some(2),
            ..FINE
        },
        ToolError::Write,
        14,
        b"",
        (1, 0),
    ),
    (
        Devices {
            failing_line: Some(1),
            ..FINE
        },
        ToolError::Write,
        0x600,
        b"rebased",
        (0, 1),
    ),
];

/// Asserts what the outputs got and counted with these devices.
fn assert_failure(rt: &impl Abort, alloc: Global, case: usize, failure: &Failure, file: &[u8]) {
    let (devices, error, len, line, failures) = failure;
    let out = file.get(..*len).expect(rt, "bytes of the file");
    let run = rebased_over(rt, alloc, alloc, *devices);
    assert_holds(rt, case, has_written(&run, Err(*error), out, line));
    let found = (run.out.failures(), run.line.failures());
    assert_holds(rt, case, found == *failures);
}

#[test]
fn the_output_that_fails_counts_it(rt: HostRuntime) {
    let file = rebased_v2(&rt, rt.alloc());
    for (index, failure) in FAILURES.iter().enumerate() {
        assert_failure(&rt, rt.alloc(), index, failure, &file);
    }
}

/// A device of a run.
#[derive(Clone, Copy)]
enum Device {
    Reader,
    Out,
    Line,
}

/// Devices of which one fails at the call with this number.
fn failing(step: usize, device: Device, call: u64) -> Devices {
    let fine = Devices { step, ..FINE };
    match device {
        Device::Reader => Devices {
            failing_read: Some(call),
            ..fine
        },
        Device::Out => Devices {
            failing_out: Some(call),
            ..fine
        },
        Device::Line => Devices {
            failing_line: Some(call),
            ..fine
        },
    }
}

/// The line of V2 at 0x20000000.
const LINE: &[u8] = b"rebased 0x0000000020000000\n";

/// Whether the output is a beginning, and not the whole.
fn is_beginning(written: &[u8], whole: &[u8]) -> bool {
    written.len() < whole.len() && whole.starts_with(written)
}

/// Whether a run in which a device failed has the right result and outputs.
fn has_failed(run: &Run, device: Device, file: &[u8]) -> bool {
    let (out, line) = (run.out.taken(), run.line.taken());
    let (error, is_out, is_line) = match device {
        Device::Reader => (ToolError::Read, out.is_empty(), line.is_empty()),
        Device::Out => (ToolError::Write, is_beginning(out, file), line.is_empty()),
        Device::Line => (ToolError::Write, *out == *file, is_beginning(line, LINE)),
    };
    run.answer == Err(error) && is_out && is_line
}

/// Whether rebasing V2 is right if a call of a device fails, or `None` if no call failed.
fn is_told(
    rt: &impl Abort,
    alloc: Global,
    devices: Devices,
    device: Device,
    file: &[u8],
) -> Option<bool> {
    let run = rebased_over(rt, alloc, alloc, devices);
    if run.answer == Ok(Outcome::Done) {
        return None;
    }
    Some(has_failed(&run, device, file))
}

/// Asserts that rebasing V2 is right if each call of a device fails in turn.
fn assert_each_fails(rt: &impl Abort, alloc: Global, step: usize, device: Device, file: &[u8]) {
    for call in 0..0x1000_u64 {
        match is_told(rt, alloc, failing(step, device, call), device, file) {
            Some(is_told) => assert_holds(rt, step, is_told),
            None => {
                assert_holds(rt, step, call > 0);
                return;
            }
        }
    }
    assert_holds(rt, step, false);
}

#[test]
fn each_read_and_each_write_that_fails_is_told(rt: HostRuntime) {
    let file = rebased_v2(&rt, rt.alloc());
    for step in [1, 7, 64, 4096] {
        for device in [Device::Reader, Device::Out, Device::Line] {
            assert_each_fails(&rt, rt.alloc(), step, device, &file);
        }
    }
}
