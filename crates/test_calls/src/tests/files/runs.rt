//! Engines over devices that work in steps and fail: the output is the same in all steps, and each failure is reported after a
//! beginning of it.

ghost use Rattle.std.specs.Prelude.{◌≡◌, ◌<◌};

use super::engines::{Answered, Devices, Engine, report_over, run, steps_of};
use crate::tests::asserts::assert_holds;
use pe_lines::check;
use pe_map_lines::map_report;
use pe_space::{Policy, SetEntry};
use pe_text::{Outcome, ToolError, status};
use pe_vectors::files::{Piece, VECTORS, Vector, file_of, put_pieces};
use pe_vectors::members::{A, B, C, files_of, set_of};
use pe_vectors::objects::O1;
use pe_vectors::{StepReader, StepWriter, vf};
use pe_view::{Fault, Place};
use std::alloc::Global;
use std::process::Abort;

/// How many bytes devices return or take per call.
const STEPS: [usize; 4] = [1, 7, 64, 4096];

/// The window of the slot of `c.exe`.
const WINDOW: Option<(u64, u32)> = Some((0x40_1030, 4));

/// What is run.
#[derive(Clone, Copy)]
enum Work<'a> {
    /// An engine over a file.
    File(Engine, &'a [u8]),
    /// The report of a set, with a window of the slot of `c.exe`.
    Set(&'a [SetEntry<'a>]),
}

/// Runs it with these devices.
fn run_work(rt: &impl Abort, alloc: Global, work: Work, devices: Devices) -> Answered
    requires { 0 < devices.step }
{
    match work {
        Work::File(engine, file) => run(alloc, engine, file, devices).expect(rt, "memory"),
        Work::Set(set) => report_over(alloc, alloc, set, WINDOW, devices).expect(rt, "memory"),
    }
}

/// The result of a run, and its output.
type Text<'a> = (Result<Outcome, ToolError>, &'a [u8]);

/// Whether a run in steps has this result and output.
fn gives(rt: &impl Abort, alloc: Global, work: Work, step: usize, text: Text) -> bool
    requires { 0 < step }
{
    let (answer, writer) = run_work(rt, alloc, work, steps_of(step));
    answer == text.0 && writer.taken() == text.1
}

/// Asserts that all steps have the same output.
fn assert_any_steps(rt: &impl Abort, alloc: Global, work: Work) {
    let (expected, whole) = run_work(rt, alloc, work, steps_of(0x1_0000));
    assert!(rt; expected.is_ok() && !whole.taken().is_empty());
    let text = (expected, whole.taken());
    for step in STEPS {
        assert!(rt; step > 0);
        assert_holds(rt, step, gives(rt, alloc, work, step, text));
    }
}

/// A device of a run.
#[derive(Clone, Copy)]
enum Device {
    Reader,
    Writer,
}

/// Devices of which one fails at a call.
fn failing(step: usize, device: Device, call: u64) -> Devices
    ensures { result.step ≡ step }
{
    let fine = steps_of(step);
    match device {
        Device::Reader => Devices {
            failing_read: Some(call),
            ..fine
        },
        Device::Writer => Devices {
            failing_write: Some(call),
            ..fine
        },
    }
}

/// Whether the output is a beginning of a text, and not the whole.
fn is_beginning(written: &[u8], whole: &[u8]) -> bool {
    written.len() < whole.len() && whole.starts_with(written)
}

/// Whether a run in which a device failed has the right result: that reading failed, with no output, or that writing failed, after
/// a beginning of the text.
fn has_failed(
    answer: Result<Outcome, ToolError>,
    device: Device,
    taken: &[u8],
    whole: &[u8],
) -> bool {
    let (error, is_taken) = match device {
        Device::Reader => (ToolError::Read, taken.is_empty()),
        Device::Writer => (ToolError::Write, is_beginning(taken, whole)),
    };
    answer == Err(error) && status(&answer) == 3 && is_taken
}

/// Whether a run is right if a call of a device fails, or `None` if no call failed.
fn is_told(
    rt: &impl Abort,
    alloc: Global,
    work: Work,
    devices: Devices,
    device: Device,
    whole: &[u8],
) -> Option<bool>
    requires { 0 < devices.step }
{
    let (answer, writer) = run_work(rt, alloc, work, devices);
    if answer == Ok(Outcome::Done) {
        return None;
    }
    Some(has_failed(answer, device, writer.taken(), whole))
}

/// Asserts that a run is right if each call of a device fails in turn; there must be more than a given number of calls.
fn assert_each_fails(
    rt: &impl Abort,
    alloc: Global,
    work: Work,
    step: usize,
    device: Device,
    least: u64,
)
    requires { 0 < step }
{
    let (_, whole) = run_work(rt, alloc, work, steps_of(step));
    for call in 0..0x1000_u64 {
        match is_told(
            rt,
            alloc,
            work,
            failing(step, device, call),
            device,
            whole.taken(),
        ) {
            Some(is_told) => assert_holds(rt, step, is_told),
            None => {
                assert_holds(rt, step, call > least);
                return;
            }
        }
    }
    assert_holds(rt, step, false);
}

/// Asserts that a run is right if each read fails in turn, in all steps.
fn assert_reads_fail(rt: &impl Abort, alloc: Global, work: Work) {
    for step in STEPS {
        assert!(rt; step > 0);
        assert_each_fails(rt, alloc, work, step, Device::Reader, 1);
    }
}

/// Asserts that a run is right if each write fails in turn, in these steps.
fn assert_writes_fail(rt: &impl Abort, alloc: Global, work: Work, steps: &[usize]) {
    for step in steps {
        assert!(rt; *step > 0);
        assert_each_fails(rt, alloc, work, *step, Device::Writer, 0);
    }
}

/// Asserts that all steps have the same output for a file.
fn assert_same_texts(rt: &impl Abort, alloc: Global, file: &[u8]) {
    assert_any_steps(rt, alloc, Work::File(Engine::Check, file));
    assert_any_steps(rt, alloc, Work::File(Engine::Dump, file));
}

#[test]
fn any_steps_give_the_same_text(rt: HostRuntime) {
    for vector in VECTORS {
        let file = file_of(rt.alloc(), vector).expect(&rt, "memory");
        assert_same_texts(&rt, rt.alloc(), &file);
    }
    assert_any_steps(&rt, rt.alloc(), Work::File(Engine::Object, O1));
    // a file that is refused
    assert_any_steps(&rt, rt.alloc(), Work::File(Engine::Check, O1));
}

/// Engines over small files.
const FAILING: &[(Engine, Vector)] = &[
    (Engine::Check, Vector::V1),
    (Engine::Dump, Vector::V1),
    (Engine::Dump, Vector::Vs),
];

/// The engines of views.
const VIEWS: [Engine; 3] = [Engine::Show, Engine::Json, Engine::At];

/// Asserts that a run is right if each call of either device fails in turn.
fn assert_each_call_fails(rt: &impl Abort, alloc: Global, work: Work) {
    assert_reads_fail(rt, alloc, work);
    assert_writes_fail(rt, alloc, work, &STEPS);
}

#[test]
fn each_read_and_each_write_of_a_view_that_fails_is_told(rt: HostRuntime) {
    let file = file_of(rt.alloc(), Vector::V1).expect(&rt, "memory");
    for engine in VIEWS {
        let work = Work::File(engine, &file);
        assert_any_steps(&rt, rt.alloc(), work);
        assert_each_fails(&rt, rt.alloc(), work, 64, Device::Reader, 1);
        assert_writes_fail(&rt, rt.alloc(), work, &[64, 4096]);
    }
}

#[test]
fn each_read_and_each_write_that_fails_is_told(rt: HostRuntime) {
    for (engine, vector) in FAILING {
        let file = file_of(rt.alloc(), *vector).expect(&rt, "memory");
        assert_each_call_fails(&rt, rt.alloc(), Work::File(*engine, &file));
    }
    assert_each_call_fails(&rt, rt.alloc(), Work::File(Engine::Object, O1));
}

/// Gives VF two forwarders that share a string, 2,100 and 2,500 letters before its end, in a section of 0x2000 bytes.
const LONG: &[Piece] = &[
    (0x91, &[0x40]),
    (0x141, &[0x20]),
    (0x149, &[0x20]),
    (0x248, &[0x90, 0x13, 0x00, 0x00, 0x00, 0x12]),
];

/// A library with two forwarders whose strings have over 2,000 bytes, more than a writer buffers.
fn long_texts(rt: &impl Abort, alloc: Global) -> Vec<u8> {
    let mut file = vf(alloc, 2).expect(rt, "memory");
    put_pieces(&mut file, LONG).expect(rt, "pieces in the file");
    file.truncate(0x400);
    file.resize(0x400 + 2_500, b'm').expect(rt, "memory");
    file.extend_from_slice(b".#0").expect(rt, "memory");
    file.resize(0x2200, 0).expect(rt, "memory");
    file
}

#[test]
fn a_write_that_fails_beneath_a_long_text_is_told(rt: HostRuntime) {
    let file = long_texts(&rt, rt.alloc());
    let (_, whole) = run(rt.alloc(), Engine::Dump, &file, steps_of(64)).expect(&rt, "memory");
    assert!(rt; whole.taken().len() > 4_600);
    assert_writes_fail(
        &rt,
        rt.alloc(),
        Work::File(Engine::Dump, &file),
        &[64, 4096],
    );
}

/// Asserts that all steps have the same output, and that a run is right if each write fails in turn.
fn assert_text(rt: &impl Abort, alloc: Global, work: Work) {
    assert_any_steps(rt, alloc, work);
    assert_writes_fail(rt, alloc, work, &STEPS);
}

#[test]
fn a_report_is_the_same_in_any_steps_and_each_write_that_fails_is_told(rt: HostRuntime) {
    let members = [A, B, C];
    let files = files_of(rt.alloc(), &members).expect(&rt, "files");
    let set = set_of(rt.alloc(), &members, &files).expect(&rt, "memory");
    assert_text(&rt, rt.alloc(), Work::Set(&set));
}

/// A policy, a window, and the result and output of the report of no image.
type Report = (
    Policy,
    Option<(u64, u32)>,
    Result<Outcome, ToolError>,
    &'static [u8],
);

/// Fault 54 of address 0, which is in no image.
const NO_WINDOW: Outcome = Outcome::Refused(Fault {
    number: 54,
    image: 0xffff,
    place: Place::Address(0),
});

const NO_IMAGES: &[Report] = &[
    (Policy::Strict, None, Ok(Outcome::Done), b"end\n"),
    (Policy::Known, Some((0, 0)), Ok(Outcome::Done), b"end\n"),
    (
        Policy::Strict,
        Some((0, 1)),
        Ok(NO_WINDOW),
        b"fault 54 image 65535 address 0x0000000000000000\n",
    ),
];

#[test]
fn the_report_of_no_image_is_its_end(rt: HostRuntime) {
    for (index, (policy, window, answer, text)) in NO_IMAGES.iter().enumerate() {
        let mut writer = StepWriter::new(rt.alloc(), 0x100, 4096, None).expect(&rt, "memory");
        let found = map_report(rt.alloc(), &[], *policy, *window, &mut writer);
        assert_holds(&rt, index, found == *answer && writer.taken() == *text);
    }
}

#[test]
fn a_writer_without_room_fails_after_a_beginning(rt: HostRuntime) {
    let file = file_of(rt.alloc(), Vector::V1).expect(&rt, "memory");
    let mut reader = StepReader::new(&file, 4096, None);
    let mut writer = StepWriter::new(rt.alloc(), 10, 4096, None).expect(&rt, "memory");
    let answer = check(rt.alloc(), &mut reader, &mut writer);
    assert_holds(&rt, 0, answer == Err(ToolError::Write));
    assert_holds(&rt, 0, writer.taken() == b"accepted P".as_slice());
}
