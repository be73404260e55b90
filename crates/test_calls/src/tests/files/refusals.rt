//! Each public call that allocates, with too little memory: it returns out of memory, until there is enough for its result.

ghost use Rattle.std.specs.Prelude.{◌<◌};

use super::engines::{Devices, Engine, report_over, run as run_engine, run_over, steps_of};
use super::images_written::REFUSED;
use super::o1::{O1_SYMBOLS, fault_of, same_object};
use super::plans::{V2, plan_of};
use super::rebased::{FINE, rebased_over, rebased_v2};
use crate::tests::asserts::assert_holds;
use bumpalo::Bump;
use coff_object::{Object, ObjectError, ObjectFile, Symbol, read_object, write_object};
use pe_image::read_image;
use pe_set::{Binding, Module, judge};
use pe_space::{Command, MapError, Policy, SetEntry, Space, map, open_space, run};
use pe_tables::{Fixup, FixupKind, Import, Key, TableError, Target, ascending, encode_fixups};
use pe_text::{Outcome, ToolError, read_whole};
use pe_vectors::StepReader;
use pe_vectors::files::{Vector, file_of};
use pe_vectors::members::{A, B, C, files_of, names_of, repeated, set_of};
use pe_vectors::objects::O1;
use pe_vectors::same::{same_imports, same_names};
use pe_view::{Fault, Place};
use pe_write::{WriteError, rebase_file, write_image};
use std::alloc::Global;
use std::process::Abort;

/// The result of a call: the same as with enough memory, out of memory, or neither.
#[derive(Clone, Copy, Debug, PartialEq, Eq)]
enum Answer {
    Right,
    Memory,
    Wrong,
}

/// The result of a call that did not run out of memory.
fn right_if(is_right: bool) -> Answer {
    if is_right {
        Answer::Right
    } else {
        Answer::Wrong
    }
}

/// A call that allocates from an arena.
#[derive(Clone, Copy)]
enum Call {
    Encoding,
    Judge,
    Run,
    ReadObject,
    WriteObject,
    WriteImage,
    ReadWhole,
    Check,
    Dump,
    DumpObject,
    MapReport,
    Rebase,
    Show,
    Json,
    At,
}

/// The fixup of V2.
const FIXUPS: &[Fixup] = &[Fixup {
    entry: 0x2008,
    field: 0x1008,
    kind: FixupKind::Bits32,
}];

/// The encoded table of V2's fixup is that of its file, at 0x400.
fn encoding(rt: &impl Abort, alloc: Global, arena: &Bump) -> Answer {
    let file = file_of(alloc, Vector::V2).expect(rt, "memory");
    assert!(rt; ascending(FIXUPS));
    match encode_fixups(arena, FIXUPS) {
        Ok(table) => right_if(file.get(0x400..0x40c) == Some(table.as_slice())),
        Err(_) => Answer::Memory,
    }
}

/// The exports of VB by name.
const NAMES: &[(&[u8], Target)] = &[(b"g", Target::Rva(0x1010))];

/// The imports of VC.
const IMPORTS: &[Import] = &[Import {
    module: b"A.DLL",
    key: Key::Name(b"f"),
    slot: 0x1030,
}];

/// The base of an image, its exports by name, and its imports.
type Seen<'a> = (u64, &'a [(&'a [u8], Target<'a>)], &'a [Import<'a>]);

/// The images of A, B and C.
const MODULES: &[Seen] = &[
    (
        A.base,
        &[(
            b"f",
            Target::Forward {
                module: b"b",
                key: Key::Ordinal(7),
            },
        )],
        &[],
    ),
    (B.base, NAMES, &[]),
    (C.base, &[], IMPORTS),
];

/// Whether a module has this base, and these exports and imports.
fn is_module(found: &Module<'_, &Bump>, expected: &Seen) -> bool {
    let (base, names, imports) = expected;
    found.base == *base
        && same_names(found.image.exports.names(), names)
        && same_imports(&found.image.imports, imports)
}

/// Whether these are the modules.
fn are_seen(found: &[Module<'_, &Bump>], expected: &[Seen]) -> bool {
    if found.len() != expected.len() {
        return false;
    }
    for index in 0..found.len() {
        if !is_module(&found[index], &expected[index]) {
            return false;
        }
    }
    true
}

/// Whether these are the modules of A, B and C at their bases.
fn are_modules(found: &[Module<'_, &Bump>]) -> bool {
    are_seen(found, MODULES)
}

/// The binding of the slot of C to ordinal 7 of B.
const BINDINGS: &[Binding] = &[Binding {
    image: 2,
    slot: 0x1030,
    exporter: 1,
    rva: 0x1010,
}];

/// The bindings of an accepted set, and each module's base, exports and imports.
fn judging(arena: &Bump, set: &[SetEntry]) -> Answer {
    match judge(arena, set, Policy::Strict) {
        Ok(found) => {
            right_if(*found.bindings.as_slice() == *BINDINGS && are_modules(&found.modules))
        }
        Err(MapError::Memory) => Answer::Memory,
        Err(_) => Answer::Wrong,
    }
}

/// The first 0x3000 bytes at a base in a space.
fn bytes_of<S: Space>(rt: &impl Abort, space: &S, base: u64) -> [u8; 0x3000] {
    let mut bytes = [0; 0x3000];
    assert!(rt; space.window(base, &mut bytes) == Ok(()));
    bytes
}

/// The base of an image, and its bytes.
fn image_at<S: Space>(rt: &impl Abort, space: &S, image: u16) -> (u64, [u8; 0x3000]) {
    let base = space.base_of(image).expect(rt, "a base");
    (base, bytes_of(rt, space, base))
}

/// Whether two spaces of three images have the same bindings, bases and bytes.
fn same_space<S: Space, T: Space>(rt: &impl Abort, space: &S, other: &T) -> bool {
    for image in 0..3 {
        if image_at(rt, space, image) != image_at(rt, other, image) {
            return false;
        }
    }
    *space.bindings() == *other.bindings()
}

/// A window, a move of `b.dll`, and a window of the slot that follows it.
const COMMANDS: &[Command] = &[
    Command::Window {
        address: 0x40_1030,
        count: 4,
    },
    Command::Move {
        image: 1,
        base: 0x3000_0000,
    },
    Command::Window {
        address: 0x40_1030,
        count: 4,
    },
];

/// How many of the commands were carried out on a space, and the result of the run.
fn first_run<S: Space>(arena: &Bump, space: &mut S) -> (usize, Answer) {
    match run(arena, space, COMMANDS) {
        Ok(replies) => (COMMANDS.len(), right_if(replies.len() == COMMANDS.len())),
        Err(stopped) => (stopped.done, Answer::Memory),
    }
}

/// Runs the first `done` commands with enough memory; each has a reply.
fn run_again<S: Space>(rt: &impl Abort, alloc: Global, space: &mut S, done: usize) {
    let commands = COMMANDS.get(..done).expect(rt, "commands");
    let replies = run(alloc, space, commands).expect(rt, "replies");
    assert_holds(rt, done, replies.len() == done);
}

/// Whether a space is that of the set after the first `done` commands.
fn is_space_after<S: Space>(
    rt: &impl Abort,
    alloc: Global,
    set: &[SetEntry],
    space: &S,
    done: usize,
) -> bool {
    let mut expected = map(alloc, set, Policy::Strict).expect(rt, "a space");
    run_again(rt, alloc, &mut expected, done);
    same_space(rt, space, &expected)
}

/// A run that was stopped leaves the space as the commands that it counts do.
fn running<'a>(rt: &impl Abort, alloc: Global, arena: &Bump, set: &'a [SetEntry<'a>]) -> Answer {
    let mut space = open_space(alloc, set, Policy::Strict).expect(rt, "a space");
    let (done, answer) = first_run(arena, &mut space);
    let is_right = is_space_after(rt, alloc, set, &space, done);
    if is_right { answer } else { Answer::Wrong }
}

/// The result of an engine; if memory ran out, it must have written nothing.
fn of_engine(answer: Result<Outcome, ToolError>, taken: &[u8], text: &[u8]) -> Answer {
    match answer {
        Ok(Outcome::Done) => right_if(*taken == *text),
        Err(ToolError::Memory) if taken.is_empty() => Answer::Memory,
        _ => Answer::Wrong,
    }
}

/// The window of the slot of `c.exe`.
const WINDOW: Option<(u64, u32)> = Some((0x40_1030, 4));

/// The report of a set, which with enough memory is this text.
fn report_in(
    rt: &impl Abort,
    alloc: Global,
    arena: &Bump,
    set: &[SetEntry],
    text: &[u8],
) -> Answer {
    let (answer, writer) = report_over(alloc, arena, set, WINDOW, steps_of(64)).expect(
        rt, "memory",
    );
    of_engine(answer, writer.taken(), text)
}

fn reporting(rt: &impl Abort, alloc: Global, arena: &Bump, set: &[SetEntry]) -> Answer {
    let (expected, text) = report_over(alloc, alloc, set, WINDOW, steps_of(64)).expect(
        rt, "memory",
    );
    assert_holds(rt, 0, expected == Ok(Outcome::Done));
    report_in(rt, alloc, arena, set, text.taken())
}

/// A call on the set of A, B and C, with the memory of an arena.
fn on_set(rt: &impl Abort, alloc: Global, arena: &Bump, call: Call) -> Answer {
    let files = files_of(alloc, &[A, B, C]).expect(rt, "files");
    let set = set_of(alloc, &[A, B, C], &files).expect(rt, "memory");
    set_answer(rt, alloc, arena, call, &set)
}

fn set_answer<'a>(
    rt: &impl Abort,
    alloc: Global,
    arena: &Bump,
    call: Call,
    set: &'a [SetEntry<'a>],
) -> Answer {
    match call {
        Call::Judge => judging(arena, set),
        Call::Run => running(rt, alloc, arena, set),
        _ => reporting(rt, alloc, arena, set),
    }
}

fn reading(rt: &impl Abort, alloc: Global, arena: &Bump) -> Answer {
    let expected = read_object(alloc, O1).expect(rt, "an object");
    match read_object(arena, O1) {
        Ok(object) => right_if(same_object(&object, &expected)),
        Err(ObjectError::Memory) => Answer::Memory,
        Err(_) => Answer::Wrong,
    }
}

fn writing(rt: &impl Abort, alloc: Global, arena: &Bump) -> Answer {
    let ample = Bump::new(alloc);
    let object = read_object(&ample, O1).expect(rt, "an object");
    match write_object(arena, &object) {
        Ok(bytes) => right_if(bytes.as_slice() == O1.as_slice()),
        Err(ObjectError::Memory) => Answer::Memory,
        Err(_) => Answer::Wrong,
    }
}

fn planning(rt: &impl Abort, alloc: Global, arena: &Bump) -> Answer {
    let file = file_of(alloc, Vector::V2).expect(rt, "memory");
    let plan = plan_of(rt, alloc, &V2, &file);
    match write_image(arena, &plan) {
        Ok(bytes) => right_if(*bytes.as_slice() == *file.as_slice()),
        Err(WriteError::Memory) => Answer::Memory,
        Err(_) => Answer::Wrong,
    }
}

fn whole(rt: &impl Abort, alloc: Global, arena: &Bump) -> Answer {
    let file = file_of(alloc, Vector::Vr).expect(rt, "memory");
    match read_whole(arena, &mut StepReader::new(&file, 64, None)) {
        Ok(bytes) => right_if(*bytes.as_slice() == *file.as_slice()),
        Err(ToolError::Memory) => Answer::Memory,
        Err(_) => Answer::Wrong,
    }
}

/// The result of `json`, which may have written the beginning of its line if memory ran out.
fn of_json(answer: Result<Outcome, ToolError>, taken: &[u8], text: &[u8]) -> Answer {
    if answer == Err(ToolError::Memory) {
        return if text.starts_with(taken) {
            Answer::Memory
        } else {
            Answer::Wrong
        };
    }
    of_engine(answer, taken, text)
}

/// An engine that reads a file, and with enough memory writes this text.
fn engine_in(
    rt: &impl Abort,
    alloc: Global,
    arena: &Bump,
    engine: Engine,
    file: &[u8],
    text: &[u8],
) -> Answer {
    let (answer, writer) = run_over(alloc, arena, engine, file, steps_of(64)).expect(rt, "memory");
    match engine {
        Engine::Json => of_json(answer, writer.taken(), text),
        _ => of_engine(answer, writer.taken(), text),
    }
}

/// Runs an engine over a file.
fn engine(rt: &impl Abort, alloc: Global, arena: &Bump, engine: Engine, file: &[u8]) -> Answer {
    let (expected, text) = run_engine(alloc, engine, file, steps_of(64)).expect(rt, "memory");
    assert_holds(rt, 0, expected == Ok(Outcome::Done));
    engine_in(rt, alloc, arena, engine, file, text.taken())
}

/// Runs an engine over VR.
fn on_vr(rt: &impl Abort, alloc: Global, arena: &Bump, of: Engine) -> Answer {
    let file = file_of(alloc, Vector::Vr).expect(rt, "memory");
    engine(rt, alloc, arena, of, &file)
}

/// Neither output gets a byte if memory runs out.
fn rebase_engine(rt: &impl Abort, alloc: Global, arena: &Bump) -> Answer {
    let expected = rebased_v2(rt, alloc);
    let devices = super::rebased::Devices { step: 64, ..FINE };
    let run = rebased_over(rt, alloc, arena, devices);
    let answer = of_engine(run.answer, run.out.taken(), &expected);
    let is_silent = run.line.taken().is_empty();
    match answer {
        Answer::Memory => if is_silent { answer } else { Answer::Wrong },
        _ => answer,
    }
}

/// Runs a call with the memory of an arena.
fn answer_of(rt: &impl Abort, alloc: Global, arena: &Bump, call: Call) -> Answer {
    match call {
        Call::Encoding => encoding(rt, alloc, arena),
        Call::Judge | Call::Run | Call::MapReport => on_set(rt, alloc, arena, call),
        Call::ReadObject => reading(rt, alloc, arena),
        Call::WriteObject => writing(rt, alloc, arena),
        Call::WriteImage => planning(rt, alloc, arena),
        Call::ReadWhole => whole(rt, alloc, arena),
        Call::Check => on_vr(rt, alloc, arena, Engine::Check),
        Call::Dump => on_vr(rt, alloc, arena, Engine::Dump),
        Call::DumpObject => engine(rt, alloc, arena, Engine::Object, O1),
        Call::Rebase => rebase_engine(rt, alloc, arena),
        Call::Show => on_vr(rt, alloc, arena, Engine::Show),
        Call::Json => on_vr(rt, alloc, arena, Engine::Json),
        Call::At => on_vr(rt, alloc, arena, Engine::At),
    }
}

/// The most memory with which a call is tried, in bytes.
const MOST_ROOM: usize = 0x10000;

/// Runs a call with an arena of this size. Freed memory is not used again, unless it was the last; so the arena may run out at any
/// allocation of the call.
fn answer_in(rt: &impl Abort, alloc: Global, room: usize, call: Call) -> Answer {
    let arena = Bump::try_with_capacity(alloc, room).expect(rt, "memory");
    arena.set_allocation_limit(Some(0));
    let capacity = arena.chunk_capacity();
    assert!(rt; capacity >= room);
    let _rest: Vec<u8, &Bump> = Vec::with_capacity(&arena, capacity - room).expect(rt, "memory");
    answer_of(rt, alloc, &arena, call)
}

/// Asserts that a call returns out of memory in each arena that is too small for it, and the right result in the first that is
/// not.
fn assert_wants_memory(rt: &impl Abort, alloc: Global, call: Call) {
    for step in 0..MOST_ROOM / 8 {
        match answer_in(rt, alloc, 8 * step, call) {
            Answer::Memory => {}
            Answer::Right => {
                assert!(rt; step > 0, "right in no room");
                return;
            }
            Answer::Wrong => panic!(rt; "wrong in {step} times 8 bytes"),
        }
    }
    panic!(rt; "there was never room");
}

#[test]
fn pages_want_memory(rt: HostRuntime) {
    assert_wants_memory(&rt, rt.alloc(), Call::Show);
}

#[test]
fn json_wants_memory(rt: HostRuntime) {
    assert_wants_memory(&rt, rt.alloc(), Call::Json);
}

#[test]
fn places_want_memory(rt: HostRuntime) {
    assert_wants_memory(&rt, rt.alloc(), Call::At);
}

#[test]
fn an_encoding_wants_memory(rt: HostRuntime) {
    assert_wants_memory(&rt, rt.alloc(), Call::Encoding);
}

#[test]
fn a_judgement_wants_memory(rt: HostRuntime) {
    assert_wants_memory(&rt, rt.alloc(), Call::Judge);
}

#[test]
fn a_run_stops_where_it_wants_memory(rt: HostRuntime) {
    assert_wants_memory(&rt, rt.alloc(), Call::Run);
}

#[test]
fn an_object_wants_memory(rt: HostRuntime) {
    assert_wants_memory(&rt, rt.alloc(), Call::ReadObject);
}

#[test]
fn a_written_object_wants_memory(rt: HostRuntime) {
    assert_wants_memory(&rt, rt.alloc(), Call::WriteObject);
}

#[test]
fn a_written_image_wants_memory(rt: HostRuntime) {
    assert_wants_memory(&rt, rt.alloc(), Call::WriteImage);
}

#[test]
fn a_whole_file_wants_memory(rt: HostRuntime) {
    assert_wants_memory(&rt, rt.alloc(), Call::ReadWhole);
}

#[test]
fn an_engine_that_wants_memory_has_written_nothing(rt: HostRuntime) {
    for call in [
        Call::Check,
        Call::Dump,
        Call::DumpObject,
        Call::MapReport,
        Call::Rebase,
    ] {
        assert_wants_memory(&rt, rt.alloc(), call);
    }
}

/// An arena of size 0.
fn no_room(alloc: Global) -> Bump {
    let arena = Bump::new(alloc);
    arena.set_allocation_limit(Some(0));
    arena
}

/// A fault at a file offset.
fn file_fault(number: u16, offset: u64) -> Fault {
    Fault {
        number,
        image: 0,
        place: Place::File(offset),
    }
}

#[test]
fn faults_of_headers_need_no_memory(rt: HostRuntime) {
    let arena = no_room(rt.alloc());
    let empty = file_fault(2, 0);
    assert_holds(
        &rt,
        0,
        read_image(&arena, b"", 0).err() == Some(TableError::Fault(empty)),
    );
    assert_holds(
        &rt,
        1,
        rebase_file(&arena, b"", 0).err() == Some(WriteError::Fault(empty)),
    );
    for (len, fault) in [(19, file_fault(61, 19)), (59, file_fault(63, 2))] {
        let error = read_object(&arena, &O1[..len]).err();
        assert_holds(&rt, len, fault_of(error) == Some(fault));
    }
}

/// An object of a symbol with a zero byte in its name.
fn zero_named<'b>(rt: &impl Abort, ample: &'b Bump) -> Object<'static, &'b Bump> {
    let symbol = Symbol {
        name: b"\x00",
        ..O1_SYMBOLS[0]
    };
    Object {
        machine: 0x8664,
        time_stamp: 0,
        characteristics: 0,
        optional: b"",
        sections: Vec::new(ample),
        symbols: Vec::from_array(ample, [symbol]).expect(rt, "memory"),
    }
}

/// Bytes of O1 and their changes, and the number and the place of the fault after them.
const OBJECT_FAULTS: &[(&[(usize, u8)], u16, u64)] = &[
    (&[(41, 0x01)], 64, 20),
    (&[(52, 0xff), (53, 0xff), (59, 0x61)], 65, 20),
    (&[(53, 0x01)], 66, 20),
    (&[(13, 0x01)], 67, 8),
    (&[(166, 0x1a)], 68, 166),
    (&[(21, 0x33)], 69, 20),
    (&[(134, 0x19)], 69, 130),
    (&[(165, 0x01)], 70, 148),
    (&[(124, 0x02)], 71, 112),
    (&[(70, 0x05)], 72, 66),
];

#[test]
fn faults_of_objects_need_no_memory(rt: HostRuntime) {
    let arena = no_room(rt.alloc());
    for (changes, number, offset) in OBJECT_FAULTS {
        let mut file = *O1;
        for (place, byte) in *changes {
            assert!(&rt; *place < file.len());
            file[*place] = *byte;
        }
        let fault = file_fault(*number, *offset);
        assert!(&rt; fault_of(read_object(&arena, &file).err()) == Some(fault));
        assert!(&rt; ObjectFile::new(&file).err() == Some(fault));
    }
}

#[test]
fn a_zero_byte_in_a_name_needs_no_memory(rt: HostRuntime) {
    let (ample, arena) = (Bump::new(rt.alloc()), no_room(rt.alloc()));
    let fault = Fault {
        number: 81,
        image: 0,
        place: Place::Item(0),
    };
    let error = write_object(&arena, &zero_named(&rt, &ample)).err();
    assert_holds(&rt, 0, fault_of(error) == Some(fault));
}

#[test]
fn a_refused_plan_needs_no_memory(rt: HostRuntime) {
    let file = file_of(rt.alloc(), Vector::V2).expect(&rt, "memory");
    let mut plan = plan_of(&rt, rt.alloc(), &V2, &file);
    plan.file_alignment = 0;
    let error = write_image(&no_room(rt.alloc()), &plan).err();
    assert_holds(&rt, 0, error == REFUSED);
}

#[test]
fn a_set_of_no_entry_needs_no_memory(rt: HostRuntime) {
    let arena = no_room(rt.alloc());
    let space = map(&arena, &[], Policy::Strict).expect(&rt, "a space");
    assert_holds(&rt, 0, space.image_count() == 0);
    let space = open_space(&arena, &[], Policy::Strict).expect(&rt, "a space");
    assert_holds(&rt, 1, space.image_count() == 0);
}

/// The error of a set, mapped into memory.
fn mapping_error(arena: &Bump, set: &[SetEntry]) -> Option<MapError> {
    map(arena, set, Policy::Strict).err()
}

/// The error of a set, opened over its files.
fn opening_error<'a>(arena: &Bump, set: &'a [SetEntry<'a>]) -> Option<MapError> {
    open_space(arena, set, Policy::Strict).err()
}

/// Asserts that a set is refused by a fault of an entry, without memory.
fn assert_names(rt: &impl Abort, arena: &Bump, set: &[SetEntry], number: u16, image: u16) {
    let fault = Fault {
        number,
        image,
        place: Place::Item(u32::from(image)),
    };
    let error = Some(MapError::Fault(fault));
    assert_holds(rt, 0, mapping_error(arena, set) == error);
    assert_holds(rt, 1, opening_error(arena, set) == error);
}

#[test]
fn faults_of_names_need_no_memory(rt: HostRuntime) {
    let alloc = rt.alloc();
    let arena = no_room(alloc);
    let names = names_of(alloc, 257).expect(&rt, "memory");
    let mut set = repeated(alloc, &names, b"").expect(&rt, "memory");
    assert_names(&rt, &arena, &set, 41, 256);
    assert!(&rt; set.len() == 257);
    set[9].name = set[4].name;
    assert_names(&rt, &arena, &set, 42, 9);
    assert_names(&rt, &arena, &set[..10], 42, 9);
}

/// Each engine that reads, and its line for an empty file.
const EMPTY_FILES: &[(Engine, &str)] = &[
    (Engine::Check, "fault 2 image 0 file 0x00000000\n"),
    (Engine::Dump, "fault 2 image 0 file 0x00000000\n"),
    (Engine::Object, "fault 61 image 0 file 0x00000000\n"),
    (Engine::At, "fault 2 image 0 file 0x00000000\n"),
    (
        Engine::Show,
        "a.dll: refused: 0 bytes\n\nFault 2: end of the file at 0x0: the file has fewer than the 64 bytes of an MS-DOS header: it has 0\n",
    ),
    (
        Engine::Json,
        "{\"schema\":1,\"file\":\"a.dll\",\"accepted\":false,\"fault\":{\"number\":2,\"image\":0,\"place\":{\"file\":0},\"subject\":\"end of the file\",\"rule\":\"the file has fewer than the 64 bytes of an MS-DOS header\",\"values\":{\"file_size\":0}}}\n",
    ),
];

/// Asserts the result of an engine for an empty file without memory.
fn assert_refused(rt: &impl Abort, alloc: Global, arena: &Bump, engine: Engine, line: &str) {
    let (answer, writer) = run_over(alloc, arena, engine, b"", steps_of(7)).expect(rt, "memory");
    assert_holds(rt, 0, matches!(answer, Ok(Outcome::Refused(_))));
    assert_holds(rt, 1, writer.taken() == line.as_bytes());
}

/// Asserts the result of an engine without memory whose first read fails.
fn assert_unread(rt: &impl Abort, alloc: Global, arena: &Bump, engine: Engine) {
    let devices = Devices {
        failing_read: Some(0),
        ..steps_of(7)
    };
    let (answer, writer) = run_over(alloc, arena, engine, b"MZ", devices).expect(rt, "memory");
    assert_holds(rt, 2, answer == Err(ToolError::Read));
    assert_holds(rt, 3, writer.taken().is_empty());
}

#[test]
fn an_engine_that_was_given_no_byte_wants_no_memory(rt: HostRuntime) {
    let arena = no_room(rt.alloc());
    for (engine, line) in EMPTY_FILES {
        assert_refused(&rt, rt.alloc(), &arena, *engine, line);
        assert_unread(&rt, rt.alloc(), &arena, *engine);
    }
}
