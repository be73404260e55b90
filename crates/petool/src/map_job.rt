//! The commands `map` and `at --map`: read files, map them, and print the report or what is at addresses.

use crate::image_files::{ImageFolder, refuse_folder, write_images};
use crate::import_fault::{import_of, tell_import_fault};
use crate::input::{InputFile, name_of, open_file};
use crate::messages::{
    STANDARD_OUTPUT, refuse_map, refuse_memory, refuse_path, tell_failure, tell_fault,
};
use crate::statuses::DONE;
use crate::texts::{MapReport, Printed, Text, print_text};
use crate::word_bytes::bytes_of;
use pe_detail::fault_detail;
use pe_map_lines::map_report;
use pe_reach::{read_enough, size_fault};
use pe_space::{Policy, SetEntry};
use pe_text::{Counted, Outcome, ToolError, read_whole, status};
use pe_view::{Fault, View};
use pe_words::MapFile;
use std::alloc::{AllocError, Allocator};
use std::borrow::CowSlice;
use std::io::{Input, Read};
use std::os::fd::AsFd;
use std::rt::Files;

/// The fault of a file that has too few bytes for any image.
const FEW_BYTES: u16 = 2;

/// The size of the room for the line of a fault, in bytes.
const LINE_ROOM: usize = 1 << 8;

/// What was read of a file: as many bytes as decide the report, and the fault of one that is too large. Of such a file only the first
/// bytes were read, which show its kind; they are too few for an image, so that its place in a set has a fault.
type Content<A> = (Vec<u8, A>, Option<Fault>);

/// What is printed of a set.
#[derive(Clone, Copy)]
enum Asked<'a> {
    /// The report.
    Report(MapReport),
    /// What is at these addresses.
    Places(&'a [u64]),
}

/// Reads a file: as far as it decides the report if its size is given, otherwise to its end.
fn read_bytes<A: Allocator + Copy>(
    alloc: A,
    file: impl Read + Drop,
    size: Option<u64>,
) -> Result<Vec<u8, A>, ToolError> {
    let mut reader = Counted::new(file);
    match size {
        Some(size) => read_enough(alloc, &mut reader, size),
        None => read_whole(alloc, &mut reader),
    }
}

/// Reads the bytes of a file that show its kind.
fn read_kind<A: Allocator + Copy, F: Read, S: Read>(
    alloc: A,
    file: &mut InputFile<F, S>,
) -> Result<Vec<u8, A>, ToolError> {
    file.read_kind();
    let mut bytes = Vec::new(alloc);
    match bytes.extend_from_slice(file.first()) {
        Ok(()) => Ok(bytes),
        Err(_) => Err(ToolError::Memory),
    }
}

/// The fault of a file of this size, if that is known and too large.
fn size_fault_of(size: Option<u64>) -> Option<Fault> {
    match size {
        Some(size) => size_fault(size),
        None => None,
    }
}

/// Reads a file as far as it decides the report, or whole, or reports the failure and returns the exit status.
fn read_file<R: Files + Input + Eprint + Alloc>(
    rt: &R,
    path: &str,
    is_whole: bool,
) -> Result<Content<R::A>, u8>
where
    R::A: Copy,
{
    let Ok(name) = name_of(rt.alloc(), path) else {
        return Err(refuse_memory(rt));
    };
    let mut file = match open_file(rt, path) {
        Ok(file) => file,
        Err(error) => return Err(refuse_path(rt, &name, error)),
    };
    let size = file.size();
    let large = size_fault_of(size);
    let answer = match large {
        Some(_) => read_kind(rt.alloc(), &mut file),
        None if is_whole => read_bytes(rt.alloc(), &mut file, None),
        None => read_bytes(rt.alloc(), &mut file, size),
    };
    match answer {
        Ok(bytes) => Ok((bytes, large)),
        Err(failure) => {
            tell_failure(rt, &name, failure, file.error());
            Err(status(&Err(failure)))
        }
    }
}

/// Reads files in order, up to the first that fails, and adds to `large` the fault of each that is too large.
fn read_files<R: Files + Input + Eprint + Alloc>(
    rt: &R,
    files: &[MapFile],
    is_whole: bool,
    large: &mut Vec<Option<Fault>, R::A>,
) -> Result<Vec<Vec<u8, R::A>, R::A>, u8>
where
    R::A: Copy,
{
    let mut contents = Vec::new(rt.alloc());
    for file in files {
        let (bytes, fault) = read_file(rt, file.path.as_str(), is_whole)?;
        if contents.push(bytes).is_err() || large.push(fault).is_err() {
            return Err(refuse_map(rt));
        }
    }
    Ok(contents)
}

/// The names of modules, as bytes.
type Names<'a, A> = Vec<CowSlice<'a, u8, A>, A>;

/// The names of the files' modules.
fn names_of<A: Allocator + Copy>(alloc: A, files: &[MapFile]) -> Result<Names<'_, A>, AllocError> {
    let mut names = Vec::new(alloc);
    for file in files {
        names.push(bytes_of(alloc, file.name.as_str())?)?;
    }
    Ok(names)
}

/// The set of files with these names of modules and contents.
fn set_of<'a, A: Allocator>(
    alloc: A,
    files: &'a [MapFile],
    names: &'a [CowSlice<'a, u8, A>],
    contents: &'a [Vec<u8, A>],
) -> Result<Vec<SetEntry<'a>, A>, AllocError> {
    let files = files.iter().zip(names.iter().zip(contents.iter()));
    files
        .map(|(file, (name, bytes))| SetEntry {
            name,
            file: bytes,
            base: file.base,
        })
        .collect(alloc)
}

/// The first fault of a set, of which some files may be too large, where `fault` is that of the set with their first bytes alone.
fn fault_in(large: &[Option<Fault>], fault: Fault) -> Fault {
    match large.get(usize::from(fault.image)) {
        Some(Some(own)) if fault.number == FEW_BYTES => Fault {
            image: fault.image,
            ..*own
        },
        _ => fault,
    }
}

/// The fault by which a set is refused that has a file which is too large; `None` if it has none.
fn large_fault<A: Allocator + Copy>(
    alloc: A,
    policy: Policy,
    set: &[SetEntry],
    large: &[Option<Fault>],
) -> Result<Option<Fault>, ToolError> {
    if large.iter().all(|fault| fault.is_none()) {
        return Ok(None);
    }
    let mut line = [0; LINE_ROOM];
    let mut writer = Counted::new(&mut line[..]);
    match map_report(alloc, set, policy, None, &mut writer) {
        Ok(Outcome::Refused(fault)) => Ok(Some(fault_in(large, fault))),
        Ok(Outcome::Done) => Ok(None),
        Err(failure) => Err(failure),
    }
}

/// What to print of a set: the line of a fault, if it is refused because a file is too large, or else what is asked for.
fn text_of<'a, F>(
    set: &'a [SetEntry<'a>],
    policy: Policy,
    asked: Asked<'a>,
    large: Option<Fault>,
) -> Text<'a, F> {
    match (large, asked) {
        (Some(fault), _) => Text::Refusal(fault),
        (None, Asked::Report(report)) => Text::Map {
            set,
            policy,
            report,
        },
        (None, Asked::Places(addresses)) => Text::AtMap {
            set,
            policy,
            addresses,
        },
    }
}

/// Reports a fault of an image of a set.
fn tell_image_fault<R: Eprint + Alloc>(rt: &R, name: &[u8], file: &[u8], fault: Fault)
where
    R::A: Copy,
{
    match import_of(rt.alloc(), file, &fault) {
        Some(import) => tell_import_fault(rt, name, fault, &import),
        None => {
            let detail = fault_detail(View::new(file), file.len() as u64, &fault);
            tell_fault(rt, name, fault, detail, file);
        }
    }
}

/// Reports a fault of a set: of the file that it names, or of the command, also if memory for the name is refused.
fn tell_set_fault<R: Eprint + Alloc>(rt: &R, files: &[MapFile], set: &[SetEntry], fault: Fault)
where
    R::A: Copy,
{
    let image = usize::from(fault.image);
    let path = files.get(image).map_or("", |file| file.path.as_str());
    match (set.get(image), name_of(rt.alloc(), path)) {
        (Some(entry), Ok(name)) => tell_image_fault(rt, &name, entry.file, fault),
        _ => tell_fault(rt, b"map", fault, None, b""),
    }
}

/// Reports on standard error a fault of a set or the failure of `map`, and returns the exit status.
fn tell_set<R: Eprint + Alloc>(rt: &R, files: &[MapFile], set: &[SetEntry], printed: Printed) -> u8
where
    R::A: Copy,
{
    match printed.answer {
        Ok(Outcome::Done) => {}
        Ok(Outcome::Refused(fault)) => tell_set_fault(rt, files, set, fault),
        Err(ToolError::Write) => tell_failure(rt, STANDARD_OUTPUT, ToolError::Write, printed.error),
        Err(failure) => tell_failure(rt, b"map", failure, None),
    }
    status(&printed.answer)
}

/// Whether delay-loaded imports are bound too.
fn is_delayed(asked: Asked<'_>) -> bool {
    match asked {
        Asked::Report(report) => report.is_delayed,
        Asked::Places(_) => false,
    }
}

/// Maps files and prints what is asked for, then writes each image to a folder, if there is one, and returns the exit status.
fn print_map<R: Files + Input + Print + Eprint + Alloc>(
    rt: &R,
    policy: Policy,
    asked: Asked<'_>,
    folder: Option<ImageFolder<'_>>,
    files: &[MapFile],
) -> u8
where
    R::A: Copy,
    R::File: AsFd,
{
    let mut large = Vec::new(rt.alloc());
    let contents = match read_files(rt, files, matches!(asked, Asked::Places(_)), &mut large) {
        Ok(contents) => contents,
        Err(status) => return status,
    };
    let Ok(names) = names_of(rt.alloc(), files) else {
        return refuse_map(rt);
    };
    let Ok(set) = set_of(rt.alloc(), files, &names, &contents) else {
        return refuse_map(rt);
    };
    let Ok(fault) = large_fault(rt.alloc(), policy, &set, &large) else {
        return refuse_map(rt);
    };
    let text: Text<'_, R::File> = text_of(&set, policy, asked, fault);
    let status = tell_set(rt, files, &set, print_text(rt, text));
    match folder {
        Some(folder) if status == DONE => {
            write_images(rt, folder, policy, is_delayed(asked), &set, files)
        }
        _ => status,
    }
}

/// Maps files, and returns the exit status.
pub fn run_map<R: Files + Input + Print + Eprint + Alloc>(
    rt: &R,
    policy: Policy,
    window: Option<(u64, u32)>,
    files: &[MapFile],
) -> u8
where
    R::A: Copy,
    R::File: AsFd,
{
    let report = MapReport {
        window,
        is_delayed: false,
        is_unbound: false,
    };
    run_report(rt, policy, report, files)
}

/// Maps files and prints the imports that are bound to nothing too, and returns the exit status.
pub fn run_map_unbound<R: Files + Input + Print + Eprint + Alloc>(
    rt: &R,
    policy: Policy,
    window: Option<(u64, u32)>,
    files: &[MapFile],
) -> u8
where
    R::A: Copy,
    R::File: AsFd,
{
    let report = MapReport {
        window,
        is_delayed: false,
        is_unbound: true,
    };
    run_report(rt, policy, report, files)
}

/// Maps files and prints a report, and returns the exit status.
pub(crate) fn run_report<R: Files + Input + Print + Eprint + Alloc>(
    rt: &R,
    policy: Policy,
    report: MapReport,
    files: &[MapFile],
) -> u8
where
    R::A: Copy,
    R::File: AsFd,
{
    print_map(rt, policy, Asked::Report(report), None, files)
}

/// Maps files and prints a report, then writes each image as it stands in the space to a folder, and returns the exit status. If a
/// file of the folder cannot be written, as when it is an input, nothing is.
pub(crate) fn run_map_write<R: Files + Input + Print + Eprint + Alloc>(
    rt: &R,
    policy: Policy,
    report: MapReport,
    folder: ImageFolder<'_>,
    files: &[MapFile],
) -> u8
where
    R::A: Copy,
    R::File: AsFd,
{
    match refuse_folder(rt, folder.path, files) {
        Some(status) => status,
        None => print_map(rt, policy, Asked::Report(report), Some(folder), files),
    }
}

/// Maps files and prints what is at addresses, and returns the exit status.
pub(crate) fn run_at_map<R: Files + Input + Print + Eprint + Alloc>(
    rt: &R,
    policy: Policy,
    files: &[MapFile],
    addresses: &[u64],
) -> u8
where
    R::A: Copy,
    R::File: AsFd,
{
    print_map(rt, policy, Asked::Places(addresses), None, files)
}
