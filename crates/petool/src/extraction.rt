//! Writes a part of a file as it is asked for: a resource of an image, or a member of an archive.

use crate::file_job::tell;
use crate::input::{InputFile, name_of, open_file};
use crate::messages::{refuse_memory, refuse_path};
use crate::output::Output;
use crate::statuses::{BAD_WORDS, REFUSED};
use crate::texts::{NO_ROOM, OUTPUT_BUFFER, flushed};
use coff_lines::{MemberFile, extract_member};
use pe_page::ShownName;
use pe_reach::size_fault;
use pe_resource_files::{Extracted, Form, Wanted, extract};
use pe_text::{Counted, Outcome, ToolError, read_whole};
use pe_view::Fault;
use std::alloc::Allocator;
use std::io::{self, BufWriter, Input, Read, Seek, Write};
use std::rt::Files;

/// What is to be written.
#[derive(Clone, Copy)]
pub(crate) enum Part<'p> {
    /// The first resource of an image that is wanted.
    Resource { form: Form, wanted: Wanted<'p> },
    /// The member of an archive of this index, from 0, of those with the name.
    Member { name: &'p [u8], index: u64 },
}

/// Why a part that was asked for was not written.
#[derive(Clone, Copy)]
enum Unwritten {
    NoResource,
    NotHeld,
    Damaged,
    NoMember,
    Elsewhere,
}

/// What became of a part that was asked for.
#[derive(Clone, Copy)]
enum Told {
    Written,
    Unwritten(Unwritten),
    Refused(Fault),
}

/// Writes the first resource of a file that is wanted.
fn write_resource<A: Allocator + Copy>(
    alloc: A,
    form: Form,
    wanted: &Wanted,
    file: &[u8],
    output: impl Write + Drop,
) -> Result<Told, ToolError> {
    match extract(alloc, form, wanted, file) {
        Ok(Extracted::Found(found)) => match found.write(&mut Counted::new(output)) {
            Ok(()) => Ok(Told::Written),
            Err(_) => Err(ToolError::Write),
        },
        Ok(Extracted::Missing) => Ok(Told::Unwritten(Unwritten::NoResource)),
        Ok(Extracted::NotHeld) => Ok(Told::Unwritten(Unwritten::NotHeld)),
        Ok(Extracted::Damaged) => Ok(Told::Unwritten(Unwritten::Damaged)),
        Ok(Extracted::Refused(fault)) => Ok(Told::Refused(fault)),
        Err(_) => Err(ToolError::Memory),
    }
}

/// Writes what a member of a file holds.
fn write_member(
    name: &[u8],
    index: u64,
    file: &[u8],
    mut output: impl Write + Drop,
) -> Result<Told, ToolError> {
    match extract_member(file, name, index) {
        MemberFile::Found(bytes) => match output.write_all(bytes) {
            Ok(()) => Ok(Told::Written),
            Err(_) => Err(ToolError::Write),
        },
        MemberFile::Missing => Ok(Told::Unwritten(Unwritten::NoMember)),
        MemberFile::Elsewhere => Ok(Told::Unwritten(Unwritten::Elsewhere)),
        MemberFile::Refused(fault) => Ok(Told::Refused(fault)),
    }
}

/// Reads a file, and writes a part of it.
fn write_part<A: Allocator + Copy>(
    alloc: A,
    part: Part<'_>,
    file: impl Read + Drop,
    size: Option<u64>,
    output: impl Write + Drop,
) -> Result<Told, ToolError> {
    if let Some(fault) = size_fault(size.unwrap_or(0)) {
        return Ok(Told::Refused(fault));
    }
    let file = read_whole(alloc, &mut Counted::new(file))?;
    match part {
        Part::Resource { form, wanted } => write_resource(alloc, form, &wanted, &file, output),
        Part::Member { name, index } => write_member(name, index, &file, output),
    }
}

/// Reports why a part was not written, and returns the exit status.
fn tell_unwritten(rt: &impl Eprint, name: &[u8], why: Unwritten) -> u8 {
    let (words, status) = match why {
        Unwritten::NoResource => ("there is no such resource", BAD_WORDS),
        Unwritten::NotHeld => ("the resource is not in the file", REFUSED),
        Unwritten::Damaged => (
            "the resource is damaged; --raw writes it as it stands",
            REFUSED,
        ),
        Unwritten::NoMember => ("there is no such member", BAD_WORDS),
        Unwritten::Elsewhere => (
            "the archive is thin: the member is a file of its own",
            REFUSED,
        ),
    };
    let name = ShownName(name);
    let _ = eprintln!(rt; "petool: {name}: {words}");
    status
}

/// Reports what became of a part, and returns the exit status.
fn tell_part<R: Eprint + Alloc, F: Read + Seek + Drop, S: Read + Drop>(
    rt: &R,
    name: &[u8],
    file: &mut InputFile<F, S>,
    answer: Result<Told, ToolError>,
    output: &mut Output<impl Write>,
) -> u8
where
    R::A: Copy,
{
    let outcome = match answer {
        Ok(Told::Written) => Ok(Outcome::Done),
        Ok(Told::Refused(fault)) => Ok(Outcome::Refused(fault)),
        Ok(Told::Unwritten(why)) => return tell_unwritten(rt, name, why),
        Err(error) => Err(error),
    };
    tell(rt, name, file, flushed(outcome, output))
}

/// Writes a part of an open file to standard output, and returns the exit status.
fn write_from<R: Print + Eprint + Alloc, F: Read + Seek + Drop, S: Read + Drop>(
    rt: &R,
    name: &[u8],
    mut file: InputFile<F, S>,
    part: Part<'_>,
) -> u8
where
    R::A: Copy,
{
    let Ok(buffer) = BufWriter::with_capacity(rt.alloc(), OUTPUT_BUFFER, io::writer(rt)) else {
        return tell(rt, name, &mut file, NO_ROOM);
    };
    let mut output = Output::new(buffer);
    let size = file.size();
    let answer = write_part(rt.alloc(), part, &mut file, size, &mut output);
    tell_part(rt, name, &mut file, answer, &mut output)
}

/// Writes a part of a file to standard output, and returns the exit status.
pub(crate) fn run_extraction<R: Files + Input + Print + Eprint + Alloc>(
    rt: &R,
    path: &str,
    part: Part<'_>,
) -> u8
where
    R::A: Copy,
{
    let Ok(file_name) = name_of(rt.alloc(), path) else {
        return refuse_memory(rt);
    };
    match open_file(rt, path) {
        Ok(file) => write_from(rt, &file_name, file, part),
        Err(error) => refuse_path(rt, &file_name, error),
    }
}
