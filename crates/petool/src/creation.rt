//! The command `archive --create`: writes a new archive of files.

use crate::input::{InputFile, name_of, open_file};
use crate::messages::{refuse_memory, refuse_path, tell_failure, tell_fault};
use crate::new_file::{print_refusal, refuse_target, refuse_word, target_name};
use crate::statuses::REFUSED;
use crate::target::Target;
use crate::word_bytes::bytes_of;
use coff_library::{NewMember, archive_len};
use coff_lines::create_archive;
use pe_page::ShownName;
use pe_reach::size_fault;
use pe_text::{Counted, Outcome, ToolError, read_whole, status};
use pe_view::{Fault, Place, Refusal};
use std::alloc::{AllocError, Allocator};
use std::borrow::CowSlice;
use std::io::{Error, Input, Read};
use std::os::fd::AsFd;
use std::rt::Files;

/// The fault of a member that ends too far on.
const TOO_LARGE: u16 = 93;

/// A file that is to be a member of the archive.
#[derive(Drop)]
struct MemberFile<'a, A: Allocator> {
    name: CowSlice<'a, u8, A>,
    bytes: Vec<u8, A>,
}

/// Why a file was not read as a member.
enum Unread {
    /// It has too many bytes.
    TooLarge,
    /// What was to be reported was, and this is the exit status.
    Told(u8),
}

/// The name of a file without its folder.
fn file_name(path: &str) -> &str {
    match path.rsplit_once('/') {
        Some((_, name)) => name,
        None => path,
    }
}

/// The bytes of an open file, unless their number is known to be too great.
fn read_bytes<R: Eprint + Alloc, F: Read + Drop, S: Read + Drop>(
    rt: &R,
    name: &[u8],
    mut file: InputFile<F, S>,
) -> Result<Vec<u8, R::A>, Unread>
where
    R::A: Copy,
{
    if size_fault(file.size().unwrap_or(0)).is_some() {
        return Err(Unread::TooLarge);
    }
    let read = read_whole(rt.alloc(), &mut Counted::new(&mut file));
    match read {
        Ok(bytes) => Ok(bytes),
        Err(failure) => {
            tell_failure(rt, name, failure, file.error());
            Err(Unread::Told(status(&Err(failure))))
        }
    }
}

/// Reads a file that is to be a member of the target.
fn read_member<'a, R: Files + Input + Eprint + Alloc>(
    rt: &R,
    target: (&[u8], &str),
    path: &'a str,
) -> Result<MemberFile<'a, R::A>, Unread>
where
    R::A: Copy,
{
    let (Ok(shown), Ok(name)) = (
        name_of(rt.alloc(), path),
        bytes_of(rt.alloc(), file_name(path)),
    ) else {
        return Err(Unread::Told(refuse_memory(rt)));
    };
    let file = match open_file(rt, path) {
        Ok(file) => file,
        Err(error) => return Err(Unread::Told(refuse_path(rt, &shown, error))),
    };
    if let Some(status) = refuse_word(rt, target.0, path, target.1) {
        return Err(Unread::Told(status));
    }
    let bytes = read_bytes(rt, &shown, file)?;
    Ok(MemberFile { name, bytes })
}

/// A list of the members.
fn members_of<'a, A: Allocator>(
    alloc: A,
    files: &'a [MemberFile<'_, A>],
) -> Result<Vec<NewMember<'a>, A>, AllocError> {
    files
        .iter()
        .map(|file| NewMember {
            name: &file.name,
            bytes: &file.bytes,
        })
        .collect(alloc)
}

/// How many bytes an archive of members has, if these are more than `most`. One that is refused has none.
fn excess_of<A: Allocator + Copy>(
    alloc: A,
    members: &[NewMember],
    most: u64,
) -> Result<Option<u64>, AllocError> {
    if most == u64::MAX {
        return Ok(None);
    }
    match archive_len(alloc, members) {
        Ok(len) => Ok((len > most).then_some(len)),
        Err(Refusal::Fault(_)) => Ok(None),
        Err(Refusal::Memory) => Err(AllocError),
    }
}

/// What became of the archive of files.
enum Created {
    /// It has more bytes than allowed, and was not made.
    Excess(u64),
    /// The engine's result, and the system's error if the target failed.
    Ran(Result<Outcome, ToolError>, Option<Error>),
}

/// Writes the archive of members to the target.
fn write_members<R: Files + Print + Alloc>(rt: &R, members: &[NewMember], target: &str) -> Created
where
    R::A: Copy,
    R::File: AsFd,
{
    let mut output = Target::new(rt, target);
    let answer = create_archive(rt.alloc(), members, &mut Counted::new(&mut output));
    let error = output.finish(matches!(answer, Ok(Outcome::Done)));
    Created::Ran(answer, error)
}

/// Writes the archive of files to the target, unless it has more than `most` bytes.
fn create<R: Files + Print + Alloc>(
    rt: &R,
    most: u64,
    files: &[MemberFile<'_, R::A>],
    target: &str,
) -> Result<Created, AllocError>
where
    R::A: Copy,
    R::File: AsFd,
{
    let members = members_of(rt.alloc(), files)?;
    match excess_of(rt.alloc(), &members, most)? {
        Some(len) => Ok(Created::Excess(len)),
        None => Ok(write_members(rt, &members, target)),
    }
}

/// Reports that the archive would be larger than allowed, and returns the exit status.
fn tell_size(rt: &impl Eprint, name: &[u8], len: u64) -> u8 {
    let name = ShownName(name);
    let _ = eprintln!(rt; "petool: {name}: the archive has {len} bytes, more than --within allows");
    REFUSED
}

/// Reports by which fault of which file there is no archive, and returns the exit status. The line of the fault goes to standard
/// output, unless the archive would.
fn tell_refusal<R: Files + Print + Eprint + Alloc>(
    rt: &R,
    files: &[String],
    target: &str,
    fault: Fault,
) -> u8
where
    R::A: Copy,
{
    print_refusal(rt, target, fault);
    let path = match fault.place {
        Place::Item(index) => files.get(index as usize).map_or("", |file| file.as_str()),
        _ => "",
    };
    match name_of(rt.alloc(), path) {
        Ok(name) => tell_fault(rt, &name, fault, None, b""),
        Err(_) => tell_fault(rt, b"archive", fault, None, b""),
    }
    status(&Ok(Outcome::Refused(fault)))
}

/// Reports what became of the archive, and returns the exit status.
fn tell_archive<R: Files + Print + Eprint + Alloc>(
    rt: &R,
    files: &[String],
    name: &[u8],
    target: &str,
    created: Created,
) -> u8
where
    R::A: Copy,
{
    match created {
        Created::Excess(len) => tell_size(rt, name, len),
        Created::Ran(_, Some(error)) => refuse_target(rt, name, error),
        Created::Ran(Ok(Outcome::Refused(fault)), None) => tell_refusal(rt, files, target, fault),
        Created::Ran(answer, None) => {
            if let Err(failure) = answer {
                tell_failure(rt, name, failure, None);
            }
            status(&answer)
        }
    }
}

/// The fault of the member of an index, which ends too far on.
fn too_large(index: usize) -> Fault {
    Fault {
        number: TOO_LARGE,
        image: 0,
        place: Place::Item(u32::try_from(index).unwrap_or(u32::MAX)),
    }
}

/// Writes an archive of files, unless it has more than `most` bytes, and returns the exit status.
pub(crate) fn run_creation<R: Files + Input + Print + Eprint + Alloc>(
    rt: &R,
    most: u64,
    target: &str,
    files: &[String],
) -> u8
where
    R::A: Copy,
    R::File: AsFd,
{
    let Ok(name) = target_name(rt.alloc(), target) else {
        return refuse_memory(rt);
    };
    let mut read = Vec::new(rt.alloc());
    for file in files {
        match read_member(rt, (&name, target), file.as_str()) {
            Ok(member) => {
                if read.push(member).is_err() {
                    return refuse_memory(rt);
                }
            }
            Err(Unread::TooLarge) => return tell_refusal(rt, files, target, too_large(read.len())),
            Err(Unread::Told(status)) => return status,
        }
    }
    match create(rt, most, &read, target) {
        Ok(created) => tell_archive(rt, files, &name, target, created),
        Err(_) => refuse_memory(rt),
    }
}
