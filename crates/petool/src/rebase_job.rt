//! The command `rebase`: writes the file of an image for another base.

ghost use Rattle.std.specs.Prelude.{◌-◌, ◌^◌, ◌<◌};

use crate::file_job::tell;
use crate::input::{InputFile, name_of, open_file};
use crate::messages::{refuse_memory, refuse_path};
use crate::new_file::{refuse_target, refuse_word, target_name};
use crate::statuses::DONE;
use crate::target::Target;
use crate::texts::Printed;
use pe_page::ShownName;
use pe_text::{Counted, Outcome, Sink, Source, ToolError};
use pe_tool::{rebase, rebase_sized, rebase_summed, rebase_summed_sized};
use pe_view::View;
use std::alloc::Allocator;
use std::io::{Error, Input, Read, Seek, Write};
use std::os::fd::AsFd;
use std::rt::Files;
use std::str;

/// The size of the room for the line, in bytes.
const LINE_ROOM: usize = 1 << 8;

/// What the new file is to have.
#[derive(Clone, Copy)]
pub(crate) struct NewFile {
    /// Its ImageBase.
    pub base: u64,
    /// Whether it has its CheckSum, in place of 0.
    pub check_sum: bool,
}

/// Runs the engine over a source, whose size may be known.
fn rebase_from<A: Allocator + Copy, R: Source, O: Sink, W: Sink>(
    alloc: A,
    new: NewFile,
    reader: &mut R,
    size: Option<u64>,
    out: &mut O,
    line: &mut W,
) -> Result<Outcome, ToolError>
    requires reads { R.failures reader.old < 2 ^ 64 - 1 }
    requires outs { O.failures out.old < 2 ^ 64 - 1 }
    requires writes { W.failures line.old < 2 ^ 64 - 1 }
{
    match (size, new.check_sum) {
        (Some(size), true) => rebase_summed_sized(alloc, reader, size, new.base, out, line),
        (Some(size), false) => rebase_sized(alloc, reader, size, new.base, out, line),
        (None, true) => rebase_summed(alloc, reader, new.base, out, line),
        (None, false) => rebase(alloc, reader, new.base, out, line),
    }
}

/// Writes the file of an image for another base to the target, and its line into the room for it. Returns the engine's result, and
/// how long the line is. `size` is that of the source, if it is known.
fn rebase_into<A: Allocator + Copy>(
    alloc: A,
    new: NewFile,
    source: impl Read + Drop,
    size: Option<u64>,
    target: impl Write + Drop,
    room: &mut [u8],
) -> (Result<Outcome, ToolError>, usize) {
    let room_len = room.len();
    let mut rest = room;
    let answer = rebase_from(
        alloc,
        new,
        &mut Counted::new(source),
        size,
        &mut Counted::new(target),
        &mut Counted::new(&mut rest),
    );
    (answer, room_len.saturating_sub(rest.len()))
}

/// CheckSum of the image with these first bytes, if they contain it ("PE Format", Optional Header Windows-Specific Fields).
fn check_sum(first: View) -> Option<u32> {
    let signature = u64::from(first.u32_at(0x3c)?);
    first.u32_at(signature.saturating_add(24 + 64))
}

/// The file offset and the size of the certificates of the image with these first bytes, if it has that directory ("PE Format",
/// Optional Header Data Directories).
fn certificate_directory(first: View) -> Option<(u32, u32)> {
    let header = u64::from(first.u32_at(0x3c)?).saturating_add(24);
    let count_offset = match first.u16_at(header)? {
        0x10b => 92,
        _ => 108,
    };
    let count = header.saturating_add(count_offset);
    if first.u32_at(count)? < 5 {
        return None;
    }
    let directory = count.saturating_add(4 + 4 * 8);
    Some((
        first.u32_at(directory)?,
        first.u32_at(directory.saturating_add(4))?,
    ))
}

/// Whether the image with these first bytes has certificates: neither their file offset nor their size is 0.
fn has_certificates(first: View) -> bool {
    match certificate_directory(first) {
        Some((offset, size)) => offset != 0 && size != 0,
        None => false,
    }
}

/// Reports what the new file lost from the old one, which has these first bytes: its CheckSum, unless that was asked for, and the
/// validity of its certificate.
fn tell_changes(rt: &impl Eprint, new: NewFile, target: &[u8], first: View) {
    let target = ShownName(target);
    if !new.check_sum && check_sum(first) != Some(0) {
        let _ = eprintln!(rt; "petool: {target}: CheckSum is now 0");
    }
    if has_certificates(first) {
        let _ = eprintln!(rt;
            "petool: {target}: the certificate is that of the old file and no longer fits"
        );
    }
}

/// Prints the line of the engine: on standard output, or on standard error if the new file is there. Returns the system's error if
/// standard output failed.
fn print_line(rt: &(impl Print + Eprint), target: &str, line: &[u8]) -> Option<Error> {
    if target == "-" {
        let line = str::from_utf8(line).unwrap_or("");
        let _ = eprint!(rt; "{line}");
        return None;
    }
    rt.write_all(line).err()
}

/// Prints the line of the engine, reports what is to be reported, and returns the exit status.
fn tell_rebase<R: Print + Eprint + Alloc, F: Read + Seek + Drop, S: Read + Drop>(
    rt: &R,
    new: NewFile,
    names: (&[u8], &[u8]),
    file: &mut InputFile<F, S>,
    answer: Result<Outcome, ToolError>,
    error: Option<Error>,
) -> u8
where
    R::A: Copy,
{
    let printed = Printed {
        answer: if error.is_some() {
            Err(ToolError::Write)
        } else {
            answer
        },
        detail: None,
        error,
        is_cut: false,
    };
    let status = tell(rt, names.0, file, printed);
    if status == DONE {
        tell_changes(rt, new, names.1, View::new(file.first()));
    }
    status
}

/// Writes the file of an image for another base, then its line, which thus means that the file is in its place, and returns the
/// exit status.
fn rebase_file<R: Files + Print + Eprint + Alloc, S: Read + Drop>(
    rt: &R,
    new: NewFile,
    names: (&[u8], &[u8]),
    mut file: InputFile<R::File, S>,
    target: &str,
) -> u8
where
    R::A: Copy,
    R::File: AsFd,
{
    let mut room = [0; LINE_ROOM];
    let mut output = Target::new(rt, target);
    let size = file.size();
    let (answer, len) = rebase_into(rt.alloc(), new, &mut file, size, &mut output, &mut room);
    match output.finish(matches!(answer, Ok(Outcome::Done))) {
        Some(error) => refuse_target(rt, names.1, error),
        None => {
            let line = room.get(..len).unwrap_or(&room);
            let error = print_line(rt, target, line);
            tell_rebase(rt, new, names, &mut file, answer, error)
        }
    }
}

/// Writes the file of an image for another base, and returns the exit status.
pub(crate) fn run_rebase<R: Files + Input + Print + Eprint + Alloc>(
    rt: &R,
    new: NewFile,
    source: &str,
    target: &str,
) -> u8
where
    R::A: Copy,
    R::File: AsFd,
{
    let (Ok(from), Ok(to)) = (name_of(rt.alloc(), source), target_name(rt.alloc(), target)) else {
        return refuse_memory(rt);
    };
    let file = match open_file(rt, source) {
        Ok(file) => file,
        Err(error) => return refuse_path(rt, &from, error),
    };
    match refuse_word(rt, &to, source, target) {
        Some(status) => status,
        None => rebase_file(rt, new, (&from, &to), file, target),
    }
}
