//! The command `layout`: writes the laid-out image of a file.

ghost use Rattle.std.specs.Prelude.{◌-◌, ◌^◌, ◌<◌, ◌≤◌, OnOk};

use crate::file_job::tell;
use crate::input::{InputFile, name_of, open_file};
use crate::messages::{refuse_memory, refuse_path};
use crate::new_file::{print_refusal, refuse_target, refuse_word, target_name};
use crate::statuses::{DONE, REFUSED};
use crate::target::Target;
use crate::texts::Printed;
use pe_layout_file::{ImageFile, lay_out_file, lay_out_parts};
use pe_page::ShownName;
use pe_reach::{Placed, size_fault};
use pe_text::{Counted, Outcome, Sink, ToolError};
use std::alloc::Allocator;
use std::io::{Input, Read, Seek, Write};
use std::os::fd::AsFd;
use std::rt::Files;

/// Writes the laid-out image of an open file of `size` bytes, if its first bytes have all headers and these no fault: then no more of
/// it is read than is written. `None` means that they do not, and that nothing was written.
fn write_parts<A: Allocator + Copy, F: Read + Seek, W: Sink>(
    alloc: A,
    most: u64,
    file: &mut F,
    size: u64,
    writer: &mut W,
) -> Result<Option<ImageFile>, ToolError>
    requires { W.failures writer.old < 2 ^ 64 - 1 }
    ensures { OnOk result (W.failures writer.new ≤ W.failures writer.old) }
{
    lay_out_parts(alloc, &mut Placed::new(file), size, most, writer)
}

/// Writes the laid-out image of an open file to the target, if it has at most `most` bytes. `size` is that of the file, if it is known.
fn write_layout<A: Allocator + Copy>(
    alloc: A,
    most: u64,
    mut file: impl Read + Seek + Drop,
    size: Option<u64>,
    target: impl Write + Drop,
) -> Result<ImageFile, ToolError> {
    let mut writer = Counted::new(target);
    if let Some(size) = size {
        if let Some(fault) = size_fault(size) {
            return Ok(ImageFile::Refused(fault));
        }
        if let Some(image) = write_parts(alloc, most, &mut file, size, &mut writer)? {
            return Ok(image);
        }
        if file.rewind().is_err() {
            return Err(ToolError::Read);
        }
    }
    lay_out_file(alloc, &mut Counted::new(file), most, &mut writer)
}

/// Reports that an image is larger than allowed, and returns the exit status.
fn tell_size(rt: &impl Eprint, name: &[u8], size: u32) -> u8 {
    let name = ShownName(name);
    let _ = eprintln!(rt; "petool: {name}: the image has {size} bytes, more than --within allows");
    REFUSED
}

/// Reports why there is no laid-out image, and returns the exit status.
fn tell_answer<R: Eprint + Alloc, F: Read + Seek + Drop, S: Read + Drop>(
    rt: &R,
    name: &[u8],
    file: &mut InputFile<F, S>,
    answer: Result<Outcome, ToolError>,
) -> u8
where
    R::A: Copy,
{
    let printed = Printed {
        answer,
        detail: None,
        error: None,
        is_cut: false,
    };
    tell(rt, name, file, printed)
}

/// Reports what became of the laid-out image of a file, and returns the exit status.
fn tell_layout<R: Files + Print + Eprint + Alloc, S: Read + Drop>(
    rt: &R,
    name: &[u8],
    file: &mut InputFile<R::File, S>,
    target: &str,
    answer: Result<ImageFile, ToolError>,
) -> u8
where
    R::A: Copy,
{
    match answer {
        Ok(ImageFile::Written) => DONE,
        Ok(ImageFile::TooLarge(size)) => tell_size(rt, name, size),
        Ok(ImageFile::Refused(fault)) => {
            print_refusal(rt, target, fault);
            tell_answer(rt, name, file, Ok(Outcome::Refused(fault)))
        }
        Err(error) => tell_answer(rt, name, file, Err(error)),
    }
}

/// Writes the laid-out image of an open file, and returns the exit status.
fn lay_out_input<R: Files + Print + Eprint + Alloc, S: Read + Drop>(
    rt: &R,
    most: u64,
    names: (&[u8], &[u8]),
    mut file: InputFile<R::File, S>,
    target: &str,
) -> u8
where
    R::A: Copy,
    R::File: AsFd,
{
    let mut output = Target::new(rt, target);
    let size = file.size();
    let answer = write_layout(rt.alloc(), most, &mut file, size, &mut output);
    match output.finish(matches!(answer, Ok(ImageFile::Written))) {
        Some(error) => refuse_target(rt, names.1, error),
        None => tell_layout(rt, names.0, &mut file, target, answer),
    }
}

/// Writes the laid-out image of a file if it has at most `most` bytes, and returns the exit status.
pub(crate) fn run_layout<R: Files + Input + Print + Eprint + Alloc>(
    rt: &R,
    most: u64,
    source: &str,
    target: &str,
) -> u8
where
    R::A: Copy,
    R::File: AsFd,
{
    let (Ok(from), Ok(to)) = (name_of(rt.alloc(), source), target_name(rt.alloc(), target)) else {
        return refuse_memory(rt);
    };
    let file = match open_file(rt, source) {
        Ok(file) => file,
        Err(error) => return refuse_path(rt, &from, error),
    };
    match refuse_word(rt, &to, source, target) {
        Some(status) => status,
        None => lay_out_input(rt, most, (&from, &to), file, target),
    }
}
