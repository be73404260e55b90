//! The file that a command writes: its name in messages, and why it was not written.

use crate::messages::{STANDARD_OUTPUT, tell_failure};
use crate::statuses::{DEVICE_FAILED, OUT_OF_MEMORY};
use crate::texts::{Text, print_text};
use crate::word_bytes::{bytes_of, is_marked};
use pe_page::ShownName;
use pe_text::ToolError;
use pe_view::Fault;
use std::alloc::{AllocError, Allocator};
use std::borrow::CowSlice;
use std::fs;
use std::io::{Error, ErrorKind};
use std::os::unix::fs::MetadataExt;
use std::rt::Files;

/// The name in messages of the file that a word names as the target.
pub(crate) fn target_name<A: Allocator>(
    alloc: A,
    target: &str,
) -> Result<CowSlice<'_, u8, A>, AllocError> {
    if target == "-" {
        return Ok(CowSlice::Borrowed(STANDARD_OUTPUT));
    }
    bytes_of(alloc, target)
}

/// The path at which the system has the file of a word; `stream` is that of the stream which `-` is.
fn path_of<'a>(word: &'a str, stream: &'static str) -> &'a str {
    if word == "-" { stream } else { word }
}

/// Whether source and target are one file, also by links. Streams are one file only if that is a regular file, since two may come
/// from and go to one terminal. What is not there is no file.
fn is_same_file(rt: &impl Files, source: &str, target: &str) -> bool {
    let is_stream = source == "-" || target == "-";
    let from = fs::metadata(rt, path_of(source, "/dev/stdin"));
    let to = fs::metadata(rt, path_of(target, "/dev/stdout"));
    let (Ok(from), Ok(to)) = (from, to) else {
        return source == target && !is_stream;
    };
    from.dev() == to.dev() && from.ino() == to.ino() && (from.is_file() || !is_stream)
}

/// Why a target cannot be written from a source, if it cannot.
fn refusal_of(rt: &impl Files, source: &str, target: &str) -> Option<&'static str> {
    if is_marked(target) {
        return Some("cannot be written, since its name is not UTF-8");
    }
    is_same_file(rt, source, target).then_some("is the input file")
}

/// Reports why the target that a word names cannot be written from a source, and returns the exit status; `None` if it can.
pub(crate) fn refuse_word(
    rt: &(impl Files + Eprint),
    name: &[u8],
    source: &str,
    target: &str,
) -> Option<u8> {
    let reason = refusal_of(rt, source, target)?;
    let name = ShownName(name);
    let _ = eprintln!(rt; "petool: {name}: {reason}");
    Some(DEVICE_FAILED)
}

/// Prints the line of the fault by which there is no new file, unless standard output would have the file.
pub(crate) fn print_refusal<R: Files + Print + Alloc>(rt: &R, target: &str, fault: Fault)
where
    R::A: Copy,
{
    if target != "-" {
        let text: Text<'_, R::File> = Text::Refusal(fault);
        let _ = print_text(rt, text);
    }
}

/// Reports that the new file could not be written, and returns the exit status.
pub(crate) fn refuse_target(rt: &impl Eprint, name: &[u8], error: Error) -> u8 {
    if error.kind() == ErrorKind::OutOfMemory {
        tell_failure(rt, name, ToolError::Memory, None);
        return OUT_OF_MEMORY;
    }
    tell_failure(rt, name, ToolError::Write, Some(error));
    DEVICE_FAILED
}
