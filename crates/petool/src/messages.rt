//! The messages on standard error.

use crate::statuses::{DEVICE_FAILED, OUT_OF_MEMORY};
use pe_detail::{Detail, DetailText};
use pe_page::ShownName;
use pe_text::{FaultText, FileKind, ToolError, other_kind};
use pe_view::Fault;
use std::fmt::{self, Display};
use std::io::{Error, ErrorKind};
use std::str;

/// The name of standard input in messages.
pub(crate) const STANDARD_INPUT: &[u8] = b"standard input";

/// The name of standard output in messages.
pub(crate) const STANDARD_OUTPUT: &[u8] = b"standard output";

/// Reports that a file, an output or a command failed, with the system's error if there is one. For a closed pipe it reports
/// nothing.
pub(crate) fn tell_failure(
    rt: &impl Eprint,
    subject: &[u8],
    failure: ToolError,
    error: Option<Error>,
) {
    let subject = ShownName(subject);
    let _ = match error {
        Some(error) if error.kind() == ErrorKind::BrokenPipe => Ok(()),
        Some(error) => eprintln!(rt; "petool: {subject}: {failure}: {error}"),
        None => eprintln!(rt; "petool: {subject}: {failure}"),
    };
}

/// Reports on standard error that a file cannot be opened, and returns the exit status. One whose name is not UTF-8 never can.
pub(crate) fn refuse_path(rt: &impl Eprint, name: &[u8], error: Error) -> u8 {
    let is_text = str::from_utf8(name).is_ok();
    let name = ShownName(name);
    let _ = if is_text {
        eprintln!(rt; "petool: {name}: cannot be opened: {error}")
    } else {
        eprintln!(rt; "petool: {name}: cannot be opened, since its name is not UTF-8")
    };
    DEVICE_FAILED
}

/// Reports on standard error that memory ran out before there was a subject, and returns the exit status.
pub(crate) fn refuse_memory(rt: &impl Eprint) -> u8 {
    let _ = eprintln!(rt; "petool: out of memory");
    OUT_OF_MEMORY
}

/// Reports on standard error that memory for `map` ran out, and returns the exit status.
pub(crate) fn refuse_map(rt: &impl Eprint) -> u8 {
    tell_failure(rt, b"map", ToolError::Memory, None);
    OUT_OF_MEMORY
}

/// A fault in words, the numbers of the file that its rule compares, and the kind of the file if it is the wrong one.
#[derive(Clone, Copy)]
struct Told {
    fault: FaultText,
    detail: Option<DetailText>,
    kind: Option<FileKind>,
}

/// What more is said of a file of the wrong kind: by faults 61 and 62, which only `object` without `--big` has of a big object, that
/// there is this option.
fn remedy(fault: &Fault, kind: FileKind) -> &'static str {
    match (fault.number, kind) {
        (61 | 62, FileKind::BigObject) => ", which --big reads",
        _ => "",
    }
}

impl Display for Told {
    fn fmt<W: fmt::Write>(&self, f: &mut fmt::Formatter<W>) -> fmt::Result {
        write!(f, "{}", self.fault)?;
        if let Some(detail) = self.detail {
            write!(f, ": {detail}")?;
        }
        match self.kind {
            Some(kind) => write!(f, "; {kind}{}", remedy(&self.fault.0, kind)),
            None => Ok(()),
        }
    }
}

/// Reports a fault of a file or a command in words, with the numbers that its rule compares. `first` has the file's first bytes.
pub(crate) fn tell_fault(
    rt: &impl Eprint,
    subject: &[u8],
    fault: Fault,
    detail: Option<Detail>,
    first: &[u8],
) {
    let subject = ShownName(subject);
    let told = Told {
        fault: FaultText(fault),
        detail: detail.map(DetailText),
        kind: other_kind(&fault, first),
    };
    let _ = eprintln!(rt; "petool: {subject}: {told}");
}
