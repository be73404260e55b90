//! `read_kept`: a file whole, or if its first bytes refuse it, no more than these.

ghost use Rattle.std.specs.Prelude.{◌-◌, ◌^◌, ◌<◌};

use pe_reach::{early_fault, view_fault};
use pe_text::{FileKind, READ_LIMIT, Source, ToolError, file_kind, read_up_to};
use pe_view::Fault;
use std::alloc::Allocator;

/// How many first bytes decide whether more is kept: as many as engines read first of a file of a known size.
const FIRST: usize = 1 << 12;

/// How many bytes are read at once of what is not kept.
const PIECE: usize = 1 << 14;

/// What an engine reads files as.
#[derive(Clone, Copy)]
pub(crate) enum Reads {
    /// Images.
    Images,
    /// Objects.
    Objects,
    /// Archives and objects by their first bytes, and images.
    All,
}

/// What was read of a file.
#[derive(Drop)]
pub(crate) enum Kept<A: Allocator> {
    /// All its bytes, or one more than any file may have.
    Whole(Vec<u8, A>),
    /// The first bytes of a file of `len` bytes, which is refused by this fault.
    Refused {
        first: Vec<u8, A>,
        len: u64,
        fault: Fault,
    },
}

/// Whether a file that begins so is an archive.
pub(crate) fn is_archive(beginning: &[u8]) -> bool {
    matches!(
        file_kind(beginning),
        Some(FileKind::Archive | FileKind::ThinArchive)
    )
}

/// The fault of each file of `len` bytes that begins so, as far as it is known by that.
fn fault_of(reads: Reads, beginning: &[u8], len: u64) -> Option<Fault> {
    match reads {
        Reads::Images => early_fault(beginning, len),
        Reads::Objects => None,
        Reads::All if is_archive(beginning) => None,
        Reads::All => view_fault(beginning, len),
    }
}

/// Reads a file to its end, or until it has more bytes than any may have, and returns how many it has, or one more than any may have;
/// `count` were read before.
fn read_past<R: Source>(reader: &mut R, count: u64) -> Result<u64, ToolError>
    requires { R.failures reader.old < 2 ^ 64 - 1 }
{
    let mut room = [0; PIECE];
    let mut total = count;
    for _ in 0..READ_LIMIT {
        match reader.read(&mut room) {
            Ok(0) => return Ok(total),
            Ok(read) => total = total.saturating_add(read as u64),
            Err(_) => return Err(ToolError::Read),
        }
        if total >= READ_LIMIT as u64 {
            break;
        }
    }
    Ok(total.min(READ_LIMIT as u64))
}

/// Reads a file to its end, which is known to have `size` bytes or is not, and keeps all of it unless its first bytes refuse it. A
/// file of a known size that they refuse is not read on.
pub(crate) fn read_kept<A: Allocator + Copy, R: Source>(
    alloc: A,
    reads: Reads,
    reader: &mut R,
    size: Option<u64>,
) -> Result<Kept<A>, ToolError>
    requires { R.failures reader.old < 2 ^ 64 - 1 }
{
    let first = read_up_to(reader, Vec::new(alloc), FIRST)?;
    if first.has_ended {
        return Ok(Kept::Whole(first.bytes));
    }
    let Some(fault) = fault_of(reads, &first.bytes, FIRST as u64) else {
        let file = read_up_to(reader, first.bytes, READ_LIMIT)?;
        return Ok(Kept::Whole(file.bytes));
    };
    let len = match size {
        Some(size) => size,
        None => read_past(reader, FIRST as u64)?,
    };
    let fault = fault_of(reads, &first.bytes, len).unwrap_or(fault);
    Ok(Kept::Refused {
        first: first.bytes,
        len,
        fault,
    })
}
