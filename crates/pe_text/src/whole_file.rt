//! `read_whole`: all bytes of a source up to its end, or 2^32 + 1 of them; and `read_up_to`: as many as are needed.

ghost use Rattle.std.specs.Prelude.{◌≡◌, ◌+◌, ◌-◌, ◌^◌, ◌<◌, ◌≤◌, ℕ, List, [], ◌++◌, length, take, vec_len, OnOk, OnErr, MatchResult};
ghost use Rattle.pe_text.specs.Engine.{Collects, FailsAfter};
ghost use Rattle.pe_text.specs.WholeFile.{ReadsPiece, EndsAt};

use crate::device::Source;
use crate::outcome::ToolError;
use std::alloc::{AllocError, Allocator};

/// The most bytes that are read: one more than a file may have.
pub const READ_LIMIT: usize = (1 << 32) + 1;

/// The most bytes that one read requests.
const PIECE: usize = 1 << 16;

/// The most bytes that the first read requests: it reads into an array on the stack, as no buffer is allocated yet.
const FIRST: usize = 1 << 9;

/// The most bytes that are cleared at once: so few are cleared by vector stores, more by a slower string instruction.
const CLEARED: usize = 1 << 11;

/// Bytes of a source.
#[derive(Drop)]
pub struct ReadBytes<A: Allocator> {
    pub bytes: Vec<u8, A>,
    /// Whether the source's end comes after them.
    pub has_ended: bool,
}

/// Reads the first piece of a file, at most `limit` bytes, and allocates nothing unless it has a byte.
fn read_first<A: Allocator + Copy, R: Source>(
    reader: &mut R,
    bytes: &mut Vec<u8, A>,
    limit: usize,
) -> Result<usize, ToolError>
    requires counts { R.failures reader.old < 2 ^ 64 - 1 }
    requires empty { bytes.old.items ≡ [] }
    requires some { 0 < limit }
    ensures piece { ReadsPiece limit (R.given reader.old) (R.given reader.new) (R.ended reader.new)
        (R.failures reader.old) (R.failures reader.new) [] bytes.new.items result }
    ensures few { (vec_len bytes.new ≤ 2 ^ 9) × (vec_len bytes.new ≤ limit) }
{
    let mut piece = [0u8; FIRST];
    let Ok(count) = reader.read(&mut piece[..FIRST.min(limit)]) else {
        return Err(ToolError::Read);
    };
    if bytes.extend_from_slice(&piece[..count]).is_err() {
        return Err(ToolError::Memory);
    }
    Ok(count)
}

/// Makes room after the first `filled` bytes of the buffer if there is none: as many zero bytes as those, at most a piece, and not
/// past `limit` bytes.
fn make_room<A: Allocator>(
    bytes: &mut Vec<u8, A>,
    filled: usize,
    limit: usize,
) -> Result<(), AllocError>
    requires some { 0 < vec_len bytes.old }
    requires within { filled ≤ vec_len bytes.old }
    requires more { filled < limit }
    requires few { vec_len bytes.old ≤ limit }
    ensures front { take filled bytes.new.items ≡ take filled bytes.old.items }
    ensures room { OnOk result (filled < vec_len bytes.new) }
    ensures full { OnErr result (filled ≡ vec_len bytes.old) }
    ensures few { vec_len bytes.new ≤ limit }
{
    if filled < bytes.len() {
        return Ok(());
    }
    let len = filled + filled.min(PIECE).min(limit - filled);
    while bytes.len() < len {
        let cleared = CLEARED.min(len - bytes.len());
        bytes.resize(bytes.len() + cleared, 0)?;
    }
    Ok(())
}

/// Reads a piece of a file after the first `filled` bytes of the buffer, and returns how many bytes it has.
fn read_piece<A: Allocator + Copy, R: Source>(
    reader: &mut R,
    bytes: &mut Vec<u8, A>,
    filled: usize,
    limit: usize,
) -> Result<usize, ToolError>
    requires counts { R.failures reader.old < 2 ^ 64 - 1 }
    requires within { filled ≤ vec_len bytes.old }
    requires more { filled < limit }
    requires few { vec_len bytes.old ≤ limit }
    ensures piece { ReadsPiece limit (R.given reader.old) (R.given reader.new) (R.ended reader.new)
        (R.failures reader.old) (R.failures reader.new) (take filled bytes.old.items) bytes.new.items result }
    ensures few { vec_len bytes.new ≤ limit }
{
    if bytes.is_empty() {
        return read_first(reader, bytes, limit);
    }
    if make_room(bytes, filled, limit).is_err() {
        return Err(ToolError::Memory);
    }
    match reader.read(&mut bytes[filled..]) {
        Ok(count) => Ok(count),
        Err(_) => Err(ToolError::Read),
    }
}

/// Reads after the bytes that are there, to the source's end or until there are `limit` bytes. All pieces but the first are read
/// directly into the returned buffer.
///
/// The error is `Read` if a read failed, and `Memory` if out of memory, never before there is a byte; it is never `Write`.
/// Conditions: there are at most `limit` bytes, which is at most 2^32 + 1, and the source has counted fewer than 2^64 - 1 failures.
pub fn read_up_to<A: Allocator + Copy, R: Source>(
    reader: &mut R,
    bytes: Vec<u8, A>,
    limit: usize,
) -> Result<ReadBytes<A>, ToolError>
    requires counts { R.failures reader.old < 2 ^ 64 - 1 }
    requires few { vec_len bytes ≤ limit }
    requires limit { limit ≤ 2 ^ 32 + 1 }
    ensures { (input : List ℕ) × (R.given reader.new ≡ R.given reader.old ++ input)
        × (length (bytes.items ++ input) ≤ limit)
        × MatchResult result
        (λ read. (read.bytes.items ≡ bytes.items ++ input) × EndsAt limit read.has_ended (R.ended reader.new) (length read.bytes.items) × (R.failures reader.new ≡ R.failures reader.old))
        (FailsAfter (bytes.items ++ input) (R.failures reader.old) (R.failures reader.new)) }
{
    let mut bytes = bytes;
    let mut filled = bytes.len();
    while filled < limit {
        let count = read_piece(reader, &mut bytes, filled, limit)?;
        if count == 0 {
            bytes.truncate(filled);
            return Ok(ReadBytes {
                bytes,
                has_ended: true,
            });
        }
        filled += count;
    }
    Ok(ReadBytes {
        bytes,
        has_ended: false,
    })
}

/// Reads to the source's end, or 2^32 + 1 bytes: one more than a file may have.
///
/// The error is `Read` if a read failed, and `Memory` if out of memory, never before the source returned a byte; it is never
/// `Write`. Condition: the source has counted fewer than 2^64 - 1 failures so far.
pub fn read_whole<A: Allocator + Copy, R: Source>(
    alloc: A,
    reader: &mut R,
) -> Result<Vec<u8, A>, ToolError>
    requires { R.failures reader.old < 2 ^ 64 - 1 }
    ensures { (input : List ℕ) × (R.given reader.new ≡ R.given reader.old ++ input)
        × Collects (λ bytes. bytes.items) (R.ended reader.new)
        (R.failures reader.old) (R.failures reader.new) result input
        × (length input ≤ 2 ^ 32 + 1) }
{
    let read = read_up_to(reader, Vec::new(alloc), READ_LIMIT)?;
    Ok(read.bytes)
}
