//! `read_enough`: as many first bytes of a file of a known size as decide its answers.

ghost use Rattle.std.specs.Prelude.{◌≡◌, ◌-◌, ◌+◌, ◌^◌, ◌<◌, ◌≤◌, ◌⊎◌, ℕ, List, ◌++◌, length, MatchResult, true};
ghost use Rattle.pe_text.specs.Engine.{FailsAfter};
ghost use Rattle.pe_reach.specs.Reach.{Decide, IsEnough};

use crate::reach::needed;
use pe_text::{READ_LIMIT, ReadBytes, Source, ToolError, read_up_to};
use std::alloc::Allocator;

/// How many bytes are read first; the headers and section tables that linkers write are among them.
const FIRST: usize = 1 << 12;

/// How many bytes are read of a file of `len` bytes that begins with these, which were read. If they are more than `len`, the size
/// was wrong, and the file is read whole.
fn limit_of(begin: &[u8], len: u64) -> usize
    requires { length begin.now ≤ 2 ^ 12 }
    ensures least { length begin.now ≤ result }
    ensures most { result ≤ 2 ^ 32 + 1 }
    ensures enough { (more : List ℕ) → length (begin.now ++ more) ≡ result
        → (length (begin.now ++ more) ≡ 2 ^ 32 + 1) ⊎ Decide len (begin.now ++ more) }
{
    match needed(begin, len) {
        Some(end) if begin.len() as u64 <= len => begin.len().max(end as usize),
        _ => READ_LIMIT,
    }
}

/// Reads the first bytes of a file, 4,096 if it has as many.
pub(crate) fn read_begin<A: Allocator + Copy, R: Source>(
    alloc: A,
    reader: &mut R,
) -> Result<ReadBytes<A>, ToolError>
    requires { R.failures reader.old < 2 ^ 64 - 1 }
    ensures { (input : List ℕ) × (R.given reader.new ≡ R.given reader.old ++ input)
        × (length input ≤ 2 ^ 12)
        × MatchResult result
        (λ read. (read.bytes.items ≡ input) × (read.has_ended ≡ true → R.ended reader.new ≡ true) × (R.failures reader.new ≡ R.failures reader.old))
        (FailsAfter input (R.failures reader.old) (R.failures reader.new)) }
{
    read_up_to(reader, Vec::new(alloc), FIRST)
}

/// Reads the rest of a file of `len` bytes after its first bytes, as far as it decides the file's answers.
pub(crate) fn read_rest<A: Allocator + Copy, R: Source>(
    reader: &mut R,
    first: ReadBytes<A>,
    len: u64,
) -> Result<Vec<u8, A>, ToolError>
    requires counts { R.failures reader.old < 2 ^ 64 - 1 }
    requires few { length first.bytes.items ≤ 2 ^ 12 }
    requires ends { first.has_ended ≡ true → R.ended reader.old ≡ true }
    ensures { (more : List ℕ) × (R.given reader.new ≡ R.given reader.old ++ more)
        × (length (first.bytes.items ++ more) ≤ 2 ^ 32 + 1)
        × MatchResult result
        (λ bytes. (bytes.items ≡ first.bytes.items ++ more) × IsEnough (R.ended reader.new) len (first.bytes.items ++ more) × (R.failures reader.new ≡ R.failures reader.old))
        (FailsAfter (first.bytes.items ++ more) (R.failures reader.old) (R.failures reader.new)) }
{
    if first.has_ended {
        return Ok(first.bytes);
    }
    let limit = limit_of(&first.bytes, len);
    let read = read_up_to(reader, first.bytes, limit)?;
    Ok(read.bytes)
}

/// Reads as many first bytes of a file of `len` bytes as decide its answers, but at least 4,096 if it has as many. If [`needed`]
/// returns `None` for those, it is read whole: to its end, or to 2^32 + 1 bytes.
///
/// The error is `Read` if a read failed, and `Memory` if out of memory, never before the source returned a byte; it is never
/// `Write`. Condition: the source has counted fewer than 2^64 - 1 failures so far.
pub fn read_enough<A: Allocator + Copy, R: Source>(
    alloc: A,
    reader: &mut R,
    len: u64,
) -> Result<Vec<u8, A>, ToolError>
    requires { R.failures reader.old < 2 ^ 64 - 1 }
    ensures { (input : List ℕ) × (R.given reader.new ≡ R.given reader.old ++ input)
        × MatchResult result
        (λ bytes. (bytes.items ≡ input) × IsEnough (R.ended reader.new) len input × (R.failures reader.new ≡ R.failures reader.old))
        (FailsAfter input (R.failures reader.old) (R.failures reader.new))
        × (length input ≤ 2 ^ 32 + 1) }
{
    let first = read_begin(alloc, reader)?;
    read_rest(reader, first, len)
}
