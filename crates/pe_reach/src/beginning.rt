//! `read_beginning`: the headers of an image, by the first bytes of its file.

ghost use Rattle.std.specs.Prelude.{◌≡◌, ◌-◌, ◌^◌, ◌<◌, ◌≤◌, ℕ, List, ◌++◌, IfOk, IfNone, IfSome, IsErrOf, MatchResult};
ghost use Rattle.pe_reach.specs.Parts.{Part, HasPart, HasParts};
ghost use Rattle.pe_reach.specs.PartsRead.{AreNotRead, BeginAll, FailsToRead};

use crate::part_source::PartSource;
use crate::parts_reading::{FIRST, LEAST, headers_in, read_range};
use pe_head::Headers;
use pe_text::ToolError;
use std::alloc::Allocator;

/// The first bytes of an image's file, among which its headers are.
#[derive(Drop)]
pub struct Beginning<A: Allocator> {
    /// The headers of the file.
    pub headers: Headers,
    /// The bytes.
    pub bytes: Vec<u8, A>,
}

/// Reads the first 4,096 bytes of an image's file of `len` bytes. Each file of `len` bytes that begins with them has the headers that
/// are returned, and none of faults 1 to 15. `None` if the file has fewer than 65,536 bytes, or ends before it should, or its first
/// 4,096 bytes have not all headers, or it has one of these faults.
///
/// The error is `Read` if the reader fails, or `Memory`, and then all memory is freed; a file of fewer than 65,536 bytes takes none.
/// Condition: the reader has counted fewer than 2^64 - 1 failures so far.
pub fn read_beginning<A: Allocator + Copy, R: PartSource>(
    alloc: A,
    reader: &mut R,
    len: u64,
) -> Result<Option<Beginning<A>>, ToolError>
    requires { R.failures reader.old < 2 ^ 64 - 1 }
    ensures begins { (read : List Part) × (R.parts reader.new ≡ R.parts reader.old ++ read) × MatchResult result
        (λ found. (R.failures reader.new ≡ R.failures reader.old) × IfSome found (λ found. BeginAll len found.headers found.bytes.items
        × ((file : List ℕ) → HasParts file read → HasPart file (record { offset = 0; bytes = found.bytes.items }))))
        (FailsToRead (R.failures reader.old) (R.failures reader.new)) }
    ensures left { IfOk result (λ found. IfNone found (AreNotRead len (R.parts reader.old) (R.parts reader.new))) }
    ensures memory { IsErrOf result ToolError.Memory → 2 ^ 16 ≤ len }
{
    if len < LEAST {
        return Ok(None);
    }
    let mut bytes = Vec::new(alloc);
    if !read_range(reader, 0, &mut bytes, FIRST)? {
        return Ok(None);
    }
    let Some((headers, _)) = headers_in(&bytes, len) else {
        return Ok(None);
    };
    Ok(Some(Beginning { headers, bytes }))
}
