//! `read_view`: as much of a file of a known size as views show of it.

ghost use Rattle.std.specs.Prelude.{◌≡◌, ◌-◌, ◌+◌, ◌^◌, ◌<◌, ◌≤◌, ℕ, List, ◌++◌, length, IfSome, MatchResult, None, true};
ghost use Rattle.pe_text.specs.Engine.{FailsAfter, IsWhole};
ghost use Rattle.pe_reach.specs.Views.{IsSeen, IsViewed, RefuseView};
ghost use Rattle.pe_reach.specs.Settled.{IsSettled, IsRead, IsNamed};
ghost use Rattle.pe_reach.specs.ViewBytes.{bytes_read, size_told, refused_by};

use crate::names::names_end;
use crate::reach::{needed, view_fault};
use crate::reading::read_begin;
use crate::view_file::ViewFile;
use pe_head::{Headers, read_headers};
use pe_text::{READ_LIMIT, ReadBytes, Source, ToolError, read_up_to};
use pe_view::{Fault, View};
use std::alloc::Allocator;

/// What was read of a file for a view.
#[derive(Drop)]
pub struct ViewBytes<A: Allocator> {
    /// The file's first bytes.
    pub(crate) bytes: Vec<u8, A>,
    /// The file's size in bytes.
    pub(crate) len: u64,
    /// The fault by which its first bytes refuse it, if no more were read because of it.
    pub(crate) refused: Option<Fault>,
}

impl<A: Allocator> ViewBytes<A> {
    ghost use Rattle.pe_reach.specs.Views.{seen_of, told_of};

    /// A file of which all bytes were read.
    fn whole(bytes: Vec<u8, A>) -> ViewBytes<A>
        ensures bytes { bytes_read result ≡ bytes.items }
        ensures size { size_told result ≡ length bytes.items }
        ensures refused { refused_by result ≡ None }
    {
        let len = bytes.len() as u64;
        ViewBytes {
            bytes,
            len,
            refused: None,
        }
    }

    /// The file.
    pub fn file(&self) -> ViewFile<'_>
        ensures seen { seen_of result ≡ bytes_read self.now }
        ensures told { told_of result ≡ size_told self.now }
    {
        ViewFile::new(&self.bytes, self.len)
    }

    /// The fault of each file of this size that begins with these bytes, if they refuse it, so that no more were read.
    pub fn refused(&self) -> Option<Fault>
        ensures { result ≡ refused_by self.now }
    {
        self.refused
    }
}

/// How many bytes are read of a file of `len` bytes that begins with these, which were read: those before the end that the headers
/// of an image name. A file that is no image, one of which [`needed`] does not say where that end is, and one of which all is needed, is
/// read whole.
fn image_limit(begin: &[u8], len: u64, needs_all: bool) -> usize
    requires { length begin.now ≤ 2 ^ 12 }
    ensures least { length begin.now ≤ result }
    ensures most { result ≤ 2 ^ 32 + 1 }
    ensures settled { (more : List ℕ) → length (begin.now ++ more) ≡ result → IsSettled len (begin.now ++ more) }
{
    if needs_all || !begin.starts_with(b"MZ") {
        return READ_LIMIT;
    }
    match needed(begin, len) {
        Some(end) if begin.len() as u64 <= len => begin.len().max(end as usize),
        _ => READ_LIMIT,
    }
}

/// Reads the rest of a file of `len` bytes after its first bytes: of an image up to the end that its headers name, unless all is
/// needed, of another file all.
fn read_image<A: Allocator + Copy, R: Source>(
    reader: &mut R,
    first: ReadBytes<A>,
    len: u64,
    needs_all: bool,
) -> Result<ReadBytes<A>, ToolError>
    requires counts { R.failures reader.old < 2 ^ 64 - 1 }
    requires few { length first.bytes.items ≤ 2 ^ 12 }
    requires ends { first.has_ended ≡ true → R.ended reader.old ≡ true }
    ensures { (more : List ℕ) × (R.given reader.new ≡ R.given reader.old ++ more)
        × (length (first.bytes.items ++ more) ≤ 2 ^ 32 + 1)
        × MatchResult result
        (λ read. (read.bytes.items ≡ first.bytes.items ++ more) × IsRead read.has_ended (R.ended reader.new) len read.bytes.items × (R.failures reader.new ≡ R.failures reader.old))
        (FailsAfter (first.bytes.items ++ more) (R.failures reader.old) (R.failures reader.new)) }
{
    if first.has_ended {
        return Ok(first);
    }
    let limit = image_limit(&first.bytes, len, needs_all);
    read_up_to(reader, first.bytes, limit)
}

/// How many bytes of a file of `len` bytes that begins with these, and has these headers, are wanted for the names of its sections.
fn names_limit(begin: &[u8], headers: &Result<Headers, Fault>, len: u64) -> usize
    ensures most { result ≤ 2 ^ 32 + 1 }
    ensures named { result ≤ length begin.now → IsNamed len begin.now headers.now }
{
    match headers {
        Ok(headers) if begin.len() as u64 <= len => {
            names_end(begin, headers, len).min(READ_LIMIT as u64) as usize
        }
        _ => READ_LIMIT,
    }
}

/// Reads on in a file of `len` bytes, to the end of the string table if the names of its sections need it.
fn read_names<A: Allocator + Copy, R: Source>(
    reader: &mut R,
    read: ReadBytes<A>,
    len: u64,
) -> Result<ViewBytes<A>, ToolError>
    requires counts { R.failures reader.old < 2 ^ 64 - 1 }
    requires few { length read.bytes.items ≤ 2 ^ 32 + 1 }
    requires read { IsRead read.has_ended (R.ended reader.old) len read.bytes.items }
    ensures { (more : List ℕ) × (R.given reader.new ≡ R.given reader.old ++ more)
        × (length (read.bytes.items ++ more) ≤ 2 ^ 32 + 1)
        × MatchResult result
        (λ seen. (bytes_read seen ≡ read.bytes.items ++ more) × IsSeen (R.ended reader.new) len (read.bytes.items ++ more) (size_told seen)
        × (R.failures reader.new ≡ R.failures reader.old) × (refused_by seen ≡ None))
        (FailsAfter (read.bytes.items ++ more) (R.failures reader.old) (R.failures reader.new)) }
{
    if read.has_ended {
        return Ok(ViewBytes::whole(read.bytes));
    }
    let headers = read_headers(View::new(&read.bytes), 0);
    let mut bytes = read.bytes;
    let mut has_ended = false;
    while !has_ended {
        let limit = names_limit(&bytes, &headers, len);
        if limit <= bytes.len() {
            let is_whole = bytes.len() == READ_LIMIT;
            let len = if is_whole { bytes.len() as u64 } else { len };
            return Ok(ViewBytes {
                bytes,
                len,
                refused: None,
            });
        }
        let more = read_up_to(reader, bytes, limit)?;
        bytes = more.bytes;
        has_ended = more.has_ended;
    }
    Ok(ViewBytes::whole(bytes))
}

/// Reads the rest of a file of `len` bytes after its first bytes, as far as it decides what views show of it, or all that is there.
pub(crate) fn read_seen<A: Allocator + Copy, R: Source>(
    reader: &mut R,
    first: ReadBytes<A>,
    len: u64,
    needs_all: bool,
) -> Result<ViewBytes<A>, ToolError>
    requires counts { R.failures reader.old < 2 ^ 64 - 1 }
    requires few { length first.bytes.items ≤ 2 ^ 12 }
    requires ends { first.has_ended ≡ true → R.ended reader.old ≡ true }
    ensures { (more : List ℕ) × (R.given reader.new ≡ R.given reader.old ++ more)
        × (length (first.bytes.items ++ more) ≤ 2 ^ 32 + 1)
        × MatchResult result
        (λ seen. (bytes_read seen ≡ first.bytes.items ++ more) × IsSeen (R.ended reader.new) len (first.bytes.items ++ more) (size_told seen)
        × (R.failures reader.new ≡ R.failures reader.old) × (refused_by seen ≡ None))
        (FailsAfter (first.bytes.items ++ more) (R.failures reader.old) (R.failures reader.new)) }
{
    let read = read_image(reader, first, len, needs_all)?;
    read_names(reader, read, len)
}

/// The fault by which the first bytes of a file of `len` bytes refuse it, if more follow them.
fn refusal_of<A: Allocator>(first: &ReadBytes<A>, len: u64) -> Option<Fault>
    ensures { IfSome result (λ fault. RefuseView len first.now.bytes.items fault) }
{
    if first.has_ended {
        return None;
    }
    view_fault(&first.bytes, len)
}

/// Reads as many first bytes of a file of `len` bytes as decide what views show of it. Of an image these are the bytes before the
/// end that its headers name, as [`read_enough`](crate::read_enough) says, at least 4,096 if the file has as many; and, if a name
/// of a section may be in the string table, those before the table's end. Of a file that its first 4,096 bytes refuse by the fault
/// that [`view_fault`] returns no more are read. An object, and a file of which [`needed`] returns `None`, is read whole: to its
/// end, or to 2^32 + 1 bytes.
///
/// The errors and the condition are those of [`read_enough`](crate::read_enough).
pub fn read_view<A: Allocator + Copy, R: Source>(
    alloc: A,
    reader: &mut R,
    len: u64,
) -> Result<ViewBytes<A>, ToolError>
    requires { R.failures reader.old < 2 ^ 64 - 1 }
    ensures { (input : List ℕ) × (R.given reader.new ≡ R.given reader.old ++ input)
        × MatchResult result
        (λ seen. (bytes_read seen ≡ input) × IsViewed (R.ended reader.new) len input (size_told seen) (refused_by seen)
        × (R.failures reader.new ≡ R.failures reader.old))
        (FailsAfter input (R.failures reader.old) (R.failures reader.new))
        × (length input ≤ 2 ^ 32 + 1) }
{
    let first = read_begin(alloc, reader)?;
    if let Some(fault) = refusal_of(&first, len) {
        return Ok(ViewBytes {
            bytes: first.bytes,
            len,
            refused: Some(fault),
        });
    }
    read_seen(reader, first, len, false)
}

/// Reads on in a file of which a view's first bytes were read, to its end, or to 2^32 + 1 bytes in all. Returns all its bytes.
///
/// The errors are those of [`read_enough`](crate::read_enough). Conditions: no more than 2^32 + 1 bytes were read, and the source has
/// counted fewer than 2^64 - 1 failures so far.
pub fn read_rest<A: Allocator + Copy, R: Source>(
    reader: &mut R,
    seen: ViewBytes<A>,
) -> Result<Vec<u8, A>, ToolError>
    requires counts { R.failures reader.old < 2 ^ 64 - 1 }
    requires few { length (bytes_read seen) ≤ 2 ^ 32 + 1 }
    ensures { (more : List ℕ) × (R.given reader.new ≡ R.given reader.old ++ more)
        × MatchResult result
        (λ bytes. (bytes.items ≡ bytes_read seen ++ more) × IsWhole (R.ended reader.new) bytes.items × (R.failures reader.new ≡ R.failures reader.old))
        (FailsAfter (bytes_read seen ++ more) (R.failures reader.old) (R.failures reader.new))
        × (length (bytes_read seen ++ more) ≤ 2 ^ 32 + 1) }
{
    let read = read_up_to(reader, seen.bytes, READ_LIMIT)?;
    Ok(read.bytes)
}
