//! `MemberNames`: the names of an archive's members, of which many may share a long one.

ghost use Rattle.std.specs.Prelude.{◌≡◌, ◌≢◌, ◌≤◌, ◌<◌, [], length, IfOk, OnErr};
ghost use Rattle.coff_archive.specs.NameEnds.{AreEnds, end_from};

use crate::archive::Archive;
use crate::member::Member;
use crate::names::{NamePlace, before_end, inside_name, place_of, short_name, without_slash};
use std::alloc::{AllocError, Allocator};

/// How many bytes of the member `//` are searched for the end of a name before what is kept is looked up.
const BLOCK: usize = 256;

/// The names of an archive's members. It keeps for each 256 bytes of the member `//` where the first name ends from there on, in 8
/// bytes, so that a name takes the time of 256 bytes at most, however long it is and however many members share it.
#[derive(Drop)]
pub struct MemberNames<'a, A: Allocator> {
    pub(crate) archive: Archive<'a>,
    pub(crate) ends: Vec<usize, A>,
    ghost ends_are: { AreEnds archive.names.now ends.items },
}

/// Where the first long name ends from an offset on, given where it does from a later one on.
fn end_from(names: &[u8], start: usize, stop: usize, next: usize) -> usize
    requires order { start ≤ stop }
    requires inside { stop ≤ length names.now }
    requires next { next ≡ end_from names.now stop }
    ensures { result ≡ end_from names.now start }
{
    match before_end(&names[start..stop]) {
        Some(text) => start + text.len(),
        None => next,
    }
}

/// Where the first long name ends from the beginning of each block on.
fn block_ends<A: Allocator>(alloc: A, names: &[u8]) -> Result<Vec<usize, A>, AllocError>
    ensures ends { IfOk result (λ ends. AreEnds names.now ends.items) }
    ensures memory { OnErr result (names.now ≢ []) }
{
    if names.is_empty() {
        return Ok(Vec::new(alloc));
    }
    let count = names.len() / BLOCK + 1;
    let mut ends = vec![in alloc; 0; count]?;
    let mut next = names.len();
    for done in 0..count {
        let index = count - 1 - done;
        let start = index * BLOCK;
        next = end_from(names, start, names.len().min(start + BLOCK), next);
        ends[index] = next;
    }
    Ok(ends)
}

impl<'a, A: Allocator> MemberNames<'a, A> {
    ghost use Rattle.std.specs.Prelude.{option_map};
    ghost use Rattle.coff_archive.specs.ArchiveFile.{file_of, is_thin};
    ghost use Rattle.coff_archive.specs.Front.{names_of};
    ghost use Rattle.coff_archive.specs.MemberView.{member_view};
    ghost use Rattle.coff_archive.specs.Names.{long_name, name_of};
    ghost use Rattle.coff_archive.specs.NamedArchive.{archive_of};

    /// The names of the members of an archive. The error is want of memory, which an archive without the member `//`, or with an empty
    /// one, never has. It takes the time of that member.
    pub fn of(alloc: A, archive: &Archive<'a>) -> Result<MemberNames<'a, A>, AllocError>
        ensures archive { IfOk result (λ names. archive_of names ≡ archive.entry.now) }
        ensures memory { OnErr result (names_of (is_thin archive.entry.now) (file_of archive.entry.now) ≢ []) }
    {
        let ends = block_ends(alloc, archive.names)?;
        Ok(MemberNames {
            archive: *archive,
            ends,
        })
    }

    /// Where the long name at an offset ends.
    fn end_of(&self, offset: usize) -> usize
        requires { offset < length self.now.archive.names.now }
        ensures value { result ≡ end_from self.now.archive.names.now offset }
        ensures order { offset ≤ result }
        ensures inside { result ≤ length self.now.archive.names.now }
    {
        let names = self.archive.names;
        let block = offset / BLOCK + 1;
        let stop = block * BLOCK;
        if stop >= names.len() {
            return end_from(names, offset, names.len(), names.len());
        }
        end_from(names, offset, stop, self.ends[block])
    }

    /// The long name at an offset of the member `//`.
    fn long_name(&self, offset: u64) -> Option<&'a [u8]>
        ensures { option_map (λ name. name.now) result ≡ long_name self.now.archive.names.now offset }
    {
        if offset >= self.archive.names_end {
            return None;
        }
        let start = offset as usize;
        let end = self.end_of(start);
        Some(without_slash(&self.archive.names[start..end]))
    }

    /// The name of one of the archive's members, as [`Archive::name`] gives it.
    pub fn name(&self, member: Member<'a>) -> Option<&'a [u8]>
        ensures { option_map (λ name. name.now) result ≡ name_of (names_of (is_thin (archive_of self.now)) (file_of (archive_of self.now))) (member_view member.entry) }
    {
        match place_of(member.field) {
            NamePlace::Field => Some(short_name(member.field)),
            NamePlace::Long(offset) => self.long_name(offset),
            NamePlace::Inside(len) => inside_name(member.bytes, len),
        }
    }
}
