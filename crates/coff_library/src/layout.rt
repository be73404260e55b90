//! Where the members of an archive are, and fault 93: a member ends too far on.

ghost use Rattle.std.specs.Prelude.{◌≡◌, ◌+◌, ◌≤◌, map, length};
ghost use Rattle.pe_view.specs.Faults.{AnswersOrWants};
ghost use Rattle.coff_library.specs.Members.{member_view};
ghost use Rattle.coff_library.specs.Sizes.{counted, records_size};
ghost use Rattle.coff_library.specs.SymbolView.{symbol_view};
ghost use Rattle.coff_library.specs.Symbols.{symbols_of};
ghost use Rattle.coff_library.specs.WriteFaults.{size_tests};
ghost use Rattle.coff_library.specs.Written.{is_long, long_names, room, names_room, names_size, first_size, second_size, members_start, offsets_from};

use crate::check::member_fault;
use crate::library_symbol::LibrarySymbol;
use crate::new_member::NewMember;
use coff_archive::HEADER_LEN;
use pe_view::Refusal;
use std::alloc::Allocator;

/// Whether a name stands in the member `//`.
pub(crate) fn is_long(name: &[u8]) -> bool
    ensures { result ≡ is_long name.now }
{
    name.len() > 15 || name.contains(&b'/')
}

/// How many bytes a member of a size takes.
fn room(size: u64) -> u64
    ensures { result ≡ counted (room size) }
{
    HEADER_LEN.saturating_add(size).saturating_add(size % 2)
}

/// How many bytes the member `//` takes.
fn names_room(size: u64) -> u64
    ensures { result ≡ counted (names_room size) }
{
    if size == 0 { 0 } else { room(size) }
}

/// The size of the names of symbols.
fn names_size(symbols: &[LibrarySymbol]) -> u64
    ensures { result ≡ counted (names_size (map symbol_view symbols.now)) }
{
    let mut size = 0u64;
    for symbol in symbols {
        size = size.saturating_add(symbol.name.len() as u64 + 1);
    }
    size
}

/// The size of the member `//`.
pub(crate) fn long_size(members: &[NewMember]) -> u64
    ensures { result ≡ counted (length (long_names (map member_view members.now))) }
{
    let mut size = 0u64;
    for member in members {
        if is_long(member.name) {
            size = size.saturating_add(member.name.len() as u64 + 1);
        }
    }
    size
}

/// The size of the first linker member.
pub(crate) fn first_size(symbols: &[LibrarySymbol]) -> u64
    ensures { result ≡ counted (first_size (map symbol_view symbols.now)) }
{
    let offsets = (symbols.len() as u64).saturating_mul(4);
    names_size(symbols)
        .saturating_add(offsets)
        .saturating_add(4)
}

/// The size of the second linker member, for so many members.
pub(crate) fn second_size(members: usize, symbols: &[LibrarySymbol]) -> u64
    ensures { result ≡ counted (second_size members (map symbol_view symbols.now)) }
{
    let offsets = (members as u64).saturating_mul(4);
    let indexes = (symbols.len() as u64).saturating_mul(2);
    names_size(symbols)
        .saturating_add(offsets)
        .saturating_add(indexes)
        .saturating_add(8)
}

/// Where the header of the first member is.
#[tactic(auto, unfolding(crate::specs::Written::members_start))]
pub(crate) fn members_start(members: &[NewMember], symbols: &[LibrarySymbol]) -> u64
    requires { map symbol_view symbols.now ≡ symbols_of (map member_view members.now) }
    ensures { result ≡ counted (members_start (map member_view members.now)) }
{
    let first = room(first_size(symbols));
    let second = room(second_size(members.len(), symbols));
    let names = names_room(long_size(members));
    first
        .saturating_add(second)
        .saturating_add(names)
        .saturating_add(8)
}

/// How many bytes an archive takes whose first member's header is at an offset.
pub(crate) fn archive_size(start: u64, members: &[NewMember]) -> u64
    ensures { result ≡ counted (start + records_size (map member_view members.now)) }
{
    let mut size = start;
    for member in members {
        size = size.saturating_add(room(member.bytes.len() as u64));
    }
    size
}

/// Where the headers of the members are, if the first is at an offset; or the first fault 93, or out of memory.
pub(crate) fn offsets_from<A: Allocator>(
    alloc: A,
    start: u64,
    members: &[NewMember],
) -> Result<Vec<u32, A>, Refusal>
    requires { length members.now ≤ 65535 }
    ensures { AnswersOrWants (size_tests 0 start (map member_view members.now)) (λ offsets. offsets.items ≡ offsets_from start (map member_view members.now)) result }
{
    let mut offsets = Vec::with_capacity(alloc, members.len())?;
    let mut index = 0;
    let mut at = start;
    for member in members {
        let size = member.bytes.len() as u64;
        let end = at.saturating_add(HEADER_LEN + size);
        if end > u64::from(u32::MAX) {
            return Err(Refusal::Fault(member_fault(93, index)));
        }
        offsets.push(at as u32)?;
        at = end + size % 2;
        index += 1;
    }
    Ok(offsets)
}
