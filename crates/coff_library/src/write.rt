//! `write_archive`: the bytes of an archive, or the first of faults 91 to 93.

ghost use Rattle.std.specs.Prelude.{◌≡◌, ◌≤◌, ◌<◌, ◌^◌, ◌++◌, [], ◌∷◌, map, length, Some, Err, OnOk, OnErr, IfOk};
ghost use Rattle.std.specs.List.{All};
ghost use Rattle.pe_view.specs.Faults.{first_standing, AnswersOrWants};
ghost use Rattle.pe_view.specs.declared.fault.Fault as code_fault;
ghost use Rattle.pe_view.specs.declared.refusal.Refusal.{Refusal};
ghost use Rattle.coff_library.specs.Members as format;
ghost use Rattle.coff_library.specs.Members.{member_view};
ghost use Rattle.coff_library.specs.ReadBack.{IsReadBack};
ghost use Rattle.coff_library.specs.Sizes.{IsWritable, archive_len, counted};
ghost use Rattle.coff_library.specs.SymbolView.{symbol_view};
ghost use Rattle.coff_library.specs.Symbols.{Symbol, symbols_of};
ghost use Rattle.coff_library.specs.WriteFaults.{member_tests, write_tests};
ghost use Rattle.coff_library.specs.Written.{first_size, second_size, first_table, second_table, long_names, names_record, record_of, behind_name, records_from, member_offsets, IsArchiveOf};
ghost use Rattle.coff_library.specs.WrittenInto.{IsWrittenInto};

use crate::check::check_members;
use crate::layout::{
    archive_size, first_size, is_long, long_size, members_start, offsets_from, second_size,
};
use crate::library_symbol::LibrarySymbol;
use crate::new_member::NewMember;
use crate::parts::{push_header, push_member, push_pad};
use crate::symbols::{prefixed_names, public_symbols, sort};
use crate::tables::{push_first_table, push_long_names, push_second_table};
use pe_view::Refusal;
use std::alloc::{AllocError, Allocator};

/// Adds the first linker member.
fn push_first<A: Allocator>(
    bytes: &mut Vec<u8, A>,
    offsets: &[u32],
    symbols: &[LibrarySymbol],
) -> Result<(), AllocError>
    requires size { first_size (map symbol_view symbols.now) < 2 ^ 32 }
    requires members { All (λ (s : Symbol). s.member < length offsets.now) (map symbol_view symbols.now) }
    ensures { OnOk result (bytes.new.items ≡ bytes.old.items ++ record_of (47 ∷ []) (first_table offsets.now (map symbol_view symbols.now))) }
{
    let size = first_size(symbols);
    push_header(bytes, b"/", size)?;
    push_first_table(bytes, offsets, symbols)?;
    push_pad(bytes, size)
}

/// Adds the second linker member.
fn push_second<A: Allocator>(
    bytes: &mut Vec<u8, A>,
    offsets: &[u32],
    symbols: &[LibrarySymbol],
) -> Result<(), AllocError>
    requires few { length offsets.now ≤ 65535 }
    requires size { second_size (length offsets.now) (map symbol_view symbols.now) < 2 ^ 32 }
    requires members { All (λ (s : Symbol). s.member < length offsets.now) (map symbol_view symbols.now) }
    ensures { OnOk result (bytes.new.items ≡ bytes.old.items ++ record_of (47 ∷ []) (second_table offsets.now (map symbol_view symbols.now))) }
{
    let size = second_size(offsets.len(), symbols);
    push_header(bytes, b"/", size)?;
    push_second_table(bytes, offsets, symbols)?;
    push_pad(bytes, size)
}

/// Adds the long names, if there is one.
fn push_names<A: Allocator>(bytes: &mut Vec<u8, A>, members: &[NewMember]) -> Result<(), AllocError>
    requires { length (long_names (map member_view members.now)) < 2 ^ 32 }
    ensures { OnOk result (bytes.new.items ≡ bytes.old.items ++ names_record (long_names (map member_view members.now))) }
{
    let size = long_size(members);
    if size == 0 {
        return Ok(());
    }
    push_header(bytes, b"//", size)?;
    push_long_names(bytes, members)?;
    push_pad(bytes, size)
}

/// Where the next long name stands in the member `//` behind a name.
fn behind_name(next: u64, name: &[u8]) -> u64
    requires { next < 2 ^ 32 }
    ensures { result ≡ behind_name next name.now }
{
    if is_long(name) {
        next + name.len() as u64 + 1
    } else {
        next
    }
}

/// Adds the members.
fn push_members<A: Allocator>(
    bytes: &mut Vec<u8, A>,
    members: &[NewMember],
) -> Result<(), AllocError>
    requires names { length (long_names (map member_view members.now)) < 2 ^ 32 }
    requires sizes { All (λ (m : format.Member). length m.bytes < 2 ^ 32) (map member_view members.now) }
    ensures { OnOk result (bytes.new.items ≡ bytes.old.items ++ records_from 0 (map member_view members.now)) }
{
    let mut next = 0;
    for member in members {
        push_member(bytes, member.name, next, member.bytes)?;
        next = behind_name(next, member.name);
    }
    Ok(())
}

/// The archive of members without a fault, whose headers are at offsets; `size` bytes are allocated at once.
fn write_parts<A: Allocator>(
    alloc: A,
    size: usize,
    members: &[NewMember],
    offsets: &[u32],
    symbols: &mut Vec<LibrarySymbol, A>,
) -> Result<Vec<u8, A>, AllocError>
    requires symbols { map symbol_view symbols.old.items ≡ symbols_of (map member_view members.now) }
    requires offsets { offsets.now ≡ member_offsets (map member_view members.now) }
    requires fits { IsWritable (map member_view members.now) }
    ensures { IfOk result (λ bytes. IsArchiveOf (map member_view members.now) bytes.items) }
{
    let mut bytes = Vec::with_capacity(alloc, size)?;
    bytes.extend_from_slice(b"!<arch>\n")?;
    push_first(&mut bytes, offsets, symbols.as_slice())?;
    sort(symbols);
    push_second(&mut bytes, offsets, symbols.as_slice())?;
    push_names(&mut bytes, members)?;
    push_members(&mut bytes, members)?;
    Ok(bytes)
}

/// The archive of members, or the first of faults 91 to 93, or out of memory.
///
/// The two linker members, the long names if there is one, and the members follow one another, each at an even offset. The first
/// linker member has the symbols in the order of the members, the second in that of the bytes of their names. Members with fault 91
/// or 92 are refused before anything is allocated. ("PE Format": Archive (Library) File Format, First Linker Member, Second Linker
/// Member, Longnames Member.)
pub fn write_archive<A: Allocator + Copy>(
    alloc: A,
    members: &[NewMember],
) -> Result<Vec<u8, A>, Refusal>
    ensures exact { AnswersOrWants (write_tests (map member_view members.now)) (λ bytes. IsArchiveOf (map member_view members.now) bytes.items) result }
    ensures read_back { IfOk result (λ bytes. IsReadBack (map member_view members.now) bytes.items) }
    ensures early { (fault : code_fault.Fault) → first_standing (member_tests (map member_view members.now)) ≡ Some fault → result ≡ Err (Refusal.Fault fault) }
{
    check_members(members)?;
    let prefixed = prefixed_names(alloc, members)?;
    let mut symbols = public_symbols(alloc, members, prefixed.as_slice())?;
    let start = members_start(members, symbols.as_slice());
    let offsets = offsets_from(alloc, start, members)?;
    let size = archive_size(start, members) as usize;
    let bytes = write_parts(alloc, size, members, offsets.as_slice(), &mut symbols)?;
    Ok(bytes)
}

/// How many bytes the archive has that [`write_archive`] makes of members, or the first of faults 91 to 93, or out of memory. It takes
/// the time and the memory of that call, but for the archive's own.
pub fn archive_len<A: Allocator + Copy>(alloc: A, members: &[NewMember]) -> Result<u64, Refusal>
    ensures exact { AnswersOrWants (write_tests (map member_view members.now)) (λ len. len ≡ counted (archive_len (map member_view members.now))) result }
    ensures early { (fault : code_fault.Fault) → first_standing (member_tests (map member_view members.now)) ≡ Some fault → result ≡ Err (Refusal.Fault fault) }
{
    check_members(members)?;
    let prefixed = prefixed_names(alloc, members)?;
    let symbols = public_symbols(alloc, members, prefixed.as_slice())?;
    let start = members_start(members, symbols.as_slice());
    let _offsets = offsets_from(alloc, start, members)?;
    Ok(archive_size(start, members))
}

/// Writes the archive of members into a buffer, as far as there is room, and returns how many bytes it has; or the first of faults 91
/// to 93, or out of memory, which leave the buffer unchanged. The archive is made in memory as [`write_archive`] makes it.
pub fn write_archive_into<A: Allocator + Copy>(
    alloc: A,
    members: &[NewMember],
    buffer: &mut [u8],
) -> Result<usize, Refusal>
    ensures exact { AnswersOrWants (write_tests (map member_view members.now)) (IsWrittenInto (map member_view members.now) buffer.old buffer.new) result }
    ensures early { (fault : code_fault.Fault) → first_standing (member_tests (map member_view members.now)) ≡ Some fault → result ≡ Err (Refusal.Fault fault) }
    ensures kept { OnErr result (buffer.new ≡ buffer.old) }
{
    let bytes = write_archive(alloc, members)?;
    let count = bytes.len().min(buffer.len());
    buffer[..count].copy_from_slice(&bytes[..count]);
    Ok(bytes.len())
}
