//! `ShownArchive`: what the page of an archive shows.

ghost use Rattle.std.specs.Prelude.{◌≡◌, IfOk};
ghost use Rattle.coff_archive.specs.ArchiveFile.{file_of, is_thin};
ghost use Rattle.coff_lines.specs.ArchiveLines.{archive_fault};

use crate::member_symbols::{MemberSymbol, member_symbols, symbol_count};
use crate::members::{CheckedMembers, check_members};
use coff_archive::{Archive, MemberNames, findings};
use pe_text::ShowOptions;
use pe_view::Fault;
use std::alloc::{AllocError, Allocator};

/// What the page of an archive shows. Its memory is linear in the number of members and symbols.
#[derive(Drop)]
pub(crate) struct ShownArchive<'a, A: Allocator> {
    pub is_thin: bool,
    pub checked: CheckedMembers<'a, A>,
    pub names: MemberNames<'a, A>,
    pub symbol_count: usize,
    pub symbols: Vec<MemberSymbol<'a>, A>,
    pub findings: Vec<Fault, A>,
}

/// Checks an archive, and reads what its page shows.
pub(crate) fn read_shown<'a, A: Allocator + Copy>(
    alloc: A,
    archive: &Archive<'a>,
    options: &ShowOptions,
) -> Result<ShownArchive<'a, A>, AllocError>
    ensures { IfOk result (λ shown. shown.checked.fault ≡ archive_fault (is_thin archive.entry.now) (file_of archive.entry.now)) }
{
    let checked = check_members(alloc, archive)?;
    let names = MemberNames::of(alloc, archive)?;
    let symbols = member_symbols(alloc, archive, checked.members.as_slice(), options.symbols)?;
    let findings = findings(alloc, archive)?;
    Ok(ShownArchive {
        is_thin: archive.is_thin(),
        checked,
        names,
        symbol_count: symbol_count(archive),
        symbols,
        findings,
    })
}
