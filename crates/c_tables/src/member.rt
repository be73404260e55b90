//! `ArchiveMemberRow`: a member of an archive, as C has it.

ghost use Rattle.std.specs.Prelude.{◌≡◌, ◌≢◌, [], IfOk, OnErr, length, map};
ghost use Rattle.std.specs.Option.{unwrap_or};
ghost use Rattle.coff_archive.specs.ArchiveFile.{file_of, is_thin};
ghost use Rattle.coff_archive.specs.Front.{names_of};
ghost use Rattle.coff_archive.specs.MemberView.{member_view};
ghost use Rattle.coff_archive.specs.NamedArchive.{archive_of};
ghost use Rattle.c_tables.specs.MemberRows.{kind_of, member_row, member_text, own_kind, whole_members};
ghost use Rattle.pe_records_c.specs.Rows.{TellsTable, filled};

use crate::field::FieldRow;
use crate::row::put_row;
use coff_archive::{Archive, Member, MemberNames, is_import};
use pe_records_c::row::{Row, table_status};
use std::alloc::{AllocError, Global};

/// What a member is.
pub mod member_kind {
    /// A file, mostly a COFF object.
    pub const FILE: u32 = 0;
    /// A short import object.
    pub const IMPORT: u32 = 1;
    /// A linker member, which has symbols of the archive.
    pub const LINKER: u32 = 2;
    /// The member that has long names.
    pub const LONG_NAMES: u32 = 3;
    /// Another member that the archive keeps for itself.
    pub const OWN: u32 = 4;
    /// A member of a thin archive, whose bytes are in another file.
    pub const APART: u32 = 5;
}

/// A member of an archive. The numbers of its header are absent if the header has no number there.
#[repr(C)]
#[derive(Clone, Copy)]
pub struct ArchiveMemberRow<'a> {
    /// The name; empty if its field leads to no text.
    pub name: &'a [u8],
    /// What it holds, without its name; empty if that is in another file.
    pub bytes: &'a [u8],
    /// The file offset of its header.
    pub offset: u64,
    /// How many bytes its header gives it, with a name that is in its first bytes.
    pub size: u64,
    /// When it was written, in seconds since 1970.
    pub date: FieldRow,
    /// The user who owns it.
    pub user: FieldRow,
    /// The group that owns it.
    pub group: FieldRow,
    /// How it may be used, as Unix has it.
    pub mode: FieldRow,
    /// What it is.
    pub kind: u32,
    /// Whether its name field leads to a text.
    pub has_name: bool,
}

/// What a member is that the archive keeps for itself.
fn own_kind(field: &[u8]) -> u32
    ensures { result ≡ own_kind field.now }
{
    if field == b"/               ".as_slice() {
        return member_kind::LINKER;
    }
    if field == b"//              ".as_slice() {
        return member_kind::LONG_NAMES;
    }
    member_kind::OWN
}

/// What a member is.
fn kind_of(thin: bool, member: Member) -> u32
    ensures { result ≡ kind_of thin (member_view member.entry) }
{
    if member.is_special() {
        return own_kind(member.field);
    }
    if thin {
        return member_kind::APART;
    }
    if is_import(member.contents()) {
        return member_kind::IMPORT;
    }
    member_kind::FILE
}

impl<'a> ArchiveMemberRow<'a> {
    /// A member as C has it.
    fn of(
        archive: &Archive<'a>,
        names: &MemberNames<'a, Global>,
        member: Member<'a>,
    ) -> ArchiveMemberRow<'a>
        requires { archive_of names.now ≡ archive.now }
        ensures { member_text result ≡ member_row (is_thin archive.entry.now) (file_of archive.entry.now) (member_view member.entry) }
    {
        let name = names.name(member);
        ArchiveMemberRow {
            name: name.unwrap_or(&[]),
            bytes: member.contents(),
            offset: member.offset,
            size: member.size,
            date: FieldRow::of(&archive.date(member)),
            user: FieldRow::of(&archive.user(member)),
            group: FieldRow::of(&archive.group(member)),
            mode: FieldRow::of(&archive.mode(member)),
            kind: kind_of(archive.is_thin(), member),
            has_name: name.is_some(),
        }
    }
}

/// Fills the first rows with members, as many as fit, and returns how many there are.
fn put_members<'a>(
    rows: &mut [ArchiveMemberRow<'a>],
    archive: &Archive<'a>,
    names: &MemberNames<'a, Global>,
) -> usize
    requires { archive_of names.now ≡ archive.now }
    ensures rows { map member_text rows.new ≡ filled (member_row (is_thin archive.entry.now) (file_of archive.entry.now)) (whole_members (is_thin archive.entry.now) (file_of archive.entry.now)) (map member_text rows.old) }
    ensures count { result ≡ length (whole_members (is_thin archive.entry.now) (file_of archive.entry.now)) }
{
    let mut count = 0;
    for read in archive.members() {
        let Ok(member) = read else {
            continue;
        };
        put_row(rows, count, ArchiveMemberRow::of(archive, names, member));
        count += 1;
    }
    count
}

/// Reports the members of an archive up to the first header with a fault: fills the rows, counts the members, and returns the status,
/// 0 or 4. The error is want of memory, which an archive without long names never has, and leaves rows and count unchanged.
pub fn tell_members<'a>(
    alloc: Global,
    archive: &Archive<'a>,
    rows: &mut [ArchiveMemberRow<'a>],
    count: &mut usize,
) -> Result<u32, AllocError>
    ensures told { IfOk result (λ status. TellsTable member_text (member_row (is_thin archive.entry.now) (file_of archive.entry.now)) (whole_members (is_thin archive.entry.now) (file_of archive.entry.now)) rows.old rows.new count.new status) }
    ensures memory { OnErr result (names_of (is_thin archive.entry.now) (file_of archive.entry.now) ≢ []) }
    ensures rows_kept { OnErr result (rows.new ≡ rows.old) }
    ensures count_kept { OnErr result (count.new ≡ count.old) }
{
    let names = MemberNames::of(alloc, archive)?;
    *count = put_members(rows, archive, &names);
    Ok(table_status(*count, rows.len()))
}
