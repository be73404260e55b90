//! Archives: `petool_archive_check`, `_members`, `_symbols`, `_import`, `_findings` and `_write`.

ghost use Rattle.std.specs.Prelude.{◌≡◌, ◌≢◌, ◌⊎◌, None, length, map, nat_le, if◌then◌else◌};
ghost use Rattle.pe_view.specs.Faults.{first_standing};
ghost use Rattle.coff_archive.specs.FileTests.{file_tests, is_thin_file};
ghost use Rattle.c_tables.specs.ArchiveFindings.{archive_findings_of};
ghost use Rattle.c_tables.specs.Calls.{FindingsTakeMemory, NamesTakeMemory};
ghost use Rattle.c_tables.specs.ImportRecords.{import_checks, import_text, import_told};
ghost use Rattle.c_tables.specs.MemberRows.{member_row, member_text, whole_members};
ghost use Rattle.c_tables.specs.ArchiveSymbolRows.{ReadsSymbols, linker_numbered};
ghost use Rattle.coff_library.specs.Members.{member_view};
ghost use Rattle.coff_library.specs.WriteFaults.{member_tests, write_tests};
ghost use Rattle.coff_library.specs.WrittenInto.{IsWrittenInto};
ghost use Rattle.pe_records_c.specs.Faults.{IsAccepted, IsAnswered, IsRefused, IsRefusedBy, fault_record};
ghost use Rattle.pe_records_c.specs.Rows.{ReadsTable};
ghost use Rattle.c_tables.specs.Told.{ReadsRecord};

use c_tables::archive_finding::{archive_findings, tell_findings};
use c_tables::archive_symbol::{ArchiveSymbolRow, linker_numbered, tell_symbols};
use c_tables::import_object::{ImportObjectRecord, tell_import};
use c_tables::member::{ArchiveMemberRow, tell_members};
use coff_archive::open_archive;
use coff_library::{NewMember, write_archive_into};
use pe_records_c::fault::{FaultRecord, refuse, refuse_for};
use pe_records_c::row::table_status;
use pe_records_c::status;
use std::alloc::Global;

/// Checks that a file is an archive of COFF objects: that it begins as one.
///
/// The status is 0, or 1 with fault 1 or 300. What is wrong with the members of an archive are findings, which
/// `petool_archive_findings` reads. Allocates nothing. ("PE Format": Archive (Library) File Format.)
#[unsafe(no_mangle)]
pub extern "C" fn petool_archive_check(file: &[u8], fault: &mut FaultRecord) -> u32
    ensures status { (result ≡ 0) ⊎ (result ≡ 1) }
    ensures refused { IsRefusedBy (first_standing (file_tests file.now)) fault.old fault.new result }
{
    match open_archive(file) {
        Ok(_) => status::DONE,
        Err(first) => refuse(first, fault),
    }
}

/// Reads the members of an archive, in file order and with those that the archive keeps for itself, into the caller's rows. A header with
/// one of findings 301 to 303 ends them.
///
/// The status is 0; 4 if there are more members than rows, which then hold the first of them; 1 with fault 1 or 300; or 2, out of
/// memory, which comes only if the file has neither, and has long names: where they end is remembered, in 8 bytes for each 256 of them,
/// since many members may share a long one. The count is that of all members; 1 and 2 leave it and the rows unchanged. ("PE Format":
/// Archive Member Headers, Longnames Member.)
#[unsafe(no_mangle)]
pub extern "C" fn petool_archive_members<'a>(
    alloc: Global,
    file: &'a [u8],
    rows: &mut [ArchiveMemberRow<'a>],
    count: &mut usize,
    fault: &mut FaultRecord,
) -> u32
    ensures { ReadsTable (NamesTakeMemory file.now) (file_tests file.now) member_text (member_row (is_thin_file file.now) file.now)
        (whole_members (is_thin_file file.now) file.now) rows.old rows.new count.old count.new fault.old fault.new result }
{
    let archive = match open_archive(file) {
        Ok(archive) => archive,
        Err(first) => return refuse(first, fault),
    };
    match tell_members(alloc, &archive, rows, count) {
        Ok(status) => status,
        Err(_) => status::MEMORY,
    }
}

/// Reads the symbols of a linker member of an archive, 1 the first or 2 the second, in table order and up to the first one without a name,
/// into the caller's rows.
///
/// The status is 0; 4 if there are more symbols than rows, which then hold the first of them; 3 if the archive has no such member; 5
/// if `linker` is another number, and nothing is read; or 1 with fault 1 or 300. The count is that of all symbols; 1, 3 and 5 leave it
/// and the rows unchanged. Allocates nothing. ("PE Format": First Linker Member, Second Linker Member.)
#[unsafe(no_mangle)]
pub extern "C" fn petool_archive_symbols<'a>(
    file: &'a [u8],
    linker: u32,
    rows: &mut [ArchiveSymbolRow<'a>],
    count: &mut usize,
    fault: &mut FaultRecord,
) -> u32
    ensures { ReadsSymbols file.now (linker_numbered linker) rows.old rows.new count.old count.new fault.old fault.new result }
{
    let Some(linker) = linker_numbered(linker) else {
        return status::ARGUMENT;
    };
    match open_archive(file) {
        Ok(archive) => tell_symbols(&archive, linker, rows, count),
        Err(first) => refuse(first, fault),
    }
}

/// Reads a short import object, given the bytes of a member.
///
/// The status is 0; 3 if they begin as no short import object does; or 1 with the first of findings 331 to 333, at offset 0 of these bytes.
/// All but 0 leave the record unchanged. Allocates nothing. ("PE Format": Import Library Format.)
#[unsafe(no_mangle)]
pub extern "C" fn petool_archive_import<'a>(
    member: &'a [u8],
    found: &mut ImportObjectRecord<'a>,
    fault: &mut FaultRecord,
) -> u32
    ensures { ReadsRecord (import_checks member.now) import_text (import_told member.now) found.old found.new fault.old fault.new result }
{
    tell_import(member, found, fault)
}

/// Reads the findings of an archive into the caller's rows: 301 to 304 of its members in file order, 305 and 306 of the first linker
/// member and of the second, and then the first of 331 to 333 of each short import object. They are of image 0. Objects are not
/// read: `petool_object_check` says whether one has a fault.
///
/// The status is 0; 4 if there are more findings than rows, which then hold the first of them; 1 with fault 1 or 300; or 2, out of
/// memory, which comes only if the file has neither and a finding stands. The count is that of all findings; 1 and 2 leave it and the
/// rows unchanged.
#[unsafe(no_mangle)]
pub extern "C" fn petool_archive_findings(
    alloc: Global,
    file: &[u8],
    rows: &mut [FaultRecord],
    count: &mut usize,
    fault: &mut FaultRecord,
) -> u32
    ensures { ReadsTable (FindingsTakeMemory file.now) (file_tests file.now) (λ row. row) fault_record (archive_findings_of (is_thin_file file.now) file.now)
        rows.old rows.new count.old count.new fault.old fault.new result }
{
    let archive = match open_archive(file) {
        Ok(archive) => archive,
        Err(first) => return refuse(first, fault),
    };
    match archive_findings(alloc, &archive) {
        Ok(found) => tell_findings(found.as_slice(), rows, count),
        Err(_) => status::MEMORY,
    }
}

/// Writes the archive of members, with both linker members, into a buffer.
///
/// The status is 0; 4 if the archive has more bytes than the buffer, which then holds the first of them; 1 with the first of faults 91
/// to 93; or 2, out of memory, which never comes if a member has fault 91 or 92. The count is that of all bytes; 1 and 2 leave it and
/// the buffer unchanged. ("PE Format": Archive (Library) File Format.)
#[unsafe(no_mangle)]
pub extern "C" fn petool_archive_write(
    alloc: Global,
    members: &[NewMember],
    buffer: &mut [u8],
    count: &mut usize,
    fault: &mut FaultRecord,
) -> u32
    ensures faults { IsAnswered (first_standing (member_tests (map member_view members.now)) ≡ None) (write_tests (map member_view members.now)) fault.old fault.new result }
    ensures written { IsAccepted result → IsWrittenInto (map member_view members.now) buffer.old buffer.new count.new }
    ensures status { IsAccepted result → result ≡ (if nat_le count.new (length buffer.old) then 0 else 4) }
    ensures buffer_kept { IsRefused result → buffer.new ≡ buffer.old }
    ensures count_kept { IsRefused result → count.new ≡ count.old }
{
    let room = buffer.len();
    match write_archive_into(alloc, members, buffer) {
        Ok(len) => {
            *count = len;
            table_status(len, room)
        }
        Err(refusal) => refuse_for(refusal, fault),
    }
}
