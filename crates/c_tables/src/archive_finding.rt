//! The findings of an archive: those of its headers, names and symbols, and those of its short import objects.

ghost use Rattle.std.specs.Prelude.{◌≡◌, ◌≢◌, [], ◌++◌, IfOk, OnOk, OnErr};
ghost use Rattle.std.specs.List.{flat_map};
ghost use Rattle.std.specs.Option.{option_to_list};
ghost use Rattle.coff_archive.specs.ArchiveFile.{file_of, is_thin};
ghost use Rattle.coff_archive.specs.Members.{members};
ghost use Rattle.coff_archive.specs.MemberView.{read_view};
ghost use Rattle.c_tables.specs.ArchiveFindings.{archive_findings_of, import_findings, import_found};
ghost use Rattle.pe_records_c.specs.Faults.{fault_record};
ghost use Rattle.pe_records_c.specs.Rows.{TellsTable, filled};

use crate::row::put_row;
use coff_archive::{Archive, Member, findings, import_object, is_import};
use pe_records_c::fault::{FaultRecord, fault_record};
use pe_records_c::row::table_status;
use pe_view::Fault;
use std::alloc::{AllocError, Global};

/// The first finding of the short import object in what a walk over the members reads, if it is one.
fn import_found(thin: bool, read: Result<Member, Fault>) -> Option<Fault>
    ensures { option_to_list result ≡ import_found thin (read_view read.entry) }
{
    let Ok(member) = read else {
        return None;
    };
    if thin || member.is_special() {
        return None;
    }
    let contents = member.contents();
    if !is_import(contents) {
        return None;
    }
    match import_object(contents, member.offset) {
        Ok(_) => None,
        Err(fault) => Some(fault),
    }
}

/// Adds the findings of an archive's short import objects.
fn find_imports(archive: &Archive, found: &mut Vec<Fault, Global>) -> Result<(), AllocError>
    ensures adds { OnOk result (found.new.items ≡ found.old.items ++ import_findings (is_thin archive.now) (file_of archive.now)) }
    ensures wants { OnErr result (import_findings (is_thin archive.now) (file_of archive.now) ≢ []) }
{
    let mut members = archive.members();
    while let Some(read) = members.next() {
        if let Some(fault) = import_found(archive.is_thin(), read) {
            found.push(fault)?;
        }
    }
    Ok(())
}

/// All findings of an archive: 301 to 306, and then 331 to 333 of its members in file order. The error is that no memory is left for
/// one; it never comes if there is none.
pub fn archive_findings(alloc: Global, archive: &Archive) -> Result<Vec<Fault, Global>, AllocError>
    ensures all { IfOk result (λ found. found.items ≡ archive_findings_of (is_thin archive.now) (file_of archive.now)) }
    ensures memory { OnErr result (archive_findings_of (is_thin archive.now) (file_of archive.now) ≢ []) }
{
    let mut found = findings(alloc, archive)?;
    find_imports(archive, &mut found)?;
    Ok(found)
}

/// Reports findings: fills the rows, counts the findings, and returns the status, 0 or 4.
pub fn tell_findings(found: &[Fault], rows: &mut [FaultRecord], count: &mut usize) -> u32
    ensures { TellsTable (λ row. row) fault_record found.now rows.old rows.new count.new result }
{
    for index in 0..found.len() {
        put_row(rows, index, fault_record(found[index]));
    }
    *count = found.len();
    table_status(*count, rows.len())
}
