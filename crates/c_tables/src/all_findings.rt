//! All findings of an image's file, by number: those of the tables beyond the profile, and those on what the file says of itself.

ghost use Rattle.std.specs.Prelude.{◌≡◌, ◌+◌, ◌^◌, ◌<◌, ◌++◌, List, length};
ghost use Rattle.pe_view.specs.View.{bytes_of};
ghost use Rattle.pe_view.specs.declared.fault.Fault.{Fault};
ghost use Rattle.pe_records_c.specs.Faults.{fault_record};
ghost use Rattle.pe_records_c.specs.Rows.{TellsTable, filled};
ghost use Rattle.pe_records_c.specs.declared.fault.FaultRecord.{FaultRecord};
ghost use Rattle.c_tables.specs.AllFindings.{part_of, is_of_part, with_between};
ghost use Rattle.c_tables.specs.TrustFindings.{trust_findings_of};

use crate::row::put_row;
use crate::trust_finding::{findings_in, put_findings};
use pe_head::Headers;
use pe_records_c::fault::{FaultRecord, fault_record};
use pe_records_c::row::table_status;
use pe_view::{Fault, View};

/// The number of the last finding on what a file says of itself.
const LAST: u16 = 241;

/// Whether a finding comes after those on what a file says of itself, or before them.
fn is_of_part(is_late: bool, finding: &Fault) -> bool
    ensures { result ≡ is_of_part is_late finding.now }
{
    if is_late {
        finding.number > LAST
    } else {
        finding.number <= LAST
    }
}

/// Adds the late or the early ones among findings to rows that hold `start` others, as many as fit, and returns how many there are
/// then.
fn put_part(rows: &mut [FaultRecord], start: usize, found: &[Fault], is_late: bool) -> usize
    requires { start + length found.now < 2 ^ 64 }
    ensures rows { (done : List Fault) (initial : List FaultRecord) → length done ≡ start → rows.old ≡ filled fault_record done initial
        → rows.new ≡ filled fault_record (done ++ part_of is_late found.now) initial }
    ensures count { result ≡ start + length (part_of is_late found.now) }
{
    let mut count = start;
    for index in 0..found.len() {
        if !is_of_part(is_late, &found[index]) {
            continue;
        }
        put_row(rows, count, fault_record(found[index]));
        count += 1;
    }
    count
}

/// Adds findings to rows that hold `start` others, as many as fit, and returns how many there are then.
fn put_all(rows: &mut [FaultRecord], start: usize, found: &[Fault]) -> usize
    requires { start + length found.now < 2 ^ 64 }
    ensures rows { (done : List Fault) (initial : List FaultRecord) → length done ≡ start → rows.old ≡ filled fault_record done initial
        → rows.new ≡ filled fault_record (done ++ found.now) initial }
    ensures count { result ≡ start + length found.now }
{
    for index in 0..found.len() {
        put_row(rows, start + index, fault_record(found[index]));
    }
    start + found.len()
}

/// Reports all findings of an image's file, given those of its delay-load directory table and of its resources, and those of its other
/// tables: fills the rows, counts the
/// findings, and returns the status, 0 or 4.
pub fn tell_all_findings(
    found: &[Fault],
    between: &[Fault],
    file: View,
    headers: &Headers,
    rows: &mut [FaultRecord],
    count: &mut usize,
) -> u32
    ensures { TellsTable (λ row. row) fault_record (with_between found.now between.now (trust_findings_of (bytes_of file.entry) headers.now)) rows.old rows.new count.new result }
{
    let early = put_part(rows, 0, found, false);
    let middle = put_all(rows, early, between);
    let own = put_findings(rows, middle, &findings_in(file, headers));
    *count = put_part(rows, own, found, true);
    table_status(*count, rows.len())
}
