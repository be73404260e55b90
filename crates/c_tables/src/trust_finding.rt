//! The findings on what an image's file says of itself: on its certificate table and its Rich header.

ghost use Rattle.std.specs.Prelude.{◌≡◌, ◌+◌, ◌^◌, ◌<◌, ◌++◌, ◌∷◌, [], List, length};
ghost use Rattle.pe_view.specs.View.{bytes_of};
ghost use Rattle.pe_view.specs.declared.fault.Fault.{Fault};
ghost use Rattle.pe_records_c.specs.declared.fault.FaultRecord.{FaultRecord};
ghost use Rattle.pe_records_c.specs.Faults.{fault_record};
ghost use Rattle.pe_records_c.specs.Rows.{TellsTable, filled};
ghost use Rattle.pe_trust.specs.CertificateTests.{certificate_findings_of};
ghost use Rattle.pe_trust.specs.RichTests.{rich_finding_of};
ghost use Rattle.c_tables.specs.TrustFindings.{present, stored, trust_findings_of};

use crate::row::put_row;
use pe_head::Headers;
use pe_records_c::fault::{FaultRecord, fault_record};
use pe_records_c::row::table_status;
use pe_trust::{certificate_findings, rich_finding};
use pe_view::{Fault, View};

/// The findings, each in its place if its rule is broken.
pub(crate) fn findings_in(file: View, headers: &Headers) -> [Option<Fault>; 6]
    ensures { result ≡ certificate_findings_of 0 (bytes_of file.entry) headers.now ++ rich_finding_of 0 (bytes_of file.entry) headers.now.pe_offset ∷ [] }
{
    let [first, second, third, fourth, fifth] = certificate_findings(0, file, headers);
    [
        first,
        second,
        third,
        fourth,
        fifth,
        rich_finding(0, file, headers),
    ]
}

/// Stores a finding behind `count` others, if there is one and room for it, and returns how many there are then.
fn put_finding(rows: &mut [FaultRecord], count: usize, finding: Option<Fault>) -> usize
    requires { count + 1 < 2 ^ 64 }
    ensures rows { rows.new ≡ stored count finding rows.old }
    ensures count { result ≡ count + length (present (finding ∷ [])) }
{
    match finding {
        Some(fault) => {
            put_row(rows, count, fault_record(fault));
            count + 1
        }
        None => count,
    }
}

/// Adds the findings that are there to rows that hold `start` others, as many as fit, and returns how many there are then.
pub(crate) fn put_findings(
    rows: &mut [FaultRecord],
    start: usize,
    found: &[Option<Fault>; 6],
) -> usize
    requires { start + 6 < 2 ^ 64 }
    ensures rows { (done : List Fault) (initial : List FaultRecord) → length done ≡ start → rows.old ≡ filled fault_record done initial
        → rows.new ≡ filled fault_record (done ++ present found.now) initial }
    ensures count { result ≡ start + length (present found.now) }
{
    let mut count = start;
    for index in 0..6usize {
        count = put_finding(rows, count, found[index]);
    }
    count
}

/// Reports the findings 221 to 225 and 241 of an image's file: fills the rows, counts the findings, and returns the status, 0 or 4.
pub fn tell_trust_findings(
    file: View,
    headers: &Headers,
    rows: &mut [FaultRecord],
    count: &mut usize,
) -> u32
    ensures { TellsTable (λ row. row) fault_record (trust_findings_of (bytes_of file.entry) headers.now) rows.old rows.new count.new result }
{
    *count = put_findings(rows, 0, &findings_in(file, headers));
    table_status(*count, rows.len())
}
