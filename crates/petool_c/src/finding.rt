//! Findings: `petool_findings`.

ghost use Rattle.pe_layout.specs.SectionFaults.{layout_tests};
ghost use Rattle.pe_records_c.specs.Faults.{fault_record};
ghost use Rattle.pe_records_c.specs.Rows.{ReadsTable};
ghost use Rattle.c_tables.specs.ResourceFindings.{FindingsTakeMemory, all_findings_of};

use c_tables::all_findings::tell_all_findings;
use c_tables::resource_finding::table_findings;
use pe_image::lay_out;
use pe_records_c::fault::{FaultRecord, refuse};
use pe_records_c::status;
use pe_view::View;
use std::alloc::Global;

/// Reads the findings of an image into the caller's rows: all rules of the tables beyond the profile, of the certificate table and of
/// the Rich header that are broken, in the order of docs/FAULTS.md by table, and of each table its directory before its records; those
/// of the resource tree in the order in which it is read. They are of image 0, and no finding refuses an image.
///
/// The status is 0; 4 if there are more findings than rows, which then hold the first of them; 1 with the first of faults 1 to 15;
/// or 2, out of memory, which comes only if the file has none of these faults, and has a resource directory or a finding of the other
/// tables beyond the profile. The count is that of all findings; 1 and 2 leave it and the rows unchanged. No digest is computed.
#[unsafe(no_mangle)]
pub extern "C" fn petool_findings(
    alloc: Global,
    file: &[u8],
    rows: &mut [FaultRecord],
    count: &mut usize,
    fault: &mut FaultRecord,
) -> u32
    ensures { ReadsTable (FindingsTakeMemory file.now) (layout_tests 0 file.now) (λ row. row) fault_record (all_findings_of file.now)
        rows.old rows.new count.old count.new fault.old fault.new result }
{
    let layout = match lay_out(file, 0) {
        Ok(layout) => layout,
        Err(first) => return refuse(first, fault),
    };
    let view = View::new(file);
    match table_findings(alloc, &layout, view) {
        Ok(found) => {
            let others = found.others.as_slice();
            let between = found.between.as_slice();
            tell_all_findings(others, between, view, &layout.headers(), rows, count)
        }
        Err(_) => status::MEMORY,
    }
}
