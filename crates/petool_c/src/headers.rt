//! The headers of an image: `petool_read_headers`.

ghost use Rattle.std.specs.Prelude.{◌≡◌, ◌≢◌, ◌⊎◌};
ghost use Rattle.pe_view.specs.Faults.{first_standing};
ghost use Rattle.pe_head.specs.Head.{head_of};
ghost use Rattle.pe_layout.specs.SectionFaults.{layout_tests};
ghost use Rattle.pe_records_c.specs.Faults.{IsRefusedBy};
ghost use Rattle.pe_records_c.specs.HeaderRows.{section_row, headers_record};
ghost use Rattle.pe_records_c.specs.Rows.{filled};

use pe_image::lay_out;
use pe_records_c::fault::{FaultRecord, refuse};
use pe_records_c::headers::{HeadersRecord, SectionRow, headers_record, put_sections};
use pe_records_c::status;

/// Reads the headers of an image, and as many of its sections as fit into the rows: an image has at most 96.
///
/// The status is 0, or 1 with the first of faults 1 to 15, which leaves the headers and the rows unchanged. Allocates nothing.
/// ("PE Format": COFF File Header, Optional Header, Section Table.)
#[unsafe(no_mangle)]
pub extern "C" fn petool_read_headers(
    file: &[u8],
    headers: &mut HeadersRecord,
    sections: &mut [SectionRow],
    fault: &mut FaultRecord,
) -> u32
    ensures status { (result ≡ 0) ⊎ (result ≡ 1) }
    ensures refused { IsRefusedBy (first_standing (layout_tests 0 file.now)) fault.old fault.new result }
    ensures headers { result ≡ 0 → headers.new ≡ headers_record (head_of file.now) }
    ensures sections { result ≡ 0 → sections.new ≡ filled section_row (head_of file.now).sections.items sections.old }
    ensures headers_kept { result ≢ 0 → headers.new ≡ headers.old }
    ensures sections_kept { result ≢ 0 → sections.new ≡ sections.old }
{
    let layout = match lay_out(file, 0) {
        Ok(layout) => layout,
        Err(first) => return refuse(first, fault),
    };
    let read = layout.headers();
    *headers = headers_record(&read);
    put_sections(sections, read.sections.as_slice());
    status::DONE
}
