//! The overlay of an image's file: `petool_overlay`.

ghost use Rattle.std.specs.Prelude.{Some};
ghost use Rattle.pe_head.specs.Head.{head_of};
ghost use Rattle.pe_head.specs.HeaderFaults.{head_tests};
ghost use Rattle.c_tables.specs.Told.{ReadsRecord};
ghost use Rattle.c_tables.specs.FileRecords.{overlay_record};

use c_tables::file::file_headers;
use c_tables::overlay::{OverlayRecord, overlay_record};
use pe_records_c::fault::{FaultRecord, refuse};
use pe_records_c::status;
use pe_view::View;

/// Where the file of an image ends by its headers, which is the end of the headers or of the raw data of a section, whichever is last;
/// and how many bytes the file has from there on, its overlay.
///
/// The status is 0, or 1 with the first of faults 1 to 12, which leaves the record unchanged. Allocates nothing.
#[unsafe(no_mangle)]
pub extern "C" fn petool_overlay(
    file: &[u8],
    overlay: &mut OverlayRecord,
    fault: &mut FaultRecord,
) -> u32
    ensures { ReadsRecord (head_tests 0 file.now) (λ r. r) (Some (overlay_record file.now (head_of file.now))) overlay.old overlay.new fault.old fault.new result }
{
    match file_headers(file) {
        Ok(headers) => {
            *overlay = overlay_record(View::new(file), &headers);
            status::DONE
        }
        Err(first) => refuse(first, fault),
    }
}
