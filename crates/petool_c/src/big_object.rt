//! Big objects: `petool_big_object_headers`.

ghost use Rattle.std.specs.Prelude.{◌≡◌, ◌≢◌, ◌⊎◌};
ghost use Rattle.pe_view.specs.Faults.{first_standing};
ghost use Rattle.c_tables.specs.HeaderRecords.{big_object_header_record};
ghost use Rattle.coff_read.specs.BigObjectFile.{big_file_header, big_section_headers};
ghost use Rattle.coff_read.specs.FormFaults.{object_tests};
ghost use Rattle.coff_read.specs.Forms.{Big};
ghost use Rattle.pe_records_c.specs.Faults.{IsRefusedBy};
ghost use Rattle.pe_records_c.specs.ObjectHeaderRows.{section_header_row};
ghost use Rattle.pe_records_c.specs.Rows.{filled};

use c_tables::header::{BigObjectHeaderRecord, big_object_header_record, put_section_headers};
use coff_read::BigObjectFile;
use pe_records_c::fault::{FaultRecord, refuse};
use pe_records_c::object_headers::SectionHeaderRow;
use pe_records_c::status;

/// Reads the header of a big object, and as many of its section headers as fit into the rows.
///
/// The status is 0, or 1 with the first of faults 61 to 72, which leaves the header and the rows unchanged; a plain object has fault
/// 62. Allocates nothing. ("PE Format": Section Table; it does not describe the header.)
#[unsafe(no_mangle)]
pub extern "C" fn petool_big_object_headers(
    file: &[u8],
    header: &mut BigObjectHeaderRecord,
    sections: &mut [SectionHeaderRow],
    fault: &mut FaultRecord,
) -> u32
    ensures status { (result ≡ 0) ⊎ (result ≡ 1) }
    ensures refused { IsRefusedBy (first_standing (object_tests Big file.now)) fault.old fault.new result }
    ensures header { result ≡ 0 → header.new ≡ big_object_header_record (big_file_header file.now) }
    ensures sections { result ≡ 0 → sections.new ≡ filled section_header_row (big_section_headers file.now) sections.old }
    ensures header_kept { result ≢ 0 → header.new ≡ header.old }
    ensures sections_kept { result ≢ 0 → sections.new ≡ sections.old }
{
    let object = match BigObjectFile::new(file) {
        Ok(object) => object,
        Err(first) => return refuse(first, fault),
    };
    *header = big_object_header_record(&object);
    put_section_headers(sections, &object);
    status::DONE
}
