//! Delay-loaded imports: `petool_delay_imports`.

ghost use Rattle.std.specs.Prelude.{◌≢◌, []};
ghost use Rattle.pe_delay.specs.Imports.{delay_imports_of};
ghost use Rattle.pe_layout.specs.Image.{image_of_file};
ghost use Rattle.pe_layout.specs.SectionFaults.{layout_tests};
ghost use Rattle.pe_records_c.specs.ImportRows.{import_text, import_row};
ghost use Rattle.pe_records_c.specs.Rows.{ReadsTable};
ghost use Rattle.pe_records_c.specs.Wants.{IsLaidOutAnd};

use pe_delay::read_delay_imports;
use pe_image::lay_out;
use pe_records_c::fault::{FaultRecord, refuse};
use pe_records_c::import::ImportRow;
use pe_records_c::row::put_table;
use pe_records_c::status;
use std::alloc::Global;

/// Reads the delay-loaded imports of an image, in the order of its delay-load directory table, into the caller's rows: those of each
/// descriptor that has none of the findings 162 to 167.
///
/// The status is 0; 4 if there are more imports than rows, which then hold the first of them; 1 with the first of faults 1 to 15; or
/// 2, out of memory, which comes only if there is an import. The count is that of all imports; 1 and 2 leave it and the rows
/// unchanged. ("PE Format": Delay-Load Import Tables.)
#[unsafe(no_mangle)]
pub extern "C" fn petool_delay_imports<'a>(
    alloc: Global,
    file: &'a [u8],
    rows: &mut [ImportRow<'a>],
    count: &mut usize,
    fault: &mut FaultRecord,
) -> u32
    ensures { ReadsTable (IsLaidOutAnd (λ i. delay_imports_of i ≢ []) file.now) (layout_tests 0 file.now) import_text import_row (delay_imports_of (image_of_file 0 file.now))
        rows.old rows.new count.old count.new fault.old fault.new result }
{
    let layout = match lay_out(file, 0) {
        Ok(layout) => layout,
        Err(first) => return refuse(first, fault),
    };
    match read_delay_imports(alloc, &layout) {
        Ok(imports) => put_table(rows, imports.as_slice(), count),
        Err(_) => status::MEMORY,
    }
}
