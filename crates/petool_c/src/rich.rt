//! The Rich header: `petool_rich` and `petool_rich_pairs`.

ghost use Rattle.pe_head.specs.Head.{head_of};
ghost use Rattle.pe_head.specs.HeaderFaults.{head_tests};
ghost use Rattle.pe_records_c.specs.Rows.{ReadsTable};
ghost use Rattle.c_tables.specs.Told.{ReadsRecord};
ghost use Rattle.c_tables.specs.RichRows.{pair_row, rich_pairs, rich_told};

use c_tables::file::file_headers;
use c_tables::rich::{RichPairRow, RichRecord, tell_rich, tell_rich_pairs};
use pe_records_c::fault::{FaultRecord, refuse};
use pe_view::View;

/// The Rich header of an image's file, which linkers of Microsoft write between the MS-DOS program and the signature: where it begins,
/// its key, and what the key is to be.
///
/// The status is 0; 3 if the file has none; or 1 with the first of faults 1 to 12. All but 0 leave the record unchanged. Allocates
/// nothing.
#[unsafe(no_mangle)]
pub extern "C" fn petool_rich(file: &[u8], rich: &mut RichRecord, fault: &mut FaultRecord) -> u32
    ensures { ReadsRecord (head_tests 0 file.now) (λ r. r) (rich_told file.now (head_of file.now)) rich.old rich.new fault.old fault.new result }
{
    match file_headers(file) {
        Ok(headers) => tell_rich(View::new(file), &headers, rich),
        Err(first) => refuse(first, fault),
    }
}

/// Reads the pairs of the Rich header of an image's file, in order, into the caller's rows: which tool made how many of the image's
/// objects. Without a Rich header there are none.
///
/// The status is 0; 4 if there are more pairs than rows, which then hold the first of them; or 1 with the first of faults 1 to 12. The
/// count is that of all pairs; 1 leaves it and the rows unchanged. Allocates nothing.
#[unsafe(no_mangle)]
pub extern "C" fn petool_rich_pairs(
    file: &[u8],
    rows: &mut [RichPairRow],
    count: &mut usize,
    fault: &mut FaultRecord,
) -> u32
    ensures { ReadsTable ⊥ (head_tests 0 file.now) (λ row. row) pair_row (rich_pairs file.now (head_of file.now))
        rows.old rows.new count.old count.new fault.old fault.new result }
{
    match file_headers(file) {
        Ok(headers) => tell_rich_pairs(View::new(file), &headers, rows, count),
        Err(first) => refuse(first, fault),
    }
}
