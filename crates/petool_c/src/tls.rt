//! TLS: `petool_tls` and `petool_tls_callbacks`.

ghost use Rattle.std.specs.Prelude.{option_map};
ghost use Rattle.pe_layout.specs.Image.{image_of_file};
ghost use Rattle.pe_layout.specs.SectionFaults.{layout_tests};
ghost use Rattle.pe_records.specs.TlsFields.{tls_of};
ghost use Rattle.pe_records_c.specs.Rows.{ReadsTable};
ghost use Rattle.c_tables.specs.TlsRows.{callback_row, callbacks_in, tls_record};
ghost use Rattle.c_tables.specs.Told.{ReadsRecord};

use c_tables::tls::{CallbackRow, TlsRecord, tell_callbacks, tell_tls};
use pe_image::lay_out;
use pe_records_c::fault::{FaultRecord, refuse};

/// The TLS directory of an image.
///
/// The status is 0; 3 if the image has none; or 1 with the first of faults 1 to 15. All but 0 leave the record unchanged. Allocates
/// nothing. ("PE Format": The TLS Directory.)
#[unsafe(no_mangle)]
pub extern "C" fn petool_tls(file: &[u8], tls: &mut TlsRecord, fault: &mut FaultRecord) -> u32
    ensures { ReadsRecord (layout_tests 0 file.now) (λ r. r) (option_map tls_record (tls_of (image_of_file 0 file.now))) tls.old tls.new fault.old fault.new result }
{
    match lay_out(file, 0) {
        Ok(layout) => tell_tls(&layout, tls),
        Err(first) => refuse(first, fault),
    }
}

/// Reads the callbacks of the TLS directory of an image, up to the first address that is 0, into the caller's rows: as many as the
/// file holds in one run. Without a TLS directory, or if it has no address of callbacks in the image, there are none.
///
/// The status is 0; 4 if there are more callbacks than rows, which then hold the first of them; or 1 with the first of faults 1 to
/// 15. The count is that of all callbacks; 1 leaves it and the rows unchanged. Allocates nothing. ("PE Format": TLS Callback
/// Functions.)
#[unsafe(no_mangle)]
pub extern "C" fn petool_tls_callbacks(
    file: &[u8],
    rows: &mut [CallbackRow],
    count: &mut usize,
    fault: &mut FaultRecord,
) -> u32
    ensures { ReadsTable ⊥ (layout_tests 0 file.now) (λ row. row) callback_row (callbacks_in (image_of_file 0 file.now))
        rows.old rows.new count.old count.new fault.old fault.new result }
{
    match lay_out(file, 0) {
        Ok(layout) => tell_callbacks(&layout, rows, count),
        Err(first) => refuse(first, fault),
    }
}
