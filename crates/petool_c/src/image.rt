//! One image: `petool_check`, `petool_read`, `petool_read_text` and `petool_locate`.

ghost use Rattle.std.specs.Prelude.{◌≡◌, ◌≢◌, ◌+◌, ◌<◌, ◌≤◌, ◌⊎◌, None, Some, length};
ghost use Rattle.pe_view.specs.Faults.{first_standing};
ghost use Rattle.pe_head.specs.Head.{head_of};
ghost use Rattle.pe_layout.specs.Image.{image_of_file, bytes_at};
ghost use Rattle.pe_layout.specs.Locating.{located, file_offset};
ghost use Rattle.pe_layout.specs.SectionFaults.{layout_tests};
ghost use Rattle.pe_image.specs.ImageTests.{image_tests};
ghost use Rattle.pe_records_c.specs.Faults.{IsAccepted, IsAnswered, IsRefusedBy};
ghost use Rattle.pe_records_c.specs.Wants.{IsLaidOut};

use pe_image::{lay_out, read_image};
use pe_layout::Located;
use pe_records_c::fault::{FaultRecord, refuse, refuse_for};
use pe_records_c::status;
use pe_records_c::text::TextRecord;
use std::alloc::Global;

/// Checks an image's file: headers and sections, exports, imports and base relocations.
///
/// The status is 0 if the file has none of the image faults of docs/FAULTS.md; 1 with the first of them; or 2, out of memory, but
/// never for a file with one of faults 1 to 15. ("PE Format": Optional Header, Section Table, The .edata Section, The .idata
/// Section, The .reloc Section.)
#[unsafe(no_mangle)]
pub extern "C" fn petool_check(alloc: Global, file: &[u8], fault: &mut FaultRecord) -> u32
    ensures faults { IsAnswered (IsLaidOut file.now) (image_tests 0 file.now) fault.old fault.new result }
    ensures accepted { IsAccepted result → result ≡ 0 }
{
    match read_image(alloc, file, 0) {
        Ok(_image) => status::DONE,
        Err(refusal) => refuse_for(refusal, fault),
    }
}

/// Fills a buffer with the bytes of an image from an RVA on, as the file lays them out: raw data, or 0.
///
/// The status is 0; 1 with the first of faults 1 to 15; or 3 if the bytes do not all lie inside the image. All but 0 leave the
/// buffer unchanged. Allocates nothing; each call checks the headers again. ("PE Format": Section Table.)
#[unsafe(no_mangle)]
pub extern "C" fn petool_read(
    file: &[u8],
    rva: u32,
    buffer: &mut [u8],
    fault: &mut FaultRecord,
) -> u32
    ensures status { (result ≡ 0) ⊎ ((result ≡ 1) ⊎ (result ≡ 3)) }
    ensures refused { IsRefusedBy (first_standing (layout_tests 0 file.now)) fault.old fault.new result }
    ensures inside { result ≡ 0 → rva + length buffer.old ≤ (image_of_file 0 file.now).size }
    ensures done { result ≡ 0 → buffer.new ≡ bytes_at (image_of_file 0 file.now) rva (length buffer.old) }
    ensures absent { result ≡ 3 → (image_of_file 0 file.now).size < rva + length buffer.old }
    ensures kept { result ≢ 0 → buffer.new ≡ buffer.old }
{
    let layout = match lay_out(file, 0) {
        Ok(layout) => layout,
        Err(first) => return refuse(first, fault),
    };
    if layout.fill(rva, buffer) {
        status::DONE
    } else {
        status::ABSENT
    }
}

/// The zero-terminated string at an RVA of an image, without its zero byte, as a slice of the file.
///
/// The status is 0; 1 with the first of faults 1 to 15; or 3 if the string does not end inside the headers or the section in which
/// it begins, or begins past the image. All but 0 leave `text` unchanged. Allocates nothing.
#[unsafe(no_mangle)]
pub extern "C" fn petool_read_text<'a>(
    file: &'a [u8],
    rva: u32,
    text: &mut TextRecord<'a>,
    fault: &mut FaultRecord,
) -> u32
    ensures status { (result ≡ 0) ⊎ ((result ≡ 1) ⊎ (result ≡ 3)) }
    ensures refused { IsRefusedBy (first_standing (layout_tests 0 file.now)) fault.old fault.new result }
    ensures done { result ≡ 0 → (image_of_file 0 file.now).text rva ≡ Some text.new.bytes.now }
    ensures absent { result ≡ 3 → (image_of_file 0 file.now).text rva ≡ None }
    ensures kept { result ≢ 0 → text.new ≡ text.old }
{
    let layout = match lay_out(file, 0) {
        Ok(layout) => layout,
        Err(first) => return refuse(first, fault),
    };
    match layout.name_at(rva) {
        Some(bytes) => {
            *text = TextRecord { bytes };
            status::DONE
        }
        None => status::ABSENT,
    }
}

/// The file offset of the byte at an RVA of an image.
///
/// The status is 0; 1 with the first of faults 1 to 15; or 3 if the file does not hold the byte, which lies in zero fill, in a gap,
/// or past the image. All but 0 leave the offset unchanged. Allocates nothing.
#[unsafe(no_mangle)]
pub extern "C" fn petool_locate(
    file: &[u8],
    rva: u32,
    offset: &mut u64,
    fault: &mut FaultRecord,
) -> u32
    ensures status { (result ≡ 0) ⊎ ((result ≡ 1) ⊎ (result ≡ 3)) }
    ensures refused { IsRefusedBy (first_standing (layout_tests 0 file.now)) fault.old fault.new result }
    ensures done { result ≡ 0 → file_offset (located (head_of file.now) rva) ≡ Some offset.new }
    ensures absent { result ≡ 3 → file_offset (located (head_of file.now) rva) ≡ None }
    ensures kept { result ≢ 0 → offset.new ≡ offset.old }
{
    let layout = match lay_out(file, 0) {
        Ok(layout) => layout,
        Err(first) => return refuse(first, fault),
    };
    match layout.locate(rva) {
        Located::Header { file } | Located::Raw { section: _, file } => {
            *offset = file;
            status::DONE
        }
        Located::Zero { section: _ } | Located::Gap | Located::Outside => status::ABSENT,
    }
}
