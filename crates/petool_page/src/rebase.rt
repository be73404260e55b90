//! The call that writes an image's file for another base: `rebase`.

ghost use Rattle.std.specs.Prelude.{◌≡◌, ◌≢◌, ◌≤◌, ◌⊎◌, ◌↔◌, None, Some, length};
ghost use Rattle.pe_layout.specs.SectionFaults.{layout_tests};
ghost use Rattle.pe_view.specs.declared.fault.Fault as code_fault;
ghost use Rattle.pe_view.specs.Faults.{first_standing};
ghost use Rattle.pe_write.specs.Rebase.{rebased};
ghost use Rattle.pe_write.specs.RebaseFaults.{rebase_tests};
ghost use Rattle.petool_page.specs.Rebasing.{IsRefused};
ghost use Rattle.petool_page.specs.Told.{IsTold};

use crate::engines::refuse_into;
use crate::writer::RoomWriter;
use page_heap::{Memory, PageHeap};
use pe_text::status;
use pe_write::{WriteError, rebase_file};

/// The status of a buffer that does not have the file's length.
const LENGTH: u32 = 5;

/// The status of a done call.
const DONE: u32 = 0;

/// The status of too little memory.
const MEMORY: u32 = 4;

/// Writes into `bytes` the file of an image for another base, as `petool rebase` does: CheckSum is 0 in it. `bytes` must have the file's
/// length.
///
/// The status is 0; 1 if the file is refused, and then the first `len` bytes of `text` are the line of its first fault; 3 if `text` has
/// too little room for that, and then it is full of its beginning; 4 if `memory` is too little, which is never so for a file with one of
/// the faults 1 to 15; or 5 if `bytes` does not have the file's length. All but 0 leave `bytes` unchanged, and with 0, 4 and 5 `len` is 0.
#[unsafe(no_mangle)]
pub extern "C" fn petool_page_rebase(
    memory: Memory,
    file: &[u8],
    base: u64,
    bytes: &mut [u8],
    text: &mut [u8],
    len: &mut usize,
) -> u32
    ensures length { (result ≡ 5) ↔ (length bytes.old ≢ length file.now) }
    ensures done { result ≡ 0 → bytes.new ≡ rebased file.now base }
    ensures accepted { result ≡ 0 → first_standing (rebase_tests file.now base) ≡ None }
    ensures refused { (result ≡ 1) ⊎ (result ≡ 3) → IsTold (IsRefused (rebase_tests file.now base)) text.new len.new result }
    ensures kept { result ≢ 0 → bytes.new ≡ bytes.old }
    ensures within { len.new ≤ length text.new }
    ensures full { result ≡ 3 → len.new ≡ length text.new }
    ensures early { (fault : code_fault.Fault) → first_standing (layout_tests 0 file.now) ≡ Some fault → length bytes.old ≡ length file.now → (result ≡ 1) ⊎ (result ≡ 3) }
    ensures empty { (result ≡ 0) ⊎ (result ≡ 4) ⊎ (result ≡ 5) → len.new ≡ 0 }
{
    *len = 0;
    if bytes.len() != file.len() {
        return LENGTH;
    }
    let heap = PageHeap::new(memory);
    match rebase_file(&heap, file, base) {
        Ok(rebased) => {
            bytes.copy_from_slice(rebased.as_slice());
            DONE
        }
        Err(WriteError::Fault(fault)) => {
            let mut writer = RoomWriter::new(text);
            let answer = refuse_into(&mut writer, fault);
            *len = writer.len();
            u32::from(status(&answer))
        }
        Err(WriteError::Memory) => MEMORY,
    }
}
