//! The calls that write the lines of one file: `check`, `dump`, `object` and `archive`.

ghost use Rattle.std.specs.Prelude.{◌≡◌, ◌<◌, ◌≤◌, length};
ghost use Rattle.coff_lines.specs.ArchiveLines.{IsArchiveText};
ghost use Rattle.coff_lines.specs.ObjectReport.{IsObjectText};
ghost use Rattle.pe_lines.specs.Reports.{IsCheckText, IsDumpText};
ghost use Rattle.petool_page.specs.Told.{IsTold};

use crate::engines::{archive_into, check_into, dump_into, object_into};
use crate::writer::RoomWriter;
use page_heap::{Memory, PageHeap};
use pe_text::status;

/// Writes what `petool check` prints of a file.
///
/// The first `len` bytes of `text` are what was written. The status is 0 if the file is accepted, 1 if it is refused, 3 if `text` has
/// too little room, and then it is full of the beginning of a text, and 4 if `memory` is too little, and then there are none. That is never
/// so for a file of no bytes.
#[unsafe(no_mangle)]
pub extern "C" fn petool_page_check(
    memory: Memory,
    file: &[u8],
    text: &mut [u8],
    len: &mut usize,
) -> u32
    ensures told { IsTold (IsCheckText file.now) text.new len.new result }
    ensures within { len.new ≤ length text.new }
    ensures full { result ≡ 3 → len.new ≡ length text.new }
    ensures memory { result ≡ 4 → 0 < length file.now }
{
    let heap = PageHeap::new(memory);
    let mut writer = RoomWriter::new(text);
    let answer = check_into(&heap, file, &mut writer);
    *len = writer.len();
    u32::from(status(&answer))
}

/// Writes what `petool dump` prints of a file, and answers as [`petool_page_check`] does.
#[unsafe(no_mangle)]
pub extern "C" fn petool_page_dump(
    memory: Memory,
    file: &[u8],
    text: &mut [u8],
    len: &mut usize,
) -> u32
    ensures told { IsTold (IsDumpText file.now) text.new len.new result }
    ensures within { len.new ≤ length text.new }
    ensures full { result ≡ 3 → len.new ≡ length text.new }
    ensures memory { result ≡ 4 → 0 < length file.now }
{
    let heap = PageHeap::new(memory);
    let mut writer = RoomWriter::new(text);
    let answer = dump_into(&heap, file, &mut writer);
    *len = writer.len();
    u32::from(status(&answer))
}

/// Writes what `petool object` prints of a file, and answers as [`petool_page_check`] does.
#[unsafe(no_mangle)]
pub extern "C" fn petool_page_object(
    memory: Memory,
    file: &[u8],
    text: &mut [u8],
    len: &mut usize,
) -> u32
    ensures told { IsTold (IsObjectText file.now) text.new len.new result }
    ensures within { len.new ≤ length text.new }
    ensures full { result ≡ 3 → len.new ≡ length text.new }
    ensures memory { result ≡ 4 → 0 < length file.now }
{
    let heap = PageHeap::new(memory);
    let mut writer = RoomWriter::new(text);
    let answer = object_into(&heap, file, &mut writer);
    *len = writer.len();
    u32::from(status(&answer))
}

/// Writes what `petool archive` prints of a file, and answers as [`petool_page_check`] does.
#[unsafe(no_mangle)]
pub extern "C" fn petool_page_archive(
    memory: Memory,
    file: &[u8],
    text: &mut [u8],
    len: &mut usize,
) -> u32
    ensures told { IsTold (IsArchiveText file.now) text.new len.new result }
    ensures within { len.new ≤ length text.new }
    ensures full { result ≡ 3 → len.new ≡ length text.new }
    ensures memory { result ≡ 4 → 0 < length file.now }
{
    let heap = PageHeap::new(memory);
    let mut writer = RoomWriter::new(text);
    let answer = archive_into(&heap, file, &mut writer);
    *len = writer.len();
    u32::from(status(&answer))
}
