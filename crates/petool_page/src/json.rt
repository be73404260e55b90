//! The call that writes a file's lines of JSON: `json`.

ghost use Rattle.std.specs.Prelude.{◌≡◌, ◌<◌, ◌≤◌, length};
ghost use Rattle.petool_page.specs.Pages.{IsJson, beyond_of};
ghost use Rattle.petool_page.specs.Told.{IsTold};

use crate::engines::lines_into;
use crate::writer::RoomWriter;
use page_heap::{Memory, PageHeap};
use pe_json::Beyond;
use pe_text::status;

/// What a line tells beyond the tables of the profile: nothing unless it is asked for all.
fn beyond_of(all: bool, functions: bool, symbols: bool, digests: bool) -> Option<Beyond>
    ensures { result ≡ beyond_of all functions symbols digests }
{
    if all {
        Some(Beyond {
            functions,
            symbols,
            digests,
        })
    } else {
        None
    }
}

/// Writes the line of JSON of an image or an object, or the lines of an archive, as `petool json` does. With `all` the line of an
/// image also has the tables beyond the profile and what its file says of itself; then `functions` and `symbols` say whether these
/// are listed, and `digests` whether the whole file is added up and hashed.
///
/// The first `len` bytes of `text` are what was written. The status is 0 if the file is accepted, 1 if it is refused, 3 if `text` has
/// too little room, and then it is full of the beginning of a text, and 4 if `memory` is too little, and then there are none.
#[unsafe(no_mangle)]
pub extern "C" fn petool_page_json(
    memory: Memory,
    name: &[u8],
    file: &[u8],
    all: bool,
    functions: bool,
    symbols: bool,
    digests: bool,
    text: &mut [u8],
    len: &mut usize,
) -> u32
    ensures told { IsTold (IsJson (beyond_of all functions symbols digests) name.now file.now) text.new len.new result }
    ensures within { len.new ≤ length text.new }
    ensures full { result ≡ 3 → len.new ≡ length text.new }
    ensures memory { result ≡ 4 → 0 < length file.now }
{
    let heap = PageHeap::new(memory);
    let mut writer = RoomWriter::new(text);
    let beyond = beyond_of(all, functions, symbols, digests);
    let answer = lines_into(&heap, name, beyond, file, &mut writer);
    *len = writer.len();
    u32::from(status(&answer))
}
