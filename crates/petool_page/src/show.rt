//! The calls that write readable pages: `show` and `at`.

ghost use Rattle.std.specs.Prelude.{◌≡◌, ◌<◌, ◌≤◌, ◌/◌, ◌%◌, ◌==◌, false, length};
ghost use Rattle.pe_page.specs.Judged.{IsJudged};
ghost use Rattle.petool_page.specs.Pages.{IsPage, place_of};
ghost use Rattle.petool_page.specs.Told.{IsTold};

use crate::engines::{page_into, spots_into};
use crate::writer::RoomWriter;
use page_heap::{Memory, PageHeap};
use pe_at::Spot;
use pe_show::{Page, ShowOptions};
use pe_text::status;
use pe_view::Place;

/// The options of a page by bits: the number of a bit is that of the table in the order of [`ShowOptions`]. Without colours.
fn options_of(tables: u32) -> ShowOptions
    ensures exports { result.exports ≡ (tables % 2 == 1) }
    ensures imports { result.imports ≡ (tables / 2 % 2 == 1) }
    ensures relocations { result.relocations ≡ (tables / 4 % 2 == 1) }
    ensures symbols { result.symbols ≡ (tables / 8 % 2 == 1) }
    ensures debug { result.debug ≡ (tables / 16 % 2 == 1) }
    ensures functions { result.functions ≡ (tables / 32 % 2 == 1) }
    ensures unwind { result.unwind ≡ (tables / 64 % 2 == 1) }
    ensures tls { result.tls ≡ (tables / 128 % 2 == 1) }
    ensures load { result.load ≡ (tables / 256 % 2 == 1) }
    ensures resources { result.resources ≡ (tables / 512 % 2 == 1) }
    ensures trust { result.trust ≡ (tables / 1024 % 2 == 1) }
    ensures colours { result.is_coloured ≡ false }
{
    ShowOptions {
        exports: tables % 2 == 1,
        imports: tables / 2 % 2 == 1,
        relocations: tables / 4 % 2 == 1,
        symbols: tables / 8 % 2 == 1,
        debug: tables / 16 % 2 == 1,
        functions: tables / 32 % 2 == 1,
        unwind: tables / 64 % 2 == 1,
        tls: tables / 128 % 2 == 1,
        load: tables / 256 % 2 == 1,
        resources: tables / 512 % 2 == 1,
        trust: tables / 1024 % 2 == 1,
        is_coloured: false,
    }
}

/// The place of a kind: 0 an RVA, 1 an address, another an offset in the file. An RVA past 32 bits is the last, which is in no image.
fn place_of(kind: u32, place: u64) -> Place
    ensures { result ≡ place_of kind place }
{
    if kind == 0 {
        Place::Rva(place.min(u64::from(u32::MAX)) as u32)
    } else if kind == 1 {
        Place::Address(place)
    } else {
        Place::File(place)
    }
}

/// Writes the page of a file as `petool show` does: with the tables whose bits are set in `tables`, in `width` columns.
///
/// The first `len` bytes of `text` are what was written. The status is 0 if the file is accepted, 1 if it is refused, 3 if `text` has
/// too little room, and then it is full of the beginning of a text, and 4 if `memory` is too little, and then there are none.
#[unsafe(no_mangle)]
pub extern "C" fn petool_page_show(
    memory: Memory,
    name: &[u8],
    file: &[u8],
    tables: u32,
    width: usize,
    text: &mut [u8],
    len: &mut usize,
) -> u32
    ensures told { IsTold (IsPage file.now) text.new len.new result }
    ensures within { len.new ≤ length text.new }
    ensures full { result ≡ 3 → len.new ≡ length text.new }
    ensures memory { result ≡ 4 → 0 < length file.now }
{
    let heap = PageHeap::new(memory);
    let mut writer = RoomWriter::new(text);
    let options = options_of(tables);
    let page = Page {
        name,
        options: &options,
        width,
    };
    let answer = page_into(&heap, &page, file, &mut writer);
    *len = writer.len();
    u32::from(status(&answer))
}

/// Writes what is at a place of a file as `petool at` does, and answers as [`petool_page_show`] does. `kind` says what the place
/// is: 0 an RVA, 1 an address, 2 an offset in the file.
#[unsafe(no_mangle)]
pub extern "C" fn petool_page_at(
    memory: Memory,
    file: &[u8],
    kind: u32,
    place: u64,
    text: &mut [u8],
    len: &mut usize,
) -> u32
    ensures told { IsTold (IsJudged file.now) text.new len.new result }
    ensures within { len.new ≤ length text.new }
    ensures full { result ≡ 3 → len.new ≡ length text.new }
    ensures memory { result ≡ 4 → 0 < length file.now }
{
    let heap = PageHeap::new(memory);
    let mut writer = RoomWriter::new(text);
    let spots = [Spot::At(place_of(kind, place))];
    let answer = spots_into(&heap, &spots, file, &mut writer);
    *len = writer.len();
    u32::from(status(&answer))
}
