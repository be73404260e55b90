//! `RichHeader`: which tools made an image, as linkers of Microsoft write it between the MS-DOS program and the signature.

ghost use Rattle.std.specs.Prelude.{◌≡◌, ◌+◌, ◌-◌, ◌*◌, ◌/◌, ◌^◌, ◌<◌, ◌≤◌, IfSome, None, option_map};
ghost use Rattle.pe_view.specs.View.{bytes_of, size_of};
ghost use Rattle.pe_trust.specs.Rich.{last_mark, rich_before, rich_mark, rich_of, word};
ghost use Rattle.pe_trust.specs.RichView.{rich_view};

use crate::rich_words::RichHeader;
use pe_head::Headers;
use pe_view::View;

/// `DanS`.
const DANS: u32 = 0x536e_6144;

/// `Rich`.
const RICH: u32 = 0x6863_6952;

/// The first word behind the MS-DOS header.
const FIRST: u32 = 16;

/// Word `index` of a file that holds it.
pub(crate) fn word(file: View, index: u32) -> u32
    requires { 4 * index + 4 ≤ size_of file }
    ensures { result ≡ word (bytes_of file.entry) index }
{
    file.u32_at(4 * u64::from(index)).unwrap()
}

/// The last word from `FIRST` on and below `end` that is the mark with this key.
fn last_mark(file: View, key: u32, mark: u32, end: u32) -> Option<u32>
    requires { 4 * end ≤ size_of file }
    ensures value { result ≡ last_mark (bytes_of file.entry) key mark end }
    ensures before { IfSome result (λ found. found < end) }
{
    let mut index = end;
    while index > FIRST {
        index -= 1;
        if word(file, index) ^ key == mark {
            return Some(index);
        }
    }
    None
}

/// The word at which `Rich` is, with its key before the signature and the end of the file.
pub(crate) fn rich_mark(file: View, headers: &Headers) -> Option<u32>
    ensures value { result ≡ rich_mark (bytes_of file.entry) headers.now.pe_offset }
    ensures inside { IfSome result (λ mark. 4 * mark + 8 ≤ size_of file.entry) }
    ensures small { IfSome result (λ mark. mark < 2 ^ 30) }
{
    let bytes = u64::from(headers.pe_offset).min(file.len());
    let end = (bytes.saturating_sub(4) / 4) as u32;
    last_mark(file, 0, RICH, end)
}

/// The Rich header whose `Rich` is at a word.
fn rich_before(file: View, mark: u32) -> Option<RichHeader>
    requires inside { 4 * mark + 8 ≤ size_of file }
    requires small { mark < 2 ^ 30 }
    ensures value { option_map rich_view result ≡ rich_before (bytes_of file.entry) mark }
    ensures same { IfSome result (λ header. bytes_of header.file ≡ bytes_of file.entry) }
{
    let key = word(file, mark + 1);
    let start = last_mark(file, key, DANS, mark)?;
    Some(RichHeader {
        file,
        start,
        mark,
        key,
    })
}

/// The Rich header of an image's file, or `None` if there is no `Rich` with its key before the signature, or no `DanS` before that.
pub fn rich_header<'a>(file: View<'a>, headers: &Headers) -> Option<RichHeader<'a>>
    ensures value { option_map rich_view result ≡ rich_of (bytes_of file.entry) headers.now.pe_offset }
    ensures same { IfSome result (λ header. bytes_of header.file ≡ bytes_of file.entry) }
{
    let mark = rich_mark(file, headers)?;
    rich_before(file, mark)
}
