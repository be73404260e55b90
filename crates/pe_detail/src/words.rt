//! `DetailText`: the numbers that the rule of a fault compares, in words and by name.

ghost use Rattle.std.specs.Prelude.{◌≡◌, Some, flat_map, map};
ghost use Rattle.std.specs.Fmt.{WritesOnOk};
ghost use Rattle.pe_detail.specs.DetailWords.{part_view, count_words, place_words, last_words, one_part, two_parts, head_words, detail_words, part_text, detail_text};

use crate::detail::Detail;
use pe_head::FaultDetail;
use std::fmt::{self, Display};

/// A number of a detail.
#[derive(Clone, Copy, Debug, PartialEq, Eq)]
pub enum Amount {
    /// No number: these are the last words, or the part is empty.
    Nothing,
    /// A size in bytes or a count, shown in decimal.
    Count(u64),
    /// A file offset, an RVA, an address or a field, shown in hexadecimal after `0x`.
    Place(u64),
}

/// Words, and the number after them with its name.
#[derive(Clone, Copy, Debug, PartialEq, Eq)]
pub struct DetailPart {
    /// The words before the number.
    pub words: &'static str,
    /// The number's name; empty if there is no number.
    pub name: &'static str,
    /// The number.
    pub amount: Amount,
}

/// The parts of a detail; those that it does not need are empty.
pub type DetailParts = [DetailPart; 3];

/// An empty part, of a detail that has fewer than three.
const END: DetailPart = DetailPart {
    words: "",
    name: "",
    amount: Amount::Nothing,
};

/// Words before a size or a count.
fn count(words: &'static str, name: &'static str, number: u64) -> DetailPart
    ensures { part_view result ≡ count_words words.now name.now number }
{
    DetailPart {
        words,
        name,
        amount: Amount::Count(number),
    }
}

/// Words before a file offset, an RVA, an address or a field.
fn place(words: &'static str, name: &'static str, number: u64) -> DetailPart
    ensures { part_view result ≡ place_words words.now name.now number }
{
    DetailPart {
        words,
        name,
        amount: Amount::Place(number),
    }
}

/// Words that no number follows.
fn last(words: &'static str) -> DetailPart
    ensures { part_view result ≡ last_words words.now }
{
    DetailPart {
        words,
        name: "",
        amount: Amount::Nothing,
    }
}

/// The words of a detail of one part.
fn one(first: DetailPart) -> DetailParts
    ensures { map part_view result ≡ one_part (part_view first) }
{
    [first, END, END]
}

/// The words of a detail of two parts.
fn two(first: DetailPart, second: DetailPart) -> DetailParts
    ensures { map part_view result ≡ two_parts (part_view first) (part_view second) }
{
    [first, second, END]
}

/// The words of a detail of the headers, of section headers and of an object's parts.
fn head_parts(detail: FaultDetail) -> DetailParts
    ensures { map part_view result ≡ head_words detail }
{
    match detail {
        FaultDetail::FileSize(size) => one(count("it has ", "file_size", size)),
        FaultDetail::OverLimit => one(last("it has over 2^32")),
        FaultDetail::Signature { offset, file_size } => [
            place("it is ", "offset", offset),
            count(", and the file has ", "file_size", file_size),
            last(" bytes"),
        ],
        FaultDetail::PastFile {
            size,
            offset,
            file_size,
        } => [
            count("", "size", size),
            place(" bytes at ", "offset", offset),
            count(", and the file has ", "file_size", file_size),
        ],
        FaultDetail::NumberOfSections(number) => {
            one(count("it has ", "number_of_sections", number))
        }
        FaultDetail::SizeOfImage(size) => one(place("it is ", "size_of_image", size)),
        FaultDetail::FixedFields { size, needed } => two(
            count("it is ", "size", size),
            count(", and the fixed fields take ", "needed", needed),
        ),
        FaultDetail::Directories {
            size,
            count: directories,
            needed,
        } => [
            count("it is ", "size", size),
            count(
                ", and the fixed fields and directories of ",
                "directories",
                directories,
            ),
            count(" take ", "needed", needed),
        ],
        FaultDetail::SectionTable { end, table_end } => two(
            place("they end at ", "end", end),
            place(", and the section table at ", "table_end", table_end),
        ),
        FaultDetail::HeadersEnd { end, image_end } => two(
            place("they end at ", "end", end),
            place(", and the image at ", "image_end", image_end),
        ),
        FaultDetail::SectionEnd { end, image_end } => two(
            place("it ends at RVA ", "end", end),
            place(", and the image at ", "image_end", image_end),
        ),
        FaultDetail::InHeaders { begin, headers_end } => two(
            place("it begins at RVA ", "begin", begin),
            place(", and the headers end at ", "headers_end", headers_end),
        ),
        FaultDetail::InSection { begin, section_end } => two(
            place("it begins at RVA ", "begin", begin),
            place(
                ", and the section before it ends at ",
                "section_end",
                section_end,
            ),
        ),
    }
}

/// The words of a detail.
#[tactic(auto, unfolding(crate::specs::DetailWords::detail_words))]
fn parts_of(detail: Detail) -> DetailParts
    ensures { map part_view result ≡ detail_words detail }
{
    match detail {
        Detail::Head(detail) => head_parts(detail),
        Detail::PastImage {
            size,
            rva,
            image_end,
        } => [
            count("", "size", size),
            place(" bytes at RVA ", "rva", rva),
            place(", and the image ends at ", "image_end", image_end),
        ],
        Detail::Outside { rva, image_end } => two(
            place("the RVA is ", "rva", rva),
            place(", and the image ends at ", "image_end", image_end),
        ),
        Detail::Unended { rva, end } => two(
            place("the RVA is ", "rva", rva),
            place(", and no zero byte follows before ", "end", end),
        ),
        Detail::Forwarder { rva, length } => [
            place("its string at RVA ", "rva", rva),
            count(" has ", "length", length),
            last(" bytes"),
        ],
        Detail::Limit {
            count: entries,
            limit,
        } => two(
            count("it has ", "count", entries),
            count(", and the limit is ", "limit", limit),
        ),
        Detail::Index {
            index,
            count: items,
        } => two(
            count("it is ", "index", index),
            count(", and there are ", "count", items),
        ),
        Detail::HighBits(bits) => one(place("they are ", "bits", bits)),
        Detail::TimeStamp(stamp) => one(place("it is ", "time_stamp", stamp)),
        Detail::BlockSize { size, left } => [
            count("its size is ", "size", size),
            count(", and the directory has ", "left", left),
            last(" bytes left"),
        ],
        Detail::EntryType { entry_type, field } => two(
            count("the type is ", "type", entry_type),
            place(", and the field is at RVA ", "field", field),
        ),
        Detail::FieldBytes { size, rva } => two(
            count("", "size", size),
            place(" bytes at RVA ", "rva", rva),
        ),
        Detail::ImageSize(size) => one(place("SizeOfImage is ", "size_of_image", size)),
        Detail::ImageBase(base) => one(place("ImageBase is ", "image_base", base)),
        Detail::TableSize(size) => one(count("the size is ", "size", size)),
        Detail::NameOffset { offset, size } => [
            count("the offset is ", "offset", offset),
            count(", and the table has ", "size", size),
            last(" bytes"),
        ],
        Detail::Auxiliary {
            count: records,
            left,
        } => [
            count("it has ", "count", records),
            count(", and the table has ", "left", left),
            last(" records left"),
        ],
    }
}

/// Writes words, and the number after them.
fn write_part<W: fmt::Write>(f: &mut fmt::Formatter<W>, part: &DetailPart) -> fmt::Result
    ensures { WritesOnOk W.write_str_gives f.old result (part_text part.now) f.new }
{
    let words = part.words;
    match part.amount {
        Amount::Nothing => f.write_str(words),
        Amount::Count(number) => write!(f, "{words}{number}"),
        Amount::Place(number) => write!(f, "{words}0x{number:x}"),
    }
}

/// Writes the parts of a detail.
fn write_parts<W: fmt::Write>(f: &mut fmt::Formatter<W>, parts: &[DetailPart]) -> fmt::Result
    ensures { WritesOnOk W.write_str_gives f.old result (flat_map part_text parts.now) f.new }
{
    for part in parts {
        write_part(f, part)?;
    }
    Ok(())
}

/// The numbers that the rule of a fault compares. Displayed, it is a clause: `16 bytes at 0x200, and the file has 520`.
#[derive(Clone, Copy, Debug, PartialEq, Eq)]
pub struct DetailText(pub Detail);

impl DetailText {
    /// The words of a detail, each with the number after them.
    pub fn parts(&self) -> DetailParts
        ensures { map part_view result ≡ detail_words self.now.0 }
    {
        parts_of(self.0)
    }
}

impl Display for DetailText {
    ghost output = { λ text. Some (detail_text text.0) };

    #[tactic(auto, using(crate::proofs::DetailTexts::flat_map_of_parts), unfolding(crate::specs::DetailWords::detail_text))]
    fn fmt<W: fmt::Write>(&self, f: &mut fmt::Formatter<W>) -> fmt::Result {
        write_parts(f, &self.parts())
    }
}
