//! `file_kind`: the kind of a file by its first bytes; `is_object`, by which it is checked as an object or as an image; and
//! `other_kind`, what a refused file is instead.

ghost use Rattle.std.specs.Prelude.{◌≡◌, Some};
ghost use Rattle.std.specs.List.{list_all};
ghost use Rattle.pe_text.specs.FileKind.{is_text_byte, is_text, is_machine, begins_object, begins_import, begins_big_object, is_object, is_plain_object, kind_of, kind_name, kind_words, object_kind, is_read, other_kind};

use pe_head::machine;
use pe_view::{Fault, View};
use std::fmt::{self, Display};

/// A kind of file. It displays as a clause: `it is an ELF file`.
#[derive(Clone, Copy, Debug, PartialEq, Eq)]
pub enum FileKind {
    /// It begins with `MZ`.
    Image,
    /// It begins with the byte 7f and `ELF`.
    Elf,
    /// It begins with `!<arch>` and a line feed.
    Archive,
    /// It begins with `!<thin>` and a line feed: an archive that names its members' files and does not hold them.
    ThinArchive,
    /// It has bytes, and the first 16 are printable ASCII, tabs and line ends.
    Text,
    /// It begins with the number of a machine for which COFF objects are made.
    Object,
    /// It begins with the header of an import object, a member of a short import library: 0, ffff and the version 0.
    ImportObject,
    /// It begins with the header of an object that was compiled with `/bigobj`: 0, ffff, a version of 2 or more, and the class of
    /// such objects.
    BigObject,
}

impl FileKind {
    /// Its name: `ELF file`.
    pub fn name(self) -> &'static str
        ensures { result.now ≡ kind_name self }
    {
        match self {
            FileKind::Image => "image",
            FileKind::Elf => "ELF file",
            FileKind::Archive => "archive",
            FileKind::ThinArchive => "thin archive",
            FileKind::Text => "text",
            FileKind::Object => "COFF object",
            FileKind::ImportObject => "import object",
            FileKind::BigObject => "/bigobj object",
        }
    }

    /// The clause that it displays as.
    pub fn words(self) -> &'static str
        ensures { result.now ≡ kind_words self }
    {
        match self {
            FileKind::Image => "it is an image",
            FileKind::Elf => "it is an ELF file",
            FileKind::Archive => "it is an archive",
            FileKind::ThinArchive => "it is a thin archive",
            FileKind::Text => "it is a text",
            FileKind::Object => "it is a COFF object",
            FileKind::ImportObject => "it is an import object",
            FileKind::BigObject => "it is a /bigobj object",
        }
    }
}

impl Display for FileKind {
    ghost output = { λ kind. Some (kind_words kind) };

    fn fmt<W: fmt::Write>(&self, f: &mut fmt::Formatter<W>) -> fmt::Result {
        f.write_str(self.words())
    }
}

/// Whether a text file may contain a byte: it is printable ASCII, a tab, a line feed or a carriage return.
fn is_text_byte(byte: u8) -> bool
    ensures { result ≡ is_text_byte byte }
{
    matches!(byte, b' '..=b'~' | b'\t' | b'\n' | b'\r')
}

/// Whether a text file may contain all these bytes.
fn all_text(bytes: &[u8]) -> bool
    ensures { result ≡ list_all is_text_byte bytes.now }
{
    bytes.iter().all(|byte| is_text_byte(*byte))
}

/// How many first bytes show a text.
const TEXT_BYTES: usize = 16;

/// Whether a text file may begin with these bytes, of which the first 16 count.
fn is_text(first: &[u8]) -> bool
    ensures { result ≡ is_text first.now }
{
    !first.is_empty() && all_text(&first[..first.len().min(TEXT_BYTES)])
}

/// Whether COFF objects are made for the machine of this number.
fn is_machine(number: u16) -> bool
    ensures { result ≡ is_machine number }
{
    matches!(
        number,
        machine::I386 | machine::AMD64 | machine::ARM64 | machine::ARM | machine::ARMNT
    )
}

/// Whether a COFF object may begin with these bytes.
fn begins_object(first: &[u8]) -> bool
    ensures { result ≡ begins_object first.now }
{
    match View::new(first).u16_at(0) {
        Some(number) => is_machine(number),
        None => false,
    }
}

/// Whether an import object may begin with these bytes ("PE Format", Import Header): Machine is 0, where an object has its number
/// of sections is ffff, and the version is 0.
fn begins_import(first: &[u8]) -> bool
    ensures { result ≡ begins_import first.now }
{
    first.starts_with(b"\x00\x00\xff\xff\x00\x00")
}

/// The class in the header of a `/bigobj` object: {D1BAA1C7-BAEE-4BA9-AF20-FAF66AA4DCB8}.
const BIG_OBJECT_CLASS: &[u8] = b"\xc7\xa1\xba\xd1\xee\xba\xa9\x4b\xaf\x20\xfa\xf6\x6a\xa4\xdc\xb8";

/// Whether a `/bigobj` object may begin with these bytes (`ANON_OBJECT_HEADER_BIGOBJ` of winnt.h): 0 and ffff as an import object
/// has, a version of 2 or more, and from offset 12 on the class of such objects.
fn begins_big_object(first: &[u8]) -> bool
    ensures { result ≡ begins_big_object first.now }
{
    let view = View::new(first);
    match (view.u32_at(0), view.u16_at(4), view.slice(12, 16)) {
        (Some(mark), Some(version), Some(class)) => {
            mark == 0xffff_0000 && version >= 2 && class == BIG_OBJECT_CLASS
        }
        _ => false,
    }
}

/// The kind of a file by its first 28 bytes, or by all if it has fewer: `None` if they are those of no kind. `first` may have more.
///
/// The kinds are tested in the order of [`FileKind`], so that a file whose first bytes may begin both a text and an object is a
/// text.
pub fn file_kind(first: &[u8]) -> Option<FileKind>
    ensures { result ≡ kind_of first.now }
{
    if first.starts_with(b"MZ") {
        Some(FileKind::Image)
    } else if first.starts_with(b"\x7fELF") {
        Some(FileKind::Elf)
    } else if first.starts_with(b"!<arch>\n") {
        Some(FileKind::Archive)
    } else if first.starts_with(b"!<thin>\n") {
        Some(FileKind::ThinArchive)
    } else if is_text(first) {
        Some(FileKind::Text)
    } else {
        object_kind(first)
    }
}

/// The kind of object that may begin with these bytes.
fn object_kind(first: &[u8]) -> Option<FileKind>
    ensures { result ≡ object_kind first.now }
{
    if begins_object(first) {
        Some(FileKind::Object)
    } else if begins_import(first) {
        Some(FileKind::ImportObject)
    } else if begins_big_object(first) {
        Some(FileKind::BigObject)
    } else {
        None
    }
}

/// Whether a file of this kind is an object, plain or big.
fn is_object_kind(kind: Option<FileKind>) -> bool
    ensures { result ≡ is_object kind }
{
    matches!(kind, Some(FileKind::Object | FileKind::BigObject))
}

/// Whether a file is checked as an object, plain or big, since its first bytes are those of one. Every other file is checked as an
/// image.
pub fn is_object(file: &[u8]) -> bool
    ensures { result ≡ is_object (kind_of file.now) }
{
    is_object_kind(file_kind(file))
}

/// Whether a file of this kind is one that is tested for a fault of this number; true for a number of which no single file is. By 61
/// and 62, which are about the header, a big object is refused where only a plain one is read.
fn is_read(number: u16, kind: Option<FileKind>) -> bool
    ensures { result ≡ is_read number kind }
{
    match number {
        1..=38 => matches!(kind, Some(FileKind::Image)),
        61 | 62 => matches!(kind, Some(FileKind::Object)),
        63..=72 => is_object_kind(kind),
        _ => true,
    }
}

/// What a file that was refused with a fault is instead, by its first 28 bytes: `None` if they are those of no kind, or of the kind
/// that is tested for this fault. `first` has these bytes, or all if the file has fewer, and may have more.
pub fn other_kind(fault: &Fault, first: &[u8]) -> Option<FileKind>
    ensures { result ≡ other_kind fault.now.number first.now }
{
    let kind = file_kind(first);
    if is_read(fault.number, kind) {
        None
    } else {
        kind
    }
}
