//! `Pdb`: which PDB file belongs to an image, and the key by which symbol servers have it; and what an image is by its own words.

ghost use Rattle.pe_text.specs.TextWriter.{IsReady};
ghost use Rattle.pe_page.specs.Page.{AddsSome};

use arrayvec::ArrayVec;
use pe_page::Cell::{self, Plain};
use pe_page::{write_cells, write_plain_heading};
use pe_records::{CodeView, DebugEntry, Pdb20, Pdb70, code_view, debug_type};
use pe_resource_pages::{has_version_identity, write_version_identity};
use pe_text::Part::{Decimal, Hex, Hex2, Text};
use pe_text::{ShowOptions, Sink, TextWriter, write_parts};
use pe_view::View;

/// How many bytes of an entry's data are searched for the end of a path. A page shows no more of a name.
const SEARCHED: usize = 24 + 4096;

/// The digits of a key.
const DIGITS: [u8; 16] = *b"0123456789ABCDEF";

/// What tells a PDB file from others of its name.
#[derive(Clone, Copy)]
enum Signature {
    /// The GUID of a PDB 7.0 file, in the order in which it is written.
    Guid([u8; 16]),
    /// The time stamp of a PDB 2.0 file.
    Stamp(u32),
}

/// A PDB file.
#[derive(Clone, Copy)]
pub struct Pdb<'a> {
    /// Its path where it was made, or as many of the bytes there as are shown, if no zero byte ends it.
    pub path: &'a [u8],
    signature: Signature,
    age: u32,
}

/// The bytes of a GUID in the order in which it is written: its first three numbers are little-endian.
fn in_order(guid: [u8; 16]) -> [u8; 16] {
    let [a, b, c, d, e, f, g, h, i, j, k, l, m, n, o, p] = guid;
    [d, c, b, a, f, e, h, g, i, j, k, l, m, n, o, p]
}

/// The PDB 7.0 file that a record in this data names.
fn pdb_70<'a>(record: &Pdb70<'a>, data: &'a [u8]) -> Pdb<'a> {
    Pdb {
        path: record.path.unwrap_or(&data[data.len().min(24)..]),
        signature: Signature::Guid(in_order(record.guid)),
        age: record.age,
    }
}

/// The PDB 2.0 file that a record in this data names.
fn pdb_20<'a>(record: &Pdb20<'a>, data: &'a [u8]) -> Pdb<'a> {
    Pdb {
        path: record.path.unwrap_or(&data[data.len().min(16)..]),
        signature: Signature::Stamp(record.time_date_stamp),
        age: record.age,
    }
}

/// The PDB file that an entry of the debug directory names, if it names one.
pub(crate) fn pdb_of<'a>(entry: &DebugEntry, file: View<'a>) -> Option<Pdb<'a>> {
    if entry.kind != debug_type::CODE_VIEW {
        return None;
    }
    let data = entry.data(file)?;
    let data = &data[..data.len().min(SEARCHED)];
    match code_view(data) {
        CodeView::Pdb70(record) => Some(pdb_70(&record, data)),
        CodeView::Pdb20(record) => Some(pdb_20(&record, data)),
        CodeView::Other => None,
    }
}

/// Adds the two digits of a byte to a key.
fn add_byte(key: &mut ArrayVec<u8, 32>, byte: u8) {
    let _ = key.try_push(DIGITS[(byte / 16) as usize]);
    let _ = key.try_push(DIGITS[(byte % 16) as usize]);
}

/// The digits of a signature.
fn signature_digits(signature: Signature) -> ArrayVec<u8, 32> {
    let mut key = ArrayVec::new();
    match signature {
        Signature::Guid(guid) => {
            for byte in &guid {
                add_byte(&mut key, *byte);
            }
        }
        Signature::Stamp(stamp) => {
            for byte in &stamp.to_be_bytes() {
                add_byte(&mut key, *byte);
            }
        }
    }
    key
}

impl<'a> Pdb<'a> {
    /// The name of the file, without the directories before it.
    pub fn file_name(&self) -> &'a [u8] {
        match self
            .path
            .rsplit(|byte| *byte == b'\\' || *byte == b'/')
            .next()
        {
            Some(name) => name,
            None => self.path,
        }
    }
}

/// Adds a GUID.
fn write_guid<W: Sink>(text: &mut TextWriter<W>, guid: &[u8; 16])
    requires { IsReady W.failures text.old }
    ensures { AddsSome W.taken W.failures text.old text.new }
{
    let [a, b, c, d, e, f, g, h, i, j, k, l, m, n, o, p] = *guid;
    write_parts(
        text,
        &[
            Text(b"  GUID         "),
            Hex2(a),
            Hex2(b),
            Hex2(c),
            Hex2(d),
            Text(b"-"),
            Hex2(e),
            Hex2(f),
            Text(b"-"),
            Hex2(g),
            Hex2(h),
            Text(b"-"),
            Hex2(i),
            Hex2(j),
            Text(b"-"),
            Hex2(k),
            Hex2(l),
            Hex2(m),
            Hex2(n),
            Hex2(o),
            Hex2(p),
        ],
    );
}

/// Adds what tells a PDB file from others of its name.
fn write_signature<W: Sink>(text: &mut TextWriter<W>, signature: &Signature)
    requires { IsReady W.failures text.old }
    ensures { AddsSome W.taken W.failures text.old text.new }
{
    match signature {
        Signature::Guid(guid) => write_guid(text, guid),
        Signature::Stamp(stamp) => write_cells(
            text,
            &[
                Plain(Text(b"  Made         ")),
                Cell::Date(*stamp),
                Plain(Text(b" (0x")),
                Plain(Hex(u64::from(*stamp), 8)),
                Plain(Text(b")")),
            ],
        ),
    }
}

/// Adds the rows of an identity that the PDB file of an image tells, if it has one: its path, what tells it from others of its name,
/// and the key by which symbol servers have it.
fn write_pdb<W: Sink>(text: &mut TextWriter<W>, pdb: Option<Pdb>)
    requires { IsReady W.failures text.old }
    ensures { AddsSome W.taken W.failures text.old text.new }
{
    let Some(pdb) = pdb else {
        return;
    };
    let digits = signature_digits(pdb.signature);
    write_cells(
        text,
        &[
            Plain(Text(b"  PDB          ")),
            Cell::Name(pdb.path),
            Plain(Text(b"\n")),
        ],
    );
    write_signature(text, &pdb.signature);
    write_cells(
        text,
        &[
            Plain(Text(b", age ")),
            Plain(Decimal(u64::from(pdb.age))),
            Plain(Text(b"\n  Symbol key   ")),
            Cell::Name(pdb.file_name()),
            Plain(Text(b"/")),
        ],
    );
    write_parts(
        text,
        &[
            Text(digits.as_slice()),
            Hex(u64::from(pdb.age), 1),
            Text(b"\n"),
        ],
    );
}

/// Adds the rows of an identity that the version information of an image tells, if it has some.
fn write_version<W: Sink>(text: &mut TextWriter<W>, version: Option<&[u8]>)
    requires { IsReady W.failures text.old }
    ensures { AddsSome W.taken W.failures text.old text.new }
{
    if let Some(version) = version {
        write_version_identity(text, version);
    }
}

/// Whether version information tells what an image is.
fn tells_identity(version: Option<&[u8]>) -> bool {
    match version {
        Some(version) => has_version_identity(version),
        None => false,
    }
}

/// Adds the part of a page on what an image is: by its version information, and by its PDB file, if one of these tells it.
pub fn write_identity<W: Sink>(
    text: &mut TextWriter<W>,
    options: &ShowOptions,
    version: Option<&[u8]>,
    pdb: Option<Pdb>,
)
    requires { IsReady W.failures text.old }
    ensures { AddsSome W.taken W.failures text.old text.new }
{
    if pdb.is_none() && !tells_identity(version) {
        return;
    }
    write_plain_heading(text, options, b"Identity");
    write_version(text, version);
    write_pdb(text, pdb);
}
