//! The data of entries of the debug directory.

ghost use Rattle.pe_text.specs.TextWriter.{IsReady};
ghost use Rattle.pe_page.specs.Page.{AddsSome};

use crate::pdb::pdb_of;
use pe_page::Cell::{self, Plain};
use pe_page::write_cells;
use pe_reach::ViewFile;
use pe_records::{DebugEntry, debug_type, feature_counts, first_number, pdb_checksum, repro_hash};
use pe_text::Part::{Decimal, Hex, Hex2, Text};
use pe_text::{Sink, TextWriter, write_part, write_parts};

/// How many bytes of a hash are shown.
const HASH_SHOWN: usize = 64;

/// How many bytes of the name of an algorithm are searched for its end.
const NAME_SEARCHED: usize = 64;

/// What the page says of data that is not shown.
fn missing(file: ViewFile, entry: &DebugEntry) -> &'static [u8] {
    let end = u64::from(entry.pointer_to_raw_data) + u64::from(entry.size_of_data);
    if entry.pointer_to_raw_data == 0 {
        b"   not in the file"
    } else if end > file.len() {
        b"   past the end of the file"
    } else {
        b"   after the sections, not read"
    }
}

/// Adds bytes, two digits each, as many as are shown.
pub(crate) fn write_bytes<W: Sink>(text: &mut TextWriter<W>, bytes: &[u8])
    requires { IsReady W.failures text.old }
    ensures { AddsSome W.taken W.failures text.old text.new }
{
    for byte in &bytes[..bytes.len().min(HASH_SHOWN)] {
        write_part(text, &Hex2(*byte));
    }
}

/// Adds the PDB file that an entry names.
fn write_pdb<W: Sink>(text: &mut TextWriter<W>, file: ViewFile, entry: &DebugEntry)
    requires { IsReady W.failures text.old }
    ensures { AddsSome W.taken W.failures text.old text.new }
{
    match pdb_of(entry, file.beginning()) {
        Some(pdb) => write_cells(text, &[Plain(Text(b"   ")), Cell::Name(pdb.path)]),
        None => text.text(b"   no PDB"),
    }
}

/// Adds the hash of a reproducible build.
fn write_hash<W: Sink>(text: &mut TextWriter<W>, data: &[u8])
    requires { IsReady W.failures text.old }
    ensures { AddsSome W.taken W.failures text.old text.new }
{
    if let Some(hash) = repro_hash(data) {
        text.text(b"   ");
        write_bytes(text, hash);
    }
}

/// Adds the checksum of a PDB file, and the name of its algorithm.
fn write_checksum<W: Sink>(text: &mut TextWriter<W>, data: &[u8])
    requires { IsReady W.failures text.old }
    ensures { AddsSome W.taken W.failures text.old text.new }
{
    let data = &data[..data.len().min(NAME_SEARCHED + HASH_SHOWN)];
    if let Some(sum) = pdb_checksum(data) {
        write_cells(
            text,
            &[
                Plain(Text(b"   ")),
                Cell::Name(sum.algorithm),
                Plain(Text(b" ")),
            ],
        );
        write_bytes(text, sum.checksum);
    }
}

/// Adds how many object files were compiled how.
fn write_counts<W: Sink>(text: &mut TextWriter<W>, data: &[u8])
    requires { IsReady W.failures text.old }
    ensures { AddsSome W.taken W.failures text.old text.new }
{
    if let Some(counts) = feature_counts(data) {
        write_parts(
            text,
            &[
                Text(b"   before VC 11: "),
                Decimal(u64::from(counts.before_vc_11)),
                Text(b", C and C++: "),
                Decimal(u64::from(counts.c_and_cpp)),
                Text(b", /GS: "),
                Decimal(u64::from(counts.gs)),
                Text(b", /sdl: "),
                Decimal(u64::from(counts.sdl)),
                Text(b", guarded: "),
                Decimal(u64::from(counts.guard)),
            ],
        );
    }
}

/// Adds the number that data begins with.
fn write_number<W: Sink>(text: &mut TextWriter<W>, words: &[u8], data: &[u8])
    requires { IsReady W.failures text.old }
    ensures { AddsSome W.taken W.failures text.old text.new }
{
    if let Some(number) = first_number(data) {
        write_parts(text, &[Text(words), Hex(u64::from(number), 1)]);
    }
}

/// Adds what the data of an entry says.
pub(crate) fn write_data<W: Sink>(text: &mut TextWriter<W>, file: ViewFile, entry: &DebugEntry)
    requires { IsReady W.failures text.old }
    ensures { AddsSome W.taken W.failures text.old text.new }
{
    let Some(data) = entry.data(file.beginning()) else {
        text.text(missing(file, entry));
        return;
    };
    match entry.kind {
        debug_type::CODE_VIEW => write_pdb(text, file, entry),
        debug_type::REPRO => write_hash(text, data),
        debug_type::PDB_CHECKSUM => write_checksum(text, data),
        debug_type::VC_FEATURE => write_counts(text, data),
        debug_type::POGO => write_number(text, b"   signature 0x", data),
        debug_type::EX_DLL_CHARACTERISTICS => write_number(text, b"   flags 0x", data),
        _ => {}
    }
}
