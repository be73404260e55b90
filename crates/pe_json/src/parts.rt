//! `json_parts`: `json` for an image's file of a known size, of which only the headers, the sections with tables and the string table
//! are read.

ghost use Rattle.std.specs.Prelude.{None, map, option_map, ◌-◌, ◌^◌, ◌<◌, ◌↔◌, IfOk, IfNone, IsErrOf};
ghost use Rattle.coff_read.specs.ImageNames.{table_of};
ghost use Rattle.pe_json.specs.ExportRows.{AreNamesOf};
ghost use Rattle.pe_json.specs.JsonByParts.{IsImageLine, IsLeft, PutsParts};
ghost use Rattle.pe_json.specs.JsonReport.{IsLineOf};
ghost use Rattle.pe_reach.specs.PartsRan.{RanByParts};
ghost use Rattle.pe_tables.specs.ExportsView.{exports_view, by_ordinal_view};
ghost use Rattle.pe_tables.specs.ImportView.{import_view};
ghost use Rattle.pe_text.specs.Engine.{Puts};

use crate::image::{Content, write_plain_image};
use coff_read::ImageStrings;
use pe_parts::read_packed;
use pe_reach::{PartSource, Parts, read_names, read_parts};
use pe_tables::NamesByOrdinal;
use pe_text::{Outcome, Sink, TextWriter, ToolError};
use pe_view::View;
use std::alloc::Allocator;

/// Writes the line of an image without a fault to a sink.
fn print_content<A: Allocator + Copy, W: Sink>(
    writer: &mut W,
    name: &[u8],
    content: Content<A>,
) -> Result<Outcome, ToolError>
    requires writes { W.failures writer.old < 2 ^ 64 - 1 }
    requires own { AreNamesOf (exports_view content.exports.now) (by_ordinal_view content.names.now) }
    ensures { Puts
        (IsImageLine name.now (option_map table_of content.entry.strings) content.entry.headers.now (exports_view content.entry.exports.now)
        (map import_view content.entry.imports.now) content.entry.fixups.now)
        (W.taken writer.old) (W.taken writer.new) (W.failures writer.old) (W.failures writer.new) result }
{
    let mut text = TextWriter::new(writer);
    write_plain_image(&mut text, name, content);
    match text.finish() {
        Ok(()) => Ok(Outcome::Done),
        Err(_) => Err(ToolError::Write),
    }
}

/// Reads the tables of an image from its parts, and writes its line. `None` if the parts do not decide that it has no fault; then, and
/// on the error `Memory`, nothing was written.
fn print_parts<A: Allocator + Copy, W: Sink>(
    alloc: A,
    writer: &mut W,
    name: &[u8],
    parts: Parts<A>,
) -> Result<Option<Outcome>, ToolError>
    requires { W.failures writer.old < 2 ^ 64 - 1 }
    ensures { PutsParts name.now parts (W.taken writer.old) (W.taken writer.new) (W.failures writer.old) (W.failures writer.new) result }
{
    let Parts {
        headers,
        packed,
        bytes,
    } = parts;
    let strings = ImageStrings::new(View::new(&bytes), &packed);
    match read_packed(alloc, &bytes, &packed, 0) {
        Ok(Some(tables)) => {
            let Ok(names) = NamesByOrdinal::new(alloc, &tables.exports) else {
                return Err(ToolError::Memory);
            };
            let content = Content {
                headers: &headers,
                strings,
                exports: &tables.exports,
                names: &names,
                imports: &tables.imports,
                fixups: &tables.fixups,
            };
            match print_content(writer, name, content) {
                Ok(outcome) => Ok(Some(outcome)),
                Err(error) => Err(error),
            }
        }
        Ok(None) => Ok(None),
        Err(_) => Err(ToolError::Memory),
    }
}

/// [`json`](crate::json) for an image's file of `len` bytes, of which the headers are read, the sections in which its tables begin, and
/// the string table if a name of a section may be in it. The line and the outcome, which is `Done`, are those of each file of `len`
/// bytes that has these parts, without the tables that the profile leaves out. `Ok(None)` means that the parts were not read, as by
/// [`read_parts`], that the string table could not be put behind them, as by [`read_names`], or that they do not decide the tables:
/// nothing was written, and [`json_sized`](crate::json_sized) is for this file.
///
/// On the errors `Read` and `Memory` nothing was written, on `Write` the beginning of the line. Condition: each device has counted fewer than
/// 2^64 - 1 failures so far.
pub fn json_parts<A: Allocator + Copy, R: PartSource, W: Sink>(
    alloc: A,
    name: &[u8],
    reader: &mut R,
    len: u64,
    writer: &mut W,
) -> Result<Option<Outcome>, ToolError>
    requires reads { R.failures reader.old < 2 ^ 64 - 1 }
    requires writes { W.failures writer.old < 2 ^ 64 - 1 }
    ensures ran { RanByParts (IsLineOf None name.now) len (R.parts reader.old) (R.parts reader.new) (W.taken writer.old) (W.taken writer.new) result }
    ensures left { IfOk result (λ outcome. IfNone outcome (IsLeft len (R.parts reader.old) (R.parts reader.new))) }
    ensures read { IsErrOf result ToolError.Read ↔ (R.failures reader.old < R.failures reader.new) }
    ensures write { IsErrOf result ToolError.Write ↔ (W.failures writer.old < W.failures writer.new) }
{
    let Some(parts) = read_parts(alloc, reader, len)? else {
        return Ok(None);
    };
    match read_names(reader, parts, len)? {
        Some(parts) => print_parts(alloc, writer, name, parts),
        None => Ok(None),
    }
}
