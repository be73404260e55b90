//! `write_image`: the bytes of an image, piece by piece in the order of their RVAs.

ghost use Rattle.std.specs.Prelude.{◌≡◌, ◌+◌, ◌-◌, ◌^◌, ◌<◌, ◌≤◌, ◌++◌, replicate};
ghost use Rattle.pe_view.specs.Number.{part};
ghost use Rattle.pe_view.specs.View.{bytes_of, size_of};
ghost use Rattle.pe_head.specs.Section.{rawlen};
ghost use Rattle.pe_layout.specs.Plain.{plain_bytes};
ghost use Rattle.pe_text.specs.TextWriter.{WritesAll};
ghost use Rattle.pe_layout_file.specs.Pieces.{IsHeld, LieInOrder};

use crate::zeros::write_zeros;
use pe_head::{Headers, SectionHeader};
use pe_text::{Failed, Sink, write_all};
use pe_view::View;

/// The raw data of a section, as far as it is in the image.
fn raw_data<'a>(file: View<'a>, section: &SectionHeader) -> &'a [u8]
    requires { IsHeld (size_of file) section.now }
    ensures { result.now ≡ part (bytes_of file.entry) section.now.pointer_to_raw_data (rawlen section.now) }
{
    let len = section.rawlen();
    if len == 0 {
        return &[];
    }
    let start = u64::from(section.pointer_to_raw_data);
    file.slice(start, u64::from(len)).unwrap()
}

/// Writes the zero bytes from an RVA on up to a section, and then its raw data.
fn write_section<W: Sink>(
    writer: &mut W,
    file: View,
    section: &SectionHeader,
    rva: u32,
) -> Result<(), Failed>
    requires counts { W.failures writer.old < 2 ^ 64 - 1 }
    requires behind { rva ≤ section.now.virtual_address }
    requires held { IsHeld (size_of file) section.now }
    ensures { WritesAll (W.taken writer.old) (W.taken writer.new)
        (W.failures writer.old) (W.failures writer.new) result
        (replicate (section.now.virtual_address - rva) 0 ++ part (bytes_of file.entry) section.now.pointer_to_raw_data (rawlen section.now)) }
{
    write_zeros(writer, section.virtual_address - rva)?;
    write_all(writer, raw_data(file, section))
}

/// Writes the bytes of the image that headers and a file lay out: the headers, then each section's raw data, and zero bytes between
/// and after them.
pub(crate) fn write_image<W: Sink>(
    writer: &mut W,
    headers: &Headers,
    file: View,
) -> Result<(), Failed>
    requires counts { W.failures writer.old < 2 ^ 64 - 1 }
    requires order { LieInOrder headers.now (bytes_of file) }
    ensures { WritesAll (W.taken writer.old) (W.taken writer.new)
        (W.failures writer.old) (W.failures writer.new) result
        (plain_bytes headers.now (bytes_of file.entry) 0 headers.now.size_of_image) }
{
    let header_bytes = u64::from(headers.size_of_headers);
    write_all(writer, file.slice(0, header_bytes).unwrap())?;
    let mut rva = headers.size_of_headers;
    for section in headers.sections.as_slice() {
        write_section(writer, file, section, rva)?;
        rva = section.virtual_address + section.rawlen();
    }
    write_zeros(writer, headers.size_of_image - rva)
}
