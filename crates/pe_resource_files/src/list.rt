//! `resource_list`: writes a line for each resource of an image.

ghost use Rattle.std.specs.Prelude.{◌≡◌, ◌-◌, ◌^◌, ◌<◌, ◌↔◌, length, IsErrOf};
ghost use Rattle.pe_text.specs.Engine.{Puts, Ran};
ghost use Rattle.pe_text.specs.TextWriter.{IsReady};
ghost use Rattle.pe_page.specs.Page.{AddsSome};
ghost use Rattle.pe_reach.specs.Sized.{RanSized};
ghost use Rattle.pe_resource_files.specs.Listed.{IsListed};

use pe_image::lay_out;
use pe_layout::Layout;
use pe_reach::size_fault;
use pe_resource_pages::write_leaf_path;
use pe_resources::{Leaf, leaves};
use pe_text::Part::{Decimal, Hex8, Text};
use pe_text::{
    Outcome, Report, Sink, Source, TextWriter, ToolError, refuse, run_report, write_parts,
    write_refusal, write_report,
};
use std::alloc::{AllocError, Allocator};

/// Adds the line of a leaf: what leads to it, where its data are, how many bytes these are, and the code page of texts in them.
fn write_leaf<W: Sink>(text: &mut TextWriter<W>, layout: &Layout, leaf: &Leaf)
    requires { IsReady W.failures text.old }
    ensures { AddsSome W.taken W.failures text.old text.new }
{
    write_leaf_path(text, layout, &leaf.path);
    write_parts(
        text,
        &[
            Text(b" rva 0x"),
            Hex8(u64::from(leaf.rva)),
            Text(b" size 0x"),
            Hex8(u64::from(leaf.size)),
            Text(b" code-page "),
            Decimal(u64::from(leaf.code_page)),
            Text(b"\n"),
        ],
    );
}

/// Adds the lines of leaves.
fn write_leaves<W: Sink>(text: &mut TextWriter<W>, layout: &Layout, leaves: &[Leaf])
    requires { IsReady W.failures text.old }
    ensures { AddsSome W.taken W.failures text.old text.new }
{
    for leaf in leaves {
        if text.has_failed() {
            return;
        }
        write_leaf(text, layout, leaf);
    }
}

/// The report of [`resource_list`].
struct ListReport;

impl Report for ListReport {
    ghost is_text = { IsListed };

    fn write<A: Allocator + Copy, W: Sink>(
        &self,
        alloc: A,
        text: &mut TextWriter<W>,
        file: &[u8],
    ) -> Result<Outcome, AllocError> {
        match lay_out(file, 0) {
            Ok(layout) => {
                let tree = leaves(alloc, &layout)?;
                write_leaves(text, &layout, &tree.leaves);
                Ok(Outcome::Done)
            }
            Err(fault) => Ok(refuse(text, fault)),
        }
    }
}

/// Writes a line for each resource of the image whose file comes from the reader, in the order of the tree: its path as
/// `pe_resource_pages::write_leaf_path` writes it, the RVA and the size of its data, and the code page of texts in them; or the line
/// of the first of faults 1 to 15.
///
/// The file is read to its end, or to 2^32 + 1 bytes. On the error `Write` the beginning of the lines was written, on `Read` and
/// `Memory` nothing; `Memory` never comes if the reader returned no byte. Condition: each device has counted fewer than 2^64 - 1
/// failures so far.
pub fn resource_list<A: Allocator + Copy, R: Source, W: Sink>(
    alloc: A,
    reader: &mut R,
    writer: &mut W,
) -> Result<Outcome, ToolError>
    requires reads { R.failures reader.old < 2 ^ 64 - 1 }
    requires writes { W.failures writer.old < 2 ^ 64 - 1 }
    ensures ran { Ran IsListed (R.given reader.old) (R.given reader.new)
        (W.taken writer.old) (W.taken writer.new) (R.ended reader.new) result }
    ensures read { IsErrOf result ToolError.Read ↔ (R.failures reader.old < R.failures reader.new) }
    ensures write { IsErrOf result ToolError.Write ↔ (W.failures writer.old < W.failures writer.new) }
{
    run_report(&ListReport, alloc, reader, writer)
}

/// [`resource_list`] for a file of `len` bytes: nothing is read of one that is larger than any image's file may be.
///
/// The lines, the errors and the conditions are those of [`resource_list`].
pub fn resource_list_sized<A: Allocator + Copy, R: Source, W: Sink>(
    alloc: A,
    reader: &mut R,
    len: u64,
    writer: &mut W,
) -> Result<Outcome, ToolError>
    requires reads { R.failures reader.old < 2 ^ 64 - 1 }
    requires writes { W.failures writer.old < 2 ^ 64 - 1 }
    ensures ran { RanSized IsListed len (R.given reader.old) (R.given reader.new)
        (W.taken writer.old) (W.taken writer.new) (R.ended reader.new) result }
    ensures read { IsErrOf result ToolError.Read ↔ (R.failures reader.old < R.failures reader.new) }
    ensures write { IsErrOf result ToolError.Write ↔ (W.failures writer.old < W.failures writer.new) }
{
    match size_fault(len) {
        Some(fault) => write_refusal(writer, fault),
        None => resource_list(alloc, reader, writer),
    }
}

/// The output of [`resource_list`] for a file that was read whole, and that its caller keeps. On the error `Write` the beginning of
/// the lines was written, on `Memory` nothing; `Read` never comes, and `Memory` not for an empty file. Condition: the writer has
/// counted fewer than 2^64 - 1 failures so far.
pub fn resource_list_text<A: Allocator + Copy, W: Sink>(
    alloc: A,
    file: &[u8],
    writer: &mut W,
) -> Result<Outcome, ToolError>
    requires { W.failures writer.old < 2 ^ 64 - 1 }
    ensures puts { Puts (IsListed file.now) (W.taken writer.old) (W.taken writer.new)
        (W.failures writer.old) (W.failures writer.new) result }
    ensures memory { IsErrOf result ToolError.Memory → 0 < length file.now }
{
    write_report(&ListReport, alloc, writer, file)
}
