//! The bound import table of an image.

ghost use Rattle.std.specs.Prelude.{◌≡◌, ◌+◌, [], ◌∷◌, map, option_map, true};
ghost use Rattle.pe_layout.specs.Layout.{image_of};
ghost use Rattle.pe_records.specs.Structure.{structure_bytes};
ghost use Rattle.pe_text.specs.TextWriter.{IsReady, Adds};
ghost use Rattle.pe_view.specs.View.{bytes_of};
ghost use Rattle.pe_json.specs.BoundRows.{module_at, module_if, bound_numbers, bound_row, bound_records, bound_members};
ghost use Rattle.pe_json.specs.Listed.{items_text, more};

use crate::string::{write_name, write_number};
use pe_head::directory_index;
use pe_layout::Layout;
use pe_records::{BoundImport, BoundImports};
use pe_text::{Sink, TextWriter};
use pe_view::View;

/// In how many bytes a name is to end: a table may have many records, and all may lead to one name.
const NAME_LEN: usize = 256;

/// The bytes from an RVA on in which a name is to end, as far as the file holds them in one run.
fn name_bytes<'a>(layout: &Layout<'a>, rva: u32) -> View<'a>
    ensures { bytes_of result ≡ structure_bytes (image_of layout.now) rva 256 }
{
    let held = layout.raw_bytes(rva);
    let len = NAME_LEN.min(held.len());
    View::new(&held[..len])
}

/// The name at an RVA, if it is in the image and ends.
fn module_at<'a>(layout: &Layout<'a>, rva: u64) -> Option<&'a [u8]>
    ensures { option_map (λ name. name.now) result ≡ module_at (image_of layout.now) rva }
{
    let size = layout.size() as u64;
    if rva >= size {
        return None;
    }
    let bytes = name_bytes(layout, rva as u32);
    bytes.until_zero(0, bytes.len())
}

/// Adds the name of a module, if there is one.
fn write_module<W: Sink>(text: &mut TextWriter<W>, name: Option<&[u8]>)
    requires { IsReady W.failures text.old }
    ensures { Adds W.taken W.failures text.old text.new (more (module_if (option_map (λ name. name.now) name.entry))) }
{
    let Some(name) = name else {
        return;
    };
    write_name(text, b",\"module\":\"", b",\"module_hex\":\"", name);
}

/// Adds where a record's name is, and how many records after it belong to it.
fn write_numbers<W: Sink>(text: &mut TextWriter<W>, import: &BoundImport)
    requires { IsReady W.failures text.old }
    ensures { Adds W.taken W.failures text.old text.new (more (bound_numbers import.now)) }
{
    write_number(
        text,
        b",\"offset_module_name\":",
        import.offset_module_name as u64,
    );
    write_number(
        text,
        b",\"number_of_module_forwarder_refs\":",
        import.number_of_module_forwarder_refs as u64,
    );
}

/// Adds a record of a table at an RVA ("PE Format", Bound Import Table).
fn write_record<W: Sink>(
    text: &mut TextWriter<W>,
    layout: &Layout,
    start: u32,
    import: &BoundImport,
)
    requires { IsReady W.failures text.old }
    ensures { Adds W.taken W.failures text.old text.new (bound_row (image_of layout.now) start import.now) }
{
    let rva = start as u64 + import.offset_module_name as u64;
    write_number(
        text,
        b"{\"time_date_stamp\":",
        import.time_date_stamp as u64,
    );
    write_numbers(text, import);
    write_module(text, module_at(layout, rva));
    text.text(b"}");
}

/// Adds a record, after a comma unless it is the first of the list.
fn write_next_record<W: Sink>(
    text: &mut TextWriter<W>,
    layout: &Layout,
    start: u32,
    first: bool,
    import: &BoundImport,
)
    requires { IsReady W.failures text.old }
    ensures { Adds W.taken W.failures text.old text.new (items_text first (bound_row (image_of layout.now) start import.now ∷ [])) }
{
    if first {
        write_record(text, layout, start, import);
    } else {
        text.text(b",");
        write_record(text, layout, start, import);
    }
}

/// Adds the records of the table at an RVA.
fn write_each_record<W: Sink>(text: &mut TextWriter<W>, layout: &Layout, start: u32)
    requires { IsReady W.failures text.old }
    ensures { Adds W.taken W.failures text.old text.new
        (items_text true (map (bound_row (image_of layout.now) start) (bound_records (image_of layout.now)))) }
{
    let records = BoundImports::of(layout);
    for index in 0..records.len() {
        if text.has_failed() {
            return;
        }
        let import = records.get(index).unwrap();
        write_next_record(text, layout, start, index == 0, &import);
    }
}

/// Adds the member that lists the records, if the image has a bound import table.
pub(crate) fn write_bound_imports<W: Sink>(text: &mut TextWriter<W>, layout: &Layout)
    requires { IsReady W.failures text.old }
    ensures { Adds W.taken W.failures text.old text.new (more (bound_members (image_of layout.now))) }
{
    let Some(directory) = layout.directory(directory_index::BOUND_IMPORT) else {
        return;
    };
    text.text(b",\"bound_imports\":[");
    write_each_record(text, layout, directory.rva);
    text.text(b"]");
}
