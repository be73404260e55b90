//! The PDB file of an image.

ghost use Rattle.std.specs.Prelude.{◌≡◌, find, option_map, option_and_then};
ghost use Rattle.pe_layout.specs.Layout.{image_of};
ghost use Rattle.pe_records.specs.CodeViewView.{code_view_view};
ghost use Rattle.pe_text.specs.TextWriter.{IsReady, Adds};
ghost use Rattle.pe_json.specs.DebugRows.{debug_entries};
ghost use Rattle.pe_json.specs.PdbRows.{is_code_view, data_at, path_if, code_view_members, pdb_members};
ghost use Rattle.pe_json.specs.Listed.{more};

use crate::string::{write_digits, write_name, write_number};
use pe_layout::Layout;
use pe_records::{CodeView, DebugEntry, Records, code_view, debug_type};
use pe_text::{Sink, TextWriter};

/// The first CodeView entry of the debug directory.
fn first_code_view(layout: &Layout) -> Option<DebugEntry>
    ensures { result ≡ find is_code_view (debug_entries (image_of layout.now)) }
{
    let entries: Records<DebugEntry> = Records::of(layout);
    for index in 0..entries.len() {
        let entry = entries.get(index).unwrap();
        if entry.kind == debug_type::CODE_VIEW {
            return Some(entry);
        }
    }
    None
}

/// The data of an entry where it is laid out, if the file holds all of it there in one run.
fn laid_out_data<'a>(layout: &Layout<'a>, entry: &DebugEntry) -> Option<&'a [u8]>
    ensures { option_map (λ bytes. bytes.now) result ≡ data_at (image_of layout.now) entry.now }
{
    if entry.address_of_raw_data == 0 {
        return None;
    }
    let held = layout.raw_bytes(entry.address_of_raw_data);
    let size = entry.size_of_data as usize;
    if held.len() < size {
        return None;
    }
    Some(&held[..size])
}

/// Adds a path, if there is one.
fn write_path<W: Sink>(text: &mut TextWriter<W>, path: Option<&[u8]>)
    requires { IsReady W.failures text.old }
    ensures { Adds W.taken W.failures text.old text.new (more (path_if (option_map (λ path. path.now) path.entry))) }
{
    let Some(path) = path else {
        return;
    };
    write_name(text, b",\"path\":\"", b",\"path_hex\":\"", path);
}

/// Adds what a CodeView record says of the PDB file, if it has a known form.
fn write_code_view<W: Sink>(text: &mut TextWriter<W>, code_view: &CodeView)
    requires { IsReady W.failures text.old }
    ensures { Adds W.taken W.failures text.old text.new (more (code_view_members (code_view_view code_view.now))) }
{
    match code_view {
        CodeView::Pdb70(pdb) => {
            text.text(b",\"pdb\":{\"guid_hex\":\"");
            write_digits(text, &pdb.guid);
            text.text(b"\"");
            write_number(text, b",\"age\":", pdb.age as u64);
            write_path(text, pdb.path);
            text.text(b"}");
        }
        CodeView::Pdb20(pdb) => {
            write_number(
                text,
                b",\"pdb\":{\"time_date_stamp\":",
                pdb.time_date_stamp as u64,
            );
            write_number(text, b",\"age\":", pdb.age as u64);
            write_path(text, pdb.path);
            text.text(b"}");
        }
        CodeView::Other => {}
    }
}

/// Adds the PDB file, if the debug directory has a CodeView record that names one.
pub(crate) fn write_pdb<W: Sink>(text: &mut TextWriter<W>, layout: &Layout)
    requires { IsReady W.failures text.old }
    ensures { Adds W.taken W.failures text.old text.new (more (pdb_members (image_of layout.now))) }
{
    let Some(entry) = first_code_view(layout) else {
        return;
    };
    let Some(data) = laid_out_data(layout, &entry) else {
        return;
    };
    write_code_view(text, &code_view(data));
}
