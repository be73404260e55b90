//! The debug directory of an image.

ghost use Rattle.std.specs.Prelude.{[], ◌∷◌, map, true};
ghost use Rattle.pe_layout.specs.Layout.{image_of};
ghost use Rattle.pe_text.specs.TextWriter.{IsReady, Adds};
ghost use Rattle.pe_json.specs.DebugRows.{type_numbers, data_numbers, debug_row, debug_entries, debug_members};
ghost use Rattle.pe_json.specs.Listed.{items_text, more};

use crate::string::{write_number, write_text_if};
use pe_head::directory_index;
use pe_layout::Layout;
use pe_records::{DebugEntry, Records, debug_type_name};
use pe_text::{Sink, TextWriter};

/// Adds when an entry's data was made, and of what form and type it is.
fn write_type<W: Sink>(text: &mut TextWriter<W>, entry: &DebugEntry)
    requires { IsReady W.failures text.old }
    ensures { Adds W.taken W.failures text.old text.new (more (type_numbers entry.now)) }
{
    write_number(text, b",\"time_date_stamp\":", entry.time_date_stamp as u64);
    write_number(text, b",\"major_version\":", entry.major_version as u64);
    write_number(text, b",\"minor_version\":", entry.minor_version as u64);
    write_number(text, b",\"type\":", entry.kind as u64);
}

/// Adds where an entry's data is.
fn write_data<W: Sink>(text: &mut TextWriter<W>, entry: &DebugEntry)
    requires { IsReady W.failures text.old }
    ensures { Adds W.taken W.failures text.old text.new (more (data_numbers entry.now)) }
{
    write_number(text, b",\"size_of_data\":", entry.size_of_data as u64);
    write_number(
        text,
        b",\"address_of_raw_data\":",
        entry.address_of_raw_data as u64,
    );
    write_number(
        text,
        b",\"pointer_to_raw_data\":",
        entry.pointer_to_raw_data as u64,
    );
}

/// Adds an entry ("PE Format", Debug Directory).
fn write_entry<W: Sink>(text: &mut TextWriter<W>, entry: &DebugEntry)
    requires { IsReady W.failures text.old }
    ensures { Adds W.taken W.failures text.old text.new (debug_row entry.now) }
{
    write_number(text, b"{\"characteristics\":", entry.characteristics as u64);
    write_type(text, entry);
    write_text_if(text, b",\"type_name\":", debug_type_name(entry.kind));
    write_data(text, entry);
    text.text(b"}");
}

/// Adds an entry, after a comma unless it is the first of the list.
fn write_next_entry<W: Sink>(text: &mut TextWriter<W>, first: bool, entry: &DebugEntry)
    requires { IsReady W.failures text.old }
    ensures { Adds W.taken W.failures text.old text.new (items_text first (debug_row entry.now ∷ [])) }
{
    if first {
        write_entry(text, entry);
    } else {
        text.text(b",");
        write_entry(text, entry);
    }
}

/// Adds the entries of the directory.
fn write_entries<W: Sink>(text: &mut TextWriter<W>, layout: &Layout)
    requires { IsReady W.failures text.old }
    ensures { Adds W.taken W.failures text.old text.new (items_text true (map debug_row (debug_entries (image_of layout.now)))) }
{
    let entries: Records<DebugEntry> = Records::of(layout);
    for index in 0..entries.len() {
        if text.has_failed() {
            return;
        }
        let entry = entries.get(index).unwrap();
        write_next_entry(text, index == 0, &entry);
    }
}

/// Adds the member that lists the entries, if the image has a debug directory.
pub(crate) fn write_debug<W: Sink>(text: &mut TextWriter<W>, layout: &Layout)
    requires { IsReady W.failures text.old }
    ensures { Adds W.taken W.failures text.old text.new (more (debug_members (image_of layout.now))) }
{
    let Some(_) = layout.directory(directory_index::DEBUG) else {
        return;
    };
    text.text(b",\"debug\":[");
    write_entries(text, layout);
    text.text(b"]");
}
