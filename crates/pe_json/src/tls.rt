//! The TLS directory of an image.

ghost use Rattle.std.specs.Prelude.{[], ◌∷◌, map, option_map, true};
ghost use Rattle.pe_layout.specs.Layout.{image_of};
ghost use Rattle.pe_records.specs.CallbackView.{callback_table};
ghost use Rattle.pe_records.specs.Callbacks.{addresses, callbacks_of};
ghost use Rattle.pe_text.specs.TextWriter.{IsReady, Adds};
ghost use Rattle.pe_json.specs.JsonText.{wide_string};
ghost use Rattle.pe_json.specs.Listed.{items_text, more};
ghost use Rattle.pe_json.specs.TlsRows.{tls_addresses, tls_fields, callback_members, tls_members};

use crate::string::{write_number, write_number_if, write_wide, write_wide_if};
use pe_head::directory_index;
use pe_layout::Layout;
use pe_records::{TlsCallbacks, TlsDirectory, tls};
use pe_text::{Sink, TextWriter};

/// Adds the addresses of a TLS directory that the file holds.
fn write_addresses<W: Sink>(text: &mut TextWriter<W>, tls: &TlsDirectory)
    requires { IsReady W.failures text.old }
    ensures { Adds W.taken W.failures text.old text.new (more (tls_addresses tls.now)) }
{
    write_wide_if(
        text,
        b",\"start_address_of_raw_data\":\"0x",
        tls.start_address_of_raw_data,
    );
    write_wide_if(
        text,
        b",\"end_address_of_raw_data\":\"0x",
        tls.end_address_of_raw_data,
    );
    write_wide_if(text, b",\"address_of_index\":\"0x", tls.address_of_index);
    write_wide_if(
        text,
        b",\"address_of_callbacks\":\"0x",
        tls.address_of_callbacks,
    );
}

/// Adds the fields of a TLS directory that the file holds ("PE Format", The TLS Directory).
fn write_fields<W: Sink>(text: &mut TextWriter<W>, tls: &TlsDirectory)
    requires { IsReady W.failures text.old }
    ensures { Adds W.taken W.failures text.old text.new (more (tls_fields tls.now)) }
{
    write_addresses(text, tls);
    write_number_if(text, b",\"size_of_zero_fill\":", tls.size_of_zero_fill);
    write_number_if(text, b",\"characteristics\":", tls.characteristics);
}

/// Adds the address of a callback, after a comma unless it is the first of the list.
fn write_next_callback<W: Sink>(text: &mut TextWriter<W>, first: bool, address: u64)
    requires { IsReady W.failures text.old }
    ensures { Adds W.taken W.failures text.old text.new (items_text first (wide_string address ∷ [])) }
{
    if first {
        write_wide(text, b"\"0x", address);
    } else {
        write_wide(text, b",\"0x", address);
    }
}

/// Adds the addresses of the callbacks.
fn write_each_callback<W: Sink>(text: &mut TextWriter<W>, callbacks: &TlsCallbacks)
    requires { IsReady W.failures text.old }
    ensures { Adds W.taken W.failures text.old text.new (items_text true (map wide_string (addresses (callback_table callbacks.now)))) }
{
    for index in 0..callbacks.len() {
        if text.has_failed() {
            return;
        }
        let address = callbacks.get(index).unwrap();
        write_next_callback(text, index == 0, address);
    }
}

/// Adds the member that lists the callbacks, if an address leads to them.
fn write_callbacks<W: Sink>(text: &mut TextWriter<W>, layout: &Layout)
    requires { IsReady W.failures text.old }
    ensures { Adds W.taken W.failures text.old text.new (more (callback_members (callbacks_of (image_of layout.now)))) }
{
    let Some(callbacks) = TlsCallbacks::of(layout) else {
        return;
    };
    text.text(b",\"callbacks\":[");
    write_each_callback(text, &callbacks);
    text.text(b"]");
}

/// Adds the TLS directory, if the image has one.
pub(crate) fn write_tls<W: Sink>(text: &mut TextWriter<W>, layout: &Layout)
    requires { IsReady W.failures text.old }
    ensures { Adds W.taken W.failures text.old text.new (more (tls_members (image_of layout.now))) }
{
    let Some(directory) = layout.directory(directory_index::TLS) else {
        return;
    };
    let Some(tls) = tls(layout) else {
        return;
    };
    write_number(text, b",\"tls\":{\"rva\":", directory.rva as u64);
    write_fields(text, &tls);
    write_callbacks(text, layout);
    text.text(b"}");
}
