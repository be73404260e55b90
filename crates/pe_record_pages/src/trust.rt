//! The part of a page on what an image's file says of itself: its CheckSum, its certificates, its overlay, its Rich header and its import hash.

ghost use Rattle.pe_text.specs.TextWriter.{IsReady};
ghost use Rattle.pe_page.specs.Page.{AddsSome};

use crate::certificates::write_certificates;
use crate::debug_data::write_bytes;
use crate::overlay::write_overlay;
use crate::rich_header::write_rich_header;
use pe_head::Headers;
use pe_imphash::import_hash;
use pe_page::write_plain_heading;
use pe_reach::ViewFile;
use pe_tables::Import;
use pe_text::Part::{Hex8, Text};
use pe_text::{ShowOptions, Sink, TextWriter, write_parts};
use pe_trust::{certificate_findings, check_sum, rich_finding};
use pe_view::Fault;

/// The findings on an image's certificates and its Rich header, each in its place if its rule is broken.
pub type TrustFindings = [Option<Fault>; 6];

/// The most bytes that a file may have.
const LARGEST: u64 = 1 << 32;

/// Whether the options select this part, and all of the file was read, without which nothing of it is known.
fn is_shown(options: &ShowOptions, file: ViewFile) -> bool {
    options.trust && file.beginning().len() == file.len()
}

/// Adds the row of a CheckSum field that holds what it is to hold.
fn write_right_sum<W: Sink>(text: &mut TextWriter<W>, field: u32)
    requires { IsReady W.failures text.old }
    ensures { AddsSome W.taken W.failures text.old text.new }
{
    write_parts(
        text,
        &[
            Text(b"  CheckSum     0x"),
            Hex8(u64::from(field)),
            Text(b", right\n"),
        ],
    );
}

/// Adds the row of a CheckSum field that is to hold another number.
fn write_other_sum<W: Sink>(text: &mut TextWriter<W>, field: u32, words: &[u8], computed: u32)
    requires { IsReady W.failures text.old }
    ensures { AddsSome W.taken W.failures text.old text.new }
{
    write_parts(
        text,
        &[
            Text(b"  CheckSum     0x"),
            Hex8(u64::from(field)),
            Text(words),
            Hex8(u64::from(computed)),
            Text(b" would be right\n"),
        ],
    );
}

/// Adds the row of CheckSum, whose field most linkers leave 0.
fn write_check_sum<W: Sink>(text: &mut TextWriter<W>, field: u32, computed: u32)
    requires { IsReady W.failures text.old }
    ensures { AddsSome W.taken W.failures text.old text.new }
{
    if field == computed {
        write_right_sum(text, field);
    } else if field == 0 {
        write_other_sum(text, field, b", not set, and 0x", computed);
    } else {
        write_other_sum(text, field, b", wrong, and 0x", computed);
    }
}

/// The findings on an image's certificates and its Rich header, if the options select this part.
pub fn trust_findings(options: &ShowOptions, file: ViewFile, headers: &Headers) -> TrustFindings {
    if !is_shown(options, file) {
        return [None; 6];
    }
    let bytes = file.beginning();
    let [first, second, third, fourth, fifth] = certificate_findings(0, bytes, headers);
    [
        first,
        second,
        third,
        fourth,
        fifth,
        rich_finding(0, bytes, headers),
    ]
}

/// Adds the row of the hash of an image's imports, if they are known and there is one.
fn write_import_hash<W: Sink>(text: &mut TextWriter<W>, imports: Option<&[Import]>)
    requires { IsReady W.failures text.old }
    ensures { AddsSome W.taken W.failures text.old text.new }
{
    let Some(imports) = imports else {
        return;
    };
    if let Some(hash) = import_hash(imports) {
        text.text(b"  Import hash  ");
        write_bytes(text, &hash);
        text.text(b"\n");
    }
}

/// Adds what an image's file says of itself, if the options select it. `imports` are the image's, if they were read.
pub fn write_trust<W: Sink>(
    text: &mut TextWriter<W>,
    options: &ShowOptions,
    file: ViewFile,
    headers: &Headers,
    imports: Option<&[Import]>,
)
    requires { IsReady W.failures text.old }
    ensures { AddsSome W.taken W.failures text.old text.new }
{
    if !is_shown(options, file) {
        return;
    }
    let bytes = file.beginning();
    if bytes.len() > LARGEST {
        return;
    }
    write_plain_heading(text, options, b"Trust");
    write_check_sum(text, headers.check_sum, check_sum(bytes, headers));
    write_certificates(text, bytes, headers);
    write_overlay(text, bytes, headers);
    write_rich_header(text, bytes, headers);
    write_import_hash(text, imports);
}
