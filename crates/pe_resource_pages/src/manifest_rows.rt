//! The manifest of an image, line by line.

ghost use Rattle.std.specs.Prelude.{◌<◌, ◌≤◌, length};
ghost use Rattle.pe_text.specs.TextWriter.{IsReady};
ghost use Rattle.pe_page.specs.Page.{AddsSome};

use pe_page::{is_safe_text, write_plain_heading};
use pe_text::{ShowOptions, Sink, TextWriter};

/// What may begin a text in UTF-8 to say that it is one.
const BYTE_ORDER_MARK: &[u8] = b"\xef\xbb\xbf";

/// Whether all of a line but its tabs may be written to a terminal.
fn is_safe_line(line: &[u8]) -> bool {
    line.split(|byte| *byte == b'\t')
        .all(|piece| is_safe_text(piece))
}

/// Adds a line: as it stands if it may be written to a terminal, otherwise in quotes.
fn write_safely<W: Sink>(text: &mut TextWriter<W>, line: &[u8])
    requires { IsReady W.failures text.old }
    ensures { AddsSome W.taken W.failures text.old text.new }
{
    if is_safe_line(line) {
        text.text(line);
    } else {
        text.quoted(line);
    }
}

/// A line without what ends it.
fn body_of(line: &[u8]) -> &[u8] {
    let line = line.strip_suffix(b"\n").unwrap_or(line);
    line.strip_suffix(b"\r").unwrap_or(line)
}

/// Adds the row of a line.
fn write_line<W: Sink>(text: &mut TextWriter<W>, line: &[u8])
    requires { IsReady W.failures text.old }
    ensures { AddsSome W.taken W.failures text.old text.new }
{
    text.text(b"  ");
    write_safely(text, body_of(line));
    text.text(b"\n");
}

/// How many bytes the first line of a text has, with what ends it.
fn line_len(text: &[u8]) -> usize
    requires { 0 < length text.now }
    ensures some { 0 < result }
    ensures within { result ≤ length text.now }
{
    match text.iter().position(|byte| *byte == b'\n') {
        Some(index) => index + 1,
        None => text.len(),
    }
}

/// Adds a row for each line.
fn write_lines<W: Sink>(text: &mut TextWriter<W>, lines: &[u8])
    requires { IsReady W.failures text.old }
    ensures { AddsSome W.taken W.failures text.old text.new }
{
    let mut at = 0;
    while at < lines.len() {
        if text.has_failed() {
            return;
        }
        let len = line_len(&lines[at..]);
        write_line(text, &lines[at..at + len]);
        at += len;
    }
}

/// Adds the manifest of an image as it stands.
pub(crate) fn write_manifest<W: Sink>(
    text: &mut TextWriter<W>,
    options: &ShowOptions,
    manifest: Option<&[u8]>,
)
    requires { IsReady W.failures text.old }
    ensures { AddsSome W.taken W.failures text.old text.new }
{
    let Some(manifest) = manifest else {
        return;
    };
    write_plain_heading(text, options, b"Manifest");
    write_lines(
        text,
        manifest.strip_prefix(BYTE_ORDER_MARK).unwrap_or(manifest),
    );
}
