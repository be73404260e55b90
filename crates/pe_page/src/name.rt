//! Names as a page shows them: of its file, and of what the file holds.

ghost use Rattle.std.specs.Prelude.{◌≡◌, ◌<◌, ◌≤◌, ◌+◌, ◌*◌, ◌&&◌, length, take, flat_map, IfSome, IfNone, Some, true, false};
ghost use Rattle.std.specs.Fmt.{WritesOnOk};
ghost use Rattle.std.specs.List.{list_all};
ghost use Rattle.std.specs.Str.{chars};
ghost use Rattle.pe_text.specs.Text.{glyph, is_printable, escaped, quoted};
ghost use Rattle.pe_text.specs.TextWriter.{IsReady, Adds};
ghost use Rattle.pe_page.specs.Name.{is_safe, is_safe_text, begins_plain, is_plain, whole_text, whole_columns, cut_mark, cut_text, name_text, section_text, section_columns};

use pe_text::{Sink, TextWriter, is_printable};
use std::fmt::{self, Display};
use std::str;

/// The most bytes of a name that are shown; compilers seldom write longer ones.
const NAME_LIMIT: usize = 4096;

/// The most bytes of a section's name that are shown.
const SECTION_LIMIT: usize = 40;

/// The most bytes of the name of an imported module that are shown; no file name is longer.
const MODULE_LIMIT: usize = 255;

/// The beginning of a name of which at most `limit` bytes are shown.
fn cut(name: &[u8], limit: usize) -> &[u8]
    ensures { result.now ≡ take limit name.now }
{
    if name.len() <= limit {
        return name;
    }
    &name[..limit]
}

/// What is shown behind a name of which at most `limit` bytes are shown: a mark if it is cut.
fn cut_mark(name: &[u8], limit: usize) -> &'static [u8]
    ensures { result.now ≡ cut_mark limit name.now }
{
    if name.len() > limit { b".." } else { b"" }
}

/// The beginning of a name that is long enough to show whether it is a section's or a module's that has to be cut.
fn beginning(name: &[u8], limit: usize) -> &[u8]
    ensures { result.now ≡ take (limit + 1) name.now }
{
    if name.len() <= limit {
        return name;
    }
    &name[..=limit]
}

/// As much of a section's name as decides how it is shown.
pub(crate) fn section_beginning(name: &[u8]) -> &[u8]
    ensures value { result.now ≡ take 41 name.now }
    ensures shown { section_text result.now ≡ section_text name.now }
{
    beginning(name, SECTION_LIMIT)
}

/// As much of a module's name as decides how it is shown.
pub fn module_beginning(name: &[u8]) -> &[u8]
    ensures value { result.now ≡ take 256 name.now }
    ensures shown { cut_text 255 result.now ≡ cut_text 255 name.now }
{
    beginning(name, MODULE_LIMIT)
}

/// Whether a character may be written to a terminal: not a control character, nor one that changes the direction of the text
/// around it.
fn is_safe(character: char) -> bool
    ensures { result ≡ is_safe character }
{
    !matches!(character,
        '\0'..='\x1f' | '\x7f'..='\u{9f}' | '\u{61c}' | '\u{200e}' | '\u{200f}' | '\u{2028}'..='\u{202e}' | '\u{2066}'..='\u{2069}' | '\u{feff}')
}

/// Whether all characters of a string may be written to a terminal.
fn are_safe(text: &str) -> bool
    ensures { result ≡ list_all is_safe (chars text.now) }
{
    text.chars().all(|character| is_safe(character))
}

/// Whether a text is UTF-8, of characters that may be written to a terminal: no control character, and none that changes the
/// direction of the text around it.
pub fn is_safe_text(text: &[u8]) -> bool
    ensures { result ≡ is_safe_text text.now }
{
    match str::from_utf8(text) {
        Ok(text) => are_safe(text),
        Err(_) => false,
    }
}

/// Whether a name is not empty and does not begin with a quote.
fn begins_plain(name: &[u8]) -> bool
    ensures { result ≡ begins_plain name.now }
{
    match name.first() {
        Some(byte) => *byte != b'"',
        None => false,
    }
}

/// Whether a name is plain and has one column per byte, as nearly all do.
fn is_bare(name: &[u8]) -> bool
    ensures { result ≡ (begins_plain name.now && list_all is_printable name.now) }
{
    begins_plain(name) && is_printable(name)
}

/// The string of a name that is shown as it is: UTF-8, of characters that may be written to a terminal, not empty, and not
/// beginning with a quote.
fn plain_text(name: &[u8]) -> Option<&str>
    ensures some { IfSome result (λ text. (text.now ≡ name.now) × (is_plain name.now ≡ true)) }
    ensures none { IfNone result (is_plain name.now ≡ false) }
{
    if !begins_plain(name) {
        return None;
    }
    let Ok(text) = str::from_utf8(name) else {
        return None;
    };
    if !are_safe(text) {
        return None;
    }
    Some(text)
}

/// Whether a name is shown as it is.
fn is_plain(name: &[u8]) -> bool
    ensures { result ≡ is_plain name.now }
{
    is_bare(name) || plain_text(name).is_some()
}

/// Adds a name: as it is if it is plain, otherwise in quotes, with `\x` and two digits for a byte that is not printable.
#[tactic(auto, unfolding(crate::specs::Name::whole_text))]
fn write_whole<W: Sink>(text: &mut TextWriter<W>, name: &[u8])
    requires { IsReady W.failures text.old }
    ensures { Adds W.taken W.failures text.old text.new (whole_text name.now) }
{
    if is_plain(name) {
        text.text(name);
    } else {
        text.quoted(name);
    }
}

/// Adds at most `limit` bytes of a name, and a mark if it is cut.
fn write_cut<W: Sink>(text: &mut TextWriter<W>, name: &[u8], limit: usize)
    requires { IsReady W.failures text.old }
    ensures { Adds W.taken W.failures text.old text.new (cut_text limit name.now) }
{
    write_whole(text, cut(name, limit));
    text.text(cut_mark(name, limit));
}

/// Adds a name, at most its first 4,096 bytes.
pub fn write_name<W: Sink>(text: &mut TextWriter<W>, name: &[u8])
    requires { IsReady W.failures text.old }
    ensures { Adds W.taken W.failures text.old text.new (name_text name.now) }
{
    write_cut(text, name, NAME_LIMIT);
}

/// Adds the name of a section, or a short word.
pub(crate) fn write_section_name<W: Sink>(text: &mut TextWriter<W>, name: &[u8])
    requires { IsReady W.failures text.old }
    ensures { Adds W.taken W.failures text.old text.new (section_text name.now) }
{
    write_cut(text, name, SECTION_LIMIT);
}

/// Adds the name of an imported module.
pub(crate) fn write_module_name<W: Sink>(text: &mut TextWriter<W>, name: &[u8])
    requires { IsReady W.failures text.old }
    ensures { Adds W.taken W.failures text.old text.new (cut_text 255 name.now) }
{
    write_cut(text, name, MODULE_LIMIT);
}

/// A hexadecimal digit, in lower case.
fn glyph(digit: u8) -> u8
    requires { digit < 16 }
    ensures { result ≡ glyph digit }
{
    if digit < 10 {
        b'0' + digit
    } else {
        b'a' - 10 + digit
    }
}

/// A byte of a name in quotes: itself, or `\x` and two digits. The second value is how many bytes this takes of the first.
#[tactic(auto, unfolding(pe_text::specs::Text::escaped, pe_text::specs::Text::hex))]
fn escaped(byte: u8) -> ([u8; 4], usize)
    ensures bound { result.1 ≤ 4 }
    ensures value { take result.1 result.0 ≡ escaped byte }
{
    if pe_text::is_plain(byte) {
        return ([byte, 0, 0, 0], 1);
    }
    ([b'\\', b'x', glyph(byte / 16 % 16), glyph(byte % 16)], 4)
}

/// Writes a byte of a name in quotes.
fn write_escaped_byte<W: fmt::Write>(f: &mut fmt::Formatter<W>, byte: u8) -> fmt::Result
    ensures { WritesOnOk W.write_str_gives f.old result (escaped byte) f.new }
{
    let (bytes, len) = escaped(byte);
    match str::from_utf8(&bytes[..len]) {
        Ok(text) => f.write_str(text),
        Err(_) => Err(fmt::Error),
    }
}

/// Writes what is in the quotes of a name.
fn write_escaped<W: fmt::Write>(f: &mut fmt::Formatter<W>, name: &[u8]) -> fmt::Result
    ensures { WritesOnOk W.write_str_gives f.old result (flat_map escaped name.now) f.new }
{
    for byte in name {
        write_escaped_byte(f, *byte)?;
    }
    Ok(())
}

/// Writes a name in quotes.
#[tactic(auto, unfolding(pe_text::specs::Text::quoted))]
fn write_quoted<W: fmt::Write>(f: &mut fmt::Formatter<W>, name: &[u8]) -> fmt::Result
    ensures { WritesOnOk W.write_str_gives f.old result (quoted name.now) f.new }
{
    f.write_str("\"")?;
    write_escaped(f, name)?;
    f.write_str("\"")
}

/// Writes the beginning of a name as it is if it is plain, otherwise in quotes.
fn show_beginning<W: fmt::Write>(f: &mut fmt::Formatter<W>, name: &[u8]) -> fmt::Result
    ensures { WritesOnOk W.write_str_gives f.old result (whole_text (take 4096 name.now)) f.new }
{
    let name = cut(name, NAME_LIMIT);
    match plain_text(name) {
        Some(text) => f.write_str(text),
        None => write_quoted(f, name),
    }
}

/// Writes the mark of a name that is cut.
fn show_mark<W: fmt::Write>(f: &mut fmt::Formatter<W>, name: &[u8]) -> fmt::Result
    ensures { WritesOnOk W.write_str_gives f.old result (cut_mark 4096 name.now) f.new }
{
    f.write_str(if name.len() > NAME_LIMIT { ".." } else { "" })
}

/// A name, which is displayed as a page shows it: at most its first 4,096 bytes, with `..` behind them if there are more; as they
/// are if they are UTF-8 that may be written to a terminal, not empty, and do not begin with a quote; otherwise in quotes, with `\x`
/// and two digits for each byte that is not printable ASCII, a quote or a backslash.
#[derive(Clone, Copy)]
pub struct ShownName<'a>(pub &'a [u8]);

impl Display for ShownName<'_> {
    ghost output = { λ shown. Some (name_text shown.0.now) };

    #[tactic(auto, unfolding(crate::specs::Name::name_text))]
    fn fmt<W: fmt::Write>(&self, f: &mut fmt::Formatter<W>) -> fmt::Result {
        show_beginning(f, self.0)?;
        show_mark(f, self.0)
    }
}

/// How many columns a byte takes in quotes.
fn escaped_width(byte: u8) -> usize
    ensures value { result ≡ length (escaped byte) }
    ensures bound { result ≤ 4 }
{
    if pe_text::is_plain(byte) { 1 } else { 4 }
}

/// How many columns a name takes in quotes.
fn quoted_width(name: &[u8]) -> usize
    requires { length name.now ≤ 255 }
    ensures value { result ≡ length (quoted name.now) }
    ensures bound { result ≤ 2 + 4 * length name.now }
{
    let mut width: usize = 2;
    for byte in name {
        width += escaped_width(*byte);
    }
    width
}

/// How many columns a string takes, one per character.
fn text_width(text: &str) -> usize
    ensures { result ≡ length (chars text.now) }
{
    text.chars().count()
}

/// How many columns a name takes.
fn whole_width(name: &[u8]) -> usize
    requires { length name.now ≤ 255 }
    ensures value { result ≡ whole_columns name.now }
    ensures bound { result ≤ 2 + 4 * 255 }
{
    if is_bare(name) {
        return name.len();
    }
    match plain_text(name) {
        Some(text) => text_width(text),
        None => quoted_width(name),
    }
}

/// How many columns the name of a section takes, or a short word.
pub fn section_width(name: &[u8]) -> usize
    ensures value { result ≡ section_columns name.now }
    ensures bound { result ≤ 4 + 4 * 255 }
{
    whole_width(cut(name, SECTION_LIMIT)) + cut_mark(name, SECTION_LIMIT).len()
}

/// How many columns the name of an imported module takes.
pub fn module_width(name: &[u8]) -> usize
    ensures { result ≤ 4 + 4 * 255 }
{
    whole_width(cut(name, MODULE_LIMIT)) + cut_mark(name, MODULE_LIMIT).len()
}
