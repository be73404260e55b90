//! The list of the flags of a field that are set.

ghost use Rattle.std.specs.Prelude.{◌≡◌, ◌<◌, ◌&&◌, ◌++◌, ◌∷◌, [], codes, true, is_none, option_map};
ghost use Rattle.json.specs.Print.{quoted};
ghost use Rattle.pe_head.specs.Names.{flag_names};
ghost use Rattle.pe_text.specs.TextWriter.{IsReady, Adds};
ghost use Rattle.pe_json.specs.Flags.{quoted_if, flag_at, flag_items};
ghost use Rattle.pe_json.specs.Listed.{items_text};

use crate::string::write_quoted;
use pe_head::{FlagKind, flag_name};
use pe_text::{Sink, TextWriter};

/// The name of the flag at a place, if it is set and has one.
fn flag_at(kind: FlagKind, flags: u32, place: u32) -> Option<&'static str>
    requires { place < 32 }
    ensures { option_map (λ name. name.now) result ≡ flag_at (flag_names kind) flags place }
{
    let bit = flags & 1 << place;
    if bit == 0 {
        return None;
    }
    flag_name(kind, bit)
}

/// Adds an item that is a name.
fn write_some<W: Sink>(text: &mut TextWriter<W>, first: bool, name: &str)
    requires { IsReady W.failures text.old }
    ensures { Adds W.taken W.failures text.old text.new (items_text first (quoted name.now ∷ [])) }
{
    if first {
        write_quoted(text, name.as_bytes());
    } else {
        text.text(b",");
        write_quoted(text, name.as_bytes());
    }
}

/// Adds an item that is a name, if there is one, and returns whether the next item is still the first.
fn write_item<W: Sink>(text: &mut TextWriter<W>, first: bool, name: Option<&str>) -> bool
    requires { IsReady W.failures text.old }
    ensures adds { Adds W.taken W.failures text.old text.new (items_text first (quoted_if (option_map (λ name. name.now) name.entry))) }
    ensures first { result ≡ (first && is_none name.entry) }
{
    match name {
        None => first,
        Some(name) => {
            write_some(text, first, name);
            false
        }
    }
}

/// Adds the names of the flags that are set.
fn write_items<W: Sink>(text: &mut TextWriter<W>, kind: FlagKind, flags: u32)
    requires { IsReady W.failures text.old }
    ensures { Adds W.taken W.failures text.old text.new (items_text true (flag_items (flag_names kind) flags 32)) }
{
    let mut first = true;
    for place in 0..32u32 {
        first = write_item(text, first, flag_at(kind, flags, place));
    }
}

/// Adds the list of the names of the flags that are set, after its key. Flags without a name are in the number only. The key ends
/// with the beginning of the list.
pub(crate) fn write_flags<W: Sink>(text: &mut TextWriter<W>, key: &[u8], kind: FlagKind, flags: u32)
    requires { IsReady W.failures text.old }
    ensures { Adds W.taken W.failures text.old text.new
        (key.now ++ (items_text true (flag_items (flag_names kind) flags 32) ++ codes "]")) }
{
    text.text(key);
    write_items(text, kind, flags);
    text.text(b"]");
}
