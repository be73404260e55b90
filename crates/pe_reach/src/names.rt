//! `names_end`: how many first bytes of an image's file decide the names of its sections.

ghost use Rattle.std.specs.Prelude.{◌≡◌, ◌≤◌, ◌<◌, ◌^◌, ◌+◌, ◌*◌, ℕ, List, false, length};
ghost use Rattle.std.specs.List.{list_any};
ghost use Rattle.coff_read.specs.ImageNames.{strings_start};
ghost use Rattle.coff_read.specs.Names.{begins_with_slash};
ghost use Rattle.pe_reach.specs.Reach.{Begins};
ghost use Rattle.pe_reach.specs.Views.{names_under};

use pe_head::{Headers, SectionHeader};
use pe_view::View;

/// How many bytes a symbol table record takes.
const SYMBOL_LEN: u64 = 18;

/// Whether the field of a section's name begins as one that leads to the string table does.
fn begins_with_slash(section: &SectionHeader) -> bool
    ensures { result ≡ begins_with_slash section.now.name }
{
    section.name.first() == Some(&b'/')
}

/// Whether a section's name may be in the string table.
pub(crate) fn has_long_name(sections: &[SectionHeader]) -> bool
    ensures { result ≡ list_any (λ section. begins_with_slash section.name) sections.now }
{
    sections.iter().any(begins_with_slash)
}

/// Whether there are symbols, or sections whose names may be long, so that names may be in the string table.
fn has_names(headers: &Headers) -> bool
    ensures { result ≡ false → list_any (λ section. begins_with_slash section.name) headers.now.sections.items ≡ false }
{
    headers.number_of_symbols != 0 || has_long_name(headers.sections.as_slice())
}

/// Where the string table of an image with these headers begins ("PE Format", COFF String Table).
pub(crate) fn strings_start(headers: &Headers) -> u64
    ensures value { result ≡ strings_start headers.now }
    ensures small { result < 2 ^ 37 }
{
    u64::from(headers.pointer_to_symbol_table) + SYMBOL_LEN * u64::from(headers.number_of_symbols)
}

/// How many first bytes of a file of `len` bytes decide the names of its sections, and of its symbols if it has any, as far as `begin`,
/// its first bytes, say it: none if no name is long and there are no symbols, or if there is no string table in the file; those up to the size of the string table, if that is not among
/// `begin`; otherwise those up to the table's end.
pub(crate) fn names_end(begin: &[u8], headers: &Headers, len: u64) -> u64
    requires { length begin.now ≤ len }
    ensures within { result ≤ len }
    ensures enough { result ≤ length begin.now
        → (file : List ℕ) → Begins begin.now len file → names_under file headers.now ≡ names_under begin.now headers.now }
{
    if headers.pointer_to_symbol_table == 0 || !has_names(headers) {
        return 0;
    }
    let start = strings_start(headers);
    if start + 4 > len {
        return 0;
    }
    let Some(size) = View::new(begin).u32_at(start) else {
        return start + 4;
    };
    let end = start + u64::from(size);
    if end > len { 0 } else { end }
}
