//! The names of modules and symbols as an import hash takes them in.

ghost use Rattle.std.specs.Prelude.{◌≡◌, ◌++◌, ◌≤◌, List, ℕ, length, take};
ghost use Rattle.std.specs.List.{list_all};
ghost use Rattle.md5.specs.Md5.{Holds};
ghost use Rattle.pe_tables.specs.Key.{key_view};
ghost use Rattle.pe_imphash.specs.ImportText.{lower, module_text, has_extension, stem, name_text, ordinal_text, symbol_text};
ghost use Rattle.pe_imphash.specs.Characters.{is_file_character, is_symbol_character};

use crate::ordinal::ordinal_name;
use arrayvec::ArrayVec;
use itoa::Buffer;
use md5::{Digest, Md5};
use pe_tables::Key;

/// How many bytes of a name are taken in.
const MOST_NAME_BYTES: usize = 512;

/// A name as it is taken in.
pub(crate) type Name = ArrayVec<u8, 512>;

/// Whether the names of files have a character, or those of folders before them.
fn is_file_character(character: u8) -> bool
    ensures { result ≡ is_file_character character }
{
    character.is_ascii_alphanumeric() || b"!#$%&'()-@^_`{}~+,.;=[]\\/".contains(&character)
}

/// Whether the names of symbols have a character.
fn is_symbol_character(character: u8) -> bool
    ensures { result ≡ is_symbol_character character }
{
    character.is_ascii_alphanumeric() || b"._?@$()<>".contains(&character)
}

/// Whether a module may have this name.
fn is_file_name(name: &[u8]) -> bool
    ensures { result ≡ list_all is_file_character name.now }
{
    name.iter().all(|character| is_file_character(*character))
}

/// Whether a symbol may have this name.
fn is_symbol_name(name: &[u8]) -> bool
    ensures { result ≡ list_all is_symbol_character name.now }
{
    name.iter().all(|character| is_symbol_character(*character))
}

/// The bytes of a name that are taken in.
fn beginning(name: &[u8]) -> &[u8]
    ensures value { result.now ≡ take 512 name.now }
    ensures short { length result.now ≤ 512 }
{
    &name[..name.len().min(MOST_NAME_BYTES)]
}

/// What is taken in of a name, in lower case.
fn lowered(name: &[u8]) -> Name
    ensures value { result.items ≡ lower name.now }
    ensures short { length result.items ≤ 512 }
{
    let mut lower = ArrayVec::new();
    lower.try_extend_from_slice(beginning(name)).unwrap();
    lower.as_mut_slice().make_ascii_lowercase();
    lower
}

/// The name of a module as it is taken in, with its extension.
pub(crate) fn known_module(name: &[u8]) -> Name
    ensures value { result.items ≡ module_text name.now }
    ensures short { length result.items ≤ 512 }
{
    if is_file_name(beginning(name)) {
        return lowered(name);
    }
    lowered(b"*invalid*")
}

/// The name of a symbol as it is taken in.
fn known_symbol(name: &[u8]) -> Name
    ensures value { result.items ≡ name_text name.now }
    ensures short { length result.items ≤ 512 }
{
    if is_symbol_name(beginning(name)) {
        return lowered(name);
    }
    lowered(b"*invalid*")
}

/// Whether a name in lower case ends with the extension of a library, a control or a driver.
fn has_extension(name: &[u8]) -> bool
    ensures { result ≡ has_extension name.now }
{
    let extension = &name[name.len().saturating_sub(4)..];
    extension == b".dll".as_slice()
        || extension == b".ocx".as_slice()
        || extension == b".sys".as_slice()
}

/// A name in lower case without the extension of a library, a control or a driver.
pub(crate) fn without_extension(name: &[u8]) -> &[u8]
    ensures value { result.now ≡ stem name.now }
    ensures short { length result.now ≤ length name.now }
{
    if has_extension(name) {
        return &name[..name.len().saturating_sub(4)];
    }
    name
}

/// Takes the name of a symbol in, and returns how many bytes that is.
fn update_name(hasher: &mut Md5, name: &[u8]) -> usize
    ensures text { (text : List ℕ) → Holds hasher.old text → Holds hasher.new (text ++ name_text name.now) }
    ensures count { result ≡ length (name_text name.now) }
    ensures few { result ≤ 512 }
{
    let known = known_symbol(name);
    hasher.update(known.as_slice());
    known.len()
}

/// Takes an ordinal of a module in, by its name if it has one, and returns how many bytes that is.
fn update_ordinal(hasher: &mut Md5, module: &[u8], ordinal: u16) -> usize
    ensures text { (text : List ℕ) → Holds hasher.old text → Holds hasher.new (text ++ ordinal_text «module».now ordinal) }
    ensures count { result ≡ length (ordinal_text «module».now ordinal) }
    ensures few { result ≤ 512 }
{
    if let Some(name) = ordinal_name(module, ordinal) {
        let known = lowered(name.as_bytes());
        hasher.update(known.as_slice());
        return known.len();
    }
    let mut buffer = Buffer::new();
    let digits = buffer.format(ordinal).as_bytes();
    hasher.update(b"ord");
    hasher.update(digits);
    3 + digits.len()
}

/// Takes the symbol of an import from a module in, and returns how many bytes that is.
pub(crate) fn update_symbol(hasher: &mut Md5, module: &[u8], key: &Key) -> usize
    ensures text { (text : List ℕ) → Holds hasher.old text → Holds hasher.new (text ++ symbol_text «module».now (key_view key.now)) }
    ensures count { result ≡ length (symbol_text «module».now (key_view key.now)) }
    ensures few { result ≤ 512 }
{
    match *key {
        Key::Name(name) => update_name(hasher, name),
        Key::Ordinal(ordinal) => update_ordinal(hasher, module, ordinal),
    }
}
