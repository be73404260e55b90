//! `import_hash`: the MD5 digest of the names of an image's imports.

ghost use Rattle.std.specs.Prelude.{◌≡◌, ◌++◌, ◌≤◌, IsTrue, List, ℕ, length, map, nat_le};
ghost use Rattle.std.specs.List.{flat_map};
ghost use Rattle.md5.specs.Md5.{Holds};
ghost use Rattle.pe_tables.specs.ImportView.{import_view};
ghost use Rattle.pe_imphash.specs.ImportText.{import_text, further_text, import_hash_within, import_hash_of};

use crate::import_name::{known_module, update_symbol, without_extension};
use md5::{Digest, Md5};
use pe_tables::Import;

/// How many bytes the text has at most of which a hash is taken. A file of 37 KB may import names of 512 MB.
const MOST_BYTES: usize = 16_777_216;

/// Takes an import in, its module, a dot, and its symbol, and returns how many bytes that is.
fn update_import(hasher: &mut Md5, import: &Import) -> usize
    ensures text { (text : List ℕ) → Holds hasher.old text → Holds hasher.new (text ++ import_text (import_view import.now)) }
    ensures count { result ≡ length (import_text (import_view import.now)) }
    ensures few { result ≤ 1025 }
{
    let module = known_module(import.module);
    let stem = without_extension(module.as_slice());
    hasher.update(stem);
    hasher.update(b".");
    stem.len() + 1 + update_symbol(hasher, module.as_slice(), &import.key)
}

/// Takes an import behind another in, and returns how many bytes that is.
fn update_further(hasher: &mut Md5, import: &Import) -> usize
    ensures text { (text : List ℕ) → Holds hasher.old text → Holds hasher.new (text ++ further_text (import_view import.now)) }
    ensures count { result ≡ length (further_text (import_view import.now)) }
{
    hasher.update(b",");
    1 + update_import(hasher, import)
}

/// Takes imports behind another in, up to the first with which they have more bytes than are left. Whether they have no more.
fn update_rest(hasher: &mut Md5, imports: &[Import], mut left: usize) -> bool
    ensures text { IsTrue result → (text : List ℕ) → Holds hasher.old text → Holds hasher.new (text ++ flat_map further_text (map import_view imports.now)) }
    ensures fits { result ≡ nat_le (length (flat_map further_text (map import_view imports.now))) left }
{
    for import in imports {
        let Some(less) = left.checked_sub(update_further(hasher, import)) else {
            return false;
        };
        left = less;
    }
    true
}

/// The digest of imports whose text has at most so many bytes.
fn import_hash_within(imports: &[Import], most: usize) -> Option<[u8; 16]>
    ensures { result ≡ import_hash_within most (map import_view imports.now) }
{
    let (first, rest) = imports.split_first()?;
    let mut hasher = Md5::new();
    let left = most.checked_sub(update_import(&mut hasher, first))?;
    if !update_rest(&mut hasher, rest, left) {
        return None;
    }
    Some(hasher.finalize())
}

/// The MD5 digest of an image's imports in the order of its import table, or `None` if it has none, or if their text has more than
/// 16 MB (16,777,216 bytes).
///
/// Each is told as `module.symbol` in lower case, with a comma between two. The module has no ending `.dll`, `.ocx` or `.sys`. An import
/// by ordinal is `ord` and the ordinal, or a name from the lists for oleaut32.dll, ws2_32.dll and wsock32.dll. Of a name the first 512
/// bytes count, and one with a character that no such name has is `*invalid*`. Linear in the number of imports up to that bound; no
/// import behind it is looked at.
pub fn import_hash(imports: &[Import]) -> Option<[u8; 16]>
    ensures { result ≡ import_hash_of (map import_view imports.now) }
{
    import_hash_within(imports, MOST_BYTES)
}
