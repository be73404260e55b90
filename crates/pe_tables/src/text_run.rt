//! Strings in the order of their bytes, each with a value.

ghost use Rattle.std.specs.Prelude.{◌≡◌, ◌↔◌, All, IsTrue, IfSome, is_some};
ghost use Rattle.pe_tables.specs.TextMap.{IsBefore, IsPlace, TextsAscend};

/// Whether all strings of a run come before a string: the last one is compared.
pub(crate) fn all_before<X>(run: &[(&[u8], X)], text: &[u8]) -> bool
    requires { TextsAscend run.now }
    ensures { IsTrue result ↔ All (λ entry. IsBefore entry.0.now text.now) run.now }
{
    match run.last() {
        Some(last) => last.0.cmp(text).is_lt(),
        None => true,
    }
}

/// The index of a string in a run, if it is there, by a binary search.
pub(crate) fn position<X>(run: &[(&[u8], X)], text: &[u8]) -> Option<usize>
    requires { TextsAscend run.now }
    ensures { IsPlace text.now run.now result }
{
    match run.binary_search_by_key(&text, |entry| entry.0) {
        Ok(index) => Some(index),
        Err(_) => None,
    }
}
