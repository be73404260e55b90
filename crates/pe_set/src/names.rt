//! Faults 41 and 42: too many entries, and names that match.

ghost use Rattle.std.specs.Prelude.{◌≡◌, ◌≢◌, Err};
ghost use Rattle.std.specs.List.{list_any};
ghost use Rattle.pe_set.specs.Set.{same_name};
ghost use Rattle.pe_set.specs.SetView.{entries_of};
ghost use Rattle.pe_set.specs.SetFaults.{ClassAnswers, names_tests};

use crate::entry::SetEntry;
use crate::error::{MapError, fault};
use pe_view::Place;

/// The most images of a set.
const IMAGE_LIMIT: usize = 256;

/// Whether two names of modules match, without regard to the case of ASCII letters.
fn is_same_name(one: &[u8], other: &[u8]) -> bool
    ensures { result ≡ same_name one.now other.now }
{
    one.eq_ignore_ascii_case(other)
}

/// Whether one of these entries has the name.
fn has_name(entries: &[SetEntry], name: &[u8]) -> bool
    ensures { result ≡ list_any (λ entry. same_name name.now entry.name) (entries_of entries.now) }
{
    for entry in entries {
        if is_same_name(name, entry.name) {
            return true;
        }
    }
    false
}

/// Tests faults 41 and 42: an entry too many, and an entry whose name matches that of an earlier one. Each of at most 256 names
/// is compared with those before it, and nothing is allocated.
pub(crate) fn check_names(set: &[SetEntry]) -> Result<(), MapError>
    ensures exact { ClassAnswers (names_tests (entries_of set.now)) (λ _. Unit {0}) result }
    ensures no_memory { result ≢ Err MapError.Memory }
{
    for (index, entry) in set.iter().enumerate() {
        if index == IMAGE_LIMIT {
            return Err(fault(41, 256, Place::Item(256)));
        }
        if has_name(&set[..index], entry.name) {
            return Err(fault(42, index as u16, Place::Item(index as u32)));
        }
    }
    Ok(())
}
