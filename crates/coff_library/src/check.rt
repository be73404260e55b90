//! Faults 91 and 92: too many members, and names that would be read back as others.

ghost use Rattle.std.specs.Prelude.{◌≡◌, ◌≤◌, ◌==◌, ◌||◌, map, length, ⊤};
ghost use Rattle.std.specs.List.{list_any};
ghost use Rattle.pe_view.specs.Faults.{Answers};
ghost use Rattle.coff_library.specs.Members.{member_view};
ghost use Rattle.coff_library.specs.WriteFaults.{is_bad_name, name_tests, member_tests};

use crate::new_member::NewMember;
use pe_view::{Fault, Place};

/// The greatest number of members: an index of the second linker member has 16 bits.
pub(crate) const MOST_MEMBERS: usize = 65_535;

/// A fault of the member of an index.
pub(crate) fn member_fault(number: u16, index: u32) -> Fault
    ensures { result ≡ record { number = number; image = 0; place = Place.Item index } }
{
    Fault {
        number,
        image: 0,
        place: Place::Item(index),
    }
}

/// Whether a name has a byte that ends a text: a zero byte or a line end.
fn has_text_end(name: &[u8]) -> bool
    ensures { result ≡ list_any (λ byte. byte == 0 || byte == 10) name.now }
{
    name.iter().any(|byte| *byte == 0 || *byte == b'\n')
}

/// Whether a name would be read back as another.
fn is_bad_name(name: &[u8]) -> bool
    ensures { result ≡ is_bad_name name.now }
{
    if name.is_empty() || has_text_end(name) {
        return true;
    }
    name[name.len() - 1] == b'/'
}

/// Tests fault 92 of all members.
fn check_names(members: &[NewMember]) -> Result<(), Fault>
    requires { length members.now ≤ 65535 }
    ensures { Answers (name_tests 0 (map member_view members.now)) (λ _. ⊤) result }
{
    let mut index = 0;
    for member in members {
        if is_bad_name(member.name) {
            return Err(member_fault(92, index));
        }
        index += 1;
    }
    Ok(())
}

/// Tests faults 91 and 92.
pub(crate) fn check_members(members: &[NewMember]) -> Result<(), Fault>
    ensures { Answers (member_tests (map member_view members.now)) (λ _. length members.now ≤ 65535) result }
{
    if members.len() > MOST_MEMBERS {
        return Err(member_fault(91, MOST_MEMBERS as u32));
    }
    check_names(members)
}
