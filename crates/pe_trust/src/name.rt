//! `common_name`: the common name in a name.

ghost use Rattle.std.specs.Prelude.{◌≡◌, option_map};
ghost use Rattle.pe_trust.specs.Names.{behind_set, common_name_in, common_name_of};

use crate::der::first_element;
use crate::signature::{behind, behind_identifier, content_under, tag};

/// 2.5.4.3, commonName.
const COMMON_NAME: [u8; 3] = [0x55, 0x04, 0x03];

/// The text of a set's first attribute, if that is a common name.
fn common_name_in(set: &[u8]) -> Option<&[u8]>
    ensures { option_map (λ text. text.now) result ≡ common_name_in set.now }
{
    let attribute = content_under(tag::SEQUENCE, set)?;
    let value = behind_identifier(&COMMON_NAME, attribute)?;
    let text = first_element(value)?;
    Some(text.content)
}

/// What is behind the first set.
fn behind_set(sets: &[u8]) -> &[u8]
    ensures { result.now ≡ behind_set sets.now }
{
    behind(tag::SET, sets).unwrap_or(&[])
}

/// The common name in the name of an issuer or a subject, given its content as [`Signer`](crate::Signer) has it: that of the first set
/// whose first attribute is one, as the bytes of its text; `None` if it has none.
pub fn common_name(name: &[u8]) -> Option<&[u8]>
    ensures { option_map (λ text. text.now) result ≡ common_name_of name.now }
{
    let mut sets = name;
    while let Some(set) = content_under(tag::SET, sets) {
        if let Some(text) = common_name_in(set) {
            return Some(text);
        }
        sets = behind_set(sets);
    }
    None
}
