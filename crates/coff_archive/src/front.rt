//! What stands at an archive's front: its signature, and the members that the archive keeps for itself.

ghost use Rattle.std.specs.Prelude.{◌≡◌, ◌+◌, ◌^◌, ◌<◌, ◌≤◌, IfSome, length, option_map};
ghost use Rattle.std.specs.Option.{ForSome};
ghost use Rattle.pe_view.specs.View.{bytes_of, size_of};
ghost use Rattle.coff_archive.specs.Front.{special_at, behind};
ghost use Rattle.coff_archive.specs.Members.{thinness};
ghost use Rattle.coff_archive.specs.MemberView.{member_view};

use crate::header::{even_from, member_at};
use crate::member::{HEADER_LEN, Member};
use pe_view::View;

/// How many bytes the signature has.
pub(crate) const SIGNATURE_LEN: u64 = 8;

/// Whether a file's archive is a thin one; `None` where the file is no archive.
pub(crate) fn thinness(file: View) -> Option<bool>
    ensures value { result ≡ thinness (bytes_of file.entry) }
    ensures long { IfSome result (λ _. 8 ≤ size_of file.entry) }
    ensures small { size_of file.entry < 2 ^ 64 }
{
    if file.len() < SIGNATURE_LEN {
        return None;
    }
    let signature = file.slice(0, SIGNATURE_LEN).unwrap();
    if signature == b"!<arch>\n".as_slice() {
        return Some(false);
    }
    if signature == b"!<thin>\n".as_slice() {
        return Some(true);
    }
    None
}

/// The member at a place, if it has this name field.
#[tactic(auto, unfolding(crate::specs::Front::special_at))]
pub(crate) fn special_at<'a>(
    file: View<'a>,
    thin: bool,
    at: u64,
    field: &[u8],
) -> Option<Member<'a>>
    ensures value { option_map member_view result ≡ special_at thin (bytes_of file.entry) at field.now }
    ensures inside { IfSome result (λ m. m.offset + 60 + length m.bytes.now ≤ size_of file.entry) }
{
    let Ok(member) = member_at(file, thin, at) else {
        return None;
    };
    if member.field != field {
        return None;
    }
    Some(member)
}

/// The place behind a member, or the place where it is not.
#[tactic(auto, unfolding(crate::specs::Front::behind))]
pub(crate) fn behind(file: View, at: u64, member: Option<Member>) -> u64
    requires at { at ≤ size_of file }
    requires inside { ForSome member (λ m. m.offset + 60 + length m.bytes.now ≤ size_of file) }
    ensures value { result ≡ behind (bytes_of file.entry) at (option_map member_view member.entry) }
    ensures inside { result ≤ size_of file.entry }
{
    match member {
        Some(member) => even_from(file, member.offset + HEADER_LEN + member.bytes.len() as u64),
        None => at,
    }
}
