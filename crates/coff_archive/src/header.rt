//! The header of a member, and findings 301 to 303.

ghost use Rattle.std.specs.Prelude.{◌≡◌, ◌+◌, ◌%◌, ◌≤◌, ◌<◌, ◌^◌, length, min, not, nat_lt, IsTrue, IfSome, is_none};
ghost use Rattle.pe_view.specs.View.{bytes_of, size_of};
ghost use Rattle.pe_view.specs.Faults.{Answers};
ghost use Rattle.coff_archive.specs.Members.{is_special, held, is_no_header, header_number, size_field, name_field, header_tests, member_of, member_in, even_from};
ghost use Rattle.coff_archive.specs.MemberView.{member_view};

use crate::bytes::{decimal, is_digit, number_in};
use crate::member::{HEADER_LEN, Member, NAME_FIELD_LEN};
use pe_view::{Fault, Place, View};

/// A finding of an archive at a file offset.
pub(crate) fn file_fault(number: u16, offset: u64) -> Fault
    ensures { result ≡ record { number = number; image = 0; place = Place.File offset } }
{
    Fault {
        number,
        image: 0,
        place: Place::File(offset),
    }
}

/// Whether a name field is that of a member that the archive keeps for itself.
pub(crate) fn is_special(field: &[u8]) -> bool
    requires { length field.now ≡ 16 }
    ensures { result ≡ is_special field.now }
{
    field[0] == b'/' && !is_digit(10, field[1])
}

/// How many bytes the file holds of a member.
fn held(thin: bool, field: &[u8], size: u64) -> u64
    requires { length field.now ≡ 16 }
    ensures { result ≡ held thin field.now size }
{
    if thin && !is_special(field) { 0 } else { size }
}

/// Whether a header stands at an offset: the file has its bytes, and it ends as headers do.
fn has_header(file: View, at: u64) -> bool
    ensures value { result ≡ not (is_no_header (bytes_of file.entry) at) }
    ensures inside { IsTrue result → at + 60 ≤ size_of file.entry }
{
    if file.slice(at, HEADER_LEN).is_none() {
        return false;
    }
    file.u16_at(at + 58) == Some(0x0a60)
}

/// The size field of the header at an offset.
fn size_at(file: View, at: u64) -> Option<u64>
    requires { at + 60 ≤ size_of file }
    ensures { result ≡ size_field (bytes_of file.entry) at }
{
    decimal(file.slice(at + 48, 10).unwrap())
}

/// The number that a field of the header at an offset holds in digits of a radix; `None` where the file has no whole header there.
pub(crate) fn header_number(file: View, radix: u8, at: u64, place: u64, len: u64) -> Option<u64>
    requires radix { 1 ≤ radix }
    requires ten { radix ≤ 10 }
    requires inside { place + len ≤ 60 }
    requires short { len ≤ 16 }
    ensures { result ≡ header_number radix (bytes_of file.entry) at place len }
{
    if file.len() < HEADER_LEN || at > file.len() - HEADER_LEN {
        return None;
    }
    number_in(radix, file.slice(at + place, len).unwrap())
}

/// The name field of the header at an offset.
fn field_at<'a>(file: View<'a>, at: u64) -> &'a [u8]
    requires { at + 60 ≤ size_of file }
    ensures value { result.now ≡ name_field (bytes_of file.entry) at }
    ensures len { length result.now ≡ 16 }
{
    file.slice(at, NAME_FIELD_LEN).unwrap()
}

/// The member of a size whose header stands at an offset, unless its bytes pass the file.
fn body_at<'a>(file: View<'a>, thin: bool, at: u64, size: u64) -> Option<Member<'a>>
    requires inside { at + 60 ≤ size_of file }
    ensures passes { is_none result ≡ nat_lt (size_of file.entry) (at + 60 + held thin (name_field (bytes_of file.entry) at) size) }
    ensures value { IfSome result (λ m. member_view m ≡ member_of thin (bytes_of file.entry) at size) }
{
    let field = field_at(file, at);
    let bytes = file.slice(at + HEADER_LEN, held(thin, field, size))?;
    Some(Member {
        offset: at,
        field,
        size,
        bytes,
    })
}

/// The member whose header stands at an offset, unless one of findings 301 to 303 stands of it.
pub(crate) fn member_at<'a>(file: View<'a>, thin: bool, at: u64) -> Result<Member<'a>, Fault>
    ensures { Answers (header_tests thin (bytes_of file.entry) at) (λ m. member_view m ≡ member_in thin (bytes_of file.entry) at) result }
{
    if !has_header(file, at) {
        return Err(file_fault(301, at));
    }
    let Some(size) = size_at(file, at) else {
        return Err(file_fault(302, at));
    };
    let Some(member) = body_at(file, thin, at, size) else {
        return Err(file_fault(303, at));
    };
    Ok(member)
}

/// The first even offset from one on, or the end of the file.
pub(crate) fn even_from(file: View, end: u64) -> u64
    requires { end ≤ size_of file }
    ensures value { result ≡ even_from (bytes_of file.entry) end }
    ensures inside { result ≤ size_of file.entry }
{
    if end % 2 == 0 || end == file.len() {
        end
    } else {
        end + 1
    }
}
