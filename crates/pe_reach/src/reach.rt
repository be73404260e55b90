//! `needed`: how many first bytes of a file decide its answers; and `early_fault` and `view_fault`: a fault that its first bytes
//! decide.

ghost use Rattle.std.specs.Prelude.{◌≡◌, ◌≤◌, ◌^◌, ℕ, List, length, max, map, ◌++◌, IfSome, Some, is_none, is_some, nat_lt};
ghost use Rattle.std.specs.List.{range_with_len};
ghost use Rattle.pe_head.specs.Checked.{checked_file};
ghost use Rattle.coff_read.specs.EitherObject.{form_in};
ghost use Rattle.coff_read.specs.FormFaults as form_faults;
ghost use Rattle.coff_read.specs.ObjectFaults.{object_tests};
ghost use Rattle.pe_view.specs.Faults.{first_standing};
ghost use Rattle.pe_head.specs.Head.{coff_field, section_at};
ghost use Rattle.pe_head.specs.HeaderFaults.{head_tests};
ghost use Rattle.pe_reach.specs.Reach.{headers_end, raw_end, image_end, Decide, Refuse, early_tests, needed_of};
ghost use Rattle.pe_reach.specs.Views.{RefuseView, early_view_tests};

use pe_head::{CheckedHeaders, check_headers};
use pe_text::is_object;
use pe_view::{Fault, Place, View};

/// The most bytes that a file may have.
pub(crate) const MOST: u64 = 1 << 32;

/// How many bytes the fixed fields and 16 data directories of PE32+ take, which are more than those of PE32.
const OPTIONAL: u64 = 240;

/// Where the MS-DOS header, the optional header with all directories, and the section table end.
pub(crate) fn headers_end(headers: CheckedHeaders) -> u64
    ensures { result ≡ headers_end (checked_file headers.entry) }
{
    let optional = u64::from(headers.pe_offset()) + 24;
    let table = optional + u64::from(headers.size_of_optional_header());
    let count = u64::from(headers.number_of_sections());
    (optional + OPTIONAL).max(64).max(table + 40 * count)
}

/// The greater of an offset and the end of the sections' raw data.
fn raw_end(headers: CheckedHeaders, least: u64) -> u64
    ensures { let file = checked_file headers.entry in
        result ≡ max least (raw_end (map (section_at file) (range_with_len 0 (coff_field file 2 2)))) }
{
    let mut end = least;
    for index in 0..headers.number_of_sections() {
        let section = headers.section(index);
        let rawlen = section.rawlen();
        if rawlen > 0 {
            end = end.max(u64::from(section.pointer_to_raw_data) + u64::from(rawlen));
        }
    }
    end
}

/// The end of the headers of a file that begins with these bytes, and the end of all bytes that its headers name. `None` if they
/// have one of faults 1 to 12.
fn ends(begin: &[u8]) -> Option<(u64, u64)>
    ensures exact { is_some result ≡ is_none (first_standing (head_tests 0 begin.now)) }
    ensures ends { IfSome result (λ ends. (ends.0 ≡ headers_end begin.now) × (ends.1 ≡ image_end begin.now)) }
{
    let headers = check_headers(View::new(begin), 0).ok()?;
    let headers_end = headers_end(headers);
    let least = headers_end.max(u64::from(headers.size_of_headers()));
    Some((headers_end, raw_end(headers, least)))
}

/// How many first bytes of a file of `len` bytes decide its answers. Its headers say so, which are read from `begin`, its first
/// bytes. `None` exactly if these do not hold all headers, the headers have one of faults 1 to 12, or the file is shorter than they
/// say, or larger than any file may be.
pub fn needed(begin: &[u8], len: u64) -> Option<u64>
    ensures exact { result ≡ needed_of begin.now len }
    ensures decides { IfSome result (λ end. (end ≤ len) × (len ≤ 2 ^ 32)
        × ((more : List ℕ) → end ≤ length (begin.now ++ more) → length (begin.now ++ more) ≤ len → Decide len (begin.now ++ more))) }
{
    let (headers_end, end) = ends(begin)?;
    if headers_end > begin.len() as u64 || end > len || len > MOST {
        return None;
    }
    Some(end)
}

/// The fault of an image's file of `len` bytes, if that is more than a file may have: 1.
pub fn size_fault(len: u64) -> Option<Fault>
    ensures exact { is_some result ≡ nat_lt (2 ^ 32) len }
    ensures fault { IfSome result (λ fault. (file : List ℕ) → length file ≡ len → first_standing (head_tests 0 file) ≡ Some fault) }
{
    if len <= MOST {
        return None;
    }
    Some(Fault {
        number: 1,
        image: 0,
        place: Place::File(MOST),
    })
}

/// The fault of an object's file of `len` bytes, if that is more than a file may have: 61.
pub fn object_size_fault(len: u64) -> Option<Fault>
    ensures exact { is_some result ≡ nat_lt (2 ^ 32) len }
    ensures fault { IfSome result (λ fault. (file : List ℕ) → length file ≡ len → first_standing (object_tests file) ≡ Some fault) }
    ensures either { IfSome result (λ fault. (file : List ℕ) → length file ≡ len → first_standing (form_faults.object_tests (form_in file) file) ≡ Some fault) }
{
    if len <= MOST {
        return None;
    }
    Some(Fault {
        number: 61,
        image: 0,
        place: Place::File(len),
    })
}

/// The number that a file begins with if its first bytes are `MZ`.
const MZ: u16 = 0x5a4d;

/// The fault of each file of `len` bytes that begins with these: 1 if it is larger than any file may be, 3 if it has 64 bytes or more
/// and these are two or more, but not `MZ` first ("PE Format", MS-DOS Stub). `None` exactly if it is neither of these, which does
/// not mean that the file has no fault.
pub fn early_fault(begin: &[u8], len: u64) -> Option<Fault>
    ensures exact { result ≡ first_standing (early_tests begin.now len) }
    ensures refuses { IfSome result (λ fault. Refuse len begin.now fault) }
{
    if len > MOST {
        return size_fault(len);
    }
    match View::new(begin).u16_at(0) {
        Some(number) if number != MZ && len >= 64 => Some(Fault {
            number: 3,
            image: 0,
            place: Place::File(0),
        }),
        _ => None,
    }
}

/// How many first bytes say whether a file is checked as an object.
const KIND_BYTES: usize = 28;

/// The fault of each file of `len` bytes that begins with these, which is checked as views check it: that of [`object_size_fault`]
/// if it begins like an object, and otherwise that of [`early_fault`]. `None` exactly if these are fewer than 28 bytes, or there is no
/// such fault, which does not mean that the file has none.
pub fn view_fault(begin: &[u8], len: u64) -> Option<Fault>
    ensures exact { result ≡ first_standing (early_view_tests begin.now len) }
    ensures refuses { IfSome result (λ fault. RefuseView len begin.now fault) }
{
    if begin.len() < KIND_BYTES {
        return None;
    }
    if is_object(begin) {
        return object_size_fault(len);
    }
    early_fault(begin, len)
}
