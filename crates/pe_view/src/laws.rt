//! Laws about the definitions: each function has an empty body, and its contract is the law.

ghost use Rattle.std.specs.Prelude.{◌≡◌, ℕ, ◌+◌, ◌<◌, ◌≤◌, List, length, drop, None, Some, ◌↔◌};
ghost use Rattle.byteorder.specs.Endian.{little_number};
ghost use Rattle.pe_view.specs.declared.fault.Fault.{Fault};
ghost use Rattle.pe_view.specs.Number.{num, byte_of, digit, part};
ghost use Rattle.pe_view.specs.Text.{text_between};
ghost use Rattle.pe_view.specs.Faults.{Test, first_standing, IsFirstStanding, NoneStands};

/// The number at an offset is byteorder's little-endian number of the bytes there.
pub fn num_is_little_endian()
    ensures { (file : List ℕ) (offset width : ℕ) → num (byte_of file) offset width ≡ little_number width (drop offset file) }
{}

/// The digits of the number at an offset are the bytes there.
pub fn digits_are_bytes()
    ensures { (byte : ℕ → ℕ) (place width k : ℕ) → ((i : ℕ) → byte i < 256) → k < width → digit (num byte place width) k ≡ byte (place + k) }
{}

/// The string between two offsets of a file ends before the second, and consists of the file's bytes from the first on.
pub fn texts_are_parts()
    ensures { (file : List ℕ) (offset end : ℕ) (text : List ℕ) → text_between file offset end ≡ Some text → (offset + length text < end) × (text ≡ part file offset (length text)) }
{}

/// The first fault of a list of tests is that of a test that holds, and no earlier test holds.
pub fn first_standing_is_first()
    ensures { (tests : List Test) (fault : Fault) → first_standing tests ≡ Some fault → IsFirstStanding tests fault }
{}

/// A list of tests has no first fault exactly if none of its tests holds.
pub fn no_first_where_none_stands()
    ensures { (tests : List Test) → (first_standing tests ≡ None) ↔ NoneStands tests }
{}
