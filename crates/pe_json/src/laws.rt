//! What the definitions mean, as laws: each function has an empty body, and its contract is the law.

ghost use Rattle.std.specs.Prelude.{◌≡◌, Option, ◌<◌, ◌^◌, ◌++◌, ℕ, List, [], Some, codes, decimal};
ghost use Rattle.json.specs.Json.{Json, Members, object, document};
ghost use Rattle.json.specs.Print.{IsNumber};
ghost use Rattle.json.specs.Tree.{HasNumbers};
ghost use Rattle.pe_detail.specs.FaultDetail.{fault_detail};
ghost use Rattle.pe_json.specs.declared.beyond.Beyond.{Beyond};
ghost use Rattle.pe_json.specs.FileLine.{file_line, image_members, refused_beyond};
ghost use Rattle.pe_json.specs.Refused.{kind_of_refused, refused_by, refused_line};
ghost use Rattle.pe_json.specs.Value.{IsTextOf};
ghost use Rattle.pe_reach.specs.Views.{LookAlike};
ghost use Rattle.pe_text.specs.declared.outcome.Outcome.{Outcome};
ghost use Rattle.pe_text.specs.declared.outcome.Outcome.TheVariants.{Refused};
ghost use Rattle.pe_view.specs.declared.fault.Fault.{Fault};
ghost use Rattle.pe_view.specs.declared.fault.Place.TheVariants.{Rva};

/// The line of a file is the text of a JSON object (RFC 8259) and a line feed, whatever the file's name and bytes are and whether it is
/// refused, also by its first bytes, of which nothing else is told: it is UTF-8, no other byte of it is a control character, it has no
/// character that terminals obey or that nobody sees (U+007F to U+009F, U+2028 to U+202E, U+2066 to U+2069 and U+FEFF), and its numbers
/// are decimal digits.
pub fn lines_are_json()
    ensures file { (beyond : Option Beyond) (name : List ℕ) (size : ℕ) (file : List ℕ) (outcome : Outcome) → (members : Members) × (text : List ℕ)
        × (file_line beyond name size file outcome ≡ text ++ codes "\n") × IsTextOf (object members) text }
    ensures unread { (name begin : List ℕ) (size : ℕ) (fault : Fault) → (members : Members) × (text : List ℕ)
        × (refused_line name begin size fault [] ≡ text ++ codes "\n") × IsTextOf (object members) text }
{}

/// The text of a value is read back by the crate json as this value, if its numbers are those of JSON; and the decimal digits of a number
/// below 2^64 are.
pub fn json_is_read_back()
    ensures number { (n : ℕ) → n < 2 ^ 64 → IsNumber (decimal n) }
    ensures value { (value : Json) (text : List ℕ) → IsTextOf value text → HasNumbers value → document text ≡ Some value }
{}

/// If views see the same headers, sections and layout of two images, and one fault refuses both, their lines differ at most in what
/// their files say of themselves, if that is asked for, and in the numbers that the fault's rule compares; and not in these if the fault
/// is at an RVA, as 16 to 38 are.
pub fn refused_lines_agree()
    ensures lines { (beyond : Option Beyond) (name f g : List ℕ) (size : ℕ) (fault : Fault) → LookAlike f g
        → file_line beyond name size f (Refused fault) ≡ refused_by name (kind_of_refused fault g) fault (fault_detail f size fault) (image_members g ++ refused_beyond beyond f) }
    ensures values { (f g : List ℕ) (size : ℕ) (fault : Fault) (rva : ℕ) → LookAlike f g → fault.place ≡ Rva rva
        → fault_detail f size fault ≡ fault_detail g size fault }
{}
