//! What the definitions mean, as laws: each function has an empty body, and its contract is the law.

ghost use Rattle.std.specs.Prelude.{◌≡◌, ◌↔◌, ◌<◌, ◌^◌, ℕ, List, None, Some};
ghost use Rattle.pe_view.specs.Faults.{first_standing};
ghost use Rattle.coff_read.specs.ObjectFaults.{object_tests};
ghost use Rattle.coff_read.specs.PlainForm.{IsPlain};
ghost use Rattle.coff_read.specs.Reading.{object_of};
ghost use Rattle.coff_read.specs.RecordPlaces.{SymbolsBegin};
ghost use Rattle.coff_read.specs.Records.{records_of};
ghost use Rattle.coff_read.specs.StringPlaces.{IsString};
ghost use Rattle.coff_read.specs.Strings.{record_count, string_at};

/// Record 0 begins a symbol, and if record k begins one with z auxiliary records, record k + 1 + z begins the next.
pub fn symbols_stand_behind_auxiliary_records()
    ensures { (file : List ℕ) → SymbolsBegin file }
{}

/// A string of the string table is at its offset, after the size field, has no zero byte, and a zero byte follows it inside the
/// table.
pub fn strings_stand_at_their_offsets()
    ensures { (file : List ℕ) (offset : ℕ) (text : List ℕ) → (string_at file offset ≡ Some text) ↔ IsString file offset text }
{}

/// The symbols of an accepted file, with their auxiliary records, are all records of its symbol table, and fewer than 2^32.
pub fn symbols_fill_the_table()
    ensures whole { (file : List ℕ) → first_standing (object_tests file) ≡ None → records_of (object_of file).symbols ≡ record_count file }
    ensures few { (file : List ℕ) → first_standing (object_tests file) ≡ None → records_of (object_of file).symbols < 2 ^ 32 }
{}

/// What is read of a plain object, and its faults, are what the definitions of both forms say at the plain form.
pub fn plain_objects_are_of_the_plain_form()
    ensures { (file : List ℕ) → IsPlain file }
{}
