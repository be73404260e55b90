//! Laws about the definitions: each function has an empty body, and its contract is the law.

ghost use Rattle.std.specs.Prelude.{◌≡◌, ◌+◌, ℕ, List, Some};
ghost use Rattle.std.specs.List.{AllByRecursion};
ghost use Rattle.pe_view.specs.Number.{byte_of, num};
ghost use Rattle.pe_numbers.specs.declared.number.Number as code_number;
ghost use Rattle.pe_numbers.specs.Numbers.{NumberFits, beginning_at, numbers_bytes, value_of, width_of};
ghost use Rattle.pe_numbers.specs.StandsAt.{StandsAt};

/// A number is read back at the place where it was written.
pub fn numbers_are_read_back()
    ensures { (file : List ℕ) (place : ℕ) (numbers : List code_number.Number) (offset : ℕ) (number : code_number.Number) → AllByRecursion NumberFits numbers
        → StandsAt file place (numbers_bytes numbers) → beginning_at numbers offset ≡ Some number → num (byte_of file) (place + offset) (width_of number) ≡ value_of number }
{}
