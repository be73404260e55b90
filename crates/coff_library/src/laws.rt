//! What the definitions mean, as laws: each function has an empty body, and its contract is the law.

ghost use Rattle.std.specs.Prelude.{◌≡◌, ℕ, List, None};
ghost use Rattle.pe_view.specs.Faults.{first_standing};
ghost use Rattle.coff_library.specs.Members.{Member};
ghost use Rattle.coff_library.specs.ReadBack.{IsReadBack};
ghost use Rattle.coff_library.specs.WriteFaults.{write_tests};
ghost use Rattle.coff_library.specs.Written.{IsArchiveOf};

/// An archive of members with none of faults 91 to 93 is read back: its members in their order, with their names and contents, and
/// in both linker members each symbol with the member that defines it; and it has no finding.
pub fn written_is_read_back()
    ensures { (members : List Member) (bytes : List ℕ) → first_standing (write_tests members) ≡ None → IsArchiveOf members bytes → IsReadBack members bytes }
{}
