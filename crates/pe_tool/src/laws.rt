//! Laws about the definitions. The contract of each function here is a law, and its body only calls the laws of other crates that
//! it needs.

ghost use Rattle.std.specs.Prelude.{◌≡◌, ℕ, List};
ghost use Rattle.pe_set.specs.Set.{Entry, modules_of};
ghost use Rattle.pe_space.specs.SetContent.{defined_byte};
ghost use Rattle.pe_tool.specs.RebasedSet.{IsRebasedSet, IsElsewhere};

pub use coff_lines::laws::records_are_shown_under_their_indexes;
pub use pe_map_lines::laws::{same_sets_leave_alike, same_sets_map_alike};

/// If two sets differ only in that the file of one image, whose signature is not in the first 16 bytes and whose base is a
/// multiple of 65,536, is rebased, and its tables read as before, then each address outside ImageBase and CheckSum of that image
/// has the same byte in both. The sets need not be accepted.
pub fn rebased_files_map_alike()
    ensures { (es es' : List Entry) (k : ℕ) (e : Entry) (base a : ℕ) → IsRebasedSet es es' k e base → IsElsewhere e a
        → defined_byte (modules_of es') a ≡ defined_byte (modules_of es) a }
{
    pe_set::laws::tables_decide_bindings();
    pe_write::laws::rebased_headers();
    pe_write::laws::rebased_again();
}
