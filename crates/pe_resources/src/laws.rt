//! What the definitions mean, as laws: each function has an empty body, and its contract is the law.

ghost use Rattle.std.specs.Prelude.{◌≡◌, ◌*◌, ◌≤◌, ℕ, Some, length};
ghost use Rattle.pe_layout.specs.Image.{LaidOut};
ghost use Rattle.pe_resources.specs.Costs.{bytes_in, ApartAll};
ghost use Rattle.pe_resources.specs.Plain.{plain_leaves, NoneShared};
ghost use Rattle.pe_resources.specs.Section.{start_of};
ghost use Rattle.pe_resources.specs.Walk.{walk_of, leaves_of, resource_tests};

/// The directories that are entered have no byte in common, and no more bytes together than the file holds in one run from the root
/// on. So no directory is entered twice, and as many entries are read as that run has bytes for, 8 for each.
pub fn directories_are_apart()
    ensures apart { (i : LaidOut) (start : ℕ) → start_of i ≡ Some start → ApartAll (walk_of i).before }
    ensures few { (i : LaidOut) (start : ℕ) → start_of i ≡ Some start → bytes_in (walk_of i).before ≤ i.raw_left start }
{}

/// There are no more leaves than that.
pub fn leaves_are_few()
    ensures { (i : LaidOut) (start : ℕ) → start_of i ≡ Some start → 8 * length (leaves_of i) ≤ i.raw_left start }
{}

/// Where no directory shares bytes with an earlier one, the leaves are those that three steps by level lead to, each once for each
/// way to it.
pub fn leaves_are_plain()
    ensures { (i : LaidOut) → NoneShared (resource_tests i) → leaves_of i ≡ plain_leaves i }
{}
