//! What the definitions mean, as laws: each function has an empty body, and its contract is the law.

ghost use Rattle.std.specs.Prelude.{◌≡◌, ◌+◌, ◌≤◌, ℕ, List, Ok, map, length};
ghost use Rattle.std.specs.List.{flat_map};
ghost use Rattle.pe_layout.specs.Image.{LaidOut};
ghost use Rattle.pe_records.specs.declared.function.Function.{Function};
ghost use Rattle.pe_unwind.specs.Chains.{chain_of};
ghost use Rattle.pe_unwind.specs.Operations.{operations_of, slots_from, slots_of, slots_read};
ghost use Rattle.pe_unwind.specs.declared.information.UnwindInformation.{UnwindInformation};
ghost use Rattle.pe_unwind.specs.declared.operation.Operation.{Operation};

/// If no finding ends the operations of unwind information, their slots are all that it has, each once and in order.
pub fn operations_take_all_slots()
    ensures { (i : LaidOut) (u : UnwindInformation) (operations : List Operation) → operations_of i u ≡ map Ok operations
        → flat_map slots_of operations ≡ slots_from (u.rva + 4) (slots_read i u) }
{}

/// A chain has at most 32 items: 31 functions, and a finding.
pub fn chains_end()
    ensures { (i : LaidOut) (f : Function) → length (chain_of i f) ≤ 32 }
{}
