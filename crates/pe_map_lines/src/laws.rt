//! Laws about the definitions. The contract of each function here is a law, and its body only calls the laws of other crates that
//! it needs.

ghost use Rattle.std.specs.Prelude.{ℕ, List, Option};
ghost use Rattle.pe_set.specs.Set.{Entry};
ghost use Rattle.pe_set.specs.declared.entry.Policy.{Policy};
ghost use Rattle.pe_text.specs.declared.outcome.Outcome.{Outcome};
ghost use Rattle.pe_map_lines.specs.MapReport.{IsMapText};
ghost use Rattle.pe_map_lines.specs.SameSets.{AreSameSets};
ghost use Rattle.pe_map_lines.specs.UnboundImports.{IsUnboundText};

/// Sets with the same names and bases, whose files have the same headers, faults and images, have the same report of
/// [`map_report`](crate::map_report). So a file may be read as far as it decides these.
pub fn same_sets_map_alike()
    ensures { (policy : Policy) (es fs : List Entry) (window : Option (ℕ × ℕ)) → AreSameSets es fs
        → (outcome : Outcome) (text : List ℕ) → IsMapText policy fs window outcome text → IsMapText policy es window outcome text }
{
    pe_reach::laws::faults_agree();
    pe_set::laws::errors_count_class_by_class();
}

/// Such sets have the same report of [`map_report_unbound`](crate::map_report_unbound) too.
pub fn same_sets_leave_alike()
    ensures { (policy : Policy) (es fs : List Entry) (window : Option (ℕ × ℕ)) → AreSameSets es fs
        → (outcome : Outcome) (text : List ℕ) → IsUnboundText policy fs window outcome text → IsUnboundText policy es window outcome text }
{
    same_sets_map_alike();
}
