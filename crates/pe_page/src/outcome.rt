//! The outcome of a page from the fault of its file.

ghost use Rattle.std.specs.Prelude.{◌≡◌, List};
ghost use Rattle.pe_view.specs.Faults.{Test, first_standing};
ghost use Rattle.pe_text.specs.Outcome.{IsOutcomeOf};

use pe_text::Outcome;
use pe_view::Fault;

/// The outcome of an image whose headers and sections have no fault, from the first fault of its tables.
pub fn outcome_of(fault: Option<Fault>) -> Outcome
    ensures { (tests : List Test) → fault ≡ first_standing tests → IsOutcomeOf tests result }
{
    match fault {
        Some(fault) => Outcome::Refused(fault),
        None => Outcome::Done,
    }
}
