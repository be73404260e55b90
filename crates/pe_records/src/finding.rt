//! `add`: the findings of one place.

ghost use Rattle.std.specs.Prelude.{◌≡◌};
ghost use Rattle.pe_view.specs.Standing.{Adds, tests_at};

use pe_view::{Fault, Place};
use std::alloc::{AllocError, Allocator};

/// Adds a finding of the image with this number, at a place, for each rule that is broken. A rule is its number, and whether it is broken.
///
/// The error is that no memory is left. It never comes if no rule is broken.
pub fn add<A: Allocator>(
    findings: &mut Vec<Fault, A>,
    image: u16,
    place: Place,
    rules: &[(u16, bool)],
) -> Result<(), AllocError>
    ensures { Adds (tests_at image place rules.now) findings.old.items findings.new.items result }
{
    for rule in rules {
        let (number, stands) = *rule;
        if stands {
            findings.push(Fault {
                number,
                image,
                place,
            })?;
        }
    }
    Ok(())
}
