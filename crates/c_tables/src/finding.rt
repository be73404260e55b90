//! `findings_in`: the findings of an image.

ghost use Rattle.std.specs.Prelude.{◌≡◌, IsErrOf};
ghost use Rattle.pe_view.specs.Faults.{AnswersOrWants};
ghost use Rattle.pe_view.specs.declared.refusal.Refusal.{Refusal};
ghost use Rattle.pe_layout.specs.SectionFaults.{layout_tests};
ghost use Rattle.c_tables.specs.Findings.{findings_of, HasFinding};

use pe_image::lay_out;
use pe_records::findings;
use pe_view::{Fault, Refusal, View};
use std::alloc::Global;

/// The findings of a file's image, in the order of the tables' findings, or the first fault of its headers and sections (1 to 15),
/// or out of memory, which comes only if there is a finding.
pub fn findings_in(alloc: Global, file: &[u8]) -> Result<Vec<Fault, Global>, Refusal>
    ensures exact { AnswersOrWants (layout_tests 0 file.now) (λ found. found.items ≡ findings_of file.now) result }
    ensures memory { IsErrOf result Refusal.Memory → HasFinding file.now }
{
    let layout = lay_out(file, 0)?;
    Ok(findings(alloc, &layout, View::new(file))?)
}
