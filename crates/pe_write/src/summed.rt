//! `put_check_sum` and `rebase_file_summed`: files of images with their CheckSum.

ghost use Rattle.std.specs.Prelude.{◌≡◌, Some, Err, OnErr, true};
ghost use Rattle.pe_view.specs.declared.fault.Fault as code_fault;
ghost use Rattle.pe_view.specs.Faults.{Answers, AnswersOrWants, first_standing};
ghost use Rattle.pe_head.specs.HeaderFaults.{head_tests};
ghost use Rattle.pe_layout.specs.SectionFaults.{layout_tests};
ghost use Rattle.pe_write.specs.Summed.{rebased_as, with_check_sum};
ghost use Rattle.pe_write.specs.RebaseFaults.{rebase_tests};
ghost use Rattle.pe_view.specs.declared.refusal.Refusal.{Refusal};

use crate::error::WriteError;
use crate::rebase::{CHECK_SUM, rebase_file};
use pe_head::read_headers;
use pe_tables::write_low;
use pe_trust::check_sum;
use pe_view::{Fault, View};
use std::alloc::Allocator;

/// Writes the CheckSum of an image's file into its headers, which `petool sum` calls computed. A file with one of faults 1 to 12,
/// which name image 0, is left as it was. ("PE Format": Optional Header Windows-Specific Fields.)
#[tactic(auto, unfolding(crate::specs::Summed::with_check_sum))]
pub fn put_check_sum(file: &mut [u8]) -> Result<(), Fault>
    ensures fault { Answers (head_tests 0 file.old) (λ _. file.new ≡ with_check_sum file.old) result }
    ensures unchanged { OnErr result (file.new ≡ file.old) }
    ensures either { file.new ≡ with_check_sum file.old }
{
    let view = View::new(file);
    let headers = read_headers(view, 0)?;
    let sum = check_sum(view, &headers);
    let place = headers.pe_offset as usize + 24 + CHECK_SUM;
    write_low(file, place, u64::from(sum), 4);
    Ok(())
}

/// [`rebase_file`], but CheckSum is that of the new file and not 0.
///
/// The errors are those of [`rebase_file`]. A file whose signature begins in the first 16 bytes, where ImageBase may overlap the
/// field that tells where, may be a new file whose headers have a fault: then CheckSum stays 0.
pub fn rebase_file_summed<A: Allocator + Copy>(
    alloc: A,
    file: &[u8],
    base: u64,
) -> Result<Vec<u8, A>, WriteError>
    ensures exact { AnswersOrWants (rebase_tests file.now base) (λ bytes. bytes.items ≡ rebased_as true file.now base) result }
    ensures early { (fault : code_fault.Fault) → first_standing (layout_tests 0 file.now) ≡ Some fault → result ≡ Err (Refusal.Fault fault) }
{
    let mut bytes = rebase_file(alloc, file, base)?;
    let _ = put_check_sum(bytes.as_mut_slice());
    Ok(bytes)
}
