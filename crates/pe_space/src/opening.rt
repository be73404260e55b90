//! `open_space`: the images of a set over their files, or the set's first fault; and `open_space_delayed`, which binds delay-loaded
//! imports too.

ghost use Rattle.std.specs.Prelude.{◌≡◌, ◌≢◌, ◌<◌, ◌⊎◌, None, IfOk, IsOk, Err, length, IsErrOf};
ghost use Rattle.pe_view.specs.Faults.{first_standing};
ghost use Rattle.pe_set.specs.Bindings.{bindings_of};
ghost use Rattle.pe_set.specs.DelayedErrors.{delayed_error};
ghost use Rattle.pe_set.specs.SetView.{entries_of, modules_view};
ghost use Rattle.pe_set.specs.SetFaults.{names_tests};
ghost use Rattle.pe_set.specs.SetErrors.{SetAnswers, set_error};
ghost use Rattle.pe_set.specs.Sound.{IsSound};
ghost use Rattle.pe_space.specs.SetContent.{content_of};
ghost use Rattle.pe_space.specs.SpaceOf.{IsSpaceOf, IsDelayedSpaceOf};

use crate::file_image::FileImage;
use crate::file_space::FileSpace;
use pe_set::{Accepted, MapError, Policy, SetEntry, judge, judge_delayed};
use std::alloc::{AllocError, Allocator};

/// Opens the images of an accepted set over their files, with their slots bound.
fn open_accepted<'a, A: Allocator + Copy>(
    alloc: A,
    accepted: Accepted<'a, A>,
) -> Result<FileSpace<'a, A>, AllocError>
    requires sound { IsSound (modules_view accepted.modules.items) }
    requires bound { accepted.bindings.items ≡ bindings_of (modules_view accepted.modules.items) }
    ensures content { IfOk result (λ space. space ≡ content_of (modules_view accepted.entry.modules.items)) }
    ensures empty { length accepted.entry.modules.items ≡ 0 → IsOk result }
{
    let Accepted { modules, bindings } = accepted;
    let mut images = Vec::with_capacity(alloc, modules.len())?;
    for own in modules {
        images.push(FileImage::new(own))?;
    }
    FileSpace::new(alloc, images, bindings)
}

/// Opens a set of images as a space that leaves their bytes in their files, which it borrows: each image at its base, with its
/// fields relocated and its imports bound.
///
/// The files are checked as by [`map`], and the result is a space with the same content, the same first fault or cycle, or
/// [`MapError::Memory`] in the same cases. The space keeps a record for each fixup and two for each bound slot, with 4 to 8 bytes
/// for finding each; checking allocates more for a while.
pub fn open_space<'a, A: Allocator + Copy>(
    alloc: A,
    set: &[SetEntry<'a>],
    policy: Policy,
) -> Result<FileSpace<'a, A>, MapError>
    ensures exact { SetAnswers (set_error policy (entries_of set.now)) (IsSpaceOf policy (entries_of set.now)) result }
    ensures no_memory { (length set.now ≡ 0) ⊎ (256 < length set.now) → result ≢ Err MapError.Memory }
    ensures named { IsErrOf result MapError.Memory → first_standing (names_tests (entries_of set.now)) ≡ None }
{
    pe_set::laws::accepted_sets_have_no_fault();
    pe_set::laws::accepted_sets_are_sound();
    pe_set::laws::bases_change_no_binding();
    let accepted = judge(alloc, set, policy)?;
    Ok(open_accepted(alloc, accepted)?)
}

/// Opens a set of images as [`open_space`] does, and binds their delay-loaded imports too, as [`crate::map_delayed`] does.
pub fn open_space_delayed<'a, A: Allocator + Copy>(
    alloc: A,
    set: &[SetEntry<'a>],
    policy: Policy,
) -> Result<FileSpace<'a, A>, MapError>
    ensures exact { SetAnswers (delayed_error policy (entries_of set.now)) (IsDelayedSpaceOf policy (entries_of set.now)) result }
    ensures no_memory { (length set.now ≡ 0) ⊎ (256 < length set.now) → result ≢ Err MapError.Memory }
    ensures named { IsErrOf result MapError.Memory → first_standing (names_tests (entries_of set.now)) ≡ None }
{
    pe_set::laws::delayed_sets_are_sound();
    pe_set::laws::bases_change_no_delayed_binding();
    let accepted = judge_delayed(alloc, set, policy)?;
    Ok(open_accepted(alloc, accepted)?)
}
