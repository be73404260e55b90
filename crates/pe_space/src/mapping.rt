//! `map`: the images of a set in memory, or the set's first fault; and `map_delayed`, which binds delay-loaded imports too.

ghost use Rattle.std.specs.Prelude.{◌≡◌, ◌≢◌, ◌<◌, ◌⊎◌, None, IfOk, IsOk, Err, length, IsErrOf};
ghost use Rattle.pe_view.specs.Faults.{first_standing};
ghost use Rattle.pe_set.specs.Bindings.{bindings_of};
ghost use Rattle.pe_set.specs.DelayedErrors.{delayed_error};
ghost use Rattle.pe_set.specs.SetView.{entries_of, module_view, modules_view};
ghost use Rattle.pe_set.specs.SetFaults.{names_tests};
ghost use Rattle.pe_set.specs.SetErrors.{SetAnswers, set_error};
ghost use Rattle.pe_set.specs.Sound.{IsSound};
ghost use Rattle.pe_space.specs.SetContent.{content_of};
ghost use Rattle.pe_space.specs.SpaceOf.{IsSpaceOf, IsDelayedSpaceOf};
ghost use Rattle.pe_space.specs.Relocated.{relocated_of, FieldsFit};

use crate::mapped_image::MappedImage;
use crate::mapped_space::MappedSpace;
use pe_set::{Accepted, MapError, Module, Policy, SetEntry, judge, judge_delayed};
use std::alloc::{AllocError, Allocator};

/// Lays out an image in memory at its base, with its fields relocated.
#[tactic(auto, unfolding(pe_set::specs::SetView::module_view))]
fn place<A: Allocator + Copy>(alloc: A, own: Module<A>) -> Result<MappedImage<A>, AllocError>
    requires { FieldsFit (module_view own) }
    ensures { IfOk result (λ mapped. mapped ≡ relocated_of (module_view own.entry)) }
{
    let layout = &own.image.layout;
    let plain = layout.bytes(alloc)?;
    Ok(MappedImage::new(
        own.base,
        layout.size(),
        layout.magic(),
        layout.image_base(),
        layout.is_stripped(),
        own.image.fixups,
        plain,
    ))
}

/// Lays out the images of an accepted set in memory, with their fields relocated and their slots bound.
fn map_accepted<A: Allocator + Copy>(
    alloc: A,
    accepted: Accepted<A>,
) -> Result<MappedSpace<A>, AllocError>
    requires sound { IsSound (modules_view accepted.modules.items) }
    requires bound { accepted.bindings.items ≡ bindings_of (modules_view accepted.modules.items) }
    ensures content { IfOk result (λ space. space ≡ content_of (modules_view accepted.entry.modules.items)) }
    ensures empty { length accepted.entry.modules.items ≡ 0 → IsOk result }
{
    let Accepted { modules, bindings } = accepted;
    let mut images = Vec::with_capacity(alloc, modules.len())?;
    for own in modules {
        images.push(place(alloc, own)?)?;
    }
    MappedSpace::new(alloc, images, bindings)
}

/// Maps a set of images: each at its base, with its fields relocated and its imports bound.
///
/// The files are numbered in the order of the set. Faults are tested class by class: the names of the entries (41, 42); the image
/// faults of each file, image by image; where the images are mapped (43 to 47); their imports (48 to 50), image by image and in
/// import order. A class is tested only if earlier ones have no fault. The error is [`MapError::Fault`] with the first fault; for
/// fault 50 it is [`MapError::Cycle`], which adds the length of the cycle of forwarders; it is [`MapError::Memory`] if an
/// allocation failed, but never if a name has a fault, so never for more than 256 entries, and never for no entries. On an error
/// all memory is freed.
///
/// With [`Policy::Known`], an import whose search comes to a module that is not in the set leaves its slot as its file lays it
/// out.
///
/// ("PE Format": Base Relocation Types, Import Address Table, Export Address Table.)
pub fn map<A: Allocator + Copy>(
    alloc: A,
    set: &[SetEntry],
    policy: Policy,
) -> Result<MappedSpace<A>, MapError>
    ensures exact { SetAnswers (set_error policy (entries_of set.now)) (IsSpaceOf policy (entries_of set.now)) result }
    ensures no_memory { (length set.now ≡ 0) ⊎ (256 < length set.now) → result ≢ Err MapError.Memory }
    ensures named { IsErrOf result MapError.Memory → first_standing (names_tests (entries_of set.now)) ≡ None }
{
    pe_set::laws::accepted_sets_have_no_fault();
    pe_set::laws::accepted_sets_are_sound();
    pe_set::laws::bases_change_no_binding();
    let accepted = judge(alloc, set, policy)?;
    Ok(map_accepted(alloc, accepted)?)
}

/// Maps a set of images as [`map`] does, and binds their delay-loaded imports too.
///
/// A delay-loaded import is bound if the search for it comes to no module that is not in the set, whatever the policy, and its slot
/// in the delay import address table shares no byte with that of an import, nor with that of a delay-loaded import before it. Its
/// slot then holds the address of the export, and is no field of base relocations. Any other delay-loaded import is left as the file
/// lays it out, relocated. The faults 49 and 50 of those that are bound come after those of the imports of their image.
///
/// The error is as [`map`] has it. On an error all memory is freed. ("PE Format": Delay-Load Import Tables.)
pub fn map_delayed<A: Allocator + Copy>(
    alloc: A,
    set: &[SetEntry],
    policy: Policy,
) -> Result<MappedSpace<A>, MapError>
    ensures exact { SetAnswers (delayed_error policy (entries_of set.now)) (IsDelayedSpaceOf policy (entries_of set.now)) result }
    ensures no_memory { (length set.now ≡ 0) ⊎ (256 < length set.now) → result ≢ Err MapError.Memory }
    ensures named { IsErrOf result MapError.Memory → first_standing (names_tests (entries_of set.now)) ≡ None }
{
    pe_set::laws::delayed_sets_are_sound();
    pe_set::laws::bases_change_no_delayed_binding();
    let accepted = judge_delayed(alloc, set, policy)?;
    Ok(map_accepted(alloc, accepted)?)
}
