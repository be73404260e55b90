//! `judge`: reads the files of a set, and returns its images and bindings or its first fault; and `judge_delayed`, which binds
//! delay-loaded imports too.

ghost use Rattle.std.specs.Prelude.{◌≡◌, ◌≢◌, ◌<◌, ◌⊎◌, Err, None, IsErrOf, length};
ghost use Rattle.pe_view.specs.Faults.{first_standing};
ghost use Rattle.pe_set.specs.DelayedErrors.{delayed_error};
ghost use Rattle.pe_set.specs.DelayedImports.{with_delayed};
ghost use Rattle.pe_set.specs.Set.{modules_of};
ghost use Rattle.pe_set.specs.SetView.{entries_of, modules_view, IsAcceptedFrom, IsAcceptedAs};
ghost use Rattle.pe_set.specs.SetFaults.{ClassAnswers, names_tests, placed_tests};
ghost use Rattle.pe_set.specs.SetErrors.{SetAnswers, set_error};

use crate::adding::add_delayed;
use crate::binding::{Binding, bind};
use crate::delayed::bind_with_delayed;
use crate::entry::{Policy, SetEntry};
use crate::error::MapError;
use crate::laws::{images_are_sound, sets_export_little};
use crate::module_names::Names;
use crate::names::check_names;
use crate::place_faults::check_places;
use crate::reading::{Module, read_modules};
use std::alloc::Allocator;

/// The images of a set without a fault, and the bindings of their imports.
#[derive(Drop)]
pub struct Accepted<'a, A: Allocator> {
    /// The images, in the order of the set's entries.
    pub modules: Vec<Module<'a, A>, A>,
    /// The slots that are bound: by image, and those of an image in the order of its imports.
    pub bindings: Vec<Binding, A>,
}

/// Reads the images of a set, or returns the first fault of the names, the files or the places.
fn read_placed<'a, A: Allocator + Copy>(
    alloc: A,
    set: &[SetEntry<'a>],
) -> Result<Vec<Module<'a, A>, A>, MapError>
    ensures exact { ClassAnswers (placed_tests (entries_of set.now)) (λ modules. modules_view modules.items ≡ modules_of (entries_of set.now)) result }
    ensures no_memory { (length set.now ≡ 0) ⊎ (256 < length set.now) → result ≢ Err MapError.Memory }
    ensures named { IsErrOf result MapError.Memory → first_standing (names_tests (entries_of set.now)) ≡ None }
{
    check_names(set)?;
    let modules = read_modules(alloc, set)?;
    check_places(&modules)?;
    Ok(modules)
}

/// Reads and checks the images of a set. An image has the number of its entry, counted from 0, and so do its faults.
///
/// Faults are tested class by class, each class only if those before it have none: the names of the entries (41, 42); the image
/// faults of each file, image by image; where the images are (43 to 47), image by image; their imports (48 to 50), image by image,
/// and in each image in the order of its imports. The error is [`MapError::Fault`] with the first fault; if that is 50,
/// [`MapError::Cycle`] with the fault and the length of the cycle; or [`MapError::Memory`] if an allocation failed. It is never
/// [`MapError::Memory`] if a name has a fault, and so not for more than 256 entries, nor for a set of no entries. On an error all
/// memory is freed.
pub fn judge<'a, A: Allocator + Copy>(
    alloc: A,
    set: &[SetEntry<'a>],
    policy: Policy,
) -> Result<Accepted<'a, A>, MapError>
    ensures exact { SetAnswers (set_error policy (entries_of set.now)) (IsAcceptedFrom (entries_of set.now)) result }
    ensures no_memory { (length set.now ≡ 0) ⊎ (256 < length set.now) → result ≢ Err MapError.Memory }
    ensures named { IsErrOf result MapError.Memory → first_standing (names_tests (entries_of set.now)) ≡ None }
{
    let modules = read_placed(alloc, set)?;
    let names = Names::new(alloc, &modules)?;
    sets_export_little();
    let bindings = bind(alloc, &modules, &names, policy)?;
    Ok(Accepted { modules, bindings })
}

/// Reads and checks the images of a set as [`judge`] does, and binds their delay-loaded imports too.
///
/// A delay-loaded import is bound if the search for it comes to no module that is not in the set, whatever the policy, and its slot
/// in the delay import address table shares no byte with that of an import, nor with that of a delay-loaded import before it. Its
/// faults are 49 and 50, after those of the imports of its image. It stands among the imports of the image, after those of the
/// import table, in the order of the delay-load directory table; its binding stands there among the bindings. The fixups whose
/// fields share a byte with its slot are left out. Any other delay-loaded import has no fault, and stays as the file has it. The
/// imports of a descriptor with one of the findings 162 to 167 are not read.
///
/// The error comes in the same cases, and is [`MapError::Memory`] in none besides. On an error all memory is freed. ("PE Format":
/// Delay-Load Import Tables.)
pub fn judge_delayed<'a, A: Allocator + Copy>(
    alloc: A,
    set: &[SetEntry<'a>],
    policy: Policy,
) -> Result<Accepted<'a, A>, MapError>
    ensures exact { SetAnswers (delayed_error policy (entries_of set.now)) (IsAcceptedAs (with_delayed (modules_of (entries_of set.now)))) result }
    ensures no_memory { (length set.now ≡ 0) ⊎ (256 < length set.now) → result ≢ Err MapError.Memory }
    ensures named { IsErrOf result MapError.Memory → first_standing (names_tests (entries_of set.now)) ≡ None }
{
    let mut modules = read_placed(alloc, set)?;
    let names = Names::new(alloc, &modules)?;
    sets_export_little();
    images_are_sound();
    let bound = bind_with_delayed(alloc, &modules, &names, policy)?;
    add_delayed(alloc, modules.as_mut_slice(), &bound.imports)?;
    Ok(Accepted {
        modules,
        bindings: bound.bindings,
    })
}
