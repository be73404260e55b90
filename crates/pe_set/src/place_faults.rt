//! Faults 43 to 47 of a set, image by image.

ghost use Rattle.std.specs.Prelude.{◌≤◌, ◌≢◌, Err, length};
ghost use Rattle.pe_set.specs.SetView.{modules_view};
ghost use Rattle.pe_set.specs.SetFaults.{ClassAnswers, places_tests};

use crate::error::{MapError, fault};
use crate::placement::{Placed, base_fault};
use crate::reading::Module;
use pe_view::Place;
use std::alloc::Allocator;

/// Tests faults 43 to 47, image by image: the Magic of each is compared with that of the first (43), its addresses with those of
/// the images before it (47). There are at most 256 images.
pub(crate) fn check_places<A: Allocator + Copy>(modules: &[Module<A>]) -> Result<(), MapError>
    requires few { length modules.now ≤ 256 }
    ensures exact { ClassAnswers (places_tests (modules_view modules.now)) (λ _. Unit {0}) result }
    ensures no_memory { result ≢ Err MapError.Memory }
{
    for (index, module) in modules.iter().enumerate() {
        let number = index as u16;
        if modules[0].magic() != module.magic() {
            return Err(fault(43, number, Place::Item(u32::from(number))));
        }
        if let Some(fault) = base_fault(&modules[..index], &[], number, module, module.base) {
            return Err(MapError::Fault(fault));
        }
    }
    Ok(())
}
