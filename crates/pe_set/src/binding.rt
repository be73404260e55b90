//! `Binding`: an import address table entry and the export that it is bound to; and faults 48 to 50 of imports.

ghost use Rattle.std.specs.Prelude.{◌≡◌, ◌++◌, ◌≤◌, ◌^◌, length, All, IsOk, OnOk};
ghost use Rattle.std.specs.List.{flat_map, filter_map};
ghost use Rattle.pe_layout.specs.Layout.{image_of};
ghost use Rattle.pe_tables.specs.Imports.{imports_of};
ghost use Rattle.pe_tables.specs.ImportView.{import_view};
ghost use Rattle.pe_set.specs.Set as set;
ghost use Rattle.pe_set.specs.NamesView.{names_in, lowered};
ghost use Rattle.pe_set.specs.SetView.{modules_view};
ghost use Rattle.pe_set.specs.Search.{pairs_of};
ghost use Rattle.pe_set.specs.EndsView.{AreEnds};
ghost use Rattle.pe_set.specs.Bindings.{bound_to, binding_of, bindings_of};
ghost use Rattle.pe_set.specs.SetErrors.{SetAnswers, end_errors, import_errors, imports_errors, first_error};
ghost use Rattle.std.specs.Prelude.{map};

use crate::ends::Ends;
use crate::entry::Policy;
use crate::error::{MapError, fault};
use crate::module_names::Names;
use crate::reading::Module;
use crate::remembered::{Remembered, place_at, places_of};
use crate::search::{Resolution, resolve_once};
use crate::trails::Trails;
use pe_layout::Layout;
use pe_tables::Import;
use pe_view::{Fault, Place};
use std::alloc::Allocator;

/// An import address table entry, called slot here, and the export whose address it holds.
#[derive(Clone, Copy, Debug, PartialEq, Eq)]
pub struct Binding {
    /// The number of the image that has the slot.
    pub image: u16,
    /// The RVA of the slot.
    pub slot: u32,
    /// The number of the image that has the export.
    pub exporter: u16,
    /// The RVA of the export.
    pub rva: u32,
}

/// The binding of a slot by how the search for its import ended, `None` if the slot is left as it is, or the fault: 48, 49, or 50
/// with the length of the cycle.
pub(crate) fn bound(
    policy: Policy,
    image: u16,
    slot: u32,
    resolution: Resolution,
) -> Result<Option<Binding>, MapError>
    ensures { SetAnswers (first_error (end_errors policy image slot resolution)) (λ binding. binding ≡ bound_to image slot resolution) result }
{
    match resolution {
        Resolution::Bound {
            image: exporter,
            rva,
        } => Ok(Some(Binding {
            image,
            slot,
            exporter,
            rva,
        })),
        Resolution::Missing => match policy {
            Policy::Strict => Err(fault(48, image, Place::Rva(slot))),
            Policy::Known => Ok(None),
        },
        Resolution::Unknown => Err(fault(49, image, Place::Rva(slot))),
        Resolution::Endless { length } => Err(MapError::Cycle {
            fault: Fault {
                number: 50,
                image,
                place: Place::Rva(slot),
            },
            length,
        }),
    }
}

/// Binds the imports of image `number`, which has this layout, or returns the first of their faults 48 to 50. A module's name is
/// looked up once for consecutive imports from it, and a long name of an export once for all imports that share it. `buffer` is
/// scratch space for names.
pub(crate) fn bind_imports<'a, A: Allocator + Copy>(
    modules: &[Module<'a, A>],
    names: &Names<A>,
    policy: Policy,
    number: u16,
    layout: &Layout<'a>,
    imports: &[Import<'a>],
    bindings: &mut Vec<Binding, A>,
    ends: &mut Ends<'a, A>,
    buffer: &mut Vec<u8, A>,
) -> Result<(), MapError>
    requires few { length modules.now ≤ 256 }
    requires named { names_in names.now ≡ lowered (modules_view modules.now) }
    requires few_exports { pairs_of (modules_view modules.now) ≤ 2 ^ 25 }
    requires known { AreEnds (modules_view modules.now) ends.old }
    requires own { map import_view imports.now ≡ imports_of (image_of layout.now) }
    ensures known { OnOk result (AreEnds (modules_view modules.now) ends.new) }
    ensures exact { SetAnswers (first_error (flat_map (import_errors policy (modules_view modules.now) number) (map import_view imports.now)))
        (λ _. bindings.new.items ≡ bindings.old.items ++ filter_map (binding_of (modules_view modules.now) number) (map import_view imports.now)) result }
{
    let mut name: &[u8] = b"";
    let mut image = names.find(buffer, name)?;
    let places = places_of(ends.alloc, layout, imports)?;
    let mut remembered = Remembered::new(ends.alloc);
    let mut trails = Trails::new(ends.alloc);
    let mut index = 0usize;
    for import in imports {
        let beginning = names.beginning(import.module);
        if beginning != name {
            name = beginning;
            image = names.find(buffer, name)?;
        }
        let place = place_at(&places, index);
        index += 1;
        let resolution = resolve_once(
            modules,
            names,
            layout,
            import,
            place,
            image,
            ends,
            &mut remembered,
            &mut trails,
            buffer,
        )?;
        if let Some(binding) = bound(policy, number, import.slot, resolution)? {
            bindings.push(binding)?;
        }
    }
    Ok(())
}

/// Binds the imports of all images, image by image, or returns the first of their faults 48 to 50.
pub(crate) fn bind<A: Allocator + Copy>(
    alloc: A,
    modules: &[Module<A>],
    names: &Names<A>,
    policy: Policy,
) -> Result<Vec<Binding, A>, MapError>
    requires few { length modules.now ≤ 256 }
    requires named { names_in names.now ≡ lowered (modules_view modules.now) }
    requires few_exports { pairs_of (modules_view modules.now) ≤ 2 ^ 25 }
    requires own { All (λ (m : set.Module). m.imports ≡ imports_of m.image) (modules_view modules.now) }
    ensures exact { SetAnswers (first_error (imports_errors policy (modules_view modules.now))) (λ bindings. bindings.items ≡ bindings_of (modules_view modules.now)) result }
    ensures empty { length modules.now ≡ 0 → IsOk result }
{
    let mut bindings = Vec::new(alloc);
    let mut ends = Ends::new(alloc);
    let mut buffer = Vec::new(alloc);
    for (index, module) in modules.iter().enumerate() {
        bind_imports(
            modules,
            names,
            policy,
            index as u16,
            &module.image.layout,
            module.image.imports.as_slice(),
            &mut bindings,
            &mut ends,
            &mut buffer,
        )?;
    }
    Ok(bindings)
}
