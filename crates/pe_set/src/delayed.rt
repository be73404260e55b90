//! The delay-loaded imports of images, bound together with the imports.

ghost use Rattle.std.specs.Prelude.{◌≡◌, ◌++◌, ◌+◌, ◌<◌, ◌≤◌, ◌^◌, ◌==◌, [], ◌∷◌, false, not, length, map, All, IsOk, IfOk, OnOk, option_to_list, if◌then◌else◌};
ghost use Rattle.std.specs.List.{filter_map, flat_map, list_any};
ghost use Rattle.pe_layout.specs.Layout.{image_of};
ghost use Rattle.pe_ranges.specs.Ranges.{Gains, SameRanges, meets_any};
ghost use Rattle.pe_ranges.specs.RangesView.{ranges_in};
ghost use Rattle.pe_tables.specs.Imports.{imports_of};
ghost use Rattle.pe_tables.specs.ImportView.{import_view};
ghost use Rattle.pe_set.specs.Bindings.{bound_to, binding_of, bindings_of};
ghost use Rattle.pe_set.specs.DelayedImports.{slot_ranges, with_own_slots, stays_inside, staying, delayed_in, with_delayed};
ghost use Rattle.pe_set.specs.DelayedView.{imports_view};
ghost use Rattle.pe_set.specs.EndsView.{AreEnds};
ghost use Rattle.pe_set.specs.NamesView.{names_in, lowered};
ghost use Rattle.pe_set.specs.Search.{pairs_of};
ghost use Rattle.pe_set.specs.Set as set;
ghost use Rattle.pe_set.specs.SetErrors.{SetAnswers, end_errors, first_error, import_errors, imports_errors};
ghost use Rattle.pe_set.specs.SetView.{modules_view};

use crate::binding::{Binding, bind_imports, bound};
use crate::ends::Ends;
use crate::entry::Policy;
use crate::error::MapError;
use crate::module_names::Names;
use crate::reading::Module;
use crate::remembered::{Remembered, place_at};
use crate::search::{Resolution, resolve_once};
use crate::trails::Trails;
use pe_delay::laws::{delay_imports_have_their_names, delay_slots_are_inside};
use pe_delay::read_named_delay_imports;
use pe_layout::Layout;
use pe_ranges::Ranges;
use pe_tables::Import;
use std::alloc::{AllocError, Allocator};

/// The bytes of the slots of imports, each of `width` bytes.
pub(crate) fn slots_of<A: Allocator + Copy>(
    alloc: A,
    imports: &[Import],
    width: u32,
) -> Result<Ranges<A>, AllocError>
    ensures { IfOk result (λ slots. SameRanges (ranges_in slots) (slot_ranges width (map import_view imports.now))) }
{
    let mut slots = Ranges::new(alloc);
    for import in imports {
        slots.add(import.slot, width)?;
    }
    Ok(slots)
}

/// Adds a slot to others of its width, and returns whether it shares a byte with one of them.
fn add_slot<A: Allocator + Copy>(
    slots: &mut Ranges<A>,
    slot: u32,
    width: u32,
) -> Result<bool, AllocError>
    requires small { slot + width < 2 ^ 32 }
    requires widths { list_any (λ range. not (range.1 == width)) (ranges_in slots.old) ≡ false }
    ensures meets { IfOk result (λ meets. meets ≡ meets_any slot width (ranges_in slots.old)) }
    ensures gains { OnOk result (Gains (ranges_in slots.old) (ranges_in slots.new) (slot, width)) }
{
    let meets = slots.meets(slot, width);
    slots.add(slot, width)?;
    Ok(meets)
}

/// Binds a delay-loaded import of image `number` by how the search for it ended, and adds it to `delayed`; or returns its fault 49
/// or 50. It is left as it is if its slot of `width` bytes shares a byte with one of `slots`, to which that is added, or if the
/// search came to a module that is not in the set.
fn bind_one<'a, A: Allocator + Copy>(
    number: u16,
    import: &Import<'a>,
    resolution: Resolution,
    width: u32,
    slots: &mut Ranges<A>,
    bindings: &mut Vec<Binding, A>,
    delayed: &mut Vec<Import<'a>, A>,
) -> Result<(), MapError>
    requires small { import.now.slot + width < 2 ^ 32 }
    requires widths { list_any (λ range. not (range.1 == width)) (ranges_in slots.old) ≡ false }
    ensures gains { OnOk result (Gains (ranges_in slots.old) (ranges_in slots.new) (import.now.slot, width)) }
    ensures exact { SetAnswers (first_error (if meets_any import.now.slot width (ranges_in slots.old) then [] else end_errors Policy.Known number import.now.slot resolution))
        (λ _. bindings.new.items ≡ bindings.old.items ++ (if meets_any import.now.slot width (ranges_in slots.old) then [] else option_to_list (bound_to number import.now.slot resolution))) result }
    ensures kept { OnOk result (map import_view delayed.new.items ≡ map import_view delayed.old.items ++ (if meets_any import.now.slot width (ranges_in slots.old) then [] else (if stays_inside resolution then import_view import.now ∷ [] else []))) }
{
    if add_slot(slots, import.slot, width)? {
        return Ok(());
    }
    if let Some(binding) = bound(Policy::Known, number, import.slot, resolution)? {
        bindings.push(binding)?;
        delayed.push(*import)?;
    }
    Ok(())
}

/// Binds the delay-loaded imports of image `number`, which has this layout and these imports, and returns those that are bound, or
/// the first of their faults 49 and 50. `buffer` is scratch space for names.
///
/// They are searched as imports are: a long name of an export once for all that share it.
fn bind_delayed<'a, A: Allocator + Copy>(
    modules: &[Module<'a, A>],
    names: &Names<A>,
    number: u16,
    layout: &Layout<'a>,
    imports: &[Import<'a>],
    bindings: &mut Vec<Binding, A>,
    ends: &mut Ends<'a, A>,
    buffer: &mut Vec<u8, A>,
) -> Result<Vec<Import<'a>, A>, MapError>
    requires few { length modules.now ≤ 256 }
    requires named { names_in names.now ≡ lowered (modules_view modules.now) }
    requires few_exports { pairs_of (modules_view modules.now) ≤ 2 ^ 25 }
    requires known { AreEnds (modules_view modules.now) ends.old }
    ensures known { OnOk result (AreEnds (modules_view modules.now) ends.new) }
    ensures exact { let own = with_own_slots (image_of layout.now) (map import_view imports.now) in
        SetAnswers (first_error (flat_map (import_errors Policy.Known (modules_view modules.now) number) own))
        (λ _. bindings.new.items ≡ bindings.old.items ++ filter_map (binding_of (modules_view modules.now) number) own) result }
    ensures kept { IfOk result (λ delayed. map import_view delayed.items ≡ staying (modules_view modules.now) (with_own_slots (image_of layout.now) (map import_view imports.now))) }
{
    delay_imports_have_their_names();
    delay_slots_are_inside();
    let found = read_named_delay_imports(ends.alloc, layout)?;
    let width = layout.slot_width();
    let mut slots = slots_of(ends.alloc, imports, width)?;
    let mut remembered = Remembered::new(ends.alloc);
    let mut trails = Trails::new(ends.alloc);
    let mut delayed = Vec::new(ends.alloc);
    for (index, import) in found.imports.iter().enumerate() {
        let image = names.find(buffer, import.module)?;
        let place = place_at(&found.name_rvas, index);
        let resolution = resolve_once(
            modules,
            names,
            layout,
            import,
            place,
            image,
            ends,
            &mut remembered,
            &mut trails,
            buffer,
        )?;
        bind_one(
            number,
            import,
            resolution,
            width,
            &mut slots,
            bindings,
            &mut delayed,
        )?;
    }
    Ok(delayed)
}

/// The bindings of a set's imports and delay-loaded imports, and the latter of each image, as far as they are bound.
#[derive(Drop)]
pub(crate) struct BoundDelayed<'a, A: Allocator> {
    pub bindings: Vec<Binding, A>,
    pub imports: Vec<Vec<Import<'a>, A>, A>,
}

/// Binds the imports and the delay-loaded imports of all images, image by image, or returns the first of their faults 48 to 50.
pub(crate) fn bind_with_delayed<'a, A: Allocator + Copy>(
    alloc: A,
    modules: &[Module<'a, A>],
    names: &Names<A>,
    policy: Policy,
) -> Result<BoundDelayed<'a, A>, MapError>
    requires few { length modules.now ≤ 256 }
    requires named { names_in names.now ≡ lowered (modules_view modules.now) }
    requires few_exports { pairs_of (modules_view modules.now) ≤ 2 ^ 25 }
    requires own { All (λ (m : set.Module). m.imports ≡ imports_of m.image) (modules_view modules.now) }
    ensures exact { SetAnswers (first_error (imports_errors policy (with_delayed (modules_view modules.now))))
        (λ bound. bound.bindings.items ≡ bindings_of (with_delayed (modules_view modules.now))) result }
    ensures kept { IfOk result (λ bound. map imports_view bound.imports.items ≡ map (delayed_in (modules_view modules.now)) (modules_view modules.now)) }
    ensures empty { length modules.now ≡ 0 → IsOk result }
{
    let mut bindings = Vec::new(alloc);
    let mut imports = Vec::new(alloc);
    let mut ends = Ends::new(alloc);
    let mut buffer = Vec::new(alloc);
    for (index, module) in modules.iter().enumerate() {
        bind_imports(
            modules,
            names,
            policy,
            index as u16,
            &module.image.layout,
            module.image.imports.as_slice(),
            &mut bindings,
            &mut ends,
            &mut buffer,
        )?;
        let delayed = bind_delayed(
            modules,
            names,
            index as u16,
            &module.image.layout,
            module.image.imports.as_slice(),
            &mut bindings,
            &mut ends,
            &mut buffer,
        )?;
        imports.push(delayed)?;
    }
    Ok(BoundDelayed { bindings, imports })
}
