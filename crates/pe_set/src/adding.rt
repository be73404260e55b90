//! `add_delayed`: the images of a set with their delay-loaded imports among their imports.

ghost use Rattle.std.specs.Prelude.{◌≡◌, ◌+◌, ◌<◌, ◌^◌, ◌&&◌, nat_lt, length, map, All, IsOk, OnOk};
ghost use Rattle.pe_ranges.specs.Ranges.{meets_any};
ghost use Rattle.pe_ranges.specs.RangesView.{ranges_in};
ghost use Rattle.pe_tables.specs.Fixups.{width_of};
ghost use Rattle.pe_tables.specs.ImportView.{import_view};
ghost use Rattle.pe_tables.specs.declared.fixups.Fixup.{Fixup};
ghost use Rattle.pe_set.specs.DelayedImports.{delayed_in, fields_beside, with_imports, with_delayed};
ghost use Rattle.pe_set.specs.DelayedView.{imports_view};
ghost use Rattle.pe_set.specs.SetView.{module_view, modules_view};
ghost use Rattle.pe_set.specs.Sound.{IsSoundImage};

use crate::delayed::slots_of;
use crate::reading::Module;
use pe_ranges::Ranges;
use pe_tables::{Fixup, Import};
use std::alloc::{AllocError, Allocator};

/// Whether a field shares a byte with one of these slots. No field of an image passes 2^32.
fn is_slot<A: Allocator + Copy>(slots: &Ranges<A>, fixup: &Fixup) -> bool
    ensures { result ≡ (nat_lt (fixup.now.field + width_of fixup.now.kind) (2 ^ 32) && meets_any fixup.now.field (width_of fixup.now.kind) (ranges_in slots.now)) }
{
    let width = fixup.kind.width();
    match fixup.field.checked_add(width) {
        Some(_) => slots.meets(fixup.field, width),
        None => false,
    }
}

/// Removes the fixups whose fields share a byte with one of these slots.
fn keep_fields<A: Allocator + Copy>(fixups: &mut Vec<Fixup, A>, slots: &Ranges<A>)
    requires { All (λ (f : Fixup). f.field + width_of f.kind < 2 ^ 32) fixups.old.items }
    ensures { fixups.new.items ≡ fields_beside (ranges_in slots.now) fixups.old.items }
{
    fixups.retain(|fixup| !is_slot(slots, fixup));
}

/// Adds delay-loaded imports to an image. Their slots are no fields of base relocations any more.
fn add_imports<'a, A: Allocator + Copy>(
    alloc: A,
    own: &mut Module<'a, A>,
    delayed: &[Import<'a>],
) -> Result<(), AllocError>
    requires { IsSoundImage (module_view own.old) }
    ensures { OnOk result (module_view own.new ≡ with_imports (map import_view delayed.now) (module_view own.old)) }
{
    let slots = slots_of(alloc, delayed, own.image.layout.slot_width())?;
    keep_fields(&mut own.image.fixups, &slots);
    own.image.imports.extend_from_slice(delayed)?;
    Ok(())
}

/// Adds to each image its delay-loaded imports that are bound.
pub(crate) fn add_delayed<'a, A: Allocator + Copy>(
    alloc: A,
    modules: &mut [Module<'a, A>],
    delayed: &[Vec<Import<'a>, A>],
) -> Result<(), AllocError>
    requires sound { All IsSoundImage (modules_view modules.old) }
    requires delayed { map imports_view delayed.now ≡ map (delayed_in (modules_view modules.old)) (modules_view modules.old) }
    ensures added { OnOk result (modules_view modules.new ≡ with_delayed (modules_view modules.old)) }
    ensures empty { length modules.old ≡ 0 → IsOk result }
{
    for (index, imports) in delayed.iter().enumerate() {
        add_imports(alloc, &mut modules[index], imports.as_slice())?;
    }
    Ok(())
}
