//! The imports of a set that are bound to nothing, whose slots `map` leaves as they are.

ghost use Rattle.std.specs.Prelude.{◌≡◌, ◌++◌, ◌<◌, ◌≤◌, ◌⊎◌, ℕ, List, All, None, Some, length, map, flat_map, option_map, unwrap_or, IfOk, IsOk, OnOk, OnErr};
ghost use Rattle.std.specs.List.{filter_map};
ghost use Rattle.pe_view.specs.Faults.{first_standing};
ghost use Rattle.pe_tables.specs.ImportView.{import_view};
ghost use Rattle.pe_set.specs.Bindings.{binding_of, bindings_of};
ghost use Rattle.pe_set.specs.Set as set;
ghost use Rattle.pe_set.specs.Set.{modules_of};
ghost use Rattle.pe_set.specs.SetErrors.{set_error};
ghost use Rattle.pe_set.specs.SetFaults.{names_tests};
ghost use Rattle.pe_set.specs.SetView.{entries_of, modules_view};
ghost use Rattle.pe_set.specs.declared.binding.Binding.{Binding};
ghost use Rattle.pe_text.specs.TextWriter.{IsReady, Adds};
ghost use Rattle.pe_unbound.specs.Unbound.{unbound_import, unbound_of, after_slot, kept_unless, HaveOwnSlots};
ghost use Rattle.pe_map_lines.specs.UnboundImports.{unbound_line, unbound_view, told_after};

use pe_lines::write_key;
use pe_set::{Binding, MapError, Module, Policy, SetEntry, judge};
use pe_tables::Import;
use pe_text::{Outcome, Sink, TextWriter};
use pe_unbound::after_slot;
use std::alloc::{AllocError, Allocator};

/// An import that is bound to nothing.
#[derive(Clone, Copy)]
pub(crate) struct UnboundImport<'a> {
    /// The number of its image.
    image: u16,
    import: Import<'a>,
}

/// Adds an import of an image unless the first binding is that of its slot, and returns the bindings of later imports.
fn gather_one<'a, 'b, A: Allocator + Copy>(
    number: u16,
    import: &Import<'a>,
    bindings: &'b [Binding],
    unbound: &mut Vec<UnboundImport<'a>, A>,
) -> Result<&'b [Binding], AllocError>
    ensures left { IfOk result (λ left. left.now ≡ unwrap_or (after_slot bindings.now number import.now.slot) bindings.now) }
    ensures kept { OnOk result (map unbound_view unbound.new.items
        ≡ map unbound_view unbound.old.items ++ kept_unless (after_slot bindings.now number import.now.slot) (number, import_view import.now)) }
{
    let Some(left) = after_slot(bindings, number, import.slot) else {
        unbound.push(UnboundImport {
            image: number,
            import: *import,
        })?;
        return Ok(bindings);
    };
    Ok(left)
}

/// Adds the imports of an image that are bound to nothing, and returns the bindings of later images. `bindings` are those of this
/// image and later ones.
fn gather<'a, 'b, A: Allocator + Copy>(
    number: u16,
    imports: &[Import<'a>],
    bindings: &'b [Binding],
    unbound: &mut Vec<UnboundImport<'a>, A>,
) -> Result<&'b [Binding], AllocError>
    ensures { IfOk result (λ left. (s : List set.Module) (later : List Binding)
        → bindings.now ≡ filter_map (binding_of s number) (map import_view imports.now) ++ later
        → All (λ b. number < b.image) later → HaveOwnSlots (map import_view imports.now)
        → (left.now ≡ later) × (map unbound_view unbound.new.items
        ≡ map unbound_view unbound.old.items ++ filter_map (unbound_import s number) (map import_view imports.now))) }
{
    let mut left = bindings;
    for import in imports {
        left = gather_one(number, import, left, unbound)?;
    }
    Ok(left)
}

/// The imports of the images of a set that are bound to nothing, given all bindings of the set.
fn gather_all<'a, A: Allocator + Copy>(
    alloc: A,
    modules: &[Module<'a, A>],
    bindings: &[Binding],
) -> Result<Vec<UnboundImport<'a>, A>, AllocError>
    requires few { length modules.now ≤ 256 }
    requires bound { bindings.now ≡ bindings_of (modules_view modules.now) }
    requires apart { All (λ (m : set.Module). HaveOwnSlots m.imports) (modules_view modules.now) }
    ensures exact { IfOk result (λ unbound. map unbound_view unbound.items ≡ unbound_of (modules_view modules.now)) }
    ensures empty { length modules.now ≡ 0 → IsOk result }
{
    let mut unbound = Vec::new(alloc);
    let mut left = bindings;
    for (number, module) in modules.iter().enumerate() {
        let imports = module.image.imports.as_slice();
        left = gather(number as u16, imports, left, &mut unbound)?;
    }
    Ok(unbound)
}

/// The imports of a set that are bound to nothing, by image and then in the order of its imports; none if the set is refused.
pub(crate) fn unbound_imports<'a, A: Allocator + Copy>(
    alloc: A,
    set: &[SetEntry<'a>],
    policy: Policy,
) -> Result<Vec<UnboundImport<'a>, A>, AllocError>
    ensures exact { IfOk result (λ unbound. set_error policy (entries_of set.now) ≡ None
        → map unbound_view unbound.items ≡ unbound_of (modules_of (entries_of set.now))) }
    ensures no_memory { (length set.now ≡ 0) ⊎ (256 < length set.now) → IsOk result }
    ensures named { OnErr result (first_standing (names_tests (entries_of set.now)) ≡ None) }
{
    pe_layout::laws::images_are_small();
    pe_tables::laws::slots_are_apart();
    pe_tables::laws::fields_are_apart();
    pe_tables::laws::targets_are_inside();
    pe_set::laws::accepted_sets_have_no_fault();
    match judge(alloc, set, policy) {
        Ok(accepted) => gather_all(alloc, &accepted.modules, &accepted.bindings),
        Err(MapError::Memory) => Err(AllocError),
        Err(_) => Ok(Vec::new(alloc)),
    }
}

/// Adds the line of an import that is bound to nothing.
#[tactic(auto, unfolding(crate::specs::UnboundImports::unbound_line))]
fn write_import<W: Sink>(line: &mut TextWriter<W>, unbound: &UnboundImport)
    requires { IsReady W.failures line.old }
    ensures { Adds W.taken W.failures line.old line.new (unbound_line (unbound_view unbound.now)) }
{
    line.text(b"unbound ");
    line.decimal(unbound.image as u64);
    line.text(b" 0x");
    line.hex(8, unbound.import.slot as u64);
    line.text(b" ");
    line.quoted(unbound.import.module);
    line.text(b" ");
    write_key(line, &unbound.import.key);
    line.text(b"\n");
}

/// What is told after an outcome: the imports that are bound to nothing after a report, and nothing after a refusal.
pub(crate) fn told_after<'s, 'a>(
    outcome: Outcome,
    unbound: &'s [UnboundImport<'a>],
) -> &'s [UnboundImport<'a>]
    ensures { result.now ≡ told_after outcome unbound.now }
{
    match outcome {
        Outcome::Done => unbound,
        Outcome::Refused(_) => &unbound[..0],
    }
}

/// Adds a line for each import that is bound to nothing.
pub(crate) fn write_unbound<W: Sink>(text: &mut TextWriter<W>, unbound: &[UnboundImport])
    requires { IsReady W.failures text.old }
    ensures { Adds W.taken W.failures text.old text.new (flat_map unbound_line (map unbound_view unbound.now)) }
{
    for import in unbound {
        write_import(text, import);
    }
}
