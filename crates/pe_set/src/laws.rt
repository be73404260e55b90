//! What the definitions mean, as laws. The contract of each function here is a law, and its body only calls the laws of other
//! crates that it uses.

ghost use Rattle.std.specs.Prelude.{◌≡◌, ◌≤◌, ◌*◌, ◌^◌, ◌↔◌, ℕ, List, [], None, Some, All, length, slice_set, map};
ghost use Rattle.pe_view.specs.Faults.{first_standing};
ghost use Rattle.pe_view.specs.declared.fault.Fault.{Fault};
ghost use Rattle.pe_tables.specs.Key.{Key};
ghost use Rattle.pe_tables.specs.Imports.{Import};
ghost use Rattle.pe_set.specs.Set.{Entry, Module, modules_of, placement_of, bases_of, at_bases, rebased, AreAlike};
ghost use Rattle.pe_set.specs.Search.{resolve, pairs_of};
ghost use Rattle.pe_set.specs.SearchEnds.{EndsAfter, EndsAs, IsEndless};
ghost use Rattle.pe_set.specs.declared.search.Resolution.{Resolution};
ghost use Rattle.pe_set.specs.Bindings.{binding_of, bindings_of};
ghost use Rattle.pe_set.specs.BoundImports.{IsBindingOf};
ghost use Rattle.pe_set.specs.declared.binding.Binding.{Binding};
ghost use Rattle.pe_set.specs.Placement.{move_tests};
ghost use Rattle.pe_set.specs.SetFaults.{names_tests, files_tests, places_tests};
ghost use Rattle.pe_set.specs.SetErrors.{imports_errors, first_error, set_error, IsCycleOf};
ghost use Rattle.pe_set.specs.declared.error.MapError.TheVariants as errors;
ghost use Rattle.pe_set.specs.DelayedErrors.{delayed_error};
ghost use Rattle.pe_set.specs.DelayedImports.{with_delayed};
ghost use Rattle.pe_set.specs.Sound.{IsSound, IsSoundImage};
ghost use Rattle.pe_set.specs.declared.entry.Policy.{Policy};

/// Each search ends in exactly one way, after any number of hops: at an RVA of an image, at a module that is not in the set, at an
/// export that does not exist; or it never ends, and runs in a cycle. The length of the cycle is the least number above 0 such that
/// the search, from some hop on, is at the same image and key again that many hops later.
pub fn searches_end_in_one_way()
    ensures ends { (s : List Module) (name : List ℕ) (key : Key) → EndsAs s (name, key) (resolve s name key) }
    ensures one { (s : List Module) (name : List ℕ) (key : Key) (end : Resolution) → EndsAs s (name, key) end → end ≡ resolve s name key }
{}

/// A search that ends, or does not run in a cycle, ends after at most as many hops as the exports of the set's images have pairs
/// together.
pub fn searches_end_soon()
    ensures within { (s : List Module) (start : List ℕ × Key) (hops : ℕ) (end : Resolution) → EndsAfter s start hops end → hops ≤ pairs_of s }
    ensures ends { (s : List Module) (start : List ℕ × Key) → (IsEndless s start → ⊥)
        → (hops : ℕ) × (end : Resolution) × (hops ≤ pairs_of s) × EndsAfter s start hops end }
{}

/// The slot of an import is bound exactly if its search ends at an RVA of an image, and then to that.
pub fn slots_are_bound_to_their_exports()
    ensures { (s : List Module) (i : ℕ) (x : Import) (b : Binding) → (binding_of s i x ≡ Some b) ↔ IsBindingOf s i x b }
{
    searches_end_in_one_way();
}

/// The errors of a set come class by class: the first fault of its names, else of its files, else of its places, else the first
/// error of an import.
pub fn errors_count_class_by_class()
    ensures names { (policy : Policy) (es : List Entry) (fault : Fault) → first_standing (names_tests es) ≡ Some fault → set_error policy es ≡ Some (errors.Fault fault) }
    ensures files { (policy : Policy) (es : List Entry) (fault : Fault) → first_standing (names_tests es) ≡ None → first_standing (files_tests es) ≡ Some fault
        → set_error policy es ≡ Some (errors.Fault fault) }
    ensures places { (policy : Policy) (es : List Entry) (fault : Fault) → first_standing (names_tests es) ≡ None → first_standing (files_tests es) ≡ None
        → first_standing (places_tests (modules_of es)) ≡ Some fault → set_error policy es ≡ Some (errors.Fault fault) }
    ensures imports { (policy : Policy) (es : List Entry) → first_standing (names_tests es) ≡ None → first_standing (files_tests es) ≡ None
        → first_standing (places_tests (modules_of es)) ≡ None → set_error policy es ≡ first_error (imports_errors policy (modules_of es)) }
{}

/// An accepted set has no fault of its names, files or places, and no error of an import.
pub fn accepted_sets_have_no_fault()
    ensures names { (policy : Policy) (es : List Entry) → set_error policy es ≡ None → first_standing (names_tests es) ≡ None }
    ensures files { (policy : Policy) (es : List Entry) → set_error policy es ≡ None → first_standing (files_tests es) ≡ None }
    ensures places { (policy : Policy) (es : List Entry) → set_error policy es ≡ None → first_standing (places_tests (modules_of es)) ≡ None }
    ensures imports { (policy : Policy) (es : List Entry) → set_error policy es ≡ None → imports_errors policy (modules_of es) ≡ [] }
{}

/// The error of a set is a cycle only if the search for one of its imports runs in a cycle of this length: its fault is 50, at the
/// slot of that import.
pub fn cycles_are_of_endless_searches()
    ensures { (policy : Policy) (es : List Entry) (fault : Fault) (length : ℕ) → set_error policy es ≡ Some (errors.Cycle fault length) → IsCycleOf (modules_of es) fault length }
{}

/// The images of files without a fault have bytes, and their fields lie in them and share no byte.
pub fn images_are_sound()
    ensures { (es : List Entry) → first_standing (files_tests es) ≡ None → All IsSoundImage (modules_of es) }
{
    pe_layout::laws::images_are_small();
    pe_tables::laws::slots_are_apart();
    pe_tables::laws::fields_are_apart();
    pe_tables::laws::targets_are_inside();
}

/// The fields and bound slots of an accepted set lie in its images and share no byte, the exports that slots are bound to lie in
/// its images, and its images share no address.
pub fn accepted_sets_are_sound()
    ensures sound { (policy : Policy) (es : List Entry) → set_error policy es ≡ None → IsSound (modules_of es) }
    ensures few_slots { (policy : Policy) (es : List Entry) → set_error policy es ≡ None → length (bindings_of (modules_of es)) ≤ 256 * 1048576 }
{
    pe_layout::laws::images_are_small();
    pe_tables::laws::slots_are_apart();
    pe_tables::laws::fields_are_apart();
    pe_tables::laws::targets_are_inside();
}

/// The same holds of a set that is accepted with its delay-loaded imports, for the images with these. It has no fault of its names,
/// files or places either, nor an error of an import or a delay-loaded import that is bound.
pub fn delayed_sets_are_sound()
    ensures sound { (policy : Policy) (es : List Entry) → delayed_error policy es ≡ None → IsSound (with_delayed (modules_of es)) }
    ensures names { (policy : Policy) (es : List Entry) → delayed_error policy es ≡ None → first_standing (names_tests es) ≡ None }
    ensures files { (policy : Policy) (es : List Entry) → delayed_error policy es ≡ None → first_standing (files_tests es) ≡ None }
    ensures places { (policy : Policy) (es : List Entry) → delayed_error policy es ≡ None → first_standing (places_tests (modules_of es)) ≡ None }
    ensures imports { (policy : Policy) (es : List Entry) → delayed_error policy es ≡ None → imports_errors policy (with_delayed (modules_of es)) ≡ [] }
{
    pe_layout::laws::images_are_small();
    pe_tables::laws::slots_are_apart();
    pe_tables::laws::fields_are_apart();
    pe_tables::laws::targets_are_inside();
    pe_delay::laws::delay_slots_are_inside();
}

/// A set that is accepted with its delay-loaded imports is accepted without them.
pub fn delayed_sets_are_accepted_without()
    ensures { (policy : Policy) (es : List Entry) → delayed_error policy es ≡ None → set_error policy es ≡ None }
{
    errors_count_class_by_class();
    delayed_sets_are_sound();
}

/// The exports of the images of a set have at most 2^25 pairs together, if names and files of the set have no fault.
pub fn sets_export_little()
    ensures { (es : List Entry) → first_standing (names_tests es) ≡ None → first_standing (files_tests es) ≡ None → pairs_of (modules_of es) ≤ 2 ^ 25 }
{
    pe_tables::laws::exports_are_few();
}

/// What slots are bound to depends only on the names, exports and imports of the images.
pub fn tables_decide_bindings()
    ensures { (s t : List Module) → AreAlike s t → bindings_of s ≡ bindings_of t }
{}

/// What slots are bound to does not depend on bases, which change only where images are.
pub fn bases_change_no_binding()
    ensures images { (bases : List ℕ) (es : List Entry) → modules_of (at_bases bases es) ≡ rebased bases (modules_of es) }
    ensures bindings { (bases : List ℕ) (es : List Entry) → bindings_of (modules_of (at_bases bases es)) ≡ bindings_of (modules_of es) }
{}

/// Bases decide only faults 44 to 47: a set that is accepted at some bases is accepted at all others at which its images may be.
pub fn accepted_where_placed()
    ensures { (policy : Policy) (es : List Entry) (bases : List ℕ) → set_error policy es ≡ None
        → first_standing (places_tests (modules_of (at_bases bases es))) ≡ None → set_error policy (at_bases bases es) ≡ None }
{}

/// An accepted set stays accepted after a move of one of its images, if the move has no fault.
pub fn moves_keep_acceptance()
    ensures { (policy : Policy) (es : List Entry) (i base : ℕ) → set_error policy es ≡ None
        → first_standing (move_tests (map placement_of (modules_of es)) i base) ≡ None
        → set_error policy (at_bases (slice_set (bases_of es) i base) es) ≡ None }
{}

/// Nor do the delay-loaded imports that are bound depend on bases, nor what their slots are bound to.
pub fn bases_change_no_delayed_binding()
    ensures images { (bases : List ℕ) (es : List Entry) → with_delayed (modules_of (at_bases bases es)) ≡ rebased bases (with_delayed (modules_of es)) }
    ensures bindings { (bases : List ℕ) (es : List Entry) → bindings_of (with_delayed (modules_of (at_bases bases es))) ≡ bindings_of (with_delayed (modules_of es)) }
{}

/// A set that is accepted with its delay-loaded imports is so at all other bases at which its images may be, and after a move of one
/// of its images, if the move has no fault.
pub fn delayed_sets_stay_accepted()
    ensures placed { (policy : Policy) (es : List Entry) (bases : List ℕ) → delayed_error policy es ≡ None
        → first_standing (places_tests (modules_of (at_bases bases es))) ≡ None → delayed_error policy (at_bases bases es) ≡ None }
    ensures moved { (policy : Policy) (es : List Entry) (i base : ℕ) → delayed_error policy es ≡ None
        → first_standing (move_tests (map placement_of (modules_of es)) i base) ≡ None
        → delayed_error policy (at_bases (slice_set (bases_of es) i base) es) ≡ None }
{}
