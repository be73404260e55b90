//! Laws about the definitions: their contracts are the laws, and a body at most names laws of other crates that one needs.

ghost use Rattle.std.specs.Prelude.{◌≡◌, ◌+◌, ◌<◌, ℕ, List, None, Some, Ok, length, slice_get, slice_index};
ghost use Rattle.pe_view.specs.Number.{digit};
ghost use Rattle.pe_tables.specs.Relocated.{shifted};
ghost use Rattle.pe_tables.specs.declared.fixups.Fixup.{Fixup};
ghost use Rattle.pe_set.specs.Bindings.{bindings_of};
ghost use Rattle.pe_set.specs.DelayedErrors.{delayed_error};
ghost use Rattle.pe_set.specs.DelayedImports.{with_delayed};
ghost use Rattle.pe_set.specs.Set.{Entry, Module, modules_of, at_bases};
ghost use Rattle.pe_set.specs.SetErrors.{set_error};
ghost use Rattle.pe_set.specs.declared.binding.Binding.{Binding};
ghost use Rattle.pe_set.specs.declared.entry.Policy.{Policy};
ghost use Rattle.pe_space.specs.Unbound.{bases_of, set_at};
ghost use Rattle.pe_space.specs.ByteCases.{HasByte, InBoundSlot, InFixup, IsOutside};
ghost use Rattle.pe_space.specs.Commands.{after_all};
ghost use Rattle.pe_space.specs.Content.{Content, byte_at, window_at};
ghost use Rattle.pe_space.specs.declared.reply.Command.{Command};
ghost use Rattle.pe_space.specs.SetContent.{content_of, defined_byte};

/// The byte that an accepted set defines at an address is, in a bound slot, a byte of the address that the slot holds; in a field,
/// a byte of the number relocated from ImageBase to the image's base; otherwise the byte that the file lays out. Outside images
/// there is none.
pub fn bytes_stand_by_cases()
    ensures slot { (policy : Policy) (es : List Entry) (i r k : ℕ) (m exporter : Module) (b : Binding) → set_error policy es ≡ None → let s = modules_of es in
        HasByte s i m r → InBoundSlot s i m r b k → slice_get s b.exporter ≡ Some exporter → defined_byte s (m.base + r) ≡ Some (digit (exporter.base + b.rva) k) }
    ensures field { (policy : Policy) (es : List Entry) (i r k : ℕ) (m : Module) (f : Fixup) → set_error policy es ≡ None → let s = modules_of es in
        HasByte s i m r → InFixup m r f k → defined_byte s (m.base + r) ≡ Some (digit (shifted m.image m.base f) k) }
    ensures plain { (policy : Policy) (es : List Entry) (i r : ℕ) (m : Module) → set_error policy es ≡ None → let s = modules_of es in
        HasByte s i m r → ((b : Binding) (k : ℕ) → InBoundSlot s i m r b k → ⊥) → ((f : Fixup) (k : ℕ) → InFixup m r f k → ⊥)
        → defined_byte s (m.base + r) ≡ Some (m.image.byte r) }
    ensures none { (es : List Entry) (a : ℕ) → IsOutside (modules_of es) a → defined_byte (modules_of es) a ≡ None }
{
    pe_set::laws::accepted_sets_are_sound();
}

/// A window has as many bytes as requested, and each is the byte at its address, in an image.
pub fn windows_have_each_byte()
    ensures count { (c : Content) (address n : ℕ) (bytes : List ℕ) → window_at c address n ≡ Ok bytes → length bytes ≡ n }
    ensures each { (c : Content) (address n k : ℕ) (bytes : List ℕ) → window_at c address n ≡ Ok bytes → k < n → byte_at c (address + k) ≡ Some (slice_index bytes k) }
{}

/// Other bases change only the bases in the content of a set, so that the content is right at all bases.
pub fn content_serves_at_all_bases()
    ensures content { (bases : List ℕ) (es : List Entry) → set_at bases (content_of (modules_of es)) ≡ content_of (modules_of (at_bases bases es)) }
    ensures bindings { (es : List Entry) → (content_of (modules_of es)).bindings ≡ bindings_of (modules_of es) }
    ensures bytes { (policy : Policy) (es : List Entry) (a : ℕ) → set_error policy es ≡ None
        → byte_at (content_of (modules_of es)) a ≡ defined_byte (modules_of es) a }
{
    pe_set::laws::accepted_sets_are_sound();
    pe_set::laws::bases_change_no_binding();
}

/// After any list of commands on a space of an accepted set, with accepted and refused moves, the files are accepted at the
/// current bases, and the space has the content of the same files there: each address has the byte that the format defines for the
/// files at their current bases, even if the space does not hold the files.
pub fn commands_keep_what_files_define()
    ensures accepted { (policy : Policy) (es : List Entry) (commands : List Command) → set_error policy es ≡ None → let c = after_all commands (content_of (modules_of es)) in
        set_error policy (at_bases (bases_of c) es) ≡ None }
    ensures content { (policy : Policy) (es : List Entry) (commands : List Command) → set_error policy es ≡ None → let c = after_all commands (content_of (modules_of es)) in
        c ≡ content_of (modules_of (at_bases (bases_of c) es)) }
    ensures bytes { (policy : Policy) (es : List Entry) (commands : List Command) (a : ℕ) → set_error policy es ≡ None → let c = after_all commands (content_of (modules_of es)) in
        byte_at c a ≡ defined_byte (modules_of (at_bases (bases_of c) es)) a }
{
    pe_set::laws::accepted_sets_are_sound();
    pe_set::laws::bases_change_no_binding();
    pe_set::laws::moves_keep_acceptance();
}

/// The byte that a set defines that is accepted with its delay-loaded imports: as [`bytes_stand_by_cases`] has it, where the slots of
/// the delay-loaded imports that are bound are bound slots too, and no fields.
pub fn delayed_bytes_stand_by_cases()
    ensures slot { (policy : Policy) (es : List Entry) (i r k : ℕ) (m exporter : Module) (b : Binding) → delayed_error policy es ≡ None → let s = with_delayed (modules_of es) in
        HasByte s i m r → InBoundSlot s i m r b k → slice_get s b.exporter ≡ Some exporter → defined_byte s (m.base + r) ≡ Some (digit (exporter.base + b.rva) k) }
    ensures field { (policy : Policy) (es : List Entry) (i r k : ℕ) (m : Module) (f : Fixup) → delayed_error policy es ≡ None → let s = with_delayed (modules_of es) in
        HasByte s i m r → InFixup m r f k → defined_byte s (m.base + r) ≡ Some (digit (shifted m.image m.base f) k) }
    ensures plain { (policy : Policy) (es : List Entry) (i r : ℕ) (m : Module) → delayed_error policy es ≡ None → let s = with_delayed (modules_of es) in
        HasByte s i m r → ((b : Binding) (k : ℕ) → InBoundSlot s i m r b k → ⊥) → ((f : Fixup) (k : ℕ) → InFixup m r f k → ⊥)
        → defined_byte s (m.base + r) ≡ Some (m.image.byte r) }
    ensures none { (es : List Entry) (a : ℕ) → IsOutside (with_delayed (modules_of es)) a → defined_byte (with_delayed (modules_of es)) a ≡ None }
{
    pe_set::laws::delayed_sets_are_sound();
}

/// Other bases change only the bases in the content of a set with its delay-loaded imports, so that the content is right at all
/// bases.
pub fn delayed_content_serves_at_all_bases()
    ensures content { (bases : List ℕ) (es : List Entry) → set_at bases (content_of (with_delayed (modules_of es))) ≡ content_of (with_delayed (modules_of (at_bases bases es))) }
    ensures bindings { (es : List Entry) → (content_of (with_delayed (modules_of es))).bindings ≡ bindings_of (with_delayed (modules_of es)) }
    ensures bytes { (policy : Policy) (es : List Entry) (a : ℕ) → delayed_error policy es ≡ None
        → byte_at (content_of (with_delayed (modules_of es))) a ≡ defined_byte (with_delayed (modules_of es)) a }
{
    pe_set::laws::delayed_sets_are_sound();
    pe_set::laws::bases_change_no_delayed_binding();
}

/// After any list of commands on a space of a set that is accepted with its delay-loaded imports, the files are so accepted at the
/// current bases, and the space has the content of the same files there, as [`commands_keep_what_files_define`] has it.
pub fn commands_keep_what_delayed_files_define()
    ensures accepted { (policy : Policy) (es : List Entry) (commands : List Command) → delayed_error policy es ≡ None → let c = after_all commands (content_of (with_delayed (modules_of es))) in
        delayed_error policy (at_bases (bases_of c) es) ≡ None }
    ensures content { (policy : Policy) (es : List Entry) (commands : List Command) → delayed_error policy es ≡ None → let c = after_all commands (content_of (with_delayed (modules_of es))) in
        c ≡ content_of (with_delayed (modules_of (at_bases (bases_of c) es))) }
    ensures bytes { (policy : Policy) (es : List Entry) (commands : List Command) (a : ℕ) → delayed_error policy es ≡ None → let c = after_all commands (content_of (with_delayed (modules_of es))) in
        byte_at c a ≡ defined_byte (with_delayed (modules_of (at_bases (bases_of c) es))) a }
{
    pe_set::laws::delayed_sets_are_sound();
    pe_set::laws::bases_change_no_delayed_binding();
    pe_set::laws::delayed_sets_stay_accepted();
}
