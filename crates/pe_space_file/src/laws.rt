//! Laws about the bytes of images.

ghost use Rattle.std.specs.Prelude.{◌≡◌, ◌+◌, ◌<◌, ℕ, List, None, Some, length, slice_get, slice_index};
ghost use Rattle.pe_set.specs.DelayedErrors.{delayed_error};
ghost use Rattle.pe_set.specs.DelayedImports.{with_delayed};
ghost use Rattle.pe_set.specs.Set.{Entry, Module, modules_of};
ghost use Rattle.pe_set.specs.SetErrors.{set_error};
ghost use Rattle.pe_set.specs.declared.entry.Policy.{Policy};
ghost use Rattle.pe_space.specs.SetContent.{content_of, defined_byte};
ghost use Rattle.pe_space_file.specs.ImageBytes.{image_bytes};

/// The bytes of an image of an accepted set are SizeOfImage many, and each is the byte that the set defines at its address: of a
/// bound slot, or else of a relocated field, or else as the file lays it out.
pub fn images_have_defined_bytes()
    ensures size { (policy : Policy) (es : List Entry) (number : ℕ) (m : Module) → set_error policy es ≡ None → slice_get (modules_of es) number ≡ Some m
        → length (image_bytes (content_of (modules_of es)) number) ≡ m.image.size }
    ensures each { (policy : Policy) (es : List Entry) (number k : ℕ) (m : Module) → set_error policy es ≡ None → slice_get (modules_of es) number ≡ Some m
        → k < m.image.size → defined_byte (modules_of es) (m.base + k) ≡ Some (slice_index (image_bytes (content_of (modules_of es)) number) k) }
{
    pe_set::laws::accepted_sets_are_sound();
    pe_space::laws::content_serves_at_all_bases();
    pe_space::laws::windows_have_each_byte();
}

/// The same of the images of a set that is accepted with its delay-loaded imports, as [`crate::MappedImages::open_delayed`] opens it.
pub fn delayed_images_have_defined_bytes()
    ensures size { (policy : Policy) (es : List Entry) (number : ℕ) (m : Module) → delayed_error policy es ≡ None → let s = with_delayed (modules_of es) in
        slice_get s number ≡ Some m → length (image_bytes (content_of s) number) ≡ m.image.size }
    ensures each { (policy : Policy) (es : List Entry) (number k : ℕ) (m : Module) → delayed_error policy es ≡ None → let s = with_delayed (modules_of es) in
        slice_get s number ≡ Some m → k < m.image.size → defined_byte s (m.base + k) ≡ Some (slice_index (image_bytes (content_of s) number) k) }
{
    pe_set::laws::delayed_sets_are_sound();
    pe_space::laws::delayed_content_serves_at_all_bases();
    pe_space::laws::windows_have_each_byte();
}
