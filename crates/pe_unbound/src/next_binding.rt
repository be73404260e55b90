//! `after_slot`: whether the next binding is that of an import.

ghost use Rattle.std.specs.Prelude.{◌≡◌, option_map};
ghost use Rattle.pe_unbound.specs.Unbound.{after_slot};

use pe_set::Binding;

/// The bindings after the first, if that is of this slot of an image; otherwise `None`.
pub fn after_slot(bindings: &[Binding], image: u16, slot: u32) -> Option<&[Binding]>
    ensures { option_map (λ left. left.now) result ≡ after_slot bindings.now image slot }
{
    let (binding, left) = bindings.split_first()?;
    if binding.image != image || binding.slot != slot {
        return None;
    }
    Some(left)
}
