//! Spaces read from several threads: `petool_space_share`.

ghost use Rattle.std.specs.Prelude.{◌≡◌, ◌⊎◌, false, true, None};
ghost use Rattle.pe_handle.specs.Held.{space_of, is_shared};

use pe_handle::{Handle, share};
use pe_records_c::status;
use std::alloc::Global;

/// Makes `other` a second handle of a space, after closing what it held. Another thread may use it. The space is freed when the last
/// of its handles is closed; as long as it has more than one, it is not moved.
///
/// The status is 0, and then `other` is open if `space` is, and closed otherwise; or 2, out of memory, which leaves `other` closed,
/// and never comes if `space` is closed.
#[unsafe(no_mangle)]
pub extern "C" fn petool_space_share(alloc: Global, space: &mut Handle, other: &mut Handle) -> u32
    ensures status { (result ≡ 0) ⊎ (result ≡ 2) }
    ensures same { result ≡ 0 → space_of other.new.owner ≡ space_of space.old.owner }
    ensures open { result ≡ 0 → other.new.is_open ≡ space.old.is_open }
    ensures shared { result ≡ 0 → is_shared space.new.owner ≡ space.old.is_open }
    ensures both { result ≡ 0 → is_shared other.new.owner ≡ space.old.is_open }
    ensures none { result ≡ 2 → other.new.owner ≡ None }
    ensures shut { result ≡ 2 → other.new.is_open ≡ false }
    ensures memory { result ≡ 2 → space.old.is_open ≡ true }
    ensures space_kept { space_of space.new.owner ≡ space_of space.old.owner }
    ensures open_kept { space.new.is_open ≡ space.old.is_open }
{
    match share(alloc, space, other) {
        Ok(()) => status::DONE,
        Err(_) => status::MEMORY,
    }
}
