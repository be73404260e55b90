//! `Placed`: an image at a base, whatever stores its bytes; and `base_fault`, the first of faults 44 to 47.

ghost use Rattle.std.specs.Prelude.{◌≡◌, ◌++◌, map};
ghost use Rattle.std.specs.List.{list_any};
ghost use Rattle.pe_view.specs.Faults.{first_standing};
ghost use Rattle.pe_ranges.specs.Ranges.{meets};
ghost use Rattle.pe_set.specs.Placement.{Placement, address_limit, base_tests};

use pe_head::Magic;
use pe_layout::Layout;
use pe_view::{Fault, Place};

/// Every base is a multiple of this.
const BASE_ALIGNMENT: u64 = 0x1_0000;

/// An image at a base, whatever stores its bytes.
pub trait Placed {
    ghost placement: { Self → Placement };

    /// The address of its first byte.
    fn base(&self) -> u64
        ensures { result ≡ (placement self.now).base };

    /// SizeOfImage, in bytes.
    fn size(&self) -> u32
        ensures { result ≡ (placement self.now).size };

    /// Whether its headers are PE32 or PE32+.
    fn magic(&self) -> Magic
        ensures { result ≡ (placement self.now).magic };

    /// Its preferred base, ImageBase.
    fn image_base(&self) -> u64
        ensures { result ≡ (placement self.now).image_base };

    /// Whether its relocations were stripped, so that it can only be at its ImageBase.
    fn is_stripped(&self) -> bool
        ensures { result ≡ (placement self.now).is_stripped };
}

/// An image that no set has placed is at its ImageBase.
impl<'a> Placed for Layout<'a> {
    ghost use Rattle.pe_layout.specs.Layout.{headers_of, image_of};

    ghost placement = { λ layout. record {
      base = (image_of layout).image_base;
      size = (image_of layout).size;
      magic = (headers_of layout).magic;
      image_base = (image_of layout).image_base;
      is_stripped = (image_of layout).is_stripped;
    } };

    fn base(&self) -> u64 {
        Layout::image_base(self)
    }

    fn size(&self) -> u32 {
        Layout::size(self)
    }

    fn magic(&self) -> Magic {
        Layout::magic(self)
    }

    fn image_base(&self) -> u64 {
        Layout::image_base(self)
    }

    fn is_stripped(&self) -> bool {
        Layout::is_stripped(self)
    }
}

/// The end of the addresses that an image of this Magic may use.
fn address_limit(magic: Magic) -> u128
    ensures { result ≡ address_limit magic }
{
    match magic {
        Magic::Pe32 => 1 << 32,
        Magic::Pe32Plus => 1 << 64,
    }
}

/// Whether an image of this size at a base shares an address with one of the others.
fn overlaps_any<P: Placed>(base: u64, size: u32, others: &[P]) -> bool
    ensures { result ≡ list_any (λ other. meets base size other.base other.size) (map P.placement others.now) }
{
    let start = u128::from(base);
    let end = start + u128::from(size);
    for other in others {
        let other_start = u128::from(other.base());
        if start < other_start + u128::from(other.size()) && other_start < end {
            return true;
        }
    }
    false
}

/// The first of faults 44 to 47 of image `number` of a set, which is `own`, at `base`, with other images of the set: some that come
/// before it, and some that come after it. The fault is at [`Place::Address`] of `base`.
///
/// The base is no multiple of 65,536 (44); the image passes the end of the addresses, which is 2^32 for PE32 and 2^64 for PE32+
/// (45); its relocations were stripped and the base is not its ImageBase (46); it shares an address with one of the others (47).
/// Allocates nothing.
pub fn base_fault<P: Placed>(
    before: &[P],
    behind: &[P],
    number: u16,
    own: &P,
    base: u64,
) -> Option<Fault>
    ensures { result ≡ first_standing (base_tests (map P.placement before.now ++ map P.placement behind.now) number (record (P.placement own.now) { base = base })) }
{
    let size = own.size();
    let fault = if base % BASE_ALIGNMENT != 0 {
        44
    } else if u128::from(base) + u128::from(size) > address_limit(own.magic()) {
        45
    } else if own.is_stripped() && base != own.image_base() {
        46
    } else if overlaps_any(base, size, before) || overlaps_any(base, size, behind) {
        47
    } else {
        return None;
    };
    Some(Fault {
        number: fault,
        image: number,
        place: Place::Address(base),
    })
}
