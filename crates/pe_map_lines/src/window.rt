//! Fault 54: whether a window is inside one image of a space.

ghost use Rattle.std.specs.Prelude.{◌≡◌};
ghost use Rattle.pe_space.specs.Content.{window_at};
ghost use Rattle.pe_map_lines.specs.MapReport.{refusal_of};

use pe_space::Space;
use pe_view::Fault;

/// Fault 54 of a window, if it is not inside one image. An empty window may be anywhere.
pub(crate) fn window_fault<S: Space>(space: &S, address: u64, count: u32) -> Option<Fault>
    ensures { result ≡ refusal_of (window_at (S.content space.now) address count) }
{
    if count == 0 {
        return None;
    }
    match space.image_at(address, count as usize) {
        Ok(_) => None,
        Err(fault) => Some(fault),
    }
}
