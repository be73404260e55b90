//! The finding of the Rich header.

ghost use Rattle.std.specs.Prelude.{◌≡◌};
ghost use Rattle.pe_view.specs.View.{bytes_of};
ghost use Rattle.pe_trust.specs.RichTests.{rich_finding_of};

use crate::rich::{rich_header, rich_mark};
use pe_head::Headers;
use pe_view::{Fault, Place, View};

/// The finding 241 of an image's file: there is a `Rich` with its key before the signature, and no `DanS` before it. `image` is the
/// number that the caller gives the image.
pub fn rich_finding(image: u16, file: View, headers: &Headers) -> Option<Fault>
    ensures { result ≡ rich_finding_of image (bytes_of file.entry) headers.now.pe_offset }
{
    let mark = rich_mark(file, headers)?;
    if rich_header(file, headers).is_some() {
        return None;
    }
    Some(Fault {
        number: 241,
        image,
        place: Place::File(4 * u64::from(mark)),
    })
}
