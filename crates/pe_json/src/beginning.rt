//! The beginning of a line.

ghost use Rattle.std.specs.Prelude.{◌≡◌, ◌++◌, codes};
ghost use Rattle.pe_text.specs.TextWriter.{IsReady, Adds};
ghost use Rattle.pe_json.specs.Line.{first_members, begun};
ghost use Rattle.pe_json.specs.JsonText.{member, boolean};
ghost use Rattle.pe_json.specs.Listed.{more};

use crate::string::write_name;
use pe_text::{Sink, TextWriter};

/// The member that says whether the file has no fault.
fn accepted_member(accepted: bool) -> &'static [u8]
    ensures { result.now ≡ codes "," ++ member (codes "accepted") (boolean accepted) }
{
    if accepted {
        b",\"accepted\":true"
    } else {
        b",\"accepted\":false"
    }
}

/// Adds the first members of the line after `schema`.
fn write_first<W: Sink>(text: &mut TextWriter<W>, name: &[u8], accepted: bool)
    requires { IsReady W.failures text.old }
    ensures { Adds W.taken W.failures text.old text.new (more (first_members name.now accepted)) }
{
    write_name(text, b",\"file\":\"", b",\"file_hex\":\"", name);
    text.text(accepted_member(accepted));
}

/// Adds the beginning of the line, up to and with the member `accepted`.
pub(crate) fn begin<W: Sink>(text: &mut TextWriter<W>, name: &[u8], accepted: bool)
    requires { IsReady W.failures text.old }
    ensures { Adds W.taken W.failures text.old text.new (begun name.now accepted) }
{
    text.text(b"{\"schema\":1");
    write_first(text, name, accepted);
}
