//! The line of an accepted object of either form.

ghost use Rattle.std.specs.Prelude.{◌≡◌, ◌++◌, codes};
ghost use Rattle.coff_read.specs.EitherObject.{form_of, file_of};
ghost use Rattle.pe_text.specs.TextWriter.{IsReady, Adds};
ghost use Rattle.json.specs.Print.{quoted};
ghost use Rattle.pe_json.specs.JsonText as json_text;
ghost use Rattle.pe_json.specs.JsonText.{member, with_commas};
ghost use Rattle.pe_json.specs.Listed.{more};
ghost use Rattle.pe_json.specs.ObjectLine.{format_name, header_members, object_members, line_of_form};

use crate::beginning::begin;
use crate::big_header::write_big;
use crate::headers::write_coff;
use crate::object_sections::write_sections;
use crate::symbols::write_symbols;
use coff_read::EitherObject;
use pe_text::{Sink, TextWriter};

/// The member that names the form of an object.
fn format_member(is_big: bool) -> &'static [u8]
    ensures { result.now ≡ codes "," ++ member (codes "format") (quoted (format_name is_big)) }
{
    if is_big {
        b",\"format\":\"BIGOBJ\""
    } else {
        b",\"format\":\"COFF\""
    }
}

/// Adds the fields of an object's header.
fn write_fields<W: Sink>(text: &mut TextWriter<W>, object: &EitherObject)
    requires { IsReady W.failures text.old }
    ensures { Adds W.taken W.failures text.old text.new (with_commas (header_members (form_of object.now) (file_of object.now))) }
{
    match object {
        EitherObject::Plain(object) => write_coff(text, &object.header()),
        EitherObject::Big(object) => write_big(text, &object.header()),
    }
}

/// Adds the header of an object.
fn write_header<W: Sink>(text: &mut TextWriter<W>, object: &EitherObject)
    requires { IsReady W.failures text.old }
    ensures { Adds W.taken W.failures text.old text.new (json_text.object (header_members (form_of object.now) (file_of object.now))) }
{
    text.text(b"{");
    write_fields(text, object);
    text.text(b"}");
}

/// Adds the members of an object after others: its format, its header, its sections and its symbols.
pub fn write_object_members<W: Sink>(text: &mut TextWriter<W>, object: &EitherObject)
    requires { IsReady W.failures text.old }
    ensures { Adds W.taken W.failures text.old text.new (more (object_members (form_of object.now) (file_of object.now))) }
{
    text.text(format_member(object.is_big()));
    text.text(b",\"headers\":");
    write_header(text, object);
    text.text(b",\"sections\":");
    write_sections(text, object);
    text.text(b",\"symbols\":");
    write_symbols(text, object);
}

/// Adds the line of an object without a fault, whose file has this name.
pub(crate) fn write_object<W: Sink>(text: &mut TextWriter<W>, name: &[u8], object: &EitherObject)
    requires { IsReady W.failures text.old }
    ensures { Adds W.taken W.failures text.old text.new (line_of_form (form_of object.now) name.now (file_of object.now)) }
{
    begin(text, name, true);
    write_object_members(text, object);
    text.text(b"}");
    text.text(b"\n");
}
