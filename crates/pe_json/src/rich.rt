//! The Rich header of an image's file.

ghost use Rattle.std.specs.Prelude.{◌≡◌};
ghost use Rattle.pe_text.specs.TextWriter.{IsReady, Adds};
ghost use Rattle.pe_trust.specs.RichView.{pair_view, rich_view};
ghost use Rattle.pe_view.specs.View.{bytes_of};
ghost use Rattle.pe_json.specs.Listed.{more};
ghost use Rattle.pe_json.specs.RichRows.{key_members, pair_row, pair_rows, rich_members};

use crate::certificates::fits_member;
use crate::rows::{Row, Rows, write_list};
use crate::string::write_number;
use pe_head::Headers;
use pe_text::{Sink, TextWriter};
use pe_trust::{RichHeader, RichPair, rich_header};
use pe_view::View;

impl Row for RichPair {
    ghost row_text = { λ pair. pair_row (pair_view pair) };

    fn write<W: Sink>(&self, text: &mut TextWriter<W>) {
        write_number(text, b"{\"product\":", self.product as u64);
        write_number(text, b",\"build\":", self.build as u64);
        write_number(text, b",\"count\":", self.count as u64);
        text.text(b"}");
    }
}

impl<'a> Rows for RichHeader<'a> {
    ghost row_texts = { λ header. pair_rows (bytes_of header.file) (rich_view header) };

    fn count(&self) -> u32 {
        self.len()
    }

    fn write<W: Sink>(&self, text: &mut TextWriter<W>, index: u32) {
        self.get(index).unwrap().write(text);
    }
}

/// Adds the key of a header, and whether it is the sum that it is to be.
fn write_key<W: Sink>(text: &mut TextWriter<W>, header: &RichHeader)
    requires { IsReady W.failures text.old }
    ensures { Adds W.taken W.failures text.old text.new (more (key_members (bytes_of header.now.file) (rich_view header.now))) }
{
    write_number(text, b",\"key\":", header.key() as u64);
    text.text(fits_member(header.key() == header.check_sum()));
}

/// Adds the Rich header, if the file has one.
pub(crate) fn write_rich<W: Sink>(text: &mut TextWriter<W>, file: View, headers: &Headers)
    requires { IsReady W.failures text.old }
    ensures { Adds W.taken W.failures text.old text.new (more (rich_members (bytes_of file.entry) headers.now.pe_offset)) }
{
    let Some(header) = rich_header(file, headers) else {
        return;
    };
    write_number(text, b",\"rich\":{\"offset\":", header.offset());
    write_key(text, &header);
    write_list(text, b",\"pairs\":[", &header);
    text.text(b"}");
}
