//! Versions of four numbers.

ghost use Rattle.pe_text.specs.TextWriter.{IsReady};
ghost use Rattle.pe_page.specs.Page.{AddsSome};

use pe_text::Part::{Decimal, Text};
use pe_text::{Sink, TextWriter, write_parts};

/// Adds a version, like `10.0.1.5`.
pub(crate) fn write_number<W: Sink>(text: &mut TextWriter<W>, version: [u16; 4])
    requires { IsReady W.failures text.old }
    ensures { AddsSome W.taken W.failures text.old text.new }
{
    let [major, minor, build, revision] = version;
    write_parts(
        text,
        &[
            Decimal(u64::from(major)),
            Text(b"."),
            Decimal(u64::from(minor)),
            Text(b"."),
            Decimal(u64::from(build)),
            Text(b"."),
            Decimal(u64::from(revision)),
        ],
    );
}
