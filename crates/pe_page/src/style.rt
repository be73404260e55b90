//! The colours of a page.

use pe_text::Part::{self, Text};
use pe_text::ShowOptions;

/// The beginning of a heading.
pub(crate) fn heading_style(options: &ShowOptions) -> Part<'static> {
    Text(if options.is_coloured { b"\x1b[1m" } else { b"" })
}

/// The beginning of a refusal.
pub(crate) fn refusal_style(options: &ShowOptions) -> Part<'static> {
    Text(if options.is_coloured {
        b"\x1b[1;31m"
    } else {
        b""
    })
}

/// The end of either.
pub(crate) fn end_style(options: &ShowOptions) -> Part<'static> {
    Text(if options.is_coloured { b"\x1b[0m" } else { b"" })
}
