//! What the version information says a file is: product, company and versions.

ghost use Rattle.pe_text.specs.TextWriter.{IsReady};
ghost use Rattle.pe_page.specs.Page.{AddsSome};

use crate::version_numbers::write_number;
use crate::version_text::{COMPANY_NAME, PRODUCT_NAME, version_text};
use crate::wide_text::write_wide_text;
use pe_text::{Sink, TextWriter};
use pe_version::fixed_info;

/// Adds the row of a string, if the version information has it.
fn write_string<W: Sink>(text: &mut TextWriter<W>, version: &[u8], label: &[u8], key: &[u8])
    requires { IsReady W.failures text.old }
    ensures { AddsSome W.taken W.failures text.old text.new }
{
    let Some(units) = version_text(version, key) else {
        return;
    };
    text.text(label);
    write_wide_text(text, units);
    text.text(b"\n");
}

/// Adds the row of the versions of the file and of its product.
fn write_versions<W: Sink>(text: &mut TextWriter<W>, version: &[u8])
    requires { IsReady W.failures text.old }
    ensures { AddsSome W.taken W.failures text.old text.new }
{
    let Some(info) = fixed_info(version) else {
        return;
    };
    text.text(b"  Version      ");
    write_number(text, info.file_version());
    text.text(b", of the product ");
    write_number(text, info.product_version());
    text.text(b"\n");
}

/// Whether version information has one of the rows that it may tell of an image's identity.
pub fn has_version_identity(version: &[u8]) -> bool {
    fixed_info(version).is_some()
        || version_text(version, &PRODUCT_NAME).is_some()
        || version_text(version, &COMPANY_NAME).is_some()
}

/// Adds the rows of an image's identity that its version information tells: the product, the company, and the versions of the file
/// and of the product.
pub fn write_version_identity<W: Sink>(text: &mut TextWriter<W>, version: &[u8])
    requires { IsReady W.failures text.old }
    ensures { AddsSome W.taken W.failures text.old text.new }
{
    write_string(text, version, b"  Product      ", &PRODUCT_NAME);
    write_string(text, version, b"  Company      ", &COMPANY_NAME);
    write_versions(text, version);
}
