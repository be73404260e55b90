//! The strings of the version information that tell what a file is.

use pe_version::{decode_utf16, version_strings};

/// `CompanyName` in UTF-16.
pub(crate) const COMPANY_NAME: [u8; 22] = *b"C\0o\0m\0p\0a\0n\0y\0N\0a\0m\0e\0";

/// `FileDescription` in UTF-16.
pub(crate) const FILE_DESCRIPTION: [u8; 30] = *b"F\0i\0l\0e\0D\0e\0s\0c\0r\0i\0p\0t\0i\0o\0n\0";

/// `ProductName` in UTF-16.
pub(crate) const PRODUCT_NAME: [u8; 22] = *b"P\0r\0o\0d\0u\0c\0t\0N\0a\0m\0e\0";

/// Whether a text of UTF-16 units has nothing but white space.
fn is_blank(units: &[u8]) -> bool {
    for character in decode_utf16(units) {
        if !character.is_whitespace() {
            return false;
        }
    }
    true
}

/// The value of the first string with a key, in UTF-16 as the key is, that is not blank, if there is one.
pub(crate) fn version_text<'a>(version: &'a [u8], key: &[u8]) -> Option<&'a [u8]> {
    for string in version_strings(version) {
        if string.key == key && !is_blank(string.value) {
            return Some(string.value);
        }
    }
    None
}
