//! `Import`: the module, the key and the import address table entry of an import.

use crate::key::Key;

/// An import of an image ("PE Format", The .idata Section).
#[derive(Clone, Copy, Debug, PartialEq, Eq)]
pub struct Import<'a> {
    /// The name of the module that exports it, as stored in the image.
    pub module: &'a [u8],
    /// The export's ordinal or name.
    pub key: Key<'a>,
    /// The RVA of its import address table entry: 4 bytes in PE32, 8 bytes in PE32+.
    pub slot: u32,
}
