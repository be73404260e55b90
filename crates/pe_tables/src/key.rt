//! `Key`: an ordinal or a name; and `Target`, an RVA or a forwarder.

/// What an export is looked up by.
#[derive(Clone, Copy, Debug, PartialEq, Eq)]
pub enum Key<'a> {
    /// Its ordinal.
    Ordinal(u16),
    /// Its name, without the zero byte that ends it.
    Name(&'a [u8]),
}

/// What an ordinal or a name exports.
#[derive(Clone, Copy, Debug, PartialEq, Eq)]
pub enum Target<'a> {
    /// The RVA of code or data in the image.
    Rva(u32),
    /// A forwarder: an export of another module.
    Forward {
        /// The module's name as stored in the image, usually without its extension.
        module: &'a [u8],
        /// The ordinal or name of the module's export.
        key: Key<'a>,
    },
}
