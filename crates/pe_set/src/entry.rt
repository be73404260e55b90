//! `SetEntry`: an image of a set with its name and base; and `Policy`, what to do with imports from missing modules.

/// An image of a set: its file, the name by which others import from it, and its base.
#[derive(Clone, Copy, Debug)]
pub struct SetEntry<'a> {
    /// The module's name, such as `kernel32.dll`. The case of ASCII letters does not count.
    pub name: &'a [u8],
    /// The bytes of the file.
    pub file: &'a [u8],
    /// The address of the image's first byte.
    pub base: u64,
}

/// What to do with an import whose search comes to a module that is not in the set: the module that the import names, or one that a
/// forwarder names.
#[derive(Clone, Copy, Debug, PartialEq, Eq)]
pub enum Policy {
    /// It is fault 48.
    Strict,
    /// Its slot keeps the value that it has in the file. An export that a module of the set does not have is still fault 49.
    Known,
}
