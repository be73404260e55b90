//! The names of the modules of a set.

use std::alloc::Global;

/// Appends the name of a module without its extension, like `module07`.
pub(crate) fn push_module(text: &mut Vec<u8>, module: u32) -> Option<()> {
    text.extend_from_slice(b"module").ok()?;
    text.push(b'0' + (module / 10 % 10) as u8).ok()?;
    text.push(b'0' + (module % 10) as u8).ok()
}

/// The file name of a module, like `module07.dll`.
pub(crate) fn file_name(alloc: Global, module: u32) -> Option<Vec<u8>> {
    let mut name = Vec::new(alloc);
    push_module(&mut name, module)?;
    name.extend_from_slice(b".dll").ok()?;
    Some(name)
}
