//! The names of ordinals of the modules whose programs import by ordinal.

ghost use Rattle.std.specs.Prelude.{◌≡◌, option_map};
ghost use Rattle.pe_imphash.specs.ImportText.{ordinal_name};

use crate::oleaut32::oleaut32_name;
use crate::winsock::winsock_name;

/// The name of an ordinal of a module, whose name is in lower case, or `None` if none is known.
pub(crate) fn ordinal_name(module: &[u8], ordinal: u16) -> Option<&'static str>
    ensures { option_map (λ name. name.now) result ≡ ordinal_name «module».now ordinal }
{
    if module == b"oleaut32.dll".as_slice() {
        return oleaut32_name(u32::from(ordinal));
    }
    if module == b"ws2_32.dll".as_slice() || module == b"wsock32.dll".as_slice() {
        return winsock_name(u32::from(ordinal));
    }
    None
}
