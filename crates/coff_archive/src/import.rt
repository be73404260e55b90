//! `Import`: a short import object, and the name that it imports; and findings 331 to 333.

ghost use Rattle.std.specs.Prelude.{◌≡◌, ◌+◌, ◌<◌, ◌≤◌, ◌/◌, ◌%◌, true, IfSome, length, option_map, is_none, ◌||◌, ◌==◌, ◌^◌, Some};
ghost use Rattle.pe_view.specs.Faults.{Answers};
ghost use Rattle.pe_view.specs.View.{bytes_of, size_of};
ghost use Rattle.coff_archive.specs.ImportView.{import_view};
ghost use Rattle.coff_archive.specs.Bytes.{up_to};
ghost use Rattle.coff_archive.specs.Imports.{field, is_import, texts_end, kind_of, name_type_of, symbol_of, module_of, export_of, export_by, import_tests, import_of, import_name, without_mark};

use crate::bytes::{before, text_in};
use crate::header::file_fault;
use pe_view::{Fault, View};

/// A short import object ("PE Format", Import Library Format).
#[derive(Clone, Copy, Debug, PartialEq, Eq)]
pub struct Import<'a> {
    /// The processor.
    pub machine: u16,
    /// When it was made, as its maker wrote it.
    pub time_stamp: u32,
    /// The ordinal, or the hint.
    pub ordinal: u16,
    /// What is imported: 0 code, 1 data, 2 a constant.
    pub kind: u8,
    /// 0 by ordinal; else how the import name is made.
    pub name_type: u8,
    /// The public symbol.
    pub symbol: &'a [u8],
    /// The DLL.
    pub module: &'a [u8],
    /// The name that the DLL exports, where name type 4 says that it stands apart; else empty.
    pub export: &'a [u8],
}

/// The number in a field of 2 bytes.
#[tactic(auto, unfolding(crate::specs::Imports::field))]
fn u16_in(object: View, offset: u64) -> u16
    requires { offset + 2 ≤ size_of object }
    ensures { result ≡ field (bytes_of object.entry) offset 2 }
{
    object.u16_at(offset).unwrap()
}

/// The number in a field of 4 bytes.
#[tactic(auto, unfolding(crate::specs::Imports::field))]
fn u32_in(object: View, offset: u64) -> u32
    requires { offset + 4 ≤ size_of object }
    ensures { result ≡ field (bytes_of object.entry) offset 4 }
{
    object.u32_at(offset).unwrap()
}

/// Whether bytes begin as a short import object does.
pub fn is_import(bytes: &[u8]) -> bool
    ensures { result ≡ is_import bytes.now }
{
    let object = View::new(bytes);
    if object.len() < 20 {
        return false;
    }
    u16_in(object, 0) == 0 && u16_in(object, 2) == 0xffff && u16_in(object, 4) == 0
}

/// The third text, for a name type.
fn export_at<'a>(object: View<'a>, name_type: u8, at: u64, end: u64) -> Option<&'a [u8]>
    requires { end ≡ texts_end (bytes_of object) }
    ensures { option_map (λ text. text.now) result ≡ export_by (bytes_of object.entry) name_type at }
{
    if name_type == 4 {
        text_in(object, at, end)
    } else {
        Some(&[])
    }
}

/// The texts of a short import object: the symbol, the DLL, and the name that the DLL exports.
#[derive(Clone, Copy)]
struct Texts<'a> {
    symbol: &'a [u8],
    dll: &'a [u8],
    export: &'a [u8],
}

/// The texts of a short import object, unless one has no end.
fn texts_of<'a>(object: View<'a>, name_type: u8, end: u64) -> Option<Texts<'a>>
    requires end { end ≡ texts_end (bytes_of object) }
    requires name_type { name_type ≡ name_type_of (bytes_of object) }
    requires small { end < 2 ^ 33 }
    ensures missing { is_none result ≡ (is_none (symbol_of (bytes_of object.entry)) || (is_none (module_of (bytes_of object.entry)) || is_none (export_of (bytes_of object.entry)))) }
    ensures symbol { IfSome result (λ t. symbol_of (bytes_of object.entry) ≡ Some t.symbol.now) }
    ensures dll { IfSome result (λ t. module_of (bytes_of object.entry) ≡ Some t.dll.now) }
    ensures export { IfSome result (λ t. export_of (bytes_of object.entry) ≡ Some t.export.now) }
{
    let symbol = text_in(object, 20, end)?;
    let dll_at = 20 + symbol.len() as u64 + 1;
    let dll = text_in(object, dll_at, end)?;
    let export = export_at(object, name_type, dll_at + dll.len() as u64 + 1, end)?;
    Some(Texts {
        symbol,
        dll,
        export,
    })
}

/// The short import object that bytes hold, the first of which stands at a file offset; or the first of findings 331 to 333.
pub fn import_object<'a>(bytes: &'a [u8], offset: u64) -> Result<Import<'a>, Fault>
    requires { is_import bytes.now ≡ true }
    ensures { Answers (import_tests offset bytes.entry.now) (λ i. import_view i ≡ import_of bytes.entry.now) result }
{
    let object = View::new(bytes);
    let end = 20 + u64::from(u32_in(object, 12));
    if end > object.len() {
        return Err(file_fault(331, offset));
    }
    let kinds = u16_in(object, 18);
    let name_type = (kinds / 4 % 8) as u8;
    let Some(texts) = texts_of(object, name_type, end) else {
        return Err(file_fault(332, offset));
    };
    if name_type > 4 {
        return Err(file_fault(333, offset));
    }
    Ok(Import {
        machine: u16_in(object, 6),
        time_stamp: u32_in(object, 8),
        ordinal: u16_in(object, 16),
        kind: (kinds % 4) as u8,
        name_type,
        symbol: texts.symbol,
        module: texts.dll,
        export: texts.export,
    })
}

/// A symbol without one `?`, `@` or `_` at its front.
fn without_mark(symbol: &[u8]) -> &[u8]
    ensures { result.now ≡ without_mark symbol.now }
{
    match symbol.split_first() {
        Some((b'?' | b'@' | b'_', rest)) => rest,
        _ => symbol,
    }
}

/// The bytes before the first `@`, or all of them.
fn up_to_at(bytes: &[u8]) -> &[u8]
    ensures { result.now ≡ up_to (λ byte. byte == 64) bytes.now }
{
    match before(bytes, b'@') {
        Some(text) => text,
        None => bytes,
    }
}

impl<'a> Import<'a> {
    /// The name that is imported; `None` where the import is by ordinal.
    pub fn import_name(&self) -> Option<&'a [u8]>
        ensures { option_map (λ name. name.now) result ≡ import_name (import_view self.now) }
    {
        match self.name_type {
            1 => Some(self.symbol),
            2 => Some(without_mark(self.symbol)),
            3 => Some(up_to_at(without_mark(self.symbol))),
            4 => Some(self.export),
            _ => None,
        }
    }
}
