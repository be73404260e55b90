//! The faults of bindings, whose messages name the import.

use pe_delay::read_delay_imports;
use pe_image::{import_at, lay_out};
use pe_layout::Layout;
use pe_page::ShownName;
use pe_tables::{Import, Key};
use pe_text::FaultText;
use pe_view::{Fault, Place};
use std::alloc::Allocator;

/// The fault of an import whose search comes to a module that is not in the set.
const NO_MODULE: u16 = 48;

/// The slot of the import that a fault names, if it names one.
fn slot_of(fault: &Fault) -> Option<u32> {
    match (fault.number, fault.place) {
        (48..=50, Place::Rva(slot)) => Some(slot),
        _ => None,
    }
}

/// The delay-loaded import with this slot, if there is one and memory suffices.
fn delayed_at<'a, A: Allocator + Copy>(
    alloc: A,
    layout: &Layout<'a>,
    slot: u32,
) -> Option<Import<'a>> {
    let imports = read_delay_imports(alloc, layout).ok()?;
    for import in &imports {
        if import.slot == slot {
            return Some(*import);
        }
    }
    None
}

/// The import whose slot a fault names, if it names one and memory suffices: of the import table, or else a delay-loaded one. The
/// file's headers and tables are read again, since a refused set keeps nothing of them.
pub(crate) fn import_of<'a, A: Allocator + Copy>(
    alloc: A,
    file: &'a [u8],
    fault: &Fault,
) -> Option<Import<'a>> {
    let slot = slot_of(fault)?;
    let layout = lay_out(file, fault.image).ok()?;
    match import_at(alloc, &layout, slot).ok()? {
        Some(import) => Some(import),
        None => delayed_at(alloc, &layout, slot),
    }
}

/// Reports a fault of a binding, with the import's module and its name, or `#` and its ordinal.
pub(crate) fn tell_import_fault(rt: &impl Eprint, subject: &[u8], fault: Fault, import: &Import) {
    let subject = ShownName(subject);
    let module = ShownName(import.module);
    let text = FaultText(fault);
    let way = if fault.number == NO_MODULE {
        "; with --known such slots are left as they are"
    } else {
        ""
    };
    let _ = match import.key {
        Key::Name(name) => {
            let name = ShownName(name);
            eprintln!(rt; "petool: {subject}: {text}: {module} {name}{way}")
        }
        Key::Ordinal(ordinal) => {
            eprintln!(rt; "petool: {subject}: {text}: {module} #{ordinal}{way}")
        }
    };
}
