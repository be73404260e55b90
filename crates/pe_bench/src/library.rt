//! The file of a synthetic module: code, exports, imports, data and base relocations, as a linker arranges them.

use crate::awkward::{awkward_exports, awkward_fixups, awkward_imports};
use crate::chance::{Chance, push_bytes};
use crate::export_table::export_table;
use crate::import_table::{ImportTable, import_table};
use crate::numbers::align;
use crate::shape::{Module, Shape};
use pe_head::{Directory, Magic, directory_index};
use pe_tables::{Fixup, FixupKind, ascending, encode_fixups};
use pe_write::{Plan, PlanSection, write_image};
use std::alloc::Global;

/// The size of a page, to which sections are aligned, in bytes.
const PAGE: u32 = 4096;

/// The first RVA of a page at or after an RVA.
fn page_from(rva: u32) -> Option<u32> {
    let pages = rva.checked_add(PAGE - 1)? / PAGE;
    pages.checked_mul(PAGE)
}

/// The first RVA of a page after bytes at an RVA.
fn page_behind(rva: u32, bytes: &[u8]) -> Option<u32> {
    page_from(rva.checked_add(u32::try_from(bytes.len()).ok()?)?)
}

/// The base relocations of a module, whose fields ascend from an RVA on, each 8 to 23 bytes after the previous one.
fn fixups_of(alloc: Global, shape: Shape, module: Module, rva: u32) -> Option<Vec<Fixup>> {
    let mut chance = Chance::new(module.own_seed() ^ 0xf1);
    let kind = if shape.is_wide {
        FixupKind::Bits64
    } else {
        FixupKind::Bits32
    };
    let mut fixups = Vec::with_capacity(alloc, shape.fixups as usize).ok()?;
    let mut field = rva;
    for _ in 0..shape.fixups {
        fixups
            .push(Fixup {
                entry: 0,
                field,
                kind,
            })
            .ok()?;
        field = field.checked_add(8)?.checked_add(chance.below(16))?;
    }
    Some(fixups)
}

/// The base relocation table of fixups, or `None` if their fields do not ascend.
fn encoded(alloc: Global, fixups: &[Fixup]) -> Option<Vec<u8>> {
    if ascending(fixups) {
        encode_fixups(alloc, fixups).ok()
    } else {
        None
    }
}

/// The preferred address of a module.
pub(crate) fn preferred_base(shape: Shape, module: Module) -> u64 {
    let start = if shape.is_wide {
        0x1_8000_0000
    } else {
        0x1000_0000
    };
    start + u64::from(module.number % 64) * 0x0100_0000
}

/// A section of bytes at an RVA.
fn section(name: [u8; 8], rva: u32, raw: &[u8], flags: u32) -> PlanSection<'_> {
    PlanSection {
        name,
        virtual_size: 0,
        virtual_address: rva,
        raw,
        flags,
    }
}

/// The size of a table, in bytes.
fn size_of(bytes: &[u8]) -> u32 {
    u32::try_from(bytes.len()).unwrap_or(0)
}

/// The parts of a module, each at the RVA of its section.
#[derive(Drop)]
struct Parts {
    code: Vec<u8>,
    exports: Vec<u8>,
    export_size: u32,
    imports: ImportTable,
    data: Vec<u8>,
    fixups: Vec<u8>,
    exports_rva: u32,
    imports_rva: u32,
    data_rva: u32,
    fixups_rva: u32,
    end: u32,
}

/// Pseudo-random bytes.
fn bytes_of(alloc: Global, seed: u64, count: u32) -> Option<Vec<u8>> {
    let mut bytes = Vec::new(alloc);
    push_bytes(&mut bytes, &mut Chance::new(seed), count as usize)?;
    Some(bytes)
}

/// The export table of a module.
fn exports_of(alloc: Global, shape: Shape, module: Module, rva: u32) -> Option<Vec<u8>> {
    if shape.is_awkward {
        awkward_exports(alloc, shape, module, rva)
    } else {
        export_table(alloc, shape, module, rva)
    }
}

/// The import table of a module.
fn imports_of(alloc: Global, shape: Shape, module: Module, rva: u32) -> Option<ImportTable> {
    if shape.is_awkward {
        awkward_imports(alloc, shape, module, rva)
    } else {
        import_table(alloc, shape, module, rva)
    }
}

/// The base relocation table of a module with data at an RVA.
fn fixup_table(alloc: Global, shape: Shape, module: Module, data: u32) -> Option<Vec<u8>> {
    let fixups = fixups_of(alloc, shape, module, data)?;
    if shape.is_awkward {
        awkward_fixups(alloc, &fixups)
    } else {
        encoded(alloc, &fixups)
    }
}

/// The parts of a module, each at the first page after the part before it.
fn parts_of(alloc: Global, shape: Shape, module: Module) -> Option<Parts> {
    let seed = module.own_seed();
    let code = bytes_of(alloc, seed ^ 0xc0de, shape.code)?;
    let exports_rva = page_behind(shape.code_rva, &code)?;
    let mut exports = exports_of(alloc, shape, module, exports_rva)?;
    let export_size = size_of(&exports);
    align(&mut exports)?;
    let imports_rva = page_behind(exports_rva, &exports)?;
    let imports = imports_of(alloc, shape, module, imports_rva)?;
    let data_rva = page_behind(imports_rva, &imports.bytes)?;
    let data = bytes_of(alloc, seed ^ 0xda7a, shape.code)?;
    let fixups_rva = page_behind(data_rva, &data)?;
    let fixups = fixup_table(alloc, shape, module, data_rva)?;
    let end = page_behind(fixups_rva, &fixups)?;
    Some(Parts {
        code,
        exports,
        export_size,
        imports,
        data,
        fixups,
        exports_rva,
        imports_rva,
        data_rva,
        fixups_rva,
        end,
    })
}

/// The data directories of a module: exports, imports and base relocations, and 13 empty ones.
fn directories_of(parts: &Parts) -> [Directory; 16] {
    let mut directories = [Directory { rva: 0, size: 0 }; 16];
    directories[directory_index::EXPORT] = Directory {
        rva: parts.exports_rva,
        size: parts.export_size,
    };
    directories[directory_index::IMPORT] = Directory {
        rva: parts.imports_rva,
        size: parts.imports.descriptors,
    };
    directories[directory_index::BASE_RELOCATION] = Directory {
        rva: parts.fixups_rva,
        size: size_of(&parts.fixups),
    };
    directories
}

/// The sections of a module.
fn sections_of(parts: &Parts, code_rva: u32) -> [PlanSection<'_>; 5] {
    [
        section(*b".text\0\0\0", code_rva, &parts.code, 0x6000_0020),
        section(
            *b".edata\0\0",
            parts.exports_rva,
            &parts.exports,
            0x4000_0040,
        ),
        section(
            *b".idata\0\0",
            parts.imports_rva,
            &parts.imports.bytes,
            0xc000_0040,
        ),
        section(*b".data\0\0\0", parts.data_rva, &parts.data, 0xc000_0040),
        section(*b".reloc\0\0", parts.fixups_rva, &parts.fixups, 0x4200_0040),
    ]
}

/// The file of a module.
pub(crate) fn library(alloc: Global, shape: Shape, module: Module) -> Option<Vec<u8>> {
    let parts = parts_of(alloc, shape, module)?;
    let (magic, machine) = if shape.is_wide {
        (Magic::Pe32Plus, 0x8664)
    } else {
        (Magic::Pe32, 0x14c)
    };
    let plan = Plan {
        magic,
        machine,
        time_stamp: 0x6500_0000,
        characteristics: 0x2022,
        entry: shape.code_rva,
        image_base: preferred_base(shape, module),
        section_alignment: PAGE,
        file_alignment: 512,
        size_of_image: parts.end,
        size_of_headers: 1024,
        subsystem: 3,
        dll_characteristics: 0x160,
        directories: directories_of(&parts),
        sections: Vec::from_array(alloc, sections_of(&parts, shape.code_rva)).ok()?,
    };
    write_image(alloc, &plan).ok()
}
