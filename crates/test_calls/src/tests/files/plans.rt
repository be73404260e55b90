//! The plans of the small files.

use pe_head::{Directory, Magic};
use pe_write::{Plan, PlanSection};
use std::alloc::Global;
use std::process::Abort;

/// A section of a file: its name, its VirtualSize, and the size of its raw data.
pub(super) type Part = (&'static [u8; 8], u32, usize);

/// The header fields in which the small files differ. Section k is at 0x1000 * (k + 1).
#[derive(Clone, Copy)]
pub(super) struct Heading {
    pub magic: Magic,
    pub machine: u16,
    pub characteristics: u16,
    pub image_base: u64,
    pub file_alignment: u32,
    pub size_of_image: u32,
    pub size_of_headers: u32,
    /// The index, RVA and size of each.
    pub directories: &'static [(usize, u32, u32)],
    pub sections: &'static [Part],
}

/// The headers of V1.
pub(super) const V1: Heading = Heading {
    magic: Magic::Pe32,
    machine: 0x14c,
    characteristics: 0x2102,
    image_base: 0x1000_0000,
    file_alignment: 0x200,
    size_of_image: 0x3000,
    size_of_headers: 0x200,
    directories: &[],
    sections: &[(b".data\0\0\0", 0x10, 0x200)],
};

/// The headers of V2.
pub(super) const V2: Heading = Heading {
    directories: &[(5, 0x2000, 0x0c)],
    sections: &[(b".data\0\0\0", 0x10, 0x200), (b".reloc\0\0", 0x0c, 0x200)],
    ..V1
};

/// The headers of V3.
pub(super) const V3: Heading = Heading {
    magic: Magic::Pe32Plus,
    machine: 0x8664,
    characteristics: 0x2022,
    image_base: 0x1_8000_0000,
    ..V2
};

/// The headers of VA.
pub(super) const VA: Heading = Heading {
    directories: &[(0, 0x1020, 0x60)],
    sections: &[(b".edata\0\0", 0x80, 0x200)],
    ..V1
};

/// The headers of VB.
pub(super) const VB: Heading = Heading {
    image_base: 0x2000_0000,
    ..VA
};

/// The headers of VC.
pub(super) const VC: Heading = Heading {
    characteristics: 0x0102,
    image_base: 0x40_0000,
    directories: &[(1, 0x1000, 0x28)],
    sections: &[(b".idata\0\0", 0x80, 0x200)],
    ..V1
};

/// The headers of VD.
pub(super) const VD: Heading = Heading {
    magic: Magic::Pe32Plus,
    machine: 0x8664,
    characteristics: 0x0022,
    image_base: 0x1_4000_0000,
    ..VC
};

/// The headers of VS.
pub(super) const VS: Heading = Heading {
    size_of_image: 0x2_0000,
    directories: &[(0, 0x1020, 0x60), (1, 0x2000, 0x28)],
    sections: &[(b".edata\0\0", 0x80, 0x200), (b".idata\0\0", 0x80, 0x200)],
    ..VB
};

/// The headers of VF(64).
pub(super) const VF: Heading = Heading {
    directories: &[(0, 0x1020, 0x5e0)],
    sections: &[(b".edata\0\0", 0x600, 0x600)],
    ..VB
};

/// No directories.
pub(super) const NO_DIRECTORIES: [Directory; 16] = [Directory { rva: 0, size: 0 }; 16];

/// A plan with these numbers, directories and sections.
pub(super) fn plan_with<'a>(
    heading: &Heading,
    directories: [Directory; 16],
    sections: Vec<PlanSection<'a>>,
) -> Plan<'a> {
    Plan {
        magic: heading.magic,
        machine: heading.machine,
        time_stamp: 0,
        characteristics: heading.characteristics,
        entry: 0,
        image_base: heading.image_base,
        section_alignment: 0x1000,
        file_alignment: heading.file_alignment,
        size_of_image: heading.size_of_image,
        size_of_headers: heading.size_of_headers,
        subsystem: 0,
        dll_characteristics: 0,
        directories,
        sections,
    }
}

/// A section at an RVA, readable, writable and initialized.
pub(super) fn section(
    name: [u8; 8],
    virtual_size: u32,
    virtual_address: u32,
    raw: &[u8],
) -> PlanSection<'_> {
    PlanSection {
        name,
        virtual_size,
        virtual_address,
        raw,
        flags: 0xc000_0040,
    }
}

/// The directories of a file.
fn directories_of(rt: &impl Abort, heading: &Heading) -> [Directory; 16] {
    let mut directories = NO_DIRECTORIES;
    for (index, rva, size) in heading.directories {
        assert!(rt; *index < 16);
        directories[*index] = Directory {
            rva: *rva,
            size: *size,
        };
    }
    directories
}

/// The sections of a file, whose raw data follows its headers in order.
fn sections_of<'a>(
    rt: &impl Abort,
    alloc: Global,
    parts: &[Part],
    file: &'a [u8],
) -> Vec<PlanSection<'a>> {
    let mut sections = Vec::new(alloc);
    let (mut rva, mut start) = (0x1000_u32, 0x200_usize);
    for (name, virtual_size, size) in parts {
        assert!(rt; start <= file.len() && *size <= file.len() - start && rva < 0x10_0000);
        let raw = &file[start..start + *size];
        sections
            .push(section(**name, *virtual_size, rva, raw))
            .expect(rt, "memory");
        rva += 0x1000;
        start += *size;
    }
    sections
}

/// The plan of a file.
pub(super) fn plan_of<'a>(
    rt: &impl Abort,
    alloc: Global,
    heading: &Heading,
    file: &'a [u8],
) -> Plan<'a> {
    let sections = sections_of(rt, alloc, heading.sections, file);
    plan_with(heading, directories_of(rt, heading), sections)
}
