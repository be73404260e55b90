//! The files that `pe_write` writes from plans, and the plans that it refuses.

use super::plans::{
    Heading, NO_DIRECTORIES, V1, V2, V3, VA, VB, VC, VD, VF, VS, plan_of, plan_with, section,
};
use crate::tests::asserts::{assert_holds, assert_number, bytes_from};
use pe_head::{Directory, Magic};
use pe_layout::Layout;
use pe_vectors::files::{Vector, file_of, number, put, put_pieces};
use pe_vectors::vf;
use pe_view::{Fault, Place, View};
use pe_write::{Plan, PlanSection, WriteError, write_image};
use std::alloc::Global;
use std::process::Abort;

/// Asserts that a file is written from its plan.
fn assert_written(rt: &impl Abort, alloc: Global, case: usize, heading: &Heading, file: &[u8]) {
    let plan = plan_of(rt, alloc, heading, file);
    let written = write_image(alloc, &plan).expect(rt, "a file");
    assert_holds(rt, case, *written.as_slice() == *file);
}

#[test]
fn each_file_is_what_is_written_of_its_plan(rt: HostRuntime) {
    let files = [
        (Vector::V1, V1),
        (Vector::V2, V2),
        (Vector::V3, V3),
        (Vector::Va, VA),
        (Vector::Vb, VB),
        (Vector::Vc, VC),
        (Vector::Vd, VD),
        (Vector::Vs, VS),
    ];
    for (index, (vector, heading)) in files.iter().enumerate() {
        let file = file_of(rt.alloc(), *vector).expect(&rt, "memory");
        assert_written(&rt, rt.alloc(), index, heading, &file);
    }
}

#[test]
fn a_chain_of_forwarders_is_what_is_written_of_its_plan(rt: HostRuntime) {
    for count in [1, 9, 64, 65] {
        let file = vf(rt.alloc(), count).expect(&rt, "memory");
        assert_written(&rt, rt.alloc(), count as usize, &VF, &file);
    }
}

/// A section's VirtualSize and RVA, and the size of its raw data.
type Placed = (u32, u32, usize);

/// The sections of a plan that is not refused.
const FINE: &[Placed] = &[(0x10, 0x1000, 1)];

/// Bytes of sections.
const DATA: &[u8] = &[0x90; 0x201];

/// The sections at these places.
fn sections_at(rt: &impl Abort, alloc: Global, placed: &[Placed]) -> Vec<PlanSection<'static>> {
    let mut sections = Vec::new(alloc);
    for (virtual_size, virtual_address, size) in placed {
        let raw = DATA.get(..*size).expect(rt, "bytes");
        sections
            .push(section(*b".data\0\0\0", *virtual_size, *virtual_address, raw))
            .expect(rt, "memory");
    }
    sections
}

/// The plan with these numbers and sections.
fn placed_plan(
    rt: &impl Abort,
    alloc: Global,
    heading: &Heading,
    placed: &[Placed],
) -> Plan<'static> {
    plan_with(heading, NO_DIRECTORIES, sections_at(rt, alloc, placed))
}

/// Fault 53.
pub(super) const REFUSED: Option<WriteError> = Some(WriteError::Fault(Fault {
    number: 53,
    image: 0,
    place: Place::Item(0),
}));

/// Asserts whether a plan is refused.
fn assert_judged(
    rt: &impl Abort,
    alloc: Global,
    case: usize,
    heading: &Heading,
    placed: &[Placed],
    refused: bool,
) {
    let plan = placed_plan(rt, alloc, heading, placed);
    let expected = if refused { REFUSED } else { None };
    assert_holds(rt, case, write_image(alloc, &plan).err() == expected);
}

/// A form, FileAlignment, ImageBase and SizeOfImage, and whether the plan is refused.
const FIELDS: &[(Magic, u32, u64, u32, bool)] = &[
    (Magic::Pe32, 0x200, 0x1000_0000, 0x3000, false),
    (Magic::Pe32, 0, 0x1000_0000, 0x3000, true),
    (Magic::Pe32, 1, 0x1000_0000, 0x3000, false),
    (Magic::Pe32, 3, 0x1000_0000, 0x3000, false),
    (Magic::Pe32, 0x200, 0xffff_ffff, 0x3000, false),
    (Magic::Pe32, 0x200, 0x1_0000_0000, 0x3000, true),
    (Magic::Pe32Plus, 0x200, 0x1_0000_0000, 0x3000, false),
    (Magic::Pe32Plus, 0x200, u64::MAX, 0x3000, false),
    (Magic::Pe32, 0x200, 0x1000_0000, 0, true),
    (Magic::Pe32, 0x200, 0x1000_0000, 0x8000_0000, false),
    (Magic::Pe32, 0x200, 0x1000_0000, 0x8000_0001, true),
    // a file of over 4 GiB
    (Magic::Pe32, 0x8000_0001, 0x1000_0000, 0x3000, true),
    (Magic::Pe32, 0xffff_ffff, 0x1000_0000, 0x3000, true),
];

#[test]
fn the_fields_of_a_plan_have_limits(rt: HostRuntime) {
    for (index, (magic, alignment, base, size, refused)) in FIELDS.iter().enumerate() {
        let heading = Heading {
            magic: *magic,
            image_base: *base,
            file_alignment: *alignment,
            size_of_image: *size,
            ..V1
        };
        assert_judged(&rt, rt.alloc(), index, &heading, FINE, *refused);
    }
}

/// A form, SizeOfHeaders and sections in an image of 0x3000 bytes, and whether the plan is refused.
const HEADERS: &[(Magic, u32, &[Placed], bool)] = &[
    // the end of the section table
    (Magic::Pe32, 0x160, &[(0x10, 0x1000, 1)], false),
    (Magic::Pe32, 0x15f, &[(0x10, 0x1000, 1)], true),
    (Magic::Pe32Plus, 0x170, &[(0x10, 0x1000, 1)], false),
    (Magic::Pe32Plus, 0x16f, &[(0x10, 0x1000, 1)], true),
    (Magic::Pe32, 0x138, &[], false),
    (Magic::Pe32, 0x137, &[], true),
    (Magic::Pe32Plus, 0x148, &[], false),
    (Magic::Pe32Plus, 0x147, &[], true),
    // the image's end
    (Magic::Pe32, 0x3000, &[], false),
    (Magic::Pe32, 0x3001, &[], true),
];

#[test]
fn headers_hold_the_section_table_and_lie_in_the_image(rt: HostRuntime) {
    for (index, (magic, size_of_headers, sections, refused)) in HEADERS.iter().enumerate() {
        let heading = Heading {
            magic: *magic,
            size_of_headers: *size_of_headers,
            ..V1
        };
        assert_judged(&rt, rt.alloc(), index, &heading, sections, *refused);
    }
}

/// Sections in an image of 0x3000 bytes with 0x200 bytes of headers, and whether the plan is refused.
const PLACES: &[(&[Placed], bool)] = &[
    // up to the image's end
    (&[(0x10, 0x2ff0, 1)], false),
    (&[(0x11, 0x2ff0, 1)], true),
    (&[(0xffff_ffff, 0xffff_ffff, 1)], true),
    // with VirtualSize 0, by the padded raw data
    (&[(0, 0x2e00, 1)], false),
    (&[(0, 0x2e01, 1)], true),
    (&[(0, 0x2c00, 0x201)], false),
    (&[(0, 0x2c01, 0x201)], true),
    (&[(0, 0x3000, 0)], false),
    (&[(0, 0x3001, 0)], true),
    // directly after the headers
    (&[(0x10, 0x200, 1)], false),
    (&[(0x10, 0x1ff, 1)], true),
    // directly after one another
    (&[(0x10, 0x1000, 1), (0x10, 0x1010, 1)], false),
    (&[(0x10, 0x1000, 1), (0x10, 0x100f, 1)], true),
    (&[(0, 0x1000, 1), (0x10, 0x1200, 1)], false),
    (&[(0, 0x1000, 1), (0x10, 0x11ff, 1)], true),
    (&[(0, 0x1000, 0), (0x10, 0x1000, 1)], false),
    (&[(0x10, 0x2000, 1), (0x10, 0x1000, 1)], true),
];

#[test]
fn sections_ascend_between_the_headers_and_the_images_end(rt: HostRuntime) {
    for (index, (sections, refused)) in PLACES.iter().enumerate() {
        assert_judged(&rt, rt.alloc(), index, &V1, sections, *refused);
    }
}

/// Many sections of one byte in the image, without raw data.
fn crowded(rt: &impl Abort, alloc: Global, count: u32) -> Vec<PlanSection<'static>> {
    let mut sections = Vec::new(alloc);
    for index in 0..count {
        assert!(rt; index < 0x100);
        sections
            .push(section(*b".bss\0\0\0\0", 1, 0x1100 + index, &[]))
            .expect(rt, "memory");
    }
    sections
}

/// The result of writing that many sections.
fn crowded_file(rt: &impl Abort, alloc: Global, count: u32) -> Result<Vec<u8>, WriteError> {
    let heading = Heading {
        size_of_headers: 0x1100,
        ..V1
    };
    let plan = plan_with(&heading, NO_DIRECTORIES, crowded(rt, alloc, count));
    write_image(alloc, &plan)
}

/// Asserts that a file has 96 sections, the last at 0x115f.
fn assert_crowded(rt: &impl Abort, file: &[u8]) {
    let layout = Layout::new(View::new(file), 0).expect(rt, "a layout");
    assert_number(rt, 0, layout.section_count() as u64, 96);
    let last = layout.section(95).expect(rt, "a section");
    assert_number(rt, 95, u64::from(last.virtual_address), 0x115f);
}

#[test]
fn an_image_has_at_most_96_sections(rt: HostRuntime) {
    let file = crowded_file(&rt, rt.alloc(), 96).expect(&rt, "a file");
    assert_number(&rt, 0, file.len() as u64, 0x1100);
    assert_crowded(&rt, &file);
    assert_holds(&rt, 97, crowded_file(&rt, rt.alloc(), 97).err() == REFUSED);
}

/// V1 without its section.
fn v1_headers(rt: &impl Abort, alloc: Global) -> Vec<u8> {
    let mut file = file_of(alloc, Vector::V1).expect(rt, "memory");
    put_pieces(&mut file, &[(0x46, &[0]), (0x138, &[0; 40])]).expect(rt, "pieces in the file");
    file.truncate(0x200);
    file
}

#[test]
fn a_plan_of_no_sections_is_written_as_headers(rt: HostRuntime) {
    let plan = plan_with(&V1, NO_DIRECTORIES, Vec::new(rt.alloc()));
    let file = write_image(rt.alloc(), &plan).expect(&rt, "a file");
    let expected = v1_headers(&rt, rt.alloc());
    assert_holds(&rt, 0, *file.as_slice() == *expected.as_slice());
}

/// A header field, by its offset and width, and its value.
type Field = (usize, usize, u64);

/// Asserts the numbers in a file.
fn assert_fields(rt: &impl Abort, file: &[u8], fields: &[Field]) {
    for (offset, width, value) in fields {
        let found = number(file, *offset, *width).expect(rt, "a number in the file");
        assert_number(rt, *offset, found, *value);
    }
}

/// The file of a plan.
fn written(rt: &impl Abort, alloc: Global, plan: &Plan) -> Vec<u8> {
    write_image(alloc, plan).expect(rt, "a file")
}

/// The sections of 0, 1 and 0x201 bytes: SizeOfRawData and PointerToRawData of each.
const RAW_FIELDS: &[Field] = &[
    (0x148, 4, 0),
    (0x14c, 4, 0),
    (0x170, 4, 0x200),
    (0x174, 4, 0x200),
    (0x198, 4, 0x400),
    (0x19c, 4, 0x400),
];

/// Asserts the bytes of a file from the end of its section table on: zeros, one byte with padding, and 0x201 bytes with padding.
fn assert_raw_data(rt: &impl Abort, file: &[u8]) {
    let mut expected = [0; 0x650];
    expected[0x50] = 0x90;
    put(&mut expected, 0x250, DATA);
    assert_holds(rt, 0, *bytes_from(rt, file, 0x1b0) == *expected.as_slice());
}

#[test]
fn raw_data_is_aligned_and_filled_up(rt: HostRuntime) {
    let heading = Heading {
        size_of_headers: 0x1f0,
        ..V1
    };
    let sections = [(8, 0x1000, 0), (8, 0x1008, 1), (8, 0x1010, 0x201)];
    let plan = placed_plan(&rt, rt.alloc(), &heading, &sections);
    let file = written(&rt, rt.alloc(), &plan);
    assert_fields(&rt, &file, RAW_FIELDS);
    assert_raw_data(&rt, &file);
}

/// The header fields before the directories that the plan names, each with a value of its own.
const NAMED_FIELDS: &[Field] = &[
    (0x44, 2, 0x1111),
    (0x46, 2, 0),
    (0x48, 4, 0x2222_2222),
    (0x54, 2, 240),
    (0x56, 2, 0x3333),
    (0x58, 2, 0x20b),
    (0x68, 4, 0x4444_4444),
    (0x70, 8, 0x5555_5555_5555_5555),
    (0x78, 4, 0x6666_6666),
    (0x7c, 4, 0x7777_7777),
    (0x90, 4, 0x7899_8877),
    (0x94, 4, 0x148),
    (0x98, 4, 0),
    (0x9c, 2, 0x8888),
    (0x9e, 2, 0x9999),
    (0xc4, 4, 16),
];

/// A plan with these values.
fn named_plan(alloc: Global) -> Plan<'static> {
    Plan {
        magic: Magic::Pe32Plus,
        machine: 0x1111,
        time_stamp: 0x2222_2222,
        characteristics: 0x3333,
        entry: 0x4444_4444,
        image_base: 0x5555_5555_5555_5555,
        section_alignment: 0x6666_6666,
        file_alignment: 0x7777_7777,
        size_of_image: 0x7899_8877,
        size_of_headers: 0x148,
        subsystem: 0x8888,
        dll_characteristics: 0x9999,
        directories: NO_DIRECTORIES,
        sections: Vec::new(alloc),
    }
}

#[test]
fn each_field_that_a_plan_names_stands_at_its_offset(rt: HostRuntime) {
    let file = written(&rt, rt.alloc(), &named_plan(rt.alloc()));
    assert_fields(&rt, &file, NAMED_FIELDS);
}

/// Directories that all differ.
fn distinct_directories() -> [Directory; 16] {
    let mut directories = NO_DIRECTORIES;
    for index in 0..16_u32 {
        directories[index as usize] = Directory {
            rva: 0x0102_0300 + index,
            size: 0x0405_0600 + index,
        };
    }
    directories
}

#[test]
fn each_directory_stands_at_its_index(rt: HostRuntime) {
    let plan = plan_with(&V1, distinct_directories(), Vec::new(rt.alloc()));
    let file = written(&rt, rt.alloc(), &plan);
    for index in 0..16_usize {
        let fields: &[Field] = &[
            (0xb8 + 8 * index, 4, 0x0102_0300 + index as u64),
            (0xbc + 8 * index, 4, 0x0405_0600 + index as u64),
        ];
        assert_fields(&rt, &file, fields);
    }
}
