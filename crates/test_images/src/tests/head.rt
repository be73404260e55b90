//! The sizes of sections in an image and in its file, also of sections that no accepted file has.

use crate::tests::asserts::assert_number;
use pe_head::SectionHeader;

/// VirtualSize, SizeOfRawData and PointerToRawData of a section, and its extent and rawlen.
const LENGTHS: &[[u32; 5]] = &[
    [0x10, 0x200, 0x200, 0x10, 0x10],
    [0x200, 0x200, 0x200, 0x200, 0x200],
    [0x300, 0x200, 0x200, 0x300, 0x200],
    [0x300, 0x200, 1, 0x300, 0x200],
    [0x300, 0x200, 0, 0x300, 0],
    [0x300, 0, 0x200, 0x300, 0],
    [0, 0x200, 0x200, 0x200, 0x200],
    [0, 0x200, 0, 0x200, 0],
    [0, 0, 0x200, 0, 0],
    [1, 0xffff_ffff, 0xffff_ffff, 1, 1],
    [
        0xffff_ffff,
        0xffff_fffe,
        0xffff_ffff,
        0xffff_ffff,
        0xffff_fffe,
    ],
];

#[test]
fn a_section_takes_its_extent_and_the_file_holds_rawlen_of_it(rt: HostRuntime) {
    for (index, lengths) in LENGTHS.iter().enumerate() {
        let section = SectionHeader {
            virtual_size: lengths[0],
            size_of_raw_data: lengths[1],
            pointer_to_raw_data: lengths[2],
            ..SectionHeader::default()
        };
        assert_number(
            &rt,
            index,
            u64::from(section.extent()),
            u64::from(lengths[3]),
        );
        assert_number(
            &rt,
            index,
            u64::from(section.rawlen()),
            u64::from(lengths[4]),
        );
    }
}
