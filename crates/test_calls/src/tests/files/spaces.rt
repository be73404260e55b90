//! Which image of a space contains an address, for a window of 0 bytes: only `image_at` shows it, since an empty window may be
//! anywhere.

use super::plans::{Heading, NO_DIRECTORIES, VB, plan_with};
use crate::tests::asserts::assert_holds;
use pe_space::{Policy, SetEntry, Space, map, open_space};
use pe_view::{Fault, Place};
use pe_write::write_image;
use std::process::Abort;

/// The headers of each image, which has no section.
const EMPTY: Heading = Heading {
    size_of_image: 0x2_0000,
    directories: &[],
    sections: &[],
    ..VB
};

/// An address, and the image that contains it, or that of fault 54.
const ASKED: [(u64, Result<u16, u16>); 3] = [
    (0x1002_0000, Err(0xffff)),
    (0x5000_8000, Ok(0)),
    (0, Err(0xffff)),
];

/// Asserts which image of a space contains each address.
fn assert_held<S: Space>(rt: &impl Abort, space: &S) {
    for (case, (address, holds)) in ASKED.iter().enumerate() {
        let expected = holds.map_err(|image| Fault {
            number: 54,
            image,
            place: Place::Address(*address),
        });
        assert_holds(rt, case, space.image_at(*address, 0) == expected);
    }
}

#[test]
fn no_bytes_are_held_where_an_image_stands(rt: HostRuntime) {
    let plan = plan_with(&EMPTY, NO_DIRECTORIES, Vec::new(rt.alloc()));
    let file = write_image(rt.alloc(), &plan).expect(&rt, "a file");
    let set = [
        SetEntry {
            name: b"a.dll",
            file: &file,
            base: 0x5000_0000,
        },
        SetEntry {
            name: b"b.dll",
            file: &file,
            base: 0x1000_0000,
        },
    ];
    let mapped = map(rt.alloc(), &set, Policy::Strict).expect(&rt, "a space");
    assert_held(&rt, &mapped);
    let opened = open_space(rt.alloc(), &set, Policy::Strict).expect(&rt, "a space");
    assert_held(&rt, &opened);
}
