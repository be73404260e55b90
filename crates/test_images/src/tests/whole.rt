//! `read_image`: the number of an image and of its fault.

use crate::tests::asserts::assert_holds;
use pe_image::read_image;
use pe_tables::TableError;
use pe_vectors::files::{Vector, file_of};
use pe_view::{Fault, Place};

#[test]
fn an_image_and_its_fault_bear_its_number(rt: HostRuntime) {
    let file = file_of(rt.alloc(), Vector::V1).expect(&rt, "memory");
    let image = read_image(rt.alloc(), &file, 7).expect(&rt, "an image");
    assert_holds(&rt, 7, image.layout.image() == 7);
    let fault = Fault {
        number: 2,
        image: 300,
        place: Place::File(63),
    };
    let short = file.get(..63).expect(&rt, "63 bytes");
    let refused = read_image(rt.alloc(), short, 300).err();
    assert_holds(&rt, 300, refused == Some(TableError::Fault(fault)));
}
