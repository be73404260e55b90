//! `FaultLine`: a fault as a line, written without `pe_text`.

use pe_view::{Fault, Place};
use std::fmt::{self, Display};

/// A fault with its number, its image and its place.
#[derive(Clone, Copy)]
pub(crate) struct FaultLine(pub Fault);

impl Display for FaultLine {
    fn fmt<W: fmt::Write>(&self, f: &mut fmt::Formatter<W>) -> fmt::Result {
        let Fault {
            number,
            image,
            place,
        } = self.0;
        write!(f, "fault {number} image {image} ")?;
        match place {
            Place::File(offset) => write!(f, "file {offset:#010x}"),
            Place::Rva(rva) => write!(f, "rva {rva:#010x}"),
            Place::Address(address) => write!(f, "address {address:#018x}"),
            Place::Item(item) => write!(f, "item {item}"),
        }
    }
}
