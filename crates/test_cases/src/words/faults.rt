//! Faults in words, at places of each kind.

use crate::numbers::number_of;
use pe_text::FaultText;
use pe_view::{Fault, Place};

/// The place described by a word and a number.
fn place_of(word: &str, number: u64) -> Option<Place> {
    match word {
        "file" => Some(Place::File(number)),
        "rva" => Some(Place::Rva(u32::try_from(number).ok()?)),
        "address" => Some(Place::Address(number)),
        "item" => Some(Place::Item(u32::try_from(number).ok()?)),
        _ => None,
    }
}

/// Prints a fault in words with its place: the arguments are its number, and the kind and the number of its place.
pub(crate) fn print_fault<R: Print>(rt: &R, words: &str) -> Option<()> {
    let (number, place) = words.split_once(" ")?;
    let (kind, digits) = place.split_once(" ")?;
    let text = FaultText(Fault {
        number: u16::from_str_radix(number, 10).ok()?,
        image: 0,
        place: place_of(kind, number_of(digits)?)?,
    });
    println!(rt; "{text}").ok()
}
