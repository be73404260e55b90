//! What is at a place of an image or an object: the page of `petool at`.
//!
//! [`at`] and [`at_sized`] write what is at a place, [`at_each`] and [`at_each_sized`] what is at each of several places, and
//! [`at_each_text`] does for a file that was read. [`at_map`] maps a set, and writes what is at each address of it: the image and what
//! its file says of the place, what the slot there is bound to, and the bytes as they stand in the space. The outcome is specified by
//! contract; the text is in no contract.
#![tactic(auto)]

mod at_engine;
mod at_headers;
mod at_image;
mod at_object;
mod at_place;
mod file_places;
mod header_places;
mod leaf_place;
mod map_engine;
mod mapped_images;
mod mapped_place;
mod no_place;
mod object_places;
mod placed_symbols;
mod relocation_width;
mod row_name;
mod spot;
mod table_places;

pub use at_engine::{at, at_each, at_each_sized, at_each_text, at_sized};
pub use map_engine::at_map;
pub use placed_symbols::PlacedSymbol;
pub use spot::Spot;
