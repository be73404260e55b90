//! The content of an image or an object, as one line of JSON for scripts.
//!
//! [`json`] reads a file, checks it as an image or as an object, and writes one JSON object and a line feed (JSON Lines):
//!
//! ```text
//! let mut reader = Counted::new(file);
//! let mut writer = Counted::new(standard_output);
//! let answer = json(alloc, b"zlib1.dll", None, &mut reader, &mut writer);
//! ```
//!
//! [`Beyond`] in place of `None` asks for what is told of an image beyond its profile. [`json_sized`] takes the file's size too, and reads
//! only as much of an image as the line shows. [`json_parts`] reads only the parts from which the line of an image without a fault may
//! be known.
//!
//! The line's members are those of docs/JSON.md, and the contracts define each byte. It is written straight into the text; after a
//! failed write no further row is made. All memory is taken before its first byte, so after want of memory nothing of it was
//! written. Of a refused image the line has the fault, the headers and sections if the headers have no fault, and the tables that
//! [`pe_reach::read_whole_tables`] reads if the image is laid out.
//!
//! [`write_object_members`], [`write_fault`] and [`write_name`] with its sisters add parts of a line to the line of another crate.
#![tactic(auto)]

mod auxiliary;
mod beginning;
mod beyond;
mod big_header;
mod bound_imports;
mod certificates;
mod debug;
mod delay_imports;
mod directories;
mod engine;
mod exports;
mod fault;
mod findings;
mod flags;
mod functions;
mod headers;
mod image;
mod image_symbols;
pub mod laws;
mod object;
mod object_sections;
mod optional_header;
mod parts;
mod pdb;
mod records;
mod refused;
mod resources;
mod rich;
mod rows;
mod sections;
mod string;
mod structure;
mod structure_keys;
mod symbols;
mod tables;
mod tls;
mod trust;
mod utf16;
mod version;

pub use beyond::Beyond;
pub use engine::{json, json_sized, print_line};
pub use fault::write_fault;
pub use object::write_object_members;
pub use parts::json_parts;
pub use string::{write_name, write_number, write_quoted, write_text_if};
