//! The readable page of an image or an object: its headers, sections and tables, with names next to numbers.
//!
//! [`show`] reads the file, checks it and writes the page:
//!
//! ```text
//! let options = ShowOptions { exports: true, ..ShowOptions::default() };
//! let mut reader = Counted::new(file);
//! let mut writer = Counted::new(standard_output);
//! let answer = show(alloc, b"zlib1.dll", &options, &mut reader, &mut writer);
//! ```
//!
//! [`show_sized`] takes the file's size too, and reads only as much of an image as the page shows. [`show_page`] and
//! [`show_page_sized`] write a page of another width.
//!
//! The outcome is specified by contract. So are, internally, the rows of exports, imports, base relocations, relocations and symbols;
//! the rest of a page is in no contract.
#![tactic(auto)]

// from describe/records.txt: modules
mod auxiliary;
mod directories;
mod engine;
mod exports;
mod fault;
mod file_rows;
mod fixups;
mod header_rows;
mod image;
mod image_symbols;
mod imports;
mod memory_layout;
mod object;
mod object_sections;
mod sections;
mod symbols;
// end of describe/records.txt

pub use engine::{show, show_page, show_page_sized, show_page_text, show_sized};
pub use pe_page::Page;
pub use pe_text::ShowOptions;
