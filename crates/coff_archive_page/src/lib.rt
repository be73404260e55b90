//! The readable page of an archive of COFF objects: its members, the symbols of its linker member, and its findings in words.
//!
//! [`show_archive`] reads the file, checks it and writes the page:
//!
//! ```text
//! let options = ShowOptions { symbols: true, ..ShowOptions::default() };
//! let page = Page { name: b"zlib.lib", options: &options, width: Page::WIDTH };
//! let mut reader = Counted::new(file);
//! let mut writer = Counted::new(standard_output);
//! let answer = show_archive(alloc, &page, &mut reader, &mut writer);
//! ```
//!
//! [`show_archive_text`] writes the page for a file that was read. The outcome is specified by contract: it is that of the archive's
//! dump; the text is in no contract.
#![tactic(auto)]

mod contents;
mod engine;
mod fault_rows;
mod finding_rows;
mod machine_cells;
mod member_rows;
mod member_symbols;
mod members;
mod page_rows;
mod shown_archive;
mod symbol_rows;

pub use engine::{show_archive, show_archive_text};
pub use pe_page::Page;
pub use pe_text::ShowOptions;
