//! What is broken in the symbol table of an image ("PE Format", COFF Symbol Table, COFF String Table). Its symbols are those of
//! [`coff_read::ImageSymbols`].
//!
//! ```text
//! for (index, symbol) in ImageSymbols::new(alloc, file, &layout.headers()) {
//!     show(index, symbol.name);
//! }
//! let findings = symbol_findings(alloc, 0, file, &layout.headers())?;
//! ```
//!
//! No call refuses an image. A rule that is broken is a finding, of type [`pe_view::Fault`] with a number from 261 on. A file with n
//! bytes holds at most n / 18 records of a symbol table, and each is read once, without its name.
#![tactic(auto)]

mod findings;

pub use findings::symbol_findings;
