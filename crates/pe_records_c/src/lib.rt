//! The work of the calls of libpetool: records and rows as C has them, statuses, and how tables, faults, open images and spaces are
//! reported.
//!
//! ```text
//! let mut rows = [row; 4];
//! let mut count = 0;
//! let exports = exports_in(alloc, file)?;
//! let status = put_table(&mut rows, exports.ordinals(), &mut count);
//! ```
#![tactic(auto)]

// from describe/records.txt: modules
pub mod export;
pub mod fault;
pub mod fixup;
pub mod headers;
pub mod import;
pub mod laws;
pub mod mapping;
pub mod moved;
pub mod name;
pub mod object;
pub mod object_headers;
pub mod opened;
pub mod opened_rebase;
pub mod reading;
pub mod rebase;
pub mod row;
pub mod set;
pub mod space;
pub mod status;
pub mod symbol;
pub mod tables;
pub mod text;
pub mod unbound;
pub mod value;
// end of describe/records.txt
