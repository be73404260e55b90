//! Archives of COFF objects, written ("PE Format", Archive (Library) File Format).
//!
//! [`write_archive`] writes an archive with both linker members, so that a linker finds the member that defines a symbol, or refuses
//! its members by the first of faults 91 to 93. What it wrote is read back by `coff_archive`:
//!
//! ```text
//! let members = [NewMember { name: b"a.obj", bytes: object }];
//! let file = write_archive(alloc, &members)?;
//! let archive = Archive::of(View::new(&file)).unwrap();
//! ```
//!
//! The linker members name the public symbols of each member. Those of an object without a fault are the external symbols that it
//! defines, common and absolute ones among them, and the weak externals that are aliases. A short import object has `__imp_NAME` and,
//! but for data, `NAME`. Any other member has none: a text, an object with a fault, of another format, or with the longer header that
//! allows for more sections. A symbol that several members define is named once for each of them, in the order of the members.
//!
//! It takes the time of the members' symbol tables and string tables, and of the archive; to sort the names, that of the linker
//! members times the logarithm of the number of symbols. No memory is taken for a copy of a member's bytes but in the archive.
#![tactic(auto)]

mod check;
pub mod laws;
mod layout;
mod library_symbol;
mod new_member;
mod parts;
mod public_names;
mod symbols;
mod tables;
mod write;

pub use new_member::NewMember;
pub use write::{archive_len, write_archive, write_archive_into};
