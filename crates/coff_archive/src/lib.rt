//! Archives of COFF objects: their members, the symbols of their linker members, and short import objects ("PE Format", Archive
//! (Library) File Format and Import Library Format). Names are read in the forms of Microsoft's, GNU's and BSD's tools.
//!
//! ```text
//! let archive = Archive::of(View::new(file))?;
//! for read in archive.members() {
//!     let member = read?;
//!     let name = archive.name(member);
//!     let bytes = member.contents();
//! }
//! ```
//!
//! Only [`findings`] and [`MemberNames`] take memory. A walk takes the time of the headers or of the linker member, and a name the time of
//! its own bytes; by [`MemberNames`] that of 256 bytes at most, for names that may share bytes.
#![tactic(auto)]

mod archive;
mod archive_findings;
mod bytes;
mod find;
mod front;
mod header;
mod import;
pub mod laws;
mod linker;
mod member;
mod member_names;
mod members;
mod names;
mod open;
mod symbol;
mod symbols;
mod table;

pub use archive::Archive;
pub use archive_findings::findings;
pub use import::{Import, import_object, is_import};
pub use linker::Linker;
pub use member::{HEADER_LEN, Member, NAME_FIELD_LEN};
pub use member_names::MemberNames;
pub use members::Members;
pub use open::open_archive;
pub use symbol::ArchiveSymbol;
pub use symbols::Symbols;
