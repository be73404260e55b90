//! Tables of an image that its profile leaves out: debug directory, exception functions, TLS, load configuration, bound imports, CLR
//! header.
//!
//! No call refuses an image. A rule of a table that is broken is a finding, of type [`pe_view::Fault`] with a number from 101 on; all
//! findings are told, and what the file holds of the table is read:
//!
//! ```text
//! let entries: Records<DebugEntry> = Records::of(&layout);
//! for index in 0..entries.len() {
//!     let entry = entries.get(index).unwrap();
//!     if entry.kind == debug_type::CODE_VIEW
//!         && let Some(data) = entry.data(file)
//!     {
//!         show(code_view(data))?;
//!     }
//! }
//! let findings = findings(alloc, &layout, file)?;
//! ```
//!
//! Tables are of two kinds. [`Records`] have one length, each right after the one before it, and a type that is a [`Record`] describes
//! one. A [`Structure`] has fields at offsets of their own, and as many of them as its size allows.
//!
//! Only the call for findings allocates. All others read when they are asked. No table is longer than the bytes that the file holds
//! from its RVA on in one run, of the headers or of a section's raw data, whatever its Size is: what is in zero fill costs nothing.
#![tactic(auto)]

mod address;
mod arm_function;
mod bound_finding;
mod bound_imports;
mod clr_fields;
mod debug;
mod debug_data;
mod exceptions;
pub mod finding;
mod function;
mod image_findings;
mod load_finding;
mod load_layout;
mod load_tables;
mod names;
mod pdb;
mod record;
mod records;
mod structure;
mod tls_callbacks;
mod tls_directory;
mod tls_finding;

pub use arm_function::ArmFunction;
pub use bound_imports::{BoundImport, BoundImports};
pub use clr_fields::{CLR_FIELD_COUNT, clr_field, clr_header};
pub use debug::{DebugEntry, debug_type};
pub use debug_data::{
    FeatureCounts, PdbChecksum, feature_counts, first_number, pdb_checksum, repro_hash,
};
pub use exceptions::{ExceptionTable, exception_table};
pub use function::Function;
pub use image_findings::findings;
pub use load_layout::{LOAD_FIELD_COUNT, load_configuration, load_field};
pub use load_tables::{LoadTable, LoadTableKind, load_table};
pub use names::{debug_type_name, load_field_name};
pub use pdb::{CodeView, Pdb20, Pdb70, code_view};
pub use record::Record;
pub use records::Records;
pub use structure::{Field, Structure, Width};
pub use tls_callbacks::TlsCallbacks;
pub use tls_directory::{TlsDirectory, tls};
