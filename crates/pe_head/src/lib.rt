//! The headers of an image: the COFF header, the optional header of PE32 and PE32+, the data directories and the section
//! table.
//!
//! [`read_headers`] reads them all or returns the first of faults 1 to 12; it allocates nothing. [`check_headers`] is for callers
//! that need a few fields.
//!
//! ```text
//! let headers = read_headers(View::new(file), 0)?;
//! let first = headers.sections.as_slice()[0];
//! ```
#![tactic(auto)]

mod beginning;
mod checked;
mod coff;
mod detail;
mod directory;
mod fields;
mod header_values;
mod headers;
pub mod laws;
mod names;
mod offsets;
mod optional;
mod reading;
mod section;
mod section_values;

pub use checked::CheckedHeaders;
pub use coff::{characteristic, machine};
pub use detail::{FaultDetail, fault_detail};
pub use directory::{Directory, directory_index};
pub use headers::Headers;
pub use names::{
    FlagKind, Named, characteristic_name, directory_name, dll_characteristic_name, flag_name,
    machine_name, name_among, section_flag_name, subsystem_name,
};
pub use optional::{Magic, dll_characteristic, subsystem};
pub use reading::{check_headers, read_headers};
pub use section::{SectionHeader, section_flag};
