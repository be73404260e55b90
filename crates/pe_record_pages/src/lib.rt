//! The parts of a page for the tables that the profile leaves out and for what a file says of itself: debug data, functions, TLS, load
//! configuration, certificates and Rich header, and what was found in them.
//!
//! Contracts say that some text is added, not which.
#![tactic(auto)]

mod arm_unwind;
mod certificates;
mod debug;
mod debug_data;
mod findings;
mod functions;
mod load_configuration;
mod overlay;
mod pdb;
mod rich_header;
mod shown_image;
mod summaries;
mod tls;
mod trust;
mod unwind;

pub use debug::{image_pdb, is_reproducible, write_debug};
pub use findings::{table_findings, write_findings};
pub use functions::{function_cells, write_functions};
pub use load_configuration::write_load_configuration;
pub use pdb::{Pdb, write_identity};
pub use shown_image::ShownImage;
pub use summaries::write_table_summary;
pub use tls::write_tls;
pub use trust::{TrustFindings, trust_findings, write_trust};
