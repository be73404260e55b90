//! Files of images: for another base, and from a plan.
//!
//! [`write_image`] makes the file of an image that a [`Plan`] describes: headers, section table and the sections' raw data. The
//! readers accept it, and it lays out the planned bytes.
//!
//! [`rebase_file`] makes from an image's file that of the same image for another base: its fields are relocated, and its ImageBase
//! is that base.
//!
//! ```text
//! let file = write_image(alloc, &plan)?;
//! let moved = rebase_file(alloc, &file, 0x2000_0000)?;
//! assert_eq!(moved.len(), file.len());
//! ```
#![tactic(auto)]

mod error;
pub mod laws;
mod plan;
mod plan_data;
mod plan_faults;
mod plan_headers;
mod raw_data;
mod rebase;
mod summed;
mod write;

pub use error::WriteError;
pub use plan::{Plan, PlanSection};
pub use rebase::{rebase_file, rebase_image};
pub use summed::{put_check_sum, rebase_file_summed};
pub use write::write_image;
