//! What `map` writes of a set of images: a line for each image and each binding, for the imports that are bound to nothing if they
//! are asked for, and for the bytes of a window; or the line of the first fault.
//!
//! ```text
//! let answer = map_report(alloc, &set, Policy::Strict, Some((0x1_8000_1000, 16)), &mut writer);
//! ```
#![tactic(auto)]

mod delayed_report;
pub mod laws;
mod map_lines;
mod set_report;
mod space_report;
mod unbound_imports;
mod window;

pub use delayed_report::map_report_delayed;
pub use pe_space::{Policy, SetEntry};
pub use set_report::{map_report, map_report_unbound};
