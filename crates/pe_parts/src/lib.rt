//! An image of whose file only some parts were read: the headers, and the raw data of the sections in which its tables are.
//!
//! These parts are packed, one behind the other, and have headers of their own, which say where the raw data of each section is
//! among them, and 0 if it is not there. [`read_packed`] reads the tables of the image, and says whether the parts decide them.
#![tactic(auto)]

mod exports;
mod held;
mod imports;
pub mod laws;
mod tables;

pub use tables::{PackedTables, read_packed};
