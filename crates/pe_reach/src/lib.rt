//! How much of a file decides its answers: what comes after the end of the bytes that its headers name changes none.
//!
//! The answers are the headers, the first fault and the laid-out image. [`needed`] says where that end is, and [`read_enough`]
//! reads a file of a known size up to there. [`early_fault`] is a fault that the first bytes decide, and [`view_fault`] one of a
//! file that may be an object. [`run_sized`] is the engine of a report over such a file.
//!
//! [`read_beginning`] reads the first bytes of a file, which decide its headers.
//!
//! Views also show the names of sections, which may come after that end. [`read_view`] reads as much as they show, and they see it
//! as a [`ViewFile`], which hands out no bytes of an image. [`run_view`] is the engine of a [`ViewReport`] over such a file.
//! [`read_whole_tables`] reads what views show of the tables of a refused image.
#![tactic(auto)]

mod beginning;
pub mod laws;
mod names;
mod part_names;
mod part_source;
mod parts_reading;
mod parts_report;
mod reach;
mod reading;
mod sized;
mod told_parts;
mod view_file;
mod view_reading;
mod view_report;
mod whole_tables;

pub use beginning::{Beginning, read_beginning};
pub use part_names::read_names;
pub use part_source::{PartSource, Placed};
pub use parts_reading::{Parts, read_parts};
pub use parts_report::{TablesReport, run_parts};
pub use reach::{early_fault, needed, object_size_fault, size_fault, view_fault};
pub use reading::read_enough;
pub use sized::run_sized;
pub use view_file::ViewFile;
pub use view_reading::{ViewBytes, read_rest, read_view};
pub use view_report::{ViewReport, WholeView, run_view};
pub use whole_tables::read_whole_tables;
