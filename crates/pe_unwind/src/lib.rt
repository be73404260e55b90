//! The unwind information of functions: of AMD64 images (x64 exception handling), and of ARM64 images (ARM64 exception handling, .xdata
//! records).
//!
//! ```text
//! for index in 0..functions.len() {
//!     let function = functions.get(index).unwrap();
//!     if let Some(information) = UnwindInformation::at(&layout, function.unwind) {
//!         for operation in information.operations(&layout) {
//!             show(operation?);
//!         }
//!     }
//!     for function in Chain::of(&layout, &function) {
//!         show(function?);
//!     }
//! }
//! ```
//!
//! No call allocates, and none refuses an image. A rule that is broken is a finding, of type [`pe_view::Fault`] with a number from 117 to
//! 120.
//!
//! The cost of a file: at most 255 slots of operations for the unwind information of a function, at most 1,020 bytes of codes for that
//! of an ARM64 image, and at most 32 steps for a chain. Many functions may have one unwind information, and a chain may lead to the
//! longest codes, so that who shows all operations of all chains shows the product.
#![tactic(auto)]

mod arm_unwind;
mod chain;
mod information;
pub mod laws;
mod names;
mod operation;
mod operations;

pub use arm_unwind::ArmUnwind;
pub use chain::Chain;
pub use information::UnwindInformation;
pub use names::{operation_name, register_name};
pub use operation::{Operation, operation_code};
pub use operations::Operations;
