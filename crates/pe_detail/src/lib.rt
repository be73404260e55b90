//! The numbers of a file that the rule of a fault compares, and their words.
//!
//! A [`pe_view::Fault`] has a number and a place. [`fault_detail`] reads the rest from the file again: which RVA, count or type it
//! is that breaks the rule, and what it is compared with. [`DetailText`] has the words, and the name of each number:
//!
//! ```text
//! if let Some(detail) = fault_detail(View::new(file), size, &fault) {
//!     message.push_str(&format!(in alloc; ": {}", DetailText(detail))?)?;
//! }
//! ```
//!
//! It is a crate of its own, since it needs the layout of an image, and words, and neither the readers of tables nor the writers of
//! lines need it.
#![tactic(auto)]

mod bases;
mod detail;
mod details;
mod exports;
mod fixups;
mod imports;
mod numbers;
mod objects;
mod words;

pub use detail::Detail;
pub use details::fault_detail;
pub use words::{Amount, DetailPart, DetailText};
