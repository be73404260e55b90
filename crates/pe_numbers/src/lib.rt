//! Numbers written in sequence, little-endian as the format stores them.
//!
//! ```text
//! push_numbers(&mut bytes, &[U16(0x5a4d), U32(0x40)])?;
//! assert_eq!(bytes, b"MZ\x40\x00\x00\x00");
//! ```
#![tactic(auto)]

pub mod laws;
mod number;

pub use number::{Number, push_numbers, push_record, write_numbers};
