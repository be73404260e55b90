//! The bytes of a file by offset, never past its end, and the faults by which a file is refused.
//!
//! A [`View`] reads numbers, byte ranges and zero-terminated strings at file offsets, and returns `None` for anything past the end
//! of the file; [`TextEnds`] remembers where strings end, for strings that may share bytes; a [`Fault`] says which rule of the
//! format a file breaks, in which image, and where; a [`Refusal`] is a fault or out of memory:
//!
//! ```text
//! let view = View::new(b"MZ\x90\x00");
//! assert_eq!(view.u16_at(0), Some(0x5a4d));
//! assert_eq!(view.u32_at(1), None);
//! ```
#![tactic(auto)]

mod fault;
pub mod laws;
mod refusal;
mod text_ends;
mod view;

pub use fault::{Fault, Place};
pub use refusal::Refusal;
pub use text_ends::TextEnds;
pub use view::View;
