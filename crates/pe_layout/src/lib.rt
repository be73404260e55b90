//! An image laid out in memory: the byte, and the zero-terminated string, at each RVA.
//!
//! A [`Layout`] borrows the file, and reads a header when a call asks for it. Only [`Layout::bytes`] allocates, and
//! [`Layout::text_at`] for the ends of strings that it keeps:
//!
//! ```text
//! let layout = Layout::new(View::new(file), 0)?;
//! let entry = layout.headers().address_of_entry_point;
//! let first = layout.byte(entry);
//! ```
#![tactic(auto)]

mod fill;
mod header_source;
pub mod laws;
mod layout;
mod locate;
mod section_faults;
mod sections;
mod text;

pub use layout::Layout;
pub use locate::Located;
pub use section_faults::check_sections;
pub use text::Text;
