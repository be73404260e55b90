//! The delay-loaded imports of an image: those of modules that it loads when it first calls them ("PE Format", Delay-Load Import Tables).
//!
//! By level, without memory:
//!
//! ```text
//! for descriptor in DelayDescriptors::of(&layout) {
//!     show(descriptor.module(&layout));
//!     for import in DelayImports::of(&layout, &descriptor) {
//!         show(import.key, import.slot);
//!     }
//! }
//! ```
//!
//! With memory, all imports as [`pe_tables::read_imports`] returns those of the import table, and the findings:
//!
//! ```text
//! let imports = read_delay_imports(alloc, &layout)?;
//! let findings = delay_findings(alloc, &layout)?;
//! ```
//!
//! No call refuses an image. A rule that is broken is a finding, of type [`pe_view::Fault`] with a number from 161 on. A descriptor with
//! a finding has no imports in the list of all.
//!
//! The cost of a file with n bytes: its descriptors are at most n / 32, in one run of the headers or of a section's raw data, whatever
//! the directory's Size is. Of all tables of names at most 1,048,576 entries are read, and one more for each descriptor, since many
//! descriptors may have one table. A call with memory searches each byte of a long string for its end at most once, and 256 bytes more
//! for each entry and descriptor.
#![tactic(auto)]

mod address;
mod descriptor;
mod descriptors;
mod entry;
mod findings;
mod imports;
mod key;
pub mod laws;
mod reading;
mod tables;
mod walk;

pub use descriptor::DelayDescriptor;
pub use descriptors::DelayDescriptors;
pub use findings::delay_findings;
pub use imports::DelayImports;
pub use reading::{NamedImports, read_delay_imports, read_named_delay_imports};
