//! Sets of images in one address space: the first fault of a set, the contents of each image, and the export that each import is
//! bound to.
//!
//! [`judge`] reads all files of a set and tests its faults in the one fixed order: names, files, places, imports. `pe_space` maps
//! the sets that it accepts. [`judge_delayed`] binds delay-loaded imports together with the imports.
//!
//! ```text
//! let set = [SetEntry { name: b"a.dll", file, base: 0x1000_0000 }];
//! let accepted = judge(alloc, &set, Policy::Strict)?;
//! let mut own_slots = 0;
//! for binding in &accepted.bindings {
//!     own_slots += u32::from(binding.image == 0);
//! }
//! ```
#![tactic(auto)]

mod adding;
mod binding;
mod delayed;
mod ends;
mod entry;
mod error;
mod judging;
pub mod laws;
mod module_names;
mod names;
mod path;
mod place_faults;
mod placement;
mod reading;
mod remembered;
mod search;
mod standing;
mod trails;

pub use binding::Binding;
pub use entry::{Policy, SetEntry};
pub use error::MapError;
pub use judging::{Accepted, judge, judge_delayed};
pub use placement::{Placed, base_fault};
pub use reading::Module;
