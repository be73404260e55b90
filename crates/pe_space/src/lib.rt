//! Images in one address space: each at its base, with its fields relocated and its imports bound.
//!
//! [`map`] checks a set of files and lays them out in memory, or returns the set's first fault. The space then has the byte at
//! each address. [`open_space`] checks by the same rules and has the same bytes, but leaves them in their files, and moves an
//! image without rewriting them. [`map_delayed`] and [`open_space_delayed`] bind delay-loaded imports too.
//!
//! ```text
//! let set = [SetEntry { name: b"a.dll", file, base: 0x1000_0000 }];
//! let space = map(alloc, &set, Policy::Strict)?;
//! let first = space.byte(0x1000_0000);
//! let mut code = [0; 16];
//! space.window(0x1000_1000, &mut code)?;
//! ```
#![tactic(auto)]

mod address_ranges;
mod by_base;
mod bytes;
mod commands;
mod file_image;
mod file_space;
mod hints;
pub mod laws;
mod mapped_image;
mod mapped_space;
mod mapping;
mod opening;
mod ordered;
mod reply;
mod space;
mod window;

pub use commands::run;
pub use file_space::FileSpace;
pub use mapped_space::MappedSpace;
pub use mapping::{map, map_delayed};
pub use opening::{open_space, open_space_delayed};
pub use pe_set::{Binding, MapError, Policy, SetEntry};
pub use reply::{Bytes, Command, Reply, Stopped};
pub use space::{Moved, Space};
