//! The resources of an image's file: a list of them, and each as a file of its own.
//!
//! [`resource_list`] reads a file and writes a line for each resource. [`extract`] finds the first that is wanted, as the file that
//! programs read: a bitmap with its header, a group of icons with the icons, and others as they stand:
//!
//! ```text
//! let wanted = Wanted { kind: Some(Wish::Id(16)), ..Wanted::default() };
//! let file = read_whole(alloc, &mut reader)?;
//! if let Extracted::Found(found) = extract(alloc, Form::File, &wanted, &file)? {
//!     found.write(&mut writer)?;
//! }
//! ```
//!
//! Only faults 1 to 15 refuse a file: whether an image has resources does not depend on its other tables.
#![tactic(auto)]

mod bitmap;
mod by_id;
mod file;
mod group;
mod list;
mod pictures;
mod resource;
mod wanted;

pub use file::ResourceFile;
pub use list::{resource_list, resource_list_sized, resource_list_text};
pub use resource::{Extracted, Form, extract};
pub use wanted::{Wanted, Wish, wanted_leaf};
