//! The imports of a set that are bound to nothing: which they are, and how they are found beside its bindings.
//!
//! If unknown modules are no fault, an import whose search comes to a module that is not in the set has no binding, and its slot is
//! left as it is. Imports and bindings are in one order, so one pass over both finds these:
//!
//! ```text
//! for import in imports {
//!     match after_slot(bindings, image, import.slot) {
//!         Some(left) => bindings = left,
//!         None => println!(rt; "{}", import.slot)?,
//!     }
//! }
//! ```
#![tactic(auto)]

mod next_binding;

pub use next_binding::after_slot;
