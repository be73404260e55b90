//! `Owners`: who owns a space.

use crate::any_space::AnySpace;
use std::sync::Arc;

/// Who owns a space: one handle, or several together.
#[derive(Drop)]
pub(crate) enum Owners<'a> {
    /// This handle, which has shared it with no other.
    Alone(AnySpace<'a>),
    /// This handle, and those with which it shares it, as long as they are open.
    Together(Arc<AnySpace<'a>>),
}
