//! `Owner`: one of the owners of a space.

ghost use Rattle.std.specs.Prelude.{◌≡◌, false, true, None, IfSome, IfOk};
ghost use Rattle.std.specs.Arc.{arc_value};
ghost use Rattle.pe_handle.specs.Moving.{IsMoved};

use crate::any_space::AnySpace;
use crate::owners::Owners;
use pe_space::{Moved, Space};
use pe_view::Fault;
use std::alloc::{AllocError, Global};
use std::marker::Model;
use std::sync::Arc;

/// One of the owners of a space. In contracts it is the content of the space, and whether the space has been shared: only then can
/// it have another owner.
#[derive(Drop)]
pub struct Owner<'a> {
    owners: Owners<'a>,
}

impl<'a> Model for Owner<'a> {
    ghost use Rattle.pe_handle.specs.Shared.{SharedContent, shared_content};

    ghost Value = { SharedContent };

    ghost view = { λ o. shared_content o.owners };
}

impl<'a> Owner<'a> {
    /// The only owner of a space.
    pub fn alone(space: AnySpace<'a>) -> Owner<'a>
        ensures content { result.content ≡ space.entry }
        ensures alone { result.is_shared ≡ false }
    {
        Owner {
            owners: Owners::Alone(space),
        }
    }

    /// One of several owners of a space.
    fn together(space: Arc<AnySpace<'a>>) -> Owner<'a>
        ensures content { result.content ≡ arc_value space.entry }
        ensures shared { result.is_shared ≡ true }
    {
        Owner {
            owners: Owners::Together(space),
        }
    }

    /// The space, to read.
    pub fn space(&self) -> &AnySpace<'a>
        ensures { result.now ≡ self.now.content }
    {
        match &self.owners {
            Owners::Alone(space) => space,
            Owners::Together(space) => space,
        }
    }

    /// Whether the space has no other owner: always if it has not been shared.
    pub fn is_only(&self) -> bool
        ensures { result ≡ false → self.now.is_shared ≡ true }
    {
        match &self.owners {
            Owners::Alone(_) => true,
            Owners::Together(space) => Arc::strong_count(space) == 1,
        }
    }

    /// Moves an image of the space, as [`Space::move_image`] does, or returns `None`, which changes nothing, if the space has
    /// another owner: never if it has not been shared.
    pub fn move_image(&mut self, image: u16, base: u64) -> Option<Result<Moved, Fault>>
        ensures moved { IfSome result (λ answer. IsMoved self.old.content image base answer self.new.content) }
        ensures refused { result ≡ None → self.new.content ≡ self.old.content }
        ensures shared { result ≡ None → self.old.is_shared ≡ true }
        ensures sharing_kept { self.new.is_shared ≡ self.old.is_shared }
    {
        match &mut self.owners {
            Owners::Alone(space) => Some(space.move_image(image, base)),
            Owners::Together(space) => match Arc::get_mut(space) {
                Some(only) => Some(only.move_image(image, base)),
                None => None,
            },
        }
    }

    /// Another owner of the space. If an allocation fails, the space stays as it is.
    pub fn second(&mut self, alloc: Global) -> Result<Owner<'a>, AllocError>
        ensures same { IfOk result (λ other. other.content ≡ self.old.content) }
        ensures shared { IfOk result (λ other. other.is_shared ≡ true) }
        ensures kept { self.new.content ≡ self.old.content }
        ensures both { IfOk result (λ _. self.new.is_shared ≡ true) }
    {
        let empty = Owners::Alone(AnySpace::empty());
        let space = match std::mem::replace(&mut self.owners, empty) {
            Owners::Together(space) => space,
            Owners::Alone(space) => match Arc::new(alloc, space) {
                Ok(space) => space,
                Err(failed) => {
                    self.owners = Owners::Alone(failed.value);
                    return Err(AllocError);
                }
            },
        };
        let other = Arc::try_clone(&space);
        self.owners = Owners::Together(space);
        Ok(Owner::together(other?))
    }
}
