//! `Handle`: a space that a C program holds, or none if the handle is closed.

ghost use Rattle.std.specs.Prelude.{◌≡◌, true, false, None, Some, is_some, is_ok, option_map};
ghost use Rattle.std.specs.declared.option.Option.{Option};
ghost use Rattle.pe_handle.specs.Held.{held, owner_coded, space_of, is_shared};
ghost use Rattle.pe_handle.specs.Shared.{SharedContent};

use crate::box_parts::BoxParts;
use crate::owner::Owner;
use std::alloc::{AllocError, Global};
use std::marker::Model;

/// A space, or none. In C it is `struct { void *state; bool is_open; }`; all zeros are a closed handle.
///
/// The handle is one of the owners of the space: a bytewise copy of it is no second owner, but [`share`] makes one. Dropping the
/// last owner frees the memory.
#[repr(C)]
pub struct Handle {
    state: *mut u8,
    /// Whether there is a space.
    pub is_open: bool,
    alloc: Global,
    /// One of the owners of the space.
    pub ghost owner: { Option SharedContent } by { owner_coded },
}

impl Model for Handle {
    ghost also_owns = { λ handle. held handle.alloc handle.is_open handle.state handle.owner };
}

impl Handle {
    /// A handle without a space. Allocates nothing.
    pub fn closed(alloc: Global) -> Handle
        ensures none { result.owner ≡ None }
        ensures shut { result.is_open ≡ false }
    {
        Handle {
            state: std::ptr::null_mut(),
            is_open: false,
            alloc,
        }
    }

    /// The handle that has the owner of a box in parts.
    fn hold(parts: BoxParts<Owner<'static>, Global>) -> Handle
        ensures owner { result.owner ≡ Some parts.entry.value }
        ensures open { result.is_open ≡ true }
    {
        let BoxParts { address, alloc } = parts;
        Handle {
            state: address as *mut u8,
            is_open: true,
            alloc,
        }
    }

    /// The parts of the box of an open handle, or `None` if it is closed.
    fn release(self) -> Option<BoxParts<Owner<'static>, Global>>
        ensures owner { option_map (λ parts. parts.value) result ≡ self.owner }
        ensures open { is_some result ≡ self.is_open }
    {
        let Handle {
            state,
            is_open,
            alloc,
        } = self;
        if is_open {
            Some(BoxParts {
                address: state as *mut Owner<'static>,
                alloc,
            })
        } else {
            None
        }
    }

    /// A handle that has this owner of a space. Allocates nothing.
    pub fn of(owner: Box<Owner<'static>>) -> Handle
        ensures owner { result.owner ≡ Some owner.entry.value }
        ensures open { result.is_open ≡ true }
    {
        Handle::hold(BoxParts::of(owner))
    }

    /// The owner of the handle, or `None` if it is closed.
    pub fn take(self) -> Option<Box<Owner<'static>>>
        ensures owner { option_map (λ owner. owner.value) result ≡ self.owner }
        ensures open { is_some result ≡ self.is_open }
    {
        match self.release() {
            Some(parts) => Some(parts.into_box()),
            None => None,
        }
    }
}

/// Makes `other` a second handle of a space, after closing what it held: the space is freed with the last of its handles. If
/// `space` is closed, so is `other`. If an allocation fails, `other` stays closed; for a closed `space` nothing is allocated.
pub fn share(alloc: Global, space: &mut Handle, other: &mut Handle) -> Result<(), AllocError>
    ensures kept { space_of space.new.owner ≡ space_of space.old.owner }
    ensures same { is_ok result ≡ true → space_of other.new.owner ≡ space_of space.old.owner }
    ensures none { is_ok result ≡ false → other.new.owner ≡ None }
    ensures open_kept { space.new.is_open ≡ space.old.is_open }
    ensures open { is_ok result ≡ true → other.new.is_open ≡ space.old.is_open }
    ensures shut { is_ok result ≡ false → other.new.is_open ≡ false }
    ensures shared { is_ok result ≡ true → is_shared space.new.owner ≡ space.old.is_open }
    ensures both { is_ok result ≡ true → is_shared other.new.owner ≡ space.old.is_open }
    ensures memory { is_ok result ≡ false → space.old.is_open ≡ true }
{
    *other = Handle::closed(alloc);
    let Some(mut owner) = std::mem::replace(space, Handle::closed(alloc)).take() else {
        return Ok(());
    };
    let second = owner.second(alloc);
    *space = Handle::of(owner);
    *other = Handle::of(Box::new(alloc, second?)?);
    Ok(())
}

impl Drop for Handle {
    fn drop(self) {
        match self.take() {
            Some(owner) => drop(owner),
            None => {}
        }
    }
}

// many threads may read a space at once, and any of them may drop its last owner
unsafe impl Send for Handle {}
