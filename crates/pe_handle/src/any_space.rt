//! `AnySpace`: a space whose bytes are in memory or in their files.

ghost use Rattle.std.specs.Prelude.{◌≡◌};
ghost use Rattle.pe_space.specs.Content.{window_fault, nowhere};
ghost use Rattle.pe_view.specs.declared.fault.Place.TheVariants.{Item};
ghost use Rattle.pe_handle.specs.Storage.{no_images};

use crate::storage::Storage;
use pe_space::{Binding, FileSpace, MappedSpace, Moved, Space};
use pe_view::{Fault, Place};
use std::alloc::Global;
use std::marker::Model;

/// A space whose bytes are in memory or in their files. The two differ only in where the bytes are.
#[derive(Drop)]
pub struct AnySpace<'a> {
    storage: Storage<'a>,
}

impl<'a> Model for AnySpace<'a> {
    ghost use Rattle.pe_space.specs.Content.{Content};
    ghost use Rattle.pe_handle.specs.Storage.{content_in};

    ghost Value = { Content };

    ghost view = { λ s. content_in s.storage };
}

/// Fault 54 of a window at an address that no image contains.
fn outside(address: u64) -> Fault
    ensures { result ≡ window_fault nowhere address }
{
    Fault {
        number: 54,
        image: u16::MAX,
        place: Place::Address(address),
    }
}

/// Fault 55: there is no image with this number.
fn no_image(image: u16) -> Fault
    ensures { result ≡ record { number = 55; image = image; place = Item image } }
{
    Fault {
        number: 55,
        image,
        place: Place::Item(u32::from(image)),
    }
}

impl<'a> AnySpace<'a> {
    /// A space whose bytes are in memory.
    pub fn mapped(space: MappedSpace<Global>) -> AnySpace<'a>
        ensures { result ≡ space }
    {
        AnySpace {
            storage: Storage::Memory(space),
        }
    }

    /// A space whose bytes are in their files.
    pub fn opened(space: FileSpace<'a, Global>) -> AnySpace<'a>
        ensures { result ≡ space.entry }
    {
        AnySpace {
            storage: Storage::Files(space),
        }
    }

    /// A space of no images. Allocates nothing.
    pub(crate) fn empty() -> AnySpace<'a>
        ensures { result ≡ no_images }
    {
        AnySpace {
            storage: Storage::Nowhere,
        }
    }
}

impl<'a> Space for AnySpace<'a> {
    ghost content = { λ s. s };

    fn byte(&self, address: u64) -> Option<u8> {
        match &self.storage {
            Storage::Memory(space) => space.byte(address),
            Storage::Files(space) => space.byte(address),
            Storage::Nowhere => None,
        }
    }

    fn image_at(&self, address: u64, count: usize) -> Result<u16, Fault> {
        match &self.storage {
            Storage::Memory(space) => space.image_at(address, count),
            Storage::Files(space) => space.image_at(address, count),
            Storage::Nowhere => Err(outside(address)),
        }
    }

    fn window(&self, address: u64, buffer: &mut [u8]) -> Result<(), Fault> {
        match &self.storage {
            Storage::Memory(space) => space.window(address, buffer),
            Storage::Files(space) => space.window(address, buffer),
            Storage::Nowhere if buffer.is_empty() => Ok(()),
            Storage::Nowhere => Err(outside(address)),
        }
    }

    fn move_image(&mut self, image: u16, base: u64) -> Result<Moved, Fault> {
        match &mut self.storage {
            Storage::Memory(space) => space.move_image(image, base),
            Storage::Files(space) => space.move_image(image, base),
            Storage::Nowhere => Err(no_image(image)),
        }
    }

    fn image_count(&self) -> u16 {
        match &self.storage {
            Storage::Memory(space) => space.image_count(),
            Storage::Files(space) => space.image_count(),
            Storage::Nowhere => 0,
        }
    }

    fn base_of(&self, image: u16) -> Option<u64> {
        match &self.storage {
            Storage::Memory(space) => space.base_of(image),
            Storage::Files(space) => space.base_of(image),
            Storage::Nowhere => None,
        }
    }

    fn size_of(&self, image: u16) -> Option<u32> {
        match &self.storage {
            Storage::Memory(space) => space.size_of(image),
            Storage::Files(space) => space.size_of(image),
            Storage::Nowhere => None,
        }
    }

    fn bindings(&self) -> &[Binding] {
        match &self.storage {
            Storage::Memory(space) => space.bindings(),
            Storage::Files(space) => space.bindings(),
            Storage::Nowhere => &[],
        }
    }
}
