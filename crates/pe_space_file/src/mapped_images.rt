//! `MappedImages`: the images of an accepted set in their address space, each of which can be written as a file.

ghost use Rattle.std.specs.Prelude.{◌≡◌, ◌≢◌, ◌-◌, ◌^◌, ◌<◌, ◌⊎◌, None, Err, length, IsErrOf};
ghost use Rattle.pe_view.specs.Faults.{first_standing};
ghost use Rattle.pe_set.specs.SetView.{entries_of};
ghost use Rattle.pe_set.specs.SetFaults.{names_tests};
ghost use Rattle.pe_set.specs.DelayedErrors.{delayed_error};
ghost use Rattle.pe_set.specs.SetErrors.{SetAnswers, set_error};
ghost use Rattle.pe_space.specs.Content.{size_at};
ghost use Rattle.pe_space.specs.SpaceOf.{IsDelayedSpaceOf, IsSpaceOf};
ghost use Rattle.pe_text.specs.TextWriter.{WritesAll};
ghost use Rattle.pe_space_file.specs.ImageBytes.{image_bytes, total_size};

use crate::address_range::write_range;
use pe_set::{MapError, Policy, SetEntry};
use pe_space::{FileSpace, Space, open_space, open_space_delayed};
use pe_text::{Failed, Sink};
use std::alloc::Allocator;
use std::marker::Model;

/// The images of an accepted set at their bases, over their files, which it borrows. Contracts see the content of their space.
#[derive(Drop)]
pub struct MappedImages<'a, A: Allocator> {
    space: FileSpace<'a, A>,
}

impl<'a, A: Allocator> Model for MappedImages<'a, A> {
    ghost use Rattle.pe_space.specs.Content.{Content};

    ghost Value = { Content };

    ghost use Rattle.pe_space.specs.ImagesApart.{ImagesApart};

    ghost view = { λ s. s.space };

    ghost invariant = { λ s. ImagesApart s.space };
}

impl<'a, A: Allocator + Copy> MappedImages<'a, A> {
    /// Opens the images of a set, as [`pe_space::open_space`] does: with the same content, the same first fault or cycle, or
    /// [`MapError::Memory`] in the same cases.
    pub fn open(
        alloc: A,
        set: &[SetEntry<'a>],
        policy: Policy,
    ) -> Result<MappedImages<'a, A>, MapError>
        ensures exact { SetAnswers (set_error policy (entries_of set.now)) (IsSpaceOf policy (entries_of set.now)) result }
        ensures no_memory { (length set.now ≡ 0) ⊎ (256 < length set.now) → result ≢ Err MapError.Memory }
        ensures named { IsErrOf result MapError.Memory → first_standing (names_tests (entries_of set.now)) ≡ None }
    {
        pe_set::laws::accepted_sets_are_sound();
        let space = open_space(alloc, set, policy)?;
        Ok(MappedImages { space })
    }

    /// Opens the images of a set as [`MappedImages::open`] does, with their delay-loaded imports bound too, as
    /// [`pe_space::open_space_delayed`] binds them.
    pub fn open_delayed(
        alloc: A,
        set: &[SetEntry<'a>],
        policy: Policy,
    ) -> Result<MappedImages<'a, A>, MapError>
        ensures exact { SetAnswers (delayed_error policy (entries_of set.now)) (IsDelayedSpaceOf policy (entries_of set.now)) result }
        ensures no_memory { (length set.now ≡ 0) ⊎ (256 < length set.now) → result ≢ Err MapError.Memory }
        ensures named { IsErrOf result MapError.Memory → first_standing (names_tests (entries_of set.now)) ≡ None }
    {
        pe_set::laws::delayed_sets_are_sound();
        let space = open_space_delayed(alloc, set, policy)?;
        Ok(MappedImages { space })
    }

    /// How many images there are: at most 256.
    pub fn count(&self) -> u16
        ensures { result ≡ length self.now.images }
    {
        self.space.image_count()
    }

    /// The SizeOfImage of an image in bytes, or `None` past the last image.
    pub fn size_of(&self, number: u16) -> Option<u32>
        ensures { result ≡ size_at self.now number }
    {
        self.space.size_of(number)
    }

    /// The sizes of all images together, in bytes.
    pub fn total_size(&self) -> u64
        ensures { result ≡ total_size self.now }
    {
        let mut total = 0;
        for number in 0..self.count() {
            total += u64::from(self.size_of(number).unwrap_or(0));
        }
        total
    }

    /// Writes the bytes of an image as it stands in the space, from its base on: SizeOfImage bytes, with its fields relocated and
    /// addresses in its bound slots. For a number past the last image it writes nothing.
    ///
    /// The bytes are read and written in pieces of 4,096; nothing is allocated. On the error the beginning of the image was written.
    /// Condition: the writer has counted fewer than 2^64 - 1 failures so far.
    pub fn write_image<W: Sink>(&self, number: u16, writer: &mut W) -> Result<(), Failed>
        requires { W.failures writer.old < 2 ^ 64 - 1 }
        ensures { WritesAll (W.taken writer.old) (W.taken writer.new)
            (W.failures writer.old) (W.failures writer.new) result (image_bytes self.now number) }
    {
        let base = self.space.base_of(number).unwrap_or(0);
        let size = self.space.size_of(number).unwrap_or(0);
        write_range(writer, &self.space, base, size)
    }
}
