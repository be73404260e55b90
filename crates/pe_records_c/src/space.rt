//! What the calls of a space do: map, open, close, read a window, move an image, and list images and bindings.

ghost use Rattle.std.specs.Prelude.{◌≡◌, ◌≢◌, ◌⊎◌, IsErrOf, IsSomeAnd, None, Some, false, true, is_ok, length, map};
ghost use Rattle.pe_view.specs.Faults.{first_standing};
ghost use Rattle.pe_view.specs.declared.fault.Place.TheVariants.{Item};
ghost use Rattle.pe_set.specs.SetErrors.{SetAnswers, set_error};
ghost use Rattle.pe_set.specs.SetFaults.{names_tests};
ghost use Rattle.pe_space.specs.Content.{window_at, base_at, size_at};
ghost use Rattle.pe_space.specs.Moves.{move_fault};
ghost use Rattle.pe_records_c.specs.Faults.{fault_record};
ghost use Rattle.pe_records_c.specs.Rows.{TellsTable};
ghost use Rattle.pe_records_c.specs.SetRows.{entry_text, binding_row, policy_of};
ghost use Rattle.pe_records_c.specs.Spaces.{IsMoveBy, IsOwnSpaceOf, IsWindow};

use crate::fault::{FaultRecord, refuse};
use crate::mapping::{map_entries, open_entries};
use crate::moved::{MovedRecord, moved_record};
use crate::row::put_table;
use crate::set::{BindingRow, EntryRecord, policy_of};
use crate::status;
use pe_handle::{AnySpace, Handle, Owner};
use pe_set::MapError;
use pe_space::Space;
use std::alloc::Global;

/// Closes a space, and frees its memory unless another handle has it. A closed one stays closed.
pub fn close(alloc: Global, space: &mut Handle)
    ensures none { space.new.owner ≡ None }
    ensures closed { space.new.is_open ≡ false }
{
    *space = Handle::closed(alloc);
}

/// Maps the images of a set into a space, which is closed first, and is then open unless an error is returned. With `known`, an
/// import that leads to a module that is not in the set is no fault. A set that is refused for its names allocates nothing.
pub fn map_into(
    alloc: Global,
    space: &mut Handle,
    set: &[EntryRecord],
    known: bool,
) -> Result<(), MapError>
    ensures exact { SetAnswers (set_error (policy_of known) (map entry_text set.now)) (λ _. IsSomeAnd space.new.owner (IsOwnSpaceOf (policy_of known) (map entry_text set.now))) result }
    ensures open { space.new.is_open ≡ is_ok result }
    ensures none { is_ok result ≡ false → space.new.owner ≡ None }
    ensures named { IsErrOf result MapError.Memory → first_standing (names_tests (map entry_text set.now)) ≡ None }
{
    close(alloc, space);
    let mapped = map_entries(alloc, set, policy_of(known))?;
    *space = Handle::of(mapped);
    Ok(())
}

/// Opens the images of a set over their files, whose bytes it borrows, as [`map_into`] maps them.
pub fn open_into(
    alloc: Global,
    space: &mut Handle,
    set: &[EntryRecord<'static>],
    known: bool,
) -> Result<(), MapError>
    ensures exact { SetAnswers (set_error (policy_of known) (map entry_text set.now)) (λ _. IsSomeAnd space.new.owner (IsOwnSpaceOf (policy_of known) (map entry_text set.now))) result }
    ensures open { space.new.is_open ≡ is_ok result }
    ensures none { is_ok result ≡ false → space.new.owner ≡ None }
    ensures named { IsErrOf result MapError.Memory → first_standing (names_tests (map entry_text set.now)) ≡ None }
{
    *space = Handle::closed(alloc);
    let opened = open_entries(alloc, set, policy_of(known))?;
    *space = Handle::of(opened);
    Ok(())
}

/// Fills a buffer with the bytes from an address on, which must lie in one image, and returns the status: 0, or 1 with fault 54,
/// which leaves the buffer unchanged.
pub fn read_window(
    space: &AnySpace,
    address: u64,
    buffer: &mut [u8],
    fault: &mut FaultRecord,
) -> u32
    ensures exact { IsWindow (window_at space.now address (length buffer.old)) buffer.old buffer.new fault.old fault.new result }
    ensures open { result ≢ 6 }
{
    match space.window(address, buffer) {
        Ok(()) => status::DONE,
        Err(first) => refuse(first, fault),
    }
}

/// Fault 55: there is no image with this index.
fn no_image(image: u32) -> FaultRecord
    ensures { result ≡ fault_record (record { number = 55; image = image; place = Item image }) }
{
    FaultRecord {
        number: 55,
        place: 3,
        image,
        at: image as u64,
    }
}

/// Moves an image to another base, counts what that rewrote, and returns the status: 0, 1 with the first of faults 55 and 44 to 47,
/// or 8 if another handle has the space; all but 0 change nothing of it. An index of more than 16 bits is that of no image, as any
/// from the number of images on.
pub fn move_image(
    owner: &mut Owner,
    image: u32,
    base: u64,
    moved: &mut MovedRecord,
    fault: &mut FaultRecord,
) -> u32
    ensures exact { result ≢ 8 → IsMoveBy (move_fault owner.old.content image base) owner.old.content image base (Some owner.new.content) moved.old moved.new fault.old fault.new result }
    ensures shared { result ≡ 8 → owner.old.is_shared ≡ true }
    ensures content_kept { result ≡ 8 → owner.new.content ≡ owner.old.content }
    ensures moved_kept { result ≡ 8 → moved.new ≡ moved.old }
    ensures fault_kept { result ≡ 8 → fault.new ≡ fault.old }
    ensures sharing_kept { owner.new.is_shared ≡ owner.old.is_shared }
    ensures open { result ≢ 6 }
{
    if !owner.is_only() {
        return status::SHARED;
    }
    if image >= owner.space().image_count() as u32 {
        *fault = no_image(image);
        return status::FAULT;
    }
    match owner.move_image(image as u16, base) {
        Some(Ok(counts)) => {
            *moved = moved_record(&counts);
            status::DONE
        }
        Some(Err(first)) => refuse(first, fault),
        None => status::SHARED,
    }
}

/// Reports the base and the size in bytes of an image, and returns the status: 0, or 3 if there is no such image, which leaves both
/// unchanged.
pub fn tell_place(space: &AnySpace, image: u32, base: &mut u64, size: &mut u32) -> u32
    ensures status { (result ≡ 0) ⊎ (result ≡ 3) }
    ensures base { result ≡ 0 → base_at space.now image ≡ Some base.new }
    ensures size { result ≡ 0 → size_at space.now image ≡ Some size.new }
    ensures absent { result ≡ 3 → base_at space.now image ≡ None }
    ensures base_kept { result ≢ 0 → base.new ≡ base.old }
    ensures size_kept { result ≢ 0 → size.new ≡ size.old }
{
    if image >= space.image_count() as u32 {
        return status::ABSENT;
    }
    match (space.base_of(image as u16), space.size_of(image as u16)) {
        (Some(first), Some(length)) => {
            *base = first;
            *size = length;
            status::DONE
        }
        _ => status::ABSENT,
    }
}

/// Reports the bound slots: fills the rows, counts the bindings, and returns the status, 0 or 4.
pub fn tell_bindings(space: &AnySpace, rows: &mut [BindingRow], count: &mut usize) -> u32
    ensures table { TellsTable (λ row. row) binding_row space.now.bindings rows.old rows.new count.new result }
    ensures open { result ≢ 6 }
{
    put_table(rows, space.bindings(), count)
}
