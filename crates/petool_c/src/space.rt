//! Spaces: `petool_space_map`, `_map_within`, `_open`, `_close`, `_read`, `_move`, `_image` and `_bindings`.

ghost use Rattle.std.specs.Prelude.{◌≡◌, ◌<◌, ◌≤◌, map, ◌≢◌, ◌⊎◌, ◌↔◌, true, false, None, Some, IsSomeAnd, length};
ghost use Rattle.pe_view.specs.Faults.{first_standing};
ghost use Rattle.pe_set.specs.SetErrors.{set_error};
ghost use Rattle.pe_set.specs.SetFaults.{names_tests};
ghost use Rattle.pe_handle.specs.Held.{space_of, is_shared};
ghost use Rattle.pe_records_c.specs.Rows.{TellsTable};
ghost use Rattle.pe_records_c.specs.SetRows.{entry_text, binding_row, claimed_sizes, policy_of, IsJudged};
ghost use Rattle.pe_records_c.specs.Spaces.{IsOwnSpaceOf, IsReadOf, IsMoveOf, base_of, size_of, bindings_of};

use crate::lending::with_space;
use pe_handle::Handle;
use pe_records_c::fault::FaultRecord;
use pe_records_c::mapping::are_larger;
use pe_records_c::moved::MovedRecord;
use pe_records_c::set::{BindingRow, EntryRecord, refuse_set};
use pe_records_c::space::{
    close, map_into, move_image, open_into, read_window, tell_bindings, tell_place,
};
use pe_records_c::status;
use std::alloc::Global;

/// Maps a set of images into a space: each at its base, with its fields relocated and its imports bound. An open space is closed
/// first. With `known`, an import that leads to a module that is not in the set is no fault, and its slot keeps its bytes from the
/// file.
///
/// The status is 0, and only then the space is open; 1 with the set's first fault (an image or set fault); or 2, out of memory,
/// which never comes if a name has a fault (41, 42), but may for an empty set: a space allocates even without images. For fault 50
/// `cycle` is the length of the cycle of forwarders; otherwise it is unchanged. The space keeps copies, so the files may be freed.
#[unsafe(no_mangle)]
pub extern "C" fn petool_space_map(
    alloc: Global,
    space: &mut Handle,
    set: &[EntryRecord],
    known: bool,
    cycle: &mut u32,
    fault: &mut FaultRecord,
) -> u32
    ensures status { (result ≡ 0) ⊎ (result ≡ 1) ⊎ (result ≡ 2) }
    ensures faults { IsJudged (set_error (policy_of known) (map entry_text set.now)) fault.old fault.new cycle.old cycle.new result }
    ensures done { result ≡ 0 → IsSomeAnd space.new.owner (IsOwnSpaceOf (policy_of known) (map entry_text set.now)) }
    ensures open { result ≡ 0 → space.new.is_open ≡ true }
    ensures none { result ≢ 0 → space.new.owner ≡ None }
    ensures closed { result ≢ 0 → space.new.is_open ≡ false }
    ensures memory { result ≡ 2 → first_standing (names_tests (map entry_text set.now)) ≡ None }
{
    match map_into(alloc, space, set, known) {
        Ok(()) => status::DONE,
        Err(error) => refuse_set(error, fault, cycle),
    }
}

/// Maps a set of images as [`petool_space_map`] does, unless they have more than `most_bytes` bytes together. The size of an image is
/// SizeOfImage, and 0 if its file has one of faults 1 to 15, with which the set is refused.
///
/// The status is 7 if they have more, whatever faults the set has, and before any memory is allocated; then the space is closed.
/// Otherwise it is that of [`petool_space_map`].
#[unsafe(no_mangle)]
pub extern "C" fn petool_space_map_within(
    alloc: Global,
    space: &mut Handle,
    set: &[EntryRecord],
    known: bool,
    most_bytes: u64,
    cycle: &mut u32,
    fault: &mut FaultRecord,
) -> u32
    ensures large { result ≡ 7 → most_bytes < claimed_sizes (map entry_text set.now) }
    ensures fits { result ≢ 7 → claimed_sizes (map entry_text set.now) ≤ most_bytes }
    ensures status { (result ≡ 0) ⊎ (result ≡ 1) ⊎ (result ≡ 2) ⊎ (result ≡ 7) }
    ensures faults { result ≢ 7 → IsJudged (set_error (policy_of known) (map entry_text set.now)) fault.old fault.new cycle.old cycle.new result }
    ensures done { result ≡ 0 → IsSomeAnd space.new.owner (IsOwnSpaceOf (policy_of known) (map entry_text set.now)) }
    ensures open { result ≡ 0 → space.new.is_open ≡ true }
    ensures none { result ≢ 0 → space.new.owner ≡ None }
    ensures closed { result ≢ 0 → space.new.is_open ≡ false }
    ensures memory { result ≡ 2 → first_standing (names_tests (map entry_text set.now)) ≡ None }
    ensures fault_kept { result ≡ 7 → fault.new ≡ fault.old }
    ensures cycle_kept { result ≡ 7 → cycle.new ≡ cycle.old }
{
    if are_larger(set, most_bytes) {
        close(alloc, space);
        return status::LARGE;
    }
    petool_space_map(alloc, space, set, known, cycle, fault)
}

/// Opens a set of images as a space, as [`petool_space_map`] maps it, but leaves their bytes in their files: the space has the same
/// bytes, bindings and moves, and keeps a record for each base relocation and each bound slot.
///
/// The status is that of [`petool_space_map`], also out of memory in the same cases. The space reads the files' bytes, which must
/// stay unchanged until it and each handle that shares it are closed; after that nothing of a file is kept, nor anything of the
/// entries and names after the call, but no contract states this: they are `'static`, since a handle that C can hold has no
/// lifetime.
#[unsafe(no_mangle)]
pub extern "C" fn petool_space_open(
    alloc: Global,
    space: &mut Handle,
    set: &[EntryRecord<'static>],
    known: bool,
    cycle: &mut u32,
    fault: &mut FaultRecord,
) -> u32
    ensures status { (result ≡ 0) ⊎ (result ≡ 1) ⊎ (result ≡ 2) }
    ensures faults { IsJudged (set_error (policy_of known) (map entry_text set.now)) fault.old fault.new cycle.old cycle.new result }
    ensures done { result ≡ 0 → IsSomeAnd space.new.owner (IsOwnSpaceOf (policy_of known) (map entry_text set.now)) }
    ensures open { result ≡ 0 → space.new.is_open ≡ true }
    ensures none { result ≢ 0 → space.new.owner ≡ None }
    ensures closed { result ≢ 0 → space.new.is_open ≡ false }
    ensures memory { result ≡ 2 → first_standing (names_tests (map entry_text set.now)) ≡ None }
{
    match open_into(alloc, space, set, known) {
        Ok(()) => status::DONE,
        Err(error) => refuse_set(error, fault, cycle),
    }
}

/// Closes a space, and frees it unless another handle has it. A closed one stays closed.
#[unsafe(no_mangle)]
pub extern "C" fn petool_space_close(alloc: Global, space: &mut Handle)
    ensures none { space.new.owner ≡ None }
    ensures closed { space.new.is_open ≡ false }
{
    close(alloc, space);
}

/// Fills a buffer with the bytes from an address on, which must lie in one image; an empty buffer fits anywhere.
///
/// The status is 0; 1 with fault 54 at the address, of the image that holds it, or of image 65,535 if none does; or 6 if the space
/// is closed. All but 0 leave the buffer unchanged. Allocates nothing.
#[unsafe(no_mangle)]
pub extern "C" fn petool_space_read(
    alloc: Global,
    space: &mut Handle,
    address: u64,
    buffer: &mut [u8],
    fault: &mut FaultRecord,
) -> u32
    ensures exact { IsReadOf (space_of space.old.owner) address (length buffer.old) buffer.old buffer.new fault.old fault.new result }
    ensures closed { (result ≡ 6) ↔ (space.old.is_open ≡ false) }
    ensures space_kept { space.new.owner ≡ space.old.owner }
    ensures open_kept { space.new.is_open ≡ space.old.is_open }
{
    with_space!(
        alloc,
        space,
        |opened| read_window(opened, address, buffer, fault)
    )
}

/// Moves an image to another base: its fields are relocated, and the slots of all images that lead to it are bound again. `moved`
/// counts both.
///
/// The status is 0; 8 if another handle has the space, but never if [`crate::share::petool_space_share`] was not called with it; 1 with
/// the first of faults 55 and 44 to 47 of the move; or 6 if the space is closed. All but 0 change nothing of the space. That 8 comes
/// as long as another handle is open, and no longer, is shown by tests: no contract says how many are open. Allocates nothing.
#[unsafe(no_mangle)]
pub extern "C" fn petool_space_move(
    alloc: Global,
    space: &mut Handle,
    image: u32,
    base: u64,
    moved: &mut MovedRecord,
    fault: &mut FaultRecord,
) -> u32
    ensures exact { result ≢ 8 → IsMoveOf (space_of space.old.owner) image base (space_of space.new.owner) moved.old moved.new fault.old fault.new result }
    ensures shared { result ≡ 8 → is_shared space.old.owner ≡ true }
    ensures space_kept { result ≡ 8 → space.new.owner ≡ space.old.owner }
    ensures moved_kept { result ≡ 8 → moved.new ≡ moved.old }
    ensures fault_kept { result ≡ 8 → fault.new ≡ fault.old }
    ensures sharing_kept { is_shared space.new.owner ≡ is_shared space.old.owner }
    ensures closed { (result ≡ 6) ↔ (space.old.is_open ≡ false) }
    ensures open_kept { space.new.is_open ≡ space.old.is_open }
{
    match std::mem::replace(space, Handle::closed(alloc)).take() {
        Some(mut owner) => {
            let answer = move_image(&mut owner, image, base, moved, fault);
            *space = Handle::of(owner);
            answer
        }
        None => status::CLOSED,
    }
}

/// The base and the size in bytes of an image.
///
/// The status is 0; 3 past the last image; or 6 if the space is closed. All but 0 leave both numbers unchanged.
#[unsafe(no_mangle)]
pub extern "C" fn petool_space_image(
    alloc: Global,
    space: &mut Handle,
    image: u32,
    base: &mut u64,
    size: &mut u32,
) -> u32
    ensures status { (result ≡ 0) ⊎ (result ≡ 3) ⊎ (result ≡ 6) }
    ensures base { result ≡ 0 → base_of (space_of space.old.owner) image ≡ Some base.new }
    ensures size { result ≡ 0 → size_of (space_of space.old.owner) image ≡ Some size.new }
    ensures absent { result ≡ 3 → base_of (space_of space.old.owner) image ≡ None }
    ensures closed { (result ≡ 6) ↔ (space.old.is_open ≡ false) }
    ensures base_kept { result ≢ 0 → base.new ≡ base.old }
    ensures size_kept { result ≢ 0 → size.new ≡ size.old }
    ensures space_kept { space.new.owner ≡ space.old.owner }
    ensures open_kept { space.new.is_open ≡ space.old.is_open }
{
    with_space!(alloc, space, |opened| tell_place(opened, image, base, size))
}

/// Copies the bound slots, image by image and in the order of each image's imports, into the caller's rows.
///
/// The status is 0; 4 if there are more bindings than rows, which then hold the first bindings; or 6 if the space is closed. The
/// count is that of all bindings; 6 leaves it and the rows unchanged.
#[unsafe(no_mangle)]
pub extern "C" fn petool_space_bindings(
    alloc: Global,
    space: &mut Handle,
    rows: &mut [BindingRow],
    count: &mut usize,
) -> u32
    ensures table { result ≢ 6 → TellsTable (λ row. row) binding_row (bindings_of (space_of space.old.owner)) rows.old rows.new count.new result }
    ensures closed { (result ≡ 6) ↔ (space.old.is_open ≡ false) }
    ensures rows_kept { result ≡ 6 → rows.new ≡ rows.old }
    ensures count_kept { result ≡ 6 → count.new ≡ count.old }
    ensures space_kept { space.new.owner ≡ space.old.owner }
    ensures open_kept { space.new.is_open ≡ space.old.is_open }
{
    with_space!(alloc, space, |opened| tell_bindings(opened, rows, count))
}
