//! An image opened once: `petool_image_open`, `_share` and `_close`.

ghost use Rattle.std.specs.Prelude.{◌≡◌, ◌≢◌, ◌⊎◌, false, true, None, Some};
ghost use Rattle.pe_image.specs.ImageTests.{image_tests};
ghost use Rattle.pe_opened.specs.Held.{file_in};
ghost use Rattle.pe_records_c.specs.Faults.{IsAnswered};
ghost use Rattle.pe_records_c.specs.Wants.{IsLaidOut};

use pe_opened::{ImageHandle, open_shared, share};
use pe_records_c::fault::{FaultRecord, refuse_for};
use pe_records_c::status;
use std::alloc::Global;

/// Opens the image of a file: checks it once, and keeps the contents of its tables. An open image is closed first.
///
/// The status is 0, and only then the image is open; 1 with the first of the image faults; or 2, out of memory, but never for a
/// file with one of faults 1 to 15. An open image reads the file's bytes, which must stay unchanged until it and each handle that
/// shares it are closed. After that nothing of the file is kept, but no contract states this: the file is `'static`, since a
/// handle that C can hold has no lifetime.
#[unsafe(no_mangle)]
pub extern "C" fn petool_image_open(
    alloc: Global,
    image: &mut ImageHandle,
    file: &'static [u8],
    fault: &mut FaultRecord,
) -> u32
    ensures status { (result ≡ 0) ⊎ (result ≡ 1) ⊎ (result ≡ 2) }
    ensures faults { IsAnswered (IsLaidOut file.now) (image_tests 0 file.now) fault.old fault.new result }
    ensures done { result ≡ 0 → file_in image.new.image ≡ Some file.now }
    ensures open { result ≡ 0 → image.new.is_open ≡ true }
    ensures none { result ≢ 0 → file_in image.new.image ≡ None }
    ensures closed { result ≢ 0 → image.new.is_open ≡ false }
{
    *image = ImageHandle::closed(alloc);
    match open_shared(alloc, file) {
        Ok(opened) => {
            *image = ImageHandle::of(opened);
            status::DONE
        }
        Err(refusal) => refuse_for(refusal, fault),
    }
}

/// Makes `other` a second handle of an image, after closing what it held. Another thread may use it. The image is freed when the
/// last of its handles is closed.
///
/// The status is 0, and then `other` is open if `image` is, and closed otherwise; or 2, out of memory, which leaves `other` closed,
/// and never comes if `image` is closed.
#[unsafe(no_mangle)]
pub extern "C" fn petool_image_share(
    alloc: Global,
    image: &mut ImageHandle,
    other: &mut ImageHandle,
) -> u32
    ensures status { (result ≡ 0) ⊎ (result ≡ 2) }
    ensures same { result ≡ 0 → file_in other.new.image ≡ file_in image.old.image }
    ensures open { result ≡ 0 → other.new.is_open ≡ image.old.is_open }
    ensures none { result ≡ 2 → file_in other.new.image ≡ None }
    ensures shut { result ≡ 2 → other.new.is_open ≡ false }
    ensures memory { result ≡ 2 → image.old.is_open ≡ true }
    ensures image_kept { file_in image.new.image ≡ file_in image.old.image }
    ensures open_kept { image.new.is_open ≡ image.old.is_open }
{
    match share(alloc, image, other) {
        Ok(()) => status::DONE,
        Err(_) => status::MEMORY,
    }
}

/// Closes an image, and frees it unless another handle has it. A closed one stays closed.
#[unsafe(no_mangle)]
pub extern "C" fn petool_image_close(alloc: Global, image: &mut ImageHandle)
    ensures none { file_in image.new.image ≡ None }
    ensures closed { image.new.is_open ≡ false }
{
    *image = ImageHandle::closed(alloc);
}
