//! What is at an address of a space.

ghost use Rattle.pe_text.specs.TextWriter.{IsReady};
ghost use Rattle.pe_page.specs.Page.{AddsSome};

use crate::at_image::AtImage;
use crate::at_place::write_place;
use crate::mapped_images::Images;
use pe_page::Cell::{self, Plain};
use pe_page::{NOTHING, write_cells};
use pe_space::{Binding, SetEntry, Space};
use pe_text::Part::{Decimal, Hex, Hex2, Text};
use pe_text::{Sink, TextWriter, write_parts};
use std::alloc::Allocator;

/// How many bytes are shown.
const SHOWN: usize = 16;

/// The binding of the slot of an image that contains an RVA, if it is bound. The time is linear in the number of bindings.
fn binding_at(bindings: &[Binding], number: u16, width: u32, rva: u32) -> Option<Binding> {
    for binding in bindings {
        let is_behind = binding.slot <= rva && rva - binding.slot < width;
        if binding.image == number && is_behind {
            return Some(*binding);
        }
    }
    None
}

/// What a slot is bound to, like `  bound to image 0 ntdll.dll RVA 0x1230 at 0x7c001230`.
fn bound_cells<'a, S: Space>(
    space: &S,
    set: &[SetEntry<'a>],
    binding: Option<Binding>,
) -> [Cell<'a>; 8] {
    let Some(binding) = binding else {
        return [NOTHING; 8];
    };
    let name = match set.get(usize::from(binding.exporter)) {
        Some(entry) => Cell::Name(entry.name),
        None => NOTHING,
    };
    let base = space.base_of(binding.exporter).unwrap_or(0);
    [
        Plain(Text(b"  bound to image ")),
        Plain(Decimal(u64::from(binding.exporter))),
        Plain(Text(b" ")),
        name,
        Plain(Text(b" RVA 0x")),
        Plain(Hex(u64::from(binding.rva), 1)),
        Plain(Text(b" at 0x")),
        Plain(Hex(base.wrapping_add(u64::from(binding.rva)), 1)),
    ]
}

/// Adds some bytes, each after a blank.
fn write_bytes<W: Sink>(text: &mut TextWriter<W>, bytes: &[u8])
    requires { IsReady W.failures text.old }
    ensures { AddsSome W.taken W.failures text.old text.new }
{
    text.text(b"\n ");
    for byte in bytes {
        write_parts(text, &[Text(b" "), Hex2(*byte)]);
    }
    text.text(b"\n");
}

/// Adds the bytes of a space from an address of an image on: 16, or as many as come before the image's `end`, counted from its base.
fn write_window<S: Space, W: Sink>(
    text: &mut TextWriter<W>,
    space: &S,
    address: u64,
    rva: u32,
    end: u32,
)
    requires { IsReady W.failures text.old }
    ensures { AddsSome W.taken W.failures text.old text.new }
{
    let count = SHOWN.min(end.saturating_sub(rva) as usize);
    let mut bytes = [0u8; SHOWN];
    match space.window(address, &mut bytes[..count]) {
        Ok(()) => write_bytes(text, &bytes[..count]),
        Err(_) => text.text(b"\n"),
    }
}

/// Adds what is at an address of an image of a space.
fn write_in_image<A: Allocator + Copy, S: Space, W: Sink>(
    text: &mut TextWriter<W>,
    space: &S,
    set: &[SetEntry],
    image: &AtImage<A>,
    number: u16,
    entry: &SetEntry,
    address: u64,
)
    requires { IsReady W.failures text.old }
    ensures { AddsSome W.taken W.failures text.old text.new }
{
    let rva = u32::try_from(address.saturating_sub(entry.base)).unwrap_or(u32::MAX);
    let width = image.layout.slot_width();
    let binding = binding_at(space.bindings(), number, width, rva);
    write_cells(
        text,
        &[
            Plain(Text(b"image ")),
            Plain(Decimal(u64::from(number))),
            Plain(Text(b" ")),
            Cell::Name(entry.name),
            Plain(Text(b"  ")),
        ],
    );
    write_place(text, image, entry.base, rva);
    write_cells(text, &bound_cells(space, set, binding));
    write_window(text, space, address, rva, image.layout.size());
}

/// Adds what is at an address of a space.
fn write_address<A: Allocator + Copy, S: Space, W: Sink>(
    text: &mut TextWriter<W>,
    space: &S,
    set: &[SetEntry],
    images: &Images<A>,
    address: u64,
)
    requires { IsReady W.failures text.old }
    ensures { AddsSome W.taken W.failures text.old text.new }
{
    let number = space.image_at(address, 1).unwrap_or(u16::MAX);
    let index = usize::from(number);
    match (set.get(index), images.get(index)) {
        (Some(entry), Some(Some(image))) => {
            write_in_image(text, space, set, image, number, entry, address);
        }
        _ => write_parts(
            text,
            &[
                Text(b"address 0x"),
                Hex(address, 1),
                Text(b"  the place is outside the images\n"),
            ],
        ),
    }
}

/// Adds what is at each of some addresses of a space.
pub(crate) fn write_addresses<A: Allocator + Copy, S: Space, W: Sink>(
    text: &mut TextWriter<W>,
    space: &S,
    set: &[SetEntry],
    images: &Images<A>,
    addresses: &[u64],
)
    requires { IsReady W.failures text.old }
    ensures { AddsSome W.taken W.failures text.old text.new }
{
    for address in addresses {
        write_address(text, space, set, images, *address);
    }
}
