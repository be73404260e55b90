//! The lines of the report of a mapped set.

ghost use Rattle.std.specs.Prelude.{◌≡◌, ◌+◌, ◌<◌, ◌≤◌, ◌^◌, ℕ, All, Ok, Some, length, flat_map, map};
ghost use Rattle.pe_set.specs.SetView.{entry_view};
ghost use Rattle.pe_space.specs.Content.{byte_at, window_at, placement_of};
ghost use Rattle.pe_text.specs.Text.{numbered};
ghost use Rattle.pe_text.specs.TextWriter.{IsReady, Adds};
ghost use Rattle.pe_map_lines.specs.MapReport.{bind_line, byte_text, bytes_line, bytes_from, window_lines, export_address, image_line, told_line};

use pe_space::{Binding, SetEntry, Space};
use pe_text::Part::{Decimal, Hex2, Hex8, Hex16, Quoted, Text};
use pe_text::{Sink, TextWriter, write_parts};

/// How many bytes are on a line of a window.
const LINE_BYTES: u32 = 16;

#[tactic(auto, unfolding(crate::specs::MapReport::image_line))]
fn write_image<W: Sink>(line: &mut TextWriter<W>, number: usize, entry: &SetEntry, size: u32)
    requires { IsReady W.failures line.old }
    ensures { Adds W.taken W.failures line.old line.new (image_line number entry.now.name.now entry.now.base size) }
{
    write_parts(
        line,
        &[
            Text(b"image "),
            Decimal(number as u64),
            Text(b" "),
            Quoted(entry.name),
            Text(b" base 0x"),
            Hex16(entry.base),
            Text(b" size 0x"),
            Hex8(size as u64),
            Text(b"\n"),
        ],
    );
}

/// Adds a line for each image of a space; `set` has the images' names.
pub(crate) fn write_images<S: Space, W: Sink>(text: &mut TextWriter<W>, space: &S, set: &[SetEntry])
    requires ready { IsReady W.failures text.old }
    requires few { length set.now ≤ 256 }
    ensures { Adds W.taken W.failures text.old text.new
        (numbered (λ number e. told_line (map placement_of (S.content space.now).images) number (entry_view e)) 0 set.now) }
{
    for (number, entry) in set.iter().enumerate() {
        let size = space.size_of(number as u16).unwrap_or(0);
        write_image(text, number, entry, size);
    }
}

#[tactic(auto, unfolding(crate::specs::MapReport::bind_line))]
fn write_binding<W: Sink>(line: &mut TextWriter<W>, binding: &Binding, address: u64)
    requires { IsReady W.failures line.old }
    ensures { Adds W.taken W.failures line.old line.new (bind_line binding.now address) }
{
    write_parts(
        line,
        &[
            Text(b"bind "),
            Decimal(binding.image as u64),
            Text(b" 0x"),
            Hex8(binding.slot as u64),
            Text(b" to "),
            Decimal(binding.exporter as u64),
            Text(b" 0x"),
            Hex8(binding.rva as u64),
            Text(b" value 0x"),
            Hex16(address),
            Text(b"\n"),
        ],
    );
}

/// Adds a line for each bound slot of a space.
pub(crate) fn write_bindings<S: Space, W: Sink>(text: &mut TextWriter<W>, space: &S)
    requires ready { IsReady W.failures text.old }
    requires room { All (λ b. export_address (map placement_of (S.content space.now).images) b < 2 ^ 64) (S.content space.now).bindings }
    ensures { Adds W.taken W.failures text.old text.new
        (flat_map (λ b. bind_line b (export_address (map placement_of (S.content space.now).images) b)) (S.content space.now).bindings) }
{
    for binding in space.bindings() {
        let base = space.base_of(binding.exporter).unwrap_or(0);
        write_binding(text, binding, base + u64::from(binding.rva));
    }
}

/// Adds a space and two hexadecimal digits for each byte.
fn write_bytes<W: Sink>(line: &mut TextWriter<W>, bytes: &[u8])
    requires { IsReady W.failures line.old }
    ensures { Adds W.taken W.failures line.old line.new (flat_map byte_text bytes.now) }
{
    for byte in bytes {
        write_parts(line, &[Text(b" "), Hex2(*byte)]);
    }
}

#[tactic(auto, unfolding(crate::specs::MapReport::bytes_line))]
fn write_bytes_line<W: Sink>(line: &mut TextWriter<W>, address: u64, bytes: &[u8])
    requires { IsReady W.failures line.old }
    ensures { Adds W.taken W.failures line.old line.new (bytes_line address bytes.now) }
{
    write_parts(line, &[Text(b"0x"), Hex16(address)]);
    write_bytes(line, bytes);
    line.text(b"\n");
}

/// Adds the lines of a window, which is inside one image. It reads the bytes line by line, so it allocates nothing.
pub(crate) fn write_window<S: Space, W: Sink>(
    text: &mut TextWriter<W>,
    space: &S,
    address: u64,
    count: u32,
)
    requires ready { IsReady W.failures text.old }
    requires room { 0 < count → address + count ≤ 2 ^ 64 }
    requires inside { (k n : ℕ) → k + n ≤ count → window_at (S.content space.now) (address + k) n ≡ Ok (bytes_from (byte_at (S.content space.now)) (address + k) n) }
    ensures { Adds W.taken W.failures text.old text.new (window_lines (byte_at (S.content space.now)) (Some (address, count))) }
{
    for index in 0..count.div_ceil(LINE_BYTES) {
        let start = LINE_BYTES * index;
        let len = LINE_BYTES.min(count - start) as usize;
        let first = address + u64::from(start);
        let mut bytes = [0u8; LINE_BYTES as usize];
        if space.window(first, &mut bytes[..len]).is_err() {
            unreachable!();
        }
        write_bytes_line(text, first, &bytes[..len]);
    }
}
