//! `write_range`: the bytes of a range of addresses of a space, piece by piece.

ghost use Rattle.std.specs.Prelude.{◌≡◌, ◌+◌, ◌-◌, ◌^◌, ◌<◌, ◌≤◌, ℕ, Ok};
ghost use Rattle.pe_space.specs.Content.{bytes_from, window_at};
ghost use Rattle.pe_text.specs.TextWriter.{WritesAll};

use pe_space::Space;
use pe_text::{Failed, Sink, write_all};

/// How many bytes are read from a space and written at once.
const PIECE_BYTES: u32 = 1 << 12;

/// Writes `len` bytes of a space from an address on, at most as many as a piece has.
fn write_piece<S: Space, W: Sink>(
    writer: &mut W,
    space: &S,
    address: u64,
    len: u32,
) -> Result<(), Failed>
    requires counts { W.failures writer.old < 2 ^ 64 - 1 }
    requires small { len ≤ 4096 }
    requires inside { window_at (S.content space.now) address len ≡ Ok (bytes_from (S.content space.now) address len) }
    ensures { WritesAll (W.taken writer.old) (W.taken writer.new)
        (W.failures writer.old) (W.failures writer.new) result
        (bytes_from (S.content space.now) address len) }
{
    let mut room = [0; PIECE_BYTES as usize];
    let piece = &mut room[..len as usize];
    if space.window(address, piece).is_err() {
        unreachable!();
    }
    write_all(writer, piece)
}

/// Writes `count` bytes of a space from an address on, which are in one image. It allocates nothing.
pub(crate) fn write_range<S: Space, W: Sink>(
    writer: &mut W,
    space: &S,
    address: u64,
    count: u32,
) -> Result<(), Failed>
    requires counts { W.failures writer.old < 2 ^ 64 - 1 }
    requires room { address + count ≤ 2 ^ 64 }
    requires inside { (k n : ℕ) → k + n ≤ count → window_at (S.content space.now) (address + k) n ≡ Ok (bytes_from (S.content space.now) (address + k) n) }
    ensures { WritesAll (W.taken writer.old) (W.taken writer.new)
        (W.failures writer.old) (W.failures writer.new) result
        (bytes_from (S.content space.now) address count) }
{
    let mut done = 0;
    while done < count {
        let len = PIECE_BYTES.min(count - done);
        write_piece(writer, space, address + u64::from(done), len)?;
        done += len;
    }
    Ok(())
}
