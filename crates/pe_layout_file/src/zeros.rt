//! `write_zeros`: zero bytes.

ghost use Rattle.std.specs.Prelude.{◌-◌, ◌^◌, ◌<◌, replicate};
ghost use Rattle.pe_text.specs.TextWriter.{WritesAll};

use pe_text::{Failed, Sink, write_all};

/// The zero bytes of which one call of a sink gets as many as are wanted.
static ZEROS: [u8; 1 << 12] = [0; 1 << 12];

/// Writes this many zero bytes.
pub(crate) fn write_zeros<W: Sink>(writer: &mut W, count: u32) -> Result<(), Failed>
    requires { W.failures writer.old < 2 ^ 64 - 1 }
    ensures { WritesAll (W.taken writer.old) (W.taken writer.new)
        (W.failures writer.old) (W.failures writer.new) result (replicate count 0) }
{
    let count = count as usize;
    let mut done = 0;
    while done < count {
        let len = ZEROS.len().min(count - done);
        write_all(writer, &ZEROS[..len])?;
        done += len;
    }
    Ok(())
}
