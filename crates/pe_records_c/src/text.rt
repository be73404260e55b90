//! `TextRecord`: a string, or bytes of a file, as C has them; `put_line` copies a string into a buffer.

ghost use Rattle.std.specs.Prelude.{◌≡◌};
ghost use Rattle.pe_records_c.specs.Lines.{line_of};

/// Bytes of a file, or one of this library's own strings. They are not zero-terminated.
#[repr(C)]
#[derive(Clone, Copy)]
pub struct TextRecord<'a> {
    /// The bytes.
    pub bytes: &'a [u8],
}

/// Copies a string into a buffer as C's `snprintf` does: cut so that a zero byte fits after it. An empty buffer and the bytes after
/// the zero byte are unchanged.
pub fn put_line(text: &[u8], line: &mut [u8])
    ensures { line.new ≡ line_of text.now line.old }
{
    let Some(room) = line.len().checked_sub(1) else {
        return;
    };
    let count = text.len().min(room);
    line[..count].copy_from_slice(&text[..count]);
    line[count] = 0;
}
