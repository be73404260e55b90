//! `is_printable`: whether all bytes of a string are printable ASCII.

ghost use Rattle.std.specs.Prelude.{◌≡◌};
ghost use Rattle.std.specs.List.{list_all};
ghost use Rattle.pe_text.specs.Text.{is_printable};

/// Whether a byte is printable ASCII.
fn is_printable_byte(byte: u8) -> bool
    ensures { result ≡ is_printable byte }
{
    matches!(byte, b' '..=b'~')
}

/// Whether all bytes of a piece are printable ASCII. There is no early exit, so that vector instructions test all at once.
fn is_printable_piece(piece: &[u8; 16]) -> bool
    ensures { result ≡ list_all is_printable piece.now }
{
    let mut all = true;
    for byte in piece {
        all &= is_printable_byte(*byte);
    }
    all
}

/// Whether all bytes of these pieces are printable ASCII.
fn are_printable_pieces(pieces: &[[u8; 16]]) -> bool
    ensures { result ≡ list_all (list_all is_printable) pieces.now }
{
    pieces.iter().all(|piece| is_printable_piece(piece))
}

/// Whether all of these bytes, fewer than a piece, are printable ASCII.
fn are_printable_bytes(bytes: &[u8]) -> bool
    ensures { result ≡ list_all is_printable bytes.now }
{
    bytes.iter().all(|byte| is_printable_byte(*byte))
}

/// Whether all bytes of a string are printable ASCII. 16 are tested together, since those of nearly all names are printable.
pub fn is_printable(text: &[u8]) -> bool
    ensures { result ≡ list_all is_printable text.now }
{
    let (pieces, rest) = text.as_chunks::<16>();
    are_printable_pieces(pieces) && are_printable_bytes(rest)
}
