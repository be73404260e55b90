//! `RoomWriter`: a sink that keeps what it takes in a caller's room.

ghost use Rattle.std.specs.Prelude.{◌≡◌, ◌<◌, ◌≤◌, [], length};

use pe_text::{Failed, Sink};

/// A sink that keeps what it takes in a caller's room, and fails if the room is full.
#[derive(Drop)]
pub(crate) struct RoomWriter<'a> {
    room: &'a mut [u8],
    len: usize,
    failures: u64,
    ghost within: { len ≤ length room.now },
    ghost full: { 0 < failures → len ≡ length room.now },
}

impl<'a> RoomWriter<'a> {
    ghost use Rattle.petool_page.specs.Room.{bytes_taken, failed_writes, len_of, room_of};

    /// A sink that has taken nothing.
    pub(crate) fn new(room: &'a mut [u8]) -> Self
        ensures same { result.room.ghost_name ≡ room.entry.ghost_name }
        ensures taken { bytes_taken result ≡ [] }
        ensures failures { failed_writes result ≡ 0 }
    {
        RoomWriter {
            room,
            len: 0,
            failures: 0,
        }
    }

    /// How many bytes it has taken, which are at the beginning of its room.
    pub(crate) fn len(&self) -> usize
        ensures len { result ≡ len_of self.now }
        ensures within { result ≤ length (room_of self.now) }
        ensures full { 0 < failed_writes self.now → result ≡ length (room_of self.now) }
    {
        self.len
    }
}

// An engine knows of a sink no more than this trait says. So what it is said to have taken begins with the number of the reference to
// its room: an engine only adds to that, and so leaves the reference in its place.
impl<'a> Sink for RoomWriter<'a> {
    ghost use Rattle.petool_page.specs.Room.{numbered_bytes, failed_writes};

    ghost taken = { λ writer. numbered_bytes writer };

    ghost failures = { λ writer. failed_writes writer };

    fn write(&mut self, piece: &[u8]) -> Result<usize, Failed> {
        let count = piece.len().min(self.room.len() - self.len);
        if count == 0 && !piece.is_empty() {
            self.failures += 1;
            return Err(Failed);
        }
        let end = self.len + count;
        self.room[self.len..end].copy_from_slice(&piece[..count]);
        self.len = end;
        Ok(count)
    }

    fn failures(&self) -> u64 {
        self.failures
    }
}
