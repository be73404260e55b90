//! `Target`: the output of a command that writes a file, which is opened at the first write.

ghost use Rattle.std.specs.Prelude.{◌≤◌, length, IfOk};

use crate::draft::Draft;
use crate::place::{Place, place_of};
use std::alloc::Allocator;
use std::fs;
use std::io::{self, Error, ErrorKind, Write};
use std::os::fd::AsFd;
use std::rt::Files;

/// What was opened.
#[derive(Drop)]
enum Opened<F, A: Allocator> {
    /// Nothing yet.
    Nothing,
    /// Standard output.
    Standard,
    /// A device, a pipe, or what the process has open, which is written straight.
    Straight(F),
    /// A file beside the one that it replaces.
    Beside(Draft<F, A>),
}

/// The output at a path, or standard output for the path `-`. It keeps the error of the call that failed.
///
/// The file at the path is as it was until [`Target::finish`] replaces it by the new one, whole. Links to it stay, and lead to the
/// new file.
#[derive(Drop)]
pub(crate) struct Target<'a, R: Files + Alloc> {
    rt: &'a R,
    path: &'a str,
    opened: Opened<R::File, R::A>,
    error: Option<Error>,
}

/// Opens the output at a path.
fn open<R: Files + Alloc>(rt: &R, path: &str) -> io::Result<Opened<R::File, R::A>>
where
    R::File: AsFd,
{
    if path == "-" {
        return Ok(Opened::Standard);
    }
    match place_of(rt, path)? {
        Place::Path(place) => Ok(Opened::Beside(Draft::new(rt, place)?)),
        Place::Open => Ok(Opened::Straight(fs::create(rt, path)?)),
    }
}

/// Puts a new file in its place if it is whole, or else removes it.
fn close<R: Files + Alloc>(rt: &R, opened: Opened<R::File, R::A>, is_whole: bool) -> io::Result<()>
where
    R::File: AsFd,
{
    match opened {
        Opened::Beside(draft) if is_whole => draft.publish(rt),
        Opened::Beside(draft) => {
            draft.discard(rt);
            Ok(())
        }
        _ => Ok(()),
    }
}

impl<'a, R: Files + Print + Alloc> Target<'a, R>
where
    R::File: AsFd,
{
    /// The output at this path, which is not opened yet.
    pub fn new(rt: &'a R, path: &'a str) -> Target<'a, R> {
        Target {
            rt,
            path,
            opened: Opened::Nothing,
            error: None,
        }
    }

    /// Writes bytes to what was opened.
    fn write_opened(&mut self, bytes: &[u8]) -> io::Result<usize>
        ensures { IfOk result (λ count. count ≤ length bytes.now) }
    {
        match &mut self.opened {
            Opened::Nothing => Ok(0),
            Opened::Standard => self.rt.write_some(bytes),
            Opened::Straight(file) => file.write(bytes),
            Opened::Beside(draft) => draft.write(bytes),
        }
    }

    /// Opens the output if it is not open, and writes bytes.
    fn open_and_write(&mut self, bytes: &[u8]) -> io::Result<usize>
        ensures { IfOk result (λ count. count ≤ length bytes.now) }
    {
        if matches!(&self.opened, Opened::Nothing) {
            self.opened = open(self.rt, self.path)?;
        }
        self.write_opened(bytes)
    }

    /// Puts the new file in its place; if that fails, or `is_whole` is false, a file that is in place is as it was. The error is that
    /// of the first call that failed.
    pub fn finish(self, is_whole: bool) -> Option<Error> {
        let Target {
            rt,
            opened,
            error,
            ..
        } = self;
        let closed = close(rt, opened, is_whole);
        error.or(closed.err())
    }
}

impl<R: Files + Print + Alloc> Write for Target<'_, R>
where
    R::File: AsFd,
{
    fn write(&mut self, bytes: &[u8]) -> io::Result<usize> {
        let answer = self.open_and_write(bytes);
        match &answer {
            Ok(0) if !bytes.is_empty() => self.error = Some(Error::from(ErrorKind::WriteZero)),
            Ok(_) => {}
            Err(error) => self.error = Some(*error),
        }
        answer
    }

    fn flush(&mut self) -> io::Result<()> {
        Ok(())
    }
}
