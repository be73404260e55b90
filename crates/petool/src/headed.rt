//! `Headed`: a writer that writes a heading before the first byte.

use pe_page::ShownName;
use std::io::{self, Write};

/// What comes before the output for a file.
#[derive(Clone, Copy)]
pub(crate) enum Heading<'a> {
    /// Nothing.
    Nothing,
    /// A blank line.
    BlankLine,
    /// The file's name, as a page shows it, and a colon.
    Name(&'a [u8]),
}

/// A writer that writes a heading just before the first byte.
#[derive(Drop)]
pub(crate) struct Headed<'a, W> {
    inner: W,
    heading: Heading<'a>,
}

impl<'a, W: Write> Headed<'a, W> {
    /// A writer to which nothing was written yet.
    pub fn new(inner: W, heading: Heading<'a>) -> Headed<'a, W> {
        Headed { inner, heading }
    }

    /// Writes the heading the first time.
    fn write_heading(&mut self) -> io::Result<()> {
        let heading = self.heading;
        self.heading = Heading::Nothing;
        match heading {
            Heading::Nothing => Ok(()),
            Heading::BlankLine => self.inner.write_all(b"\n"),
            Heading::Name(name) => {
                let name = ShownName(name);
                write!(self.inner, "{name}: ")
            }
        }
    }
}

impl<W: Write> Write for Headed<'_, W> {
    fn write(&mut self, bytes: &[u8]) -> io::Result<usize> {
        if !bytes.is_empty() {
            self.write_heading()?;
        }
        self.inner.write(bytes)
    }

    fn flush(&mut self) -> io::Result<()> {
        self.inner.flush()
    }
}
