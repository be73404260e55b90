//! `InputFile`: an input file, from a path or from standard input.

ghost use Rattle.std.specs.Prelude.{◌≤◌, length, IfOk};

use crate::messages::STANDARD_INPUT;
use crate::opening::open_word;
use crate::word_bytes::bytes_of;
use std::alloc::{AllocError, Allocator};
use std::borrow::CowSlice;
use std::fs::OpenFile;
use std::io::{self, Error, ErrorKind, Input, Read, Seek, SeekFrom};
use std::rt::Files;

/// How many of its first bytes an input keeps; headers and section tables that linkers write are among them.
const FIRST_BYTES: usize = 1 << 12;

/// How many of its first bytes show the kind of a file.
const KIND_BYTES: usize = 28;

/// The source of the bytes.
#[derive(Drop)]
enum Stream<F, S> {
    File(F),
    Standard(S),
}

/// An input file. It keeps its size if that is known, its first bytes, how many were read, and the error of the read that failed.
#[derive(Drop)]
pub(crate) struct InputFile<F, S> {
    stream: Stream<F, S>,
    size: Option<u64>,
    first: [u8; FIRST_BYTES],
    len: u64,
    error: Option<Error>,
}

impl<F: Read, S: Read> InputFile<F, S> {
    /// A file that was not read yet.
    fn new(stream: Stream<F, S>, size: Option<u64>) -> InputFile<F, S> {
        InputFile {
            stream,
            size,
            first: [0; FIRST_BYTES],
            len: 0,
            error: None,
        }
    }

    /// Its size in bytes, if it is a regular file. The size of pipes and devices is not known.
    pub fn size(&self) -> Option<u64> {
        self.size
    }

    /// Its first bytes, as far as they were read.
    pub fn first(&self) -> &[u8] {
        let len = usize::try_from(self.len).unwrap_or(FIRST_BYTES);
        self.first.get(..len).unwrap_or(&self.first)
    }

    /// Reads the first bytes, by which its kind is known, if none were read.
    pub fn read_kind(&mut self) {
        if self.len == 0 {
            let mut first = [0; KIND_BYTES];
            let _ = self.read(&mut first);
        }
    }

    /// How many bytes were read.
    pub fn len(&self) -> u64 {
        self.len
    }

    /// The system's error of the read that failed.
    pub fn error(&self) -> Option<Error> {
        self.error
    }

    /// Reads from the source.
    fn read_stream(&mut self, buffer: &mut [u8]) -> io::Result<usize>
        ensures { IfOk result (λ count. count ≤ length buffer.new) }
    {
        match &mut self.stream {
            Stream::File(file) => file.read(buffer),
            Stream::Standard(input) => input.read(buffer),
        }
    }

    /// Counts bytes that were read, and keeps those among the first.
    fn keep(&mut self, bytes: &[u8]) {
        let start = usize::try_from(self.len).unwrap_or(FIRST_BYTES);
        if let Some(room) = self.first.get_mut(start..) {
            let count = bytes.len().min(room.len());
            room[..count].copy_from_slice(&bytes[..count]);
        }
        self.len = self.len.saturating_add(bytes.len() as u64);
    }
}

impl<F: Read + Seek, S: Read> InputFile<F, S> {
    /// Goes back to the beginning of a regular file, to be read again, and returns its size. `None` for others, and if that fails.
    pub fn begin_again(&mut self) -> Option<u64> {
        let size = self.size?;
        self.seek(SeekFrom::Start(0)).ok()?;
        Some(size)
    }
}

impl<F: Read, S: Read> Read for InputFile<F, S> {
    fn read(&mut self, buffer: &mut [u8]) -> io::Result<usize> {
        let answer = self.read_stream(buffer);
        match &answer {
            Ok(count) => self.keep(&buffer[..*count]),
            Err(error) => self.error = Some(*error),
        }
        answer
    }
}

impl<F: Read + Seek, S: Read> Seek for InputFile<F, S> {
    /// Goes to another place, from which on the first bytes are kept and counted anew. Standard input has no places.
    fn seek(&mut self, to: SeekFrom) -> io::Result<u64> {
        self.len = 0;
        match &mut self.stream {
            Stream::File(file) => file.seek(to),
            Stream::Standard(_) => Err(Error::from(ErrorKind::Unsupported)),
        }
    }
}

/// The size in bytes of an open file, if it is a regular file.
fn size_of(file: &impl OpenFile) -> Option<u64> {
    match file.metadata() {
        Ok(metadata) if metadata.is_file() => Some(metadata.len()),
        _ => None,
    }
}

/// The file that a word names, or standard input for the word `-`.
pub(crate) fn open_file<R: Files + Input + Alloc>(
    rt: &R,
    path: &str,
) -> io::Result<InputFile<R::File, R::Reader>> {
    if path == "-" {
        return Ok(InputFile::new(Stream::Standard(rt.reader()), None));
    }
    let file = open_word(rt, path)?;
    let size = size_of(&file);
    Ok(InputFile::new(Stream::File(file), size))
}

/// The name in texts of the file that a word names.
pub(crate) fn name_of<A: Allocator>(
    alloc: A,
    path: &str,
) -> Result<CowSlice<'_, u8, A>, AllocError> {
    if path == "-" {
        return Ok(CowSlice::Borrowed(STANDARD_INPUT));
    }
    bytes_of(alloc, path)
}
