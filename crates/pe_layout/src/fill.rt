//! The bytes of a laid-out image, run by run: `Layout::fill`, `byte`, `u16_at`, `u32_at`, `u64_at` and `bytes`.

ghost use Rattle.std.specs.Prelude.{◌≡◌, ◌+◌, ◌<◌, ◌≤◌, ◌↔◌, IsTrue, SomeIff, IfOk, OnOk, length, drop, ◌++◌};
ghost use Rattle.std.specs.Bool.{OnTrue, OnFalse};
ghost use Rattle.pe_layout.specs.Piece.{end_of};
ghost use Rattle.pe_layout.specs.Run.{IsRun, rest_of};
ghost use Rattle.pe_layout.specs.Image.{bytes_at, number_at};
ghost use Rattle.pe_layout.specs.Layout.{headers_of, file_of, image_of};

use crate::layout::Layout;
use crate::locate::Spot;
use pe_head::SectionHeader;
use std::alloc::{AllocError, Allocator};

/// Bytes of an image with one source.
pub(crate) enum Run {
    /// `len` bytes of the file, from the offset `file` on.
    Raw { file: u64, len: u32 },
    /// `len` zero bytes.
    Zeros { len: u32 },
}

/// What remains of a section at an RVA: of its raw data, or of the zero fill after that.
pub(crate) fn rest_of(section: &SectionHeader, rva: u32) -> Run
    requires low { section.now.virtual_address ≤ rva }
    requires high { rva < end_of section.now }
    ensures { result ≡ rest_of section.now rva }
{
    let offset = rva - section.virtual_address;
    let rawlen = section.rawlen();
    if offset < rawlen {
        Run::Raw {
            file: u64::from(section.pointer_to_raw_data) + u64::from(offset),
            len: rawlen - offset,
        }
    } else {
        Run::Zeros {
            len: section.extent() - offset,
        }
    }
}

impl<'a> Layout<'a> {
    /// The run that begins at an RVA of the image: it goes on to the end of its piece or gap, or to where zero fill begins.
    #[tactic(auto, unfolding(crate::specs::Layout::image_of))]
    fn run_at(&self, rva: u32) -> Run
        requires { rva < (image_of self.now).size }
        ensures { IsRun (headers_of self.now) (file_of self.now) rva result }
    {
        let header_bytes = self.size_of_headers();
        if rva < header_bytes {
            return Run::Raw {
                file: u64::from(rva),
                len: header_bytes - rva,
            };
        }
        match self.spot(rva) {
            Spot::Gap { end } => Run::Zeros { len: end - rva },
            Spot::Section { index: _, section } => rest_of(&section, rva),
        }
    }

    /// Fills the beginning of a buffer from the run at an RVA, and returns how many bytes it wrote.
    #[tactic(auto, unfolding(crate::specs::Layout::image_of))]
    fn fill_run(&self, rva: u32, buffer: &mut [u8]) -> usize
        requires some { 0 < length buffer.old }
        requires inside { rva + length buffer.old ≤ (image_of self.now).size }
        ensures some { 0 < result }
        ensures fits { result ≤ length buffer.old }
        ensures filled { buffer.new ≡ bytes_at (image_of self.now) rva result ++ drop result buffer.old }
    {
        match self.run_at(rva) {
            Run::Raw { file, len } => {
                let count = buffer.len().min(len as usize);
                let bytes = self.view.slice(file, count as u64).unwrap();
                buffer[..count].copy_from_slice(bytes);
                count
            }
            Run::Zeros { len } => {
                let count = buffer.len().min(len as usize);
                buffer[..count].fill(0);
                count
            }
        }
    }

    /// Fills the buffer with the bytes from an RVA on and returns true if they are all inside the image; otherwise returns false
    /// and leaves the buffer as it was.
    ///
    /// Each run of the image is copied as a whole.
    #[tactic(auto, unfolding(crate::specs::Layout::image_of))]
    pub fn fill(&self, rva: u32, buffer: &mut [u8]) -> bool
        ensures fits { IsTrue result ↔ (rva + length buffer.old ≤ (image_of self.now).size) }
        ensures filled { OnTrue result (buffer.new ≡ bytes_at (image_of self.now) rva (length buffer.old)) }
        ensures unchanged { OnFalse result (buffer.new ≡ buffer.old) }
    {
        let size = self.size_of_image();
        if rva > size || buffer.len() > (size - rva) as usize {
            return false;
        }
        let mut done = 0;
        while done < buffer.len() {
            done += self.fill_run(rva + done as u32, &mut buffer[done..]);
        }
        true
    }

    /// Appends the next run to the first bytes of the image.
    #[tactic(auto, unfolding(crate::specs::Layout::image_of))]
    fn push_run<A: Allocator + Copy>(&self, bytes: &mut Vec<u8, A>) -> Result<(), AllocError>
        requires first { bytes.old.items ≡ bytes_at (image_of self.now) 0 (length bytes.old.items) }
        requires more { length bytes.old.items < (image_of self.now).size }
        ensures first { OnOk result (bytes.new.items ≡ bytes_at (image_of self.now) 0 (length bytes.new.items)) }
        ensures more { OnOk result (length bytes.old.items < length bytes.new.items) }
        ensures inside { OnOk result (length bytes.new.items ≤ (image_of self.now).size) }
    {
        match self.run_at(bytes.len() as u32) {
            Run::Raw { file, len } => {
                bytes.extend_from_slice(self.view.slice(file, u64::from(len)).unwrap())
            }
            Run::Zeros { len } => bytes.resize(bytes.len() + len as usize, 0),
        }
    }

    /// All SizeOfImage bytes of the image, in a new vector. Each is written once: bytes of the file are copied, and the others
    /// cleared. The error is out of memory.
    #[tactic(auto, unfolding(crate::specs::Layout::image_of))]
    pub fn bytes<A: Allocator + Copy>(&self, alloc: A) -> Result<Vec<u8, A>, AllocError>
        ensures { IfOk result (λ bytes. bytes.items ≡ bytes_at (image_of self.now) 0 (image_of self.now).size) }
    {
        let size = self.size() as usize;
        let mut bytes = Vec::with_capacity(alloc, size)?;
        while bytes.len() < size {
            self.push_run(&mut bytes)?;
        }
        Ok(bytes)
    }

    /// The byte at an RVA, or `None` past the end of the image.
    #[tactic(auto, unfolding(crate::specs::Layout::image_of))]
    pub fn byte(&self, rva: u32) -> Option<u8>
        ensures { SomeIff result (rva < (image_of self.now).size) ((image_of self.now).byte rva) }
    {
        if rva >= self.size_of_image() {
            return None;
        }
        match self.run_at(rva) {
            Run::Raw { file, len: _ } => Some(self.view.slice(file, 1).unwrap()[0]),
            Run::Zeros { len: _ } => Some(0),
        }
    }

    /// The little-endian number in the 2 bytes at an RVA, or `None` if they pass the end of the image.
    #[tactic(auto, unfolding(crate::specs::Layout::image_of))]
    pub fn u16_at(&self, rva: u32) -> Option<u16>
        ensures { SomeIff result (rva + 2 ≤ (image_of self.now).size) (number_at 2 (image_of self.now) rva) }
    {
        let mut bytes = [0; 2];
        if !self.fill(rva, &mut bytes) {
            return None;
        }
        Some(u16::from_le_bytes(bytes))
    }

    /// The little-endian number in the 4 bytes at an RVA, or `None` if they pass the end of the image.
    #[tactic(auto, unfolding(crate::specs::Layout::image_of))]
    pub fn u32_at(&self, rva: u32) -> Option<u32>
        ensures { SomeIff result (rva + 4 ≤ (image_of self.now).size) (number_at 4 (image_of self.now) rva) }
    {
        let mut bytes = [0; 4];
        if !self.fill(rva, &mut bytes) {
            return None;
        }
        Some(u32::from_le_bytes(bytes))
    }

    /// The little-endian number in the 8 bytes at an RVA, or `None` if they pass the end of the image.
    #[tactic(auto, unfolding(crate::specs::Layout::image_of))]
    pub fn u64_at(&self, rva: u32) -> Option<u64>
        ensures { SomeIff result (rva + 8 ≤ (image_of self.now).size) (number_at 8 (image_of self.now) rva) }
    {
        let mut bytes = [0; 8];
        if !self.fill(rva, &mut bytes) {
            return None;
        }
        Some(u64::from_le_bytes(bytes))
    }
}
