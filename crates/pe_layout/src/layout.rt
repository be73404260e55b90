//! `Layout`: an image as its headers and sections lay it out, or the first of faults 1 to 15.

ghost use Rattle.std.specs.Prelude.{◌≡◌, ◌+◌, ◌≤◌, ◌^◌, ◌⊎◌, ◌==◌, ◌&&◌, ◌||◌, None, IsTrue};
ghost use Rattle.pe_view.specs.View.{size_of};
ghost use Rattle.pe_view.specs.Faults.{first_standing};
ghost use Rattle.pe_layout.specs.HeaderSource.{headers_in};
ghost use Rattle.pe_layout.specs.SectionFaults.{placing_tests};

use crate::header_source::HeaderSource;
use crate::section_faults::check_placing;
use pe_head::{
    Directory, Headers, Magic, SectionHeader, characteristic, check_headers, directory_index,
};
use pe_view::{Fault, View};

/// The most bytes that an image may have.
const MOST_IMAGE_BYTES: u32 = 1 << 31;

/// An image as its headers and sections lay it out: SizeOfImage bytes, each from the headers or a section's raw data, or 0.
///
/// RVAs count bytes from the beginning of the image. Only [`Layout::bytes`] and [`Layout::text_at`] allocate.
#[derive(Debug, Drop)]
pub struct Layout<'a> {
    pub(crate) view: View<'a>,
    pub(crate) headers: HeaderSource<'a>,
    /// SizeOfImage.
    size: u32,
    /// SizeOfHeaders.
    header_bytes: u32,
    image: u16,
    ghost size_is: { size ≡ (headers_in headers).size_of_image },
    ghost header_bytes_are: { header_bytes ≡ (headers_in headers).size_of_headers },
    ghost small: { (headers_in headers).size_of_image ≤ 2 ^ 31 },
    ghost headers_held: { (headers_in headers).size_of_headers ≤ size_of view },
    ghost headers_inside: { (headers_in headers).size_of_headers ≤ (headers_in headers).size_of_image },
    ghost sections_placed: { first_standing (placing_tests image (headers_in headers) (size_of view)) ≡ None },
}

impl<'a> Layout<'a> {
    ghost use Rattle.pe_view.specs.View.{bytes_of};
    ghost use Rattle.pe_view.specs.Faults.{Answers};
    ghost use Rattle.pe_layout.specs.SectionFaults.{layout_tests};
    ghost use Rattle.std.specs.Prelude.{IfSome, is_some, length, slice_get};
    ghost use Rattle.pe_layout.specs.Image.{is_inside, image_from};
    ghost use Rattle.pe_layout.specs.Layout.{headers_of, file_of, image_of, IsLayoutOf, can_lay_out};

    /// The layout of a file, or the first of faults 1 to 15: those of the headers, then those of each section in table order.
    /// Faults name the image by the number `image`. ("PE Format": Optional Header, Section Table.)
    #[tactic(auto, unfolding(crate::specs::Layout::image_of))]
    pub fn new(view: View<'a>, image: u16) -> Result<Layout<'a>, Fault>
        ensures { Answers (layout_tests image (bytes_of view.entry)) (IsLayoutOf (bytes_of view.entry) image) result }
    {
        let headers = HeaderSource::File(check_headers(view, image)?);
        check_placing(&headers, view.len(), image)?;
        Ok(Layout {
            view,
            headers,
            size: headers.size_of_image(),
            header_bytes: headers.size_of_headers(),
            image,
        })
    }

    /// The layout of headers over bytes that need not hold these headers: bytes of a file of which some sections' raw data were not
    /// read. `None` if the image is larger than 2^31 bytes, the headers are larger than the image or than the bytes, or a section has
    /// one of faults 13 to 15 in a file of these bytes.
    #[tactic(auto, unfolding(crate::specs::Layout::image_of, crate::specs::HeaderSource::headers_in))]
    pub fn of_parts(view: View<'a>, headers: &'a Headers, image: u16) -> Option<Layout<'a>>
        ensures placed { is_some result ≡ can_lay_out image headers.entry.now (size_of view.entry) }
        ensures headers { IfSome result (λ layout. headers_of layout ≡ headers.entry.now) }
        ensures bytes { IfSome result (λ layout. file_of layout ≡ bytes_of view.entry) }
        ensures shows { IfSome result (λ layout. image_of layout ≡ image_from image headers.entry.now (bytes_of view.entry)) }
    {
        let size = headers.size_of_image;
        let header_bytes = headers.size_of_headers;
        if size > MOST_IMAGE_BYTES || header_bytes > size {
            return None;
        }
        if u64::from(header_bytes) > view.len() {
            return None;
        }
        let headers = HeaderSource::Record(headers);
        if check_placing(&headers, view.len(), image).is_err() {
            return None;
        }
        Some(Layout {
            view,
            headers,
            size,
            header_bytes,
            image,
        })
    }

    /// A copy of the headers of the image's file. The calls below read one of them without a copy.
    pub fn headers(&self) -> Headers
        ensures { result ≡ headers_of self.now }
    {
        self.headers.headers()
    }

    /// The form of the optional header.
    pub fn magic(&self) -> Magic
        ensures { result ≡ (headers_of self.now).magic }
    {
        self.headers.magic()
    }

    /// The machine that the image is for.
    pub fn machine(&self) -> u16
        ensures { result ≡ (headers_of self.now).machine }
    {
        self.headers.machine()
    }

    /// How many bytes of the image are headers: SizeOfHeaders.
    pub fn size_of_headers(&self) -> u32
        ensures { result ≡ (headers_of self.now).size_of_headers }
    {
        self.header_bytes
    }

    /// How many sections there are, at most 96.
    pub fn section_count(&self) -> usize
        ensures { result ≡ length (headers_of self.now).sections.items }
    {
        self.headers.section_count()
    }

    /// The header of the section of an index, if there is one.
    pub fn section(&self, index: usize) -> Option<SectionHeader>
        ensures { result ≡ slice_get (headers_of self.now).sections.items index }
    {
        if index >= self.headers.section_count() {
            return None;
        }
        Some(self.headers.section(index))
    }

    /// The number by which faults name the image.
    #[tactic(auto, unfolding(crate::specs::Layout::image_of))]
    pub fn image(&self) -> u16
        ensures { result ≡ (image_of self.now).number }
    {
        self.image
    }

    /// The size of the image in bytes: SizeOfImage.
    #[tactic(auto, unfolding(crate::specs::Layout::image_of))]
    pub fn size(&self) -> u32
        ensures value { result ≡ (image_of self.now).size }
        ensures small { result ≤ 2 ^ 31 }
    {
        self.size
    }

    /// The size of the image as the headers have it.
    #[inline]
    pub(crate) fn size_of_image(&self) -> u32
        ensures { result ≡ (headers_of self.now).size_of_image }
    {
        self.size
    }

    /// The size of an import address table entry in bytes: 4 in PE32, 8 in PE32+.
    #[tactic(auto, unfolding(crate::specs::Layout::image_of))]
    pub fn slot_width(&self) -> u32
        ensures value { result ≡ (image_of self.now).slot_width }
        ensures width { (result ≡ 4) ⊎ (result ≡ 8) }
    {
        self.headers.magic().image_base_width() as u32
    }

    /// The preferred address of the image: ImageBase.
    #[tactic(auto, unfolding(crate::specs::Layout::image_of))]
    pub fn image_base(&self) -> u64
        ensures { result ≡ (image_of self.now).image_base }
    {
        self.headers.image_base()
    }

    /// Whether the image must be loaded at its ImageBase, since it has no base relocations: the flag RELOCS_STRIPPED.
    #[tactic(auto, unfolding(crate::specs::Layout::image_of))]
    pub fn is_stripped(&self) -> bool
        ensures { result ≡ (image_of self.now).is_stripped }
    {
        self.headers.characteristics() % 2 == characteristic::RELOCS_STRIPPED
    }

    /// Whether `len` bytes at an RVA are inside the image, which has at most 2^31 bytes. For `len` 0 the RVA may be the image's
    /// end.
    #[tactic(auto, unfolding(crate::specs::Layout::image_of))]
    pub fn contains(&self, rva: u32, len: u64) -> bool
        ensures value { result ≡ is_inside (image_of self.now) rva len }
        ensures small { IsTrue result → rva + len ≤ 2 ^ 31 }
    {
        let size = u64::from(self.size());
        len <= size && u64::from(rva) <= size - len
    }

    /// The data directory of an index if its table is present: the headers hold it and its RVA is not 0. The base relocation
    /// directory, index 5, is also absent if its Size is 0.
    #[tactic(auto, unfolding(crate::specs::Layout::image_of))]
    pub fn directory(&self, index: usize) -> Option<Directory>
        ensures { result ≡ (image_of self.now).directory index }
    {
        let directory = self.headers.directory(index)?;
        if is_absent(index, directory) {
            return None;
        }
        Some(directory)
    }
}

/// Whether the table of a directory in the headers is absent: its RVA is 0, or it is the base relocation directory and its Size is
/// 0.
fn is_absent(index: usize, directory: Directory) -> bool
    ensures { result ≡ (directory.rva == 0 || (index == 5 && directory.size == 0)) }
{
    directory.rva == 0 || (index == directory_index::BASE_RELOCATION && directory.size == 0)
}
