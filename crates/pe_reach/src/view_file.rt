//! `ViewFile`: a file as views see it.

ghost use Rattle.std.specs.Prelude.{◌≡◌, ◌<◌, length, option_map, is_some, IfSome, None, IsErrOf};
ghost use Rattle.pe_view.specs.View.{bytes_of};
ghost use Rattle.pe_view.specs.Faults.{Answers, AnswersOrWants, first_standing};
ghost use Rattle.pe_view.specs.declared.refusal.Refusal.{Refusal};
ghost use Rattle.pe_detail.specs.FaultDetail.{fault_detail};
ghost use Rattle.pe_head.specs.Head.{head_of};
ghost use Rattle.pe_head.specs.HeaderFaults.{head_tests};

use coff_read::ImageStrings;
use pe_detail::{Detail, fault_detail};
use pe_head::{Headers, read_headers};
use pe_image::{Image, lay_out, read_image};
use pe_layout::Layout;
use pe_tables::TableError;
use pe_text::{FileKind, is_object, other_kind};
use pe_view::{Fault, View};
use std::alloc::Allocator;

/// A file as views see it: its size, and the bytes that decide what they show of it.
///
/// Of an image these may be only a beginning, so a view can ask for nothing but its headers, its laid-out image with the tables,
/// the names of its sections, the numbers of a fault, and what it is instead of an image: these are the same for each file of this
/// size that begins so. It can also ask for the bytes, and then must not take their end for that of the file. Of an object they are
/// all.
#[derive(Clone, Copy)]
pub struct ViewFile<'a> {
    bytes: &'a [u8],
    len: u64,
}

impl<'a> ViewFile<'a> {
    ghost use Rattle.pe_reach.specs.Views.{seen_of, told_of};
    ghost use Rattle.pe_text.specs.FileKind.{is_object, kind_of, other_kind};
    ghost use Rattle.coff_read.specs.ImageNames.{table_of, image_strings};
    ghost use Rattle.pe_layout.specs.SectionFaults.{layout_tests};
    ghost use Rattle.pe_layout.specs.Layout.{IsLayoutOf};
    ghost use Rattle.pe_image.specs.ImageTests.{image_tests};
    ghost use Rattle.pe_image.specs.ImageOf.{IsImageOf};

    /// A file of which all bytes were read.
    pub fn whole(file: &'a [u8]) -> ViewFile<'a>
        ensures seen { seen_of result ≡ file.entry.now }
        ensures told { told_of result ≡ length file.entry.now }
    {
        ViewFile {
            bytes: file,
            len: file.len() as u64,
        }
    }

    /// A file of `len` bytes, which begins with these.
    pub(crate) fn new(bytes: &'a [u8], len: u64) -> ViewFile<'a>
        ensures seen { seen_of result ≡ bytes.entry.now }
        ensures told { told_of result ≡ len }
    {
        ViewFile { bytes, len }
    }

    /// Its size in bytes.
    pub fn len(&self) -> u64
        ensures { result ≡ told_of self.now }
    {
        self.len
    }

    /// Its bytes as far as they were read: all, or of an image at least those before the end that its headers name.
    pub fn beginning(&self) -> View<'a>
        ensures { bytes_of result ≡ seen_of self.now }
    {
        View::new(self.bytes)
    }

    /// All its bytes if it is checked as an object, since its first bytes are those of one.
    pub fn object(&self) -> Option<&'a [u8]>
        ensures kind { is_some result ≡ is_object (kind_of (seen_of self.now)) }
        ensures bytes { IfSome result (λ bytes. bytes.now ≡ seen_of self.now) }
    {
        is_object(self.bytes).then_some(self.bytes)
    }

    /// The headers of an image, or the first of faults 1 to 12.
    pub fn headers(&self) -> Result<Headers, Fault>
        ensures { Answers (head_tests 0 (seen_of self.now)) (λ headers. headers ≡ head_of (seen_of self.now)) result }
    {
        read_headers(View::new(self.bytes), 0)
    }

    /// The layout of an image, or the first of faults 1 to 15.
    pub fn lay_out(&self) -> Result<Layout<'a>, Fault>
        ensures { Answers (layout_tests 0 (seen_of self.now)) (IsLayoutOf (seen_of self.now) 0) result }
    {
        lay_out(self.bytes, 0)
    }

    /// An image with its tables, or the first of faults 1 to 38; out of memory as [`pe_image::read_image`] says.
    pub fn read_image<A: Allocator + Copy>(&self, alloc: A) -> Result<Image<'a, A>, TableError>
        ensures exact { AnswersOrWants (image_tests 0 (seen_of self.now)) (IsImageOf 0 (seen_of self.now)) result }
        ensures memory { IsErrOf result Refusal.Memory → first_standing (layout_tests 0 (seen_of self.now)) ≡ None }
        ensures not_empty { IsErrOf result Refusal.Memory → 0 < length (seen_of self.now) }
    {
        read_image(alloc, self.bytes, 0)
    }

    /// The string table of an image with these headers, if it has one. If no section has a long name it may be left out, and
    /// [`coff_read::section_name`] returns the same.
    pub fn strings(&self, headers: &Headers) -> Option<ImageStrings<'a>>
        ensures { option_map table_of result ≡ image_strings (seen_of self.now) headers.now }
    {
        ImageStrings::new(View::new(self.bytes), headers)
    }

    /// The numbers that the rule of a fault compares.
    pub fn fault_detail(&self, fault: &Fault) -> Option<Detail>
        ensures { result ≡ fault_detail (seen_of self.now) (told_of self.now) fault.now }
    {
        fault_detail(View::new(self.bytes), self.len, fault)
    }

    /// What it is instead, if it was refused with this fault and is no file of the kind that is tested for it.
    pub fn other_kind(&self, fault: &Fault) -> Option<FileKind>
        ensures { result ≡ other_kind fault.now.number (seen_of self.now) }
    {
        other_kind(fault, self.bytes)
    }
}
