//! `Layout::name_at` and `Layout::text_at`: the zero-terminated string at an RVA, which ends inside its piece.

ghost use Rattle.std.specs.Prelude.{◌≡◌, ◌+◌, ◌≤◌, ℕ, IfSome, length, option_map, option_and_then, Some};
ghost use Rattle.pe_view.specs.View.{size_of};
ghost use Rattle.pe_view.specs.Text.{text_between};
ghost use Rattle.pe_view.specs.TextEnds.{AreEndsOf};
ghost use Rattle.pe_layout.specs.Sections.{IsInSection};
ghost use Rattle.pe_layout.specs.PieceText.{section_text};
ghost use Rattle.pe_layout.specs.Span.{span_text, IsSpan, IsTextOf};
ghost use Rattle.pe_layout.specs.Locating.{file_offset, located, located_in};
ghost use Rattle.pe_layout.specs.Layout.{headers_of, file_of, image_of};

use crate::fill::{Run, rest_of};
use crate::layout::Layout;
use crate::locate::Spot;
use pe_head::SectionHeader;
use pe_view::TextEnds;
use std::alloc::Allocator;

/// A zero-terminated string of an image, as a slice of the file.
#[derive(Clone, Copy, Debug)]
pub struct Text<'a> {
    /// Its bytes, without its zero byte.
    pub bytes: &'a [u8],
    /// The file offset of its end. For an empty string in a gap or in zero fill it means nothing.
    pub end: u64,
}

/// The bytes of the file in which a string ends.
#[derive(Clone, Copy)]
struct Span {
    /// The file offset at which the string begins.
    start: u64,
    /// The file offset of the end of the piece's bytes in the file.
    end: u64,
    /// Whether zero fill follows these bytes, so that the string ends there at the latest.
    zeros_follow: bool,
}

/// An empty string.
const EMPTY: Span = Span {
    start: 0,
    end: 0,
    zeros_follow: true,
};

impl<'a> Layout<'a> {
    /// The span of the string at an RVA of a section.
    fn section_span(&self, section: &SectionHeader, rva: u32) -> Span
        requires behind { (headers_of self.now).size_of_headers ≤ rva }
        requires found { IsInSection (headers_of self.now) (size_of self.now.view) rva section.now }
        ensures inside { IsSpan (size_of self.now.view) result }
        ensures starts { (offset : ℕ) → file_offset (located_in rva (Some 0) (Some section.now)) ≡ Some offset → result.start ≡ offset }
        ensures text { span_text (file_of self.now) result ≡ section_text (headers_of self.now) (file_of self.now) rva (Some section.now) }
    {
        let rawlen = section.rawlen();
        match rest_of(section, rva) {
            Run::Zeros { len: _ } => EMPTY,
            Run::Raw { file, len: _ } => Span {
                start: file,
                end: u64::from(section.pointer_to_raw_data) + u64::from(rawlen),
                zeros_follow: rawlen < section.extent(),
            },
        }
    }

    /// The span of the string at an RVA of the image, or `None` past its end.
    #[tactic(auto, unfolding(crate::specs::Layout::image_of))]
    fn span_at(&self, rva: u32) -> Option<Span>
        ensures inside { IfSome result (IsSpan (size_of self.now.view)) }
        ensures starts { IfSome result (λ span. (offset : ℕ) → file_offset (located (headers_of self.now) rva) ≡ Some offset → span.start ≡ offset) }
        ensures text { option_and_then (span_text (file_of self.now)) result ≡ (image_of self.now).text rva }
    {
        let header_bytes = self.size_of_headers();
        if rva >= self.size_of_image() {
            return None;
        }
        if rva < header_bytes {
            return Some(Span {
                start: u64::from(rva),
                end: u64::from(header_bytes),
                zeros_follow: false,
            });
        }
        match self.spot(rva) {
            Spot::Gap { end: _ } => Some(EMPTY),
            Spot::Section { index: _, section } => Some(self.section_span(&section, rva)),
        }
    }

    /// The string of a span; `ended` has the bytes before its first zero byte, if it has one.
    fn text_of(&self, span: Span, ended: Option<&'a [u8]>) -> Option<Text<'a>>
        requires inside { IsSpan (size_of self.now.view) span }
        requires ended { option_map (λ bytes. bytes.now) ended ≡ text_between (file_of self.now) span.start span.end }
        ensures text { option_map (λ text. text.bytes.now) result ≡ span_text (file_of self.now) span }
        ensures place { IfSome result (IsTextOf (file_of self.now)) }
        ensures starts { IfSome result (λ text. text.end ≡ span.start + length text.bytes.now) }
    {
        pe_view::laws::texts_are_parts();
        match ended {
            Some(bytes) => Some(Text {
                bytes,
                end: span.start + bytes.len() as u64,
            }),
            None if span.zeros_follow => Some(Text {
                bytes: self.view.slice(span.start, span.end - span.start)?,
                end: span.end,
            }),
            None => None,
        }
    }

    /// The zero-terminated string at an RVA, without its zero byte, as a slice of the file.
    ///
    /// It must end inside the piece in which it begins, otherwise the result is `None`; in a gap and in zero fill it is empty;
    /// past the end of the image the result is `None`. Each call searches for the zero byte; [`Layout::text_at`] is for many
    /// strings.
    pub fn name_at(&self, rva: u32) -> Option<&'a [u8]>
        ensures { option_map (λ text. text.now) result ≡ (image_of self.now).text rva }
    {
        let span = self.span_at(rva)?;
        let text = self.text_of(span, self.view.until_zero(span.start, span.end))?;
        Some(text.bytes)
    }

    /// The zero-terminated string at an RVA, as [`Layout::name_at`] returns it, for many strings that may share bytes: `ends`
    /// holds the known ends of this file's strings, and the call adds to it.
    pub fn text_at<A: Allocator + Copy>(&self, ends: &mut TextEnds<A>, rva: u32) -> Option<Text<'a>>
        requires { AreEndsOf (file_of self.now) ends.old }
        ensures text { option_map (λ text. text.bytes.now) result ≡ (image_of self.now).text rva }
        ensures place { IfSome result (IsTextOf (file_of self.now)) }
        ensures starts { IfSome result (λ text. (offset : ℕ) → file_offset (located (headers_of self.now) rva) ≡ Some offset → text.end ≡ offset + length text.bytes.now) }
        ensures known { AreEndsOf (file_of self.now) ends.new }
    {
        let span = self.span_at(rva)?;
        self.text_of(span, ends.until_zero(self.view, span.start, span.end))
    }
}
