//! Laws about the definitions: each function has an empty body, and its contract is the law.

ghost use Rattle.std.specs.Prelude.{◌≡◌, ◌+◌, ◌<◌, ◌≤◌, ◌^◌, ℕ, List, length, None, Some, All, AllPairs};
ghost use Rattle.pe_view.specs.Faults.{first_standing};
ghost use Rattle.pe_head.specs.declared.headers.Headers.{Headers};
ghost use Rattle.pe_head.specs.declared.section.SectionHeader.{SectionHeader};
ghost use Rattle.pe_head.specs.Head.{head_of};
ghost use Rattle.pe_head.specs.Section.{rawlen};
ghost use Rattle.pe_layout.specs.Image.{image_of_file};
ghost use Rattle.pe_layout.specs.Piece.{end_of};
ghost use Rattle.pe_layout.specs.SectionFaults.{layout_tests};
ghost use Rattle.pe_layout.specs.Plain.{plain, IsLaidOut};
ghost use Rattle.pe_layout.specs.Locating.{located, located_byte};

/// The bytes of an image without a fault, piece by piece: headers, raw data, zero fill and gaps.
pub fn bytes_by_pieces()
    ensures { (image : ℕ) (file : List ℕ) → first_standing (layout_tests image file) ≡ None → IsLaidOut (head_of file) file }
{}

/// What `locate` returns for an RVA determines the byte there.
pub fn located_is_plain()
    ensures { (h : Headers) (file : List ℕ) (r : ℕ) → r < h.size_of_image → located_byte file (located h r) ≡ Some (plain h file r) }
{}

/// An image without a fault has at most 2^31 bytes.
pub fn images_are_small()
    ensures { (image : ℕ) (file : List ℕ) → first_standing (layout_tests image file) ≡ None → (image_of_file image file).size ≤ 2 ^ 31 }
{}

/// The sections of an image without a fault are after its headers, inside the image and disjoint, and the file holds their raw
/// data.
pub fn sections_are_apart()
    ensures behind { (image : ℕ) (file : List ℕ) → first_standing (layout_tests image file) ≡ None → let h = head_of file in
        All (λ (s : SectionHeader). h.size_of_headers ≤ s.virtual_address) h.sections.items }
    ensures inside { (image : ℕ) (file : List ℕ) → first_standing (layout_tests image file) ≡ None → let h = head_of file in
        All (λ (s : SectionHeader). end_of s ≤ h.size_of_image) h.sections.items }
    ensures apart { (image : ℕ) (file : List ℕ) → first_standing (layout_tests image file) ≡ None → let h = head_of file in
        AllPairs (λ (s later : SectionHeader). end_of s ≤ later.virtual_address) h.sections.items }
    ensures held { (image : ℕ) (file : List ℕ) → first_standing (layout_tests image file) ≡ None → let h = head_of file in
        All (λ (s : SectionHeader). 0 < rawlen s → s.pointer_to_raw_data + rawlen s ≤ length file) h.sections.items }
{}
