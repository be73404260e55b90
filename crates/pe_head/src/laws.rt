//! Laws about the definitions: each function has an empty body, and its contract is the law.

ghost use Rattle.std.specs.Prelude.{◌≡◌, ◌+◌, ◌≤◌, ◌^◌, ℕ, List, length, None};
ghost use Rattle.pe_view.specs.Faults.{first_standing};
ghost use Rattle.pe_view.specs.Number.{num, byte_of};
ghost use Rattle.pe_head.specs.Head.{head_of};
ghost use Rattle.pe_head.specs.HeaderFaults.{head_tests};
ghost use Rattle.pe_head.specs.Optional.{image_base_offset, image_base_width};

/// ImageBase is the number at its offset in the optional header, in its width.
pub fn image_base_stands()
    ensures { (file : List ℕ) → let h = head_of file in
        h.image_base ≡ num (byte_of file) (h.pe_offset + 24 + image_base_offset h.magic) (image_base_width h.magic) }
{}

/// If no header fault holds, the image has at most 2^31 bytes, and its headers are inside the file and the image.
pub fn headers_are_inside()
    ensures small { (image : ℕ) (file : List ℕ) → first_standing (head_tests image file) ≡ None → (head_of file).size_of_image ≤ 2 ^ 31 }
    ensures held { (image : ℕ) (file : List ℕ) → first_standing (head_tests image file) ≡ None → (head_of file).size_of_headers ≤ length file }
    ensures inside { (image : ℕ) (file : List ℕ) → first_standing (head_tests image file) ≡ None → (head_of file).size_of_headers ≤ (head_of file).size_of_image }
{}
