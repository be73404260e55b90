//! Laws: what decides a file's headers, its image and its faults.

ghost use Rattle.std.specs.Prelude.{◌≡◌, ℕ, List};
ghost use Rattle.pe_view.specs.Faults.{first_standing};
ghost use Rattle.pe_head.specs.Head.{head_of};
ghost use Rattle.pe_image.specs.ImageTests.{image_tests};
ghost use Rattle.pe_reach.specs.Reach.{AgreeBefore, HaveBoth, SameAnswers, headers_end, image_end};

/// Files that agree before the end of the one's headers have the same headers.
pub fn headers_agree()
    ensures { (f g : List ℕ) → AgreeBefore (headers_end g) f g → head_of f ≡ head_of g }
{}

/// Two files that reach the end of the bytes that the one's headers name, and agree before it, have the same headers, the same
/// first of faults 1 to 15, and lay out the same image, whatever comes after that end in either.
pub fn answers_agree()
    ensures { (f g : List ℕ) → HaveBoth (image_end g) f g → SameAnswers f g }
{}

/// Such files have the same first of faults 1 to 38.
pub fn faults_agree()
    ensures { (number : ℕ) (f g : List ℕ) → SameAnswers f g → first_standing (image_tests number f) ≡ first_standing (image_tests number g) }
{}
