//! `section_alignment`: the alignment that the flags of an object's section tell.

ghost use Rattle.std.specs.Prelude.{◌≡◌, ◌<◌};
ghost use Rattle.coff_read.specs.Alignment.{alignment_by, alignment_of};

/// The alignment that the number in bits 20 to 23 tells.
fn alignment_by(number: u32) -> Option<u32>
    requires { number < 16 }
    ensures { result ≡ alignment_by number }
{
    if !(1..=14).contains(&number) {
        return None;
    }
    Some(1 << (number - 1))
}

/// The alignment in bytes that Characteristics of an object's section tell ("PE Format", Section Flags): 1, 2, 4 and so on up to
/// 8,192. `None` if there is none: the number in bits 20 to 23 is 0 or 15.
pub fn section_alignment(characteristics: u32) -> Option<u32>
    ensures { result ≡ alignment_of characteristics }
{
    alignment_by((characteristics >> 20) % 16)
}
