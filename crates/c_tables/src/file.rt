//! `file_headers`: the headers of a file.

ghost use Rattle.std.specs.Prelude.{◌≡◌};
ghost use Rattle.pe_view.specs.Faults.{Answers};
ghost use Rattle.pe_head.specs.Head.{head_of};
ghost use Rattle.pe_head.specs.HeaderFaults.{head_tests};

use pe_head::{Headers, read_headers};
use pe_view::{Fault, View};

/// The headers of an image's file, or the first of faults 1 to 12.
pub fn file_headers(file: &[u8]) -> Result<Headers, Fault>
    ensures { Answers (head_tests 0 file.now) (λ headers. headers ≡ head_of file.now) result }
{
    read_headers(View::new(file), 0)
}
