//! The numbers that the rule of a fault compares, of a file that was refused.

use crate::input::InputFile;
use pe_detail::{Detail, fault_detail};
use pe_reach::read_view;
use pe_text::Counted;
use pe_view::{Fault, View};
use std::alloc::Allocator;
use std::io::{Read, Seek};

/// Whether the numbers of a fault may lie behind the first bytes of a file: it is one of a table, of an image's base, or of an
/// object.
fn needs_more(fault: &Fault) -> bool {
    matches!(fault.number, 16..=38 | 45 | 46 | 63..=72)
}

/// Reads a regular file once more, as far as its content is shown, for the numbers of its fault.
fn read_detail<A: Allocator + Copy, F: Read + Seek + Drop, S: Read + Drop>(
    alloc: A,
    file: &mut InputFile<F, S>,
    fault: &Fault,
) -> Option<Detail> {
    let size = file.begin_again()?;
    let seen = read_view(alloc, &mut Counted::new(file), size).ok()?;
    seen.file().fault_detail(fault)
}

/// The numbers that the rule of a file's fault compares. If they may lie behind the file's first bytes, which are kept, a regular
/// file is read once more; of others, and if memory for that is refused, there are none.
pub(crate) fn detail_of<A: Allocator + Copy, F: Read + Seek + Drop, S: Read + Drop>(
    alloc: A,
    file: &mut InputFile<F, S>,
    fault: &Fault,
) -> Option<Detail> {
    let (first, len) = (file.first(), file.len());
    if needs_more(fault) && first.len() as u64 != len {
        return read_detail(alloc, file, fault);
    }
    fault_detail(View::new(first), len, fault)
}
