//! `Operations`: an iterator over the operations of unwind information, which takes no memory.

ghost use Rattle.std.specs.Prelude.{◌+◌, ◌*◌, ◌≤◌, ◌^◌};

use crate::operation::{Operation, read_operation, slot_count};
use pe_layout::Layout;
use pe_view::Fault;

/// The operations of unwind information, in the order of their slots: the last of the prologue first. Each takes one to three of at
/// most 255 slots. An operation with finding 118 or 119 ends them: then the finding comes last.
#[derive(Clone, Copy, Drop)]
pub struct Operations<'l, 'a> {
    pub(crate) layout: &'l Layout<'a>,
    pub(crate) version: u8,
    pub(crate) left: u32,
    pub(crate) at: u32,
    ghost small: { at + 2 * left ≤ 2 ^ 31 + 510 },
}

impl<'l, 'a> Iterator for Operations<'l, 'a> {
    ghost use Rattle.std.specs.Iterator.{YieldsFirst, item_count};
    ghost use Rattle.pe_unwind.specs.Left.{operations_left};

    type Item = Result<Operation, Fault>;

    ghost next_gives = { YieldsFirst operations_left };

    ghost remaining = { item_count operations_left };

    fn next(&mut self) -> Option<Result<Operation, Fault>> {
        if self.left == 0 {
            return None;
        }
        match read_operation(self.layout, self.version, self.left, self.at) {
            Ok(operation) => {
                let slots = slot_count(operation.code, operation.info);
                self.left -= slots;
                self.at += 2 * slots;
                Some(Ok(operation))
            }
            Err(fault) => {
                self.left = 0;
                Some(Err(fault))
            }
        }
    }
}
