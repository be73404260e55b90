//! `Chain`: an iterator over the functions that a function is chained to, which takes no memory.

ghost use Rattle.std.specs.Prelude.{◌≡◌, ◌<◌, ◌^◌, IfSome};
ghost use Rattle.pe_layout.specs.Layout.{image_of};
ghost use Rattle.pe_unwind.specs.Chains.{chain_fault, link_of, linked, next_of};

use crate::information::{UnwindInformation, function_at};
use pe_layout::Layout;
use pe_records::Function;
use pe_view::{Fault, Place};

/// How many functions follow at most: the unwind information of the last of them is the 32nd of the chain, that of the function itself
/// being the first.
const MOST: u32 = 31;

/// The functions that a function of an AMD64 image is chained to, in order: each has the unwind information that the one before it goes
/// on with (x64 exception handling, Chained Unwind Info Structures).
///
/// A function whose unwind information has the flag CHAININFO is chained to the function whose record follows its codes; a function
/// with an odd RVA for unwind information has none of its own, and is chained to the function whose record is one byte before that.
/// Both are one step. At most 31 functions are returned, so that a chain has at most 32 unwind informations with that of the function
/// itself, and one that comes back ends.
///
/// If the record or its unwind information is not in the image, or if it would be the 32nd function, finding 120 comes last. Its place
/// is the unwind information that is chained, or the record before an odd RVA.
#[derive(Clone, Copy, Drop)]
pub struct Chain<'l, 'a> {
    pub(crate) layout: &'l Layout<'a>,
    pub(crate) last: Option<Function>,
    pub(crate) more: u32,
}

/// Where the record is of the function that a function is chained to, if it is.
fn link_of(layout: &Layout, function: &Function) -> Option<u64>
    ensures value { result ≡ link_of (image_of layout.now) function.now }
    ensures small { IfSome result (λ rva. rva < 2 ^ 33) }
{
    if function.unwind % 2 == 1 {
        return Some(u64::from(function.unwind) - 1);
    }
    UnwindInformation::at(layout, function.unwind)?.link()
}

/// The function whose record is at an RVA, if both that and its unwind information are in the image.
fn linked(layout: &Layout, rva: u64) -> Option<Function>
    requires { rva < 2 ^ 63 }
    ensures { result ≡ linked (image_of layout.now) rva }
{
    let function = function_at(layout, rva)?;
    if !layout.contains(function.unwind - function.unwind % 2, 4) {
        return None;
    }
    Some(function)
}

/// The finding of a function whose chain cannot go on.
fn chain_fault(layout: &Layout, function: &Function) -> Fault
    ensures { result ≡ chain_fault (image_of layout.now) function.now }
{
    Fault {
        number: 120,
        image: layout.image(),
        place: Place::Rva(function.unwind - function.unwind % 2),
    }
}

/// What a chain goes on with after a function, where so many more may follow: the next function, or the finding in its place.
fn next_of(layout: &Layout, more: u32, function: &Function) -> Option<Result<Function, Fault>>
    ensures { result ≡ next_of (image_of layout.now) more function.now }
{
    let rva = link_of(layout, function)?;
    if more == 0 {
        return Some(Err(chain_fault(layout, function)));
    }
    match linked(layout, rva) {
        Some(next) => Some(Ok(next)),
        None => Some(Err(chain_fault(layout, function))),
    }
}

impl<'l, 'a> Iterator for Chain<'l, 'a> {
    ghost use Rattle.std.specs.Iterator.{YieldsFirst, item_count};
    ghost use Rattle.pe_unwind.specs.Left.{chain_left};

    type Item = Result<Function, Fault>;

    ghost next_gives = { YieldsFirst chain_left };

    ghost remaining = { item_count chain_left };

    fn next(&mut self) -> Option<Result<Function, Fault>> {
        let last = self.last?;
        match next_of(self.layout, self.more, &last) {
            Some(Ok(function)) => {
                self.last = Some(function);
                self.more -= 1;
                Some(Ok(function))
            }
            Some(Err(fault)) => {
                self.last = None;
                Some(Err(fault))
            }
            None => {
                self.last = None;
                None
            }
        }
    }
}

impl<'l, 'a> Chain<'l, 'a> {
    ghost use Rattle.pe_unwind.specs.Chains.{chain_of};
    ghost use Rattle.pe_unwind.specs.Left.{chain_left};

    /// The functions that a function is chained to.
    pub fn of(layout: &'l Layout<'a>, function: &Function) -> Chain<'l, 'a>
        ensures { chain_left result ≡ chain_of (image_of layout.now) function.now }
    {
        Chain {
            layout,
            last: Some(*function),
            more: MOST,
        }
    }
}
