//! `SymbolNames`: the names of an object's symbols, by index.

ghost use Rattle.std.specs.Prelude.{◌≡◌, ◌==◌, ◌<◌, ◌≤◌, [], AllPairs, length, option_map, IfOk, if◌then◌else◌};
ghost use Rattle.std.specs.List.{find};
ghost use Rattle.std.specs.List.Sorted.{IsPartitionPoint};
ghost use Rattle.coff_read.specs.EitherObject.{form_of, file_of};
ghost use Rattle.pe_page.specs.Objects.{named, symbol_names};

use coff_read::EitherObject;
use std::alloc::{AllocError, Allocator};

/// The names of an object's symbols, by the index of the symbol's record.
#[derive(Drop)]
pub struct SymbolNames<'a, A: Allocator> {
    names: Vec<(u32, &'a [u8]), A>,
    ghost ascend: { AllPairs (λ name later. name.0 < later.0) names.items },
}

/// The position of the first name whose index is at least `index`, among names ordered by index.
fn first_from(names: &[(u32, &[u8])], index: u32) -> usize
    requires { AllPairs (λ name later. name.0 < later.0) names.now }
    ensures bound { result ≤ length names.now }
    ensures point { IsPartitionPoint (λ name. name.0 < index) (λ name. index ≤ name.0) names.now result }
{
    names.partition_point(|name| name.0 < index)
}

/// The name with an index, among names ordered by index.
fn name_under<'a>(names: &[(u32, &'a [u8])], index: u32) -> Option<&'a [u8]>
    requires { AllPairs (λ name later. name.0 < later.0) names.now }
    ensures { result ≡ option_map (λ name. name.1) (find (λ name. name.0 == index) names.now) }
{
    let place = first_from(names, index);
    if place == names.len() {
        return None;
    }
    let (found, name) = names[place];
    if found != index {
        return None;
    }
    Some(name)
}

impl<'a, A: Allocator + Copy> SymbolNames<'a, A> {
    /// The names of an object's symbols, or none if they are not needed; then it allocates nothing.
    pub fn new(
        alloc: A,
        object: &EitherObject<'a>,
        is_wanted: bool,
    ) -> Result<SymbolNames<'a, A>, AllocError>
        ensures { IfOk result (λ read. named read.names.items ≡ (if is_wanted then symbol_names (form_of object.now) (file_of object.now) else [])) }
    {
        let mut names = Vec::new(alloc);
        if !is_wanted {
            return Ok(SymbolNames { names });
        }
        names.reserve(object.symbol_count())?;
        for (index, symbol) in object.each_symbol(alloc) {
            names.push((index, symbol.name))?;
        }
        Ok(SymbolNames { names })
    }

    /// The name of the symbol whose first record has this index; `None` for an auxiliary record.
    pub fn get(&self, index: u32) -> Option<&'a [u8]>
        ensures { result ≡ option_map (λ name. name.1) (find (λ name. name.0 == index) self.now.names.items) }
    {
        name_under(self.names.as_slice(), index)
    }
}
