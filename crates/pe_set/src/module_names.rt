//! `Names`: the names of a set's images in lower case, by which the module of an import is found.

ghost use Rattle.std.specs.Prelude.{◌≡◌, ◌+◌, ◌<◌, length, bytes_eq, map, position, IsOk, IfOk, OnOk, take};
ghost use Rattle.std.specs.Str.{str_to_ascii_lowercase};
ghost use Rattle.pe_set.specs.Set.{forwarded_name};
ghost use Rattle.pe_set.specs.SetView.{modules_view};
ghost use Rattle.pe_set.specs.NameLengths.{AreWithin};

use crate::reading::Module;
use indexmap::IndexSet;
use std::alloc::{AllocError, Allocator};
use std::hash::{BuildHasherDefault, FoldHasher};

/// The numbers of a set's images by their names in lower case.
///
/// The hasher has a fixed seed, so names can be made to collide. There are at most 256: a look-up compares a name with no more than
/// these, and only with those of its length.
#[derive(Drop)]
pub(crate) struct Names<A: Allocator> {
    pub names: IndexSet<Vec<u8, A>, BuildHasherDefault<FoldHasher>, A>,
    /// The length of the longest name in bytes.
    pub longest: usize,
    ghost none_longer: { AreWithin longest (map (λ name. name.items) names.keys) },
}

/// Stores a name in lower case in the buffer.
fn lower_into<A: Allocator + Copy>(buffer: &mut Vec<u8, A>, name: &[u8]) -> Result<(), AllocError>
    ensures { OnOk result (buffer.new.items ≡ str_to_ascii_lowercase name.now) }
{
    buffer.clear();
    buffer.extend_from_slice(name)?;
    buffer.as_mut_slice().make_ascii_lowercase();
    Ok(())
}

/// Stores the name of a forwarder's module in lower case in the buffer; `.dll` is appended to a name without a dot.
fn forward_into<A: Allocator + Copy>(buffer: &mut Vec<u8, A>, name: &[u8]) -> Result<(), AllocError>
    ensures { OnOk result (buffer.new.items ≡ str_to_ascii_lowercase (forwarded_name name.now)) }
{
    lower_into(buffer, name)?;
    if !name.contains(&b'.') {
        buffer.extend_from_slice(b".dll")?;
    }
    Ok(())
}

impl<A: Allocator + Copy> Names<A> {
    ghost use Rattle.pe_set.specs.NamesView.{names_in, lowered, found, AreDistinct, FoundAlike};

    /// The names of images, no two of which match.
    pub fn new(alloc: A, modules: &[Module<A>]) -> Result<Names<A>, AllocError>
        requires { AreDistinct (modules_view modules.now) }
        ensures names { IfOk result (λ names. names_in names ≡ lowered (modules_view modules.now)) }
        ensures empty { length modules.now ≡ 0 → IsOk result }
    {
        let mut names = IndexSet::with_capacity(alloc, modules.len())?;
        let mut longest: usize = 0;
        for module in modules {
            let mut name = Vec::new(alloc);
            lower_into(&mut name, module.name)?;
            longest = longest.max(module.name.len());
            names.insert(name)?;
        }
        Ok(Names { names, longest })
    }

    /// The beginning of a name that is looked up: at most one byte more than the longest name of the set. A longer name matches
    /// none, and neither does its beginning, so no file can make a look-up read more.
    pub fn beginning<'n>(&self, name: &'n [u8]) -> &'n [u8]
        ensures { result.now ≡ take (self.now.longest + 1) name.now }
    {
        &name[..name.len().min(self.longest.saturating_add(1))]
    }

    /// Stores the name of a module in lower case in the buffer, cut to what is looked up.
    fn name_into(&self, buffer: &mut Vec<u8, A>, name: &[u8]) -> Result<(), AllocError>
        ensures { OnOk result (FoundAlike (names_in self.now) buffer.new.items (str_to_ascii_lowercase name.now)) }
    {
        lower_into(buffer, self.beginning(name))?;
        Ok(())
    }

    /// Stores the name of a forwarder's module in lower case in the buffer, cut to what is looked up; `.dll` is appended to a name
    /// without a dot.
    fn forward_into(&self, buffer: &mut Vec<u8, A>, name: &[u8]) -> Result<(), AllocError>
        ensures { OnOk result (FoundAlike (names_in self.now) buffer.new.items (str_to_ascii_lowercase (forwarded_name name.now))) }
    {
        forward_into(buffer, self.beginning(name))?;
        Ok(())
    }

    /// The number of the image with a name in lower case.
    fn number(&self, name: &[u8]) -> Option<usize>
        ensures { result ≡ position (λ other. bytes_eq name.now other) (names_in self.now) }
    {
        self.names.get_index_of(name)
    }

    /// The number of the image with a name. `buffer` is scratch space for the name.
    pub fn find(&self, buffer: &mut Vec<u8, A>, name: &[u8]) -> Result<Option<usize>, AllocError>
        ensures { IfOk result (λ number. number ≡ found (names_in self.now) name.now) }
    {
        self.name_into(buffer, name)?;
        Ok(self.number(buffer.as_slice()))
    }

    /// The number of the image that a forwarder's module names. `buffer` is scratch space for the name.
    pub fn find_forwarded(
        &self,
        buffer: &mut Vec<u8, A>,
        name: &[u8],
    ) -> Result<Option<usize>, AllocError>
        ensures { IfOk result (λ number. number ≡ found (names_in self.now) (forwarded_name name.now)) }
    {
        self.forward_into(buffer, name)?;
        Ok(self.number(buffer.as_slice()))
    }
}
