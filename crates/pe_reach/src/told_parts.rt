//! `ToldParts`: a list of parts of a file that only contracts see, those that a source has returned.

ghost use Rattle.std.specs.Prelude.{◌≡◌, List, [], ◌∷◌, ◌++◌};
ghost use base.Fml.{ftrue};
ghost use Rattle.pe_reach.specs.Parts.{Part};

use std::marker::{Model, PhantomData};

/// A list of parts of a file that only contracts see. It takes no memory, and its functions do nothing at run time.
pub(crate) struct ToldParts {
    marker: PhantomData<()>,
    pub ghost list: { List Part },
}

impl Model for ToldParts {
    ghost also_owns = { λ _. ftrue };
}

impl ToldParts {
    /// The empty list.
    pub fn new() -> ToldParts
        ensures { result.list ≡ [] }
    {
        ToldParts {
            marker: PhantomData,
        }
    }

    /// Appends the part with these bytes at a file offset to the list.
    pub fn add(&mut self, offset: u64, bytes: &[u8])
        ensures { self.new.list ≡ self.old.list ++ record { offset = offset; bytes = bytes.now } ∷ [] }
    {}
}

impl Drop for ToldParts {
    fn drop(self) {
        let Self { marker: _ } = self;
    }
}
