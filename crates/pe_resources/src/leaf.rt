//! `Leaf`: a leaf of the resource tree, with the names that lead to it.

ghost use Rattle.std.specs.Prelude.{◌≡◌};
ghost use Rattle.pe_resources.specs.Path.{no_path, named};

/// The names of the entries that lead to a leaf, each as it stands in its entry: an id, or with its top bit set the offset of a text.
#[derive(Clone, Copy, Debug, PartialEq, Eq)]
pub struct Path {
    /// Of level 1: the type.
    pub kind: Option<u32>,
    /// Of level 2.
    pub name: Option<u32>,
    /// Of level 3.
    pub language: Option<u32>,
}

impl Path {
    /// That of the root.
    pub(crate) fn none() -> Path
        ensures { result ≡ no_path }
    {
        Path {
            kind: None,
            name: None,
            language: None,
        }
    }

    /// The path with one name more, of an entry below which there are so many levels.
    pub(crate) fn named(self, below: u32, name: u32) -> Path
        ensures { result ≡ named below name self }
    {
        match below {
            2 => Path {
                kind: Some(name),
                name: self.name,
                language: self.language,
            },
            1 => Path {
                kind: self.kind,
                name: Some(name),
                language: self.language,
            },
            _ => Path {
                kind: self.kind,
                name: self.name,
                language: Some(name),
            },
        }
    }
}

/// A leaf of the resource tree ("PE Format", Resource Data Entry).
#[derive(Clone, Copy, Debug, PartialEq, Eq)]
pub struct Leaf {
    /// What leads to it.
    pub path: Path,
    /// The RVA of its data.
    pub rva: u32,
    /// How many bytes the data have.
    pub size: u32,
    /// The code page of texts in the data.
    pub code_page: u32,
}
