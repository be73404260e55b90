//! Sets of synthetic modules.

use crate::library::{library, preferred_base};
use crate::module_names::file_name;
use crate::shape::{Module, Shape};
use pe_set::SetEntry;
use std::alloc::Global;

/// The names and files of a set.
#[derive(Drop)]
pub(crate) struct Files {
    names: Vec<Vec<u8>>,
    files: Vec<Vec<u8>>,
    bases: Vec<u64>,
}

/// The files of a number of modules.
pub(crate) fn files_of(alloc: Global, shape: Shape, seed: u64, count: u32) -> Option<Files> {
    let mut files = Files {
        names: Vec::new(alloc),
        files: Vec::new(alloc),
        bases: Vec::new(alloc),
    };
    for number in 0..count {
        let module = Module {
            seed,
            number,
            count,
        };
        files.names.push(file_name(alloc, number)?).ok()?;
        files.files.push(library(alloc, shape, module)?).ok()?;
        files.bases.push(preferred_base(shape, module)).ok()?;
    }
    Some(files)
}

impl Files {
    /// The files.
    pub(crate) fn each(&self) -> &[Vec<u8>] {
        &self.files
    }

    /// The set, with the base of each module its ImageBase plus `shift`.
    pub(crate) fn set(&self, alloc: Global, shift: u64) -> Option<Vec<SetEntry<'_>>> {
        let mut set = Vec::new(alloc);
        for ((name, file), base) in self.names.iter().zip(&self.files).zip(&self.bases) {
            set.push(SetEntry {
                name,
                file,
                base: base.checked_add(shift)?,
            })
            .ok()?;
        }
        Some(set)
    }
}
