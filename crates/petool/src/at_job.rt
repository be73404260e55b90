//! `run_at`: the command `at`.

use crate::file_job::run_file;
use crate::messages::refuse_memory;
use crate::texts::Engine;
use crate::word_bytes::bytes_of;
use pe_at::Spot;
use pe_words::AtPlace;
use std::alloc::{AllocError, Allocator};
use std::borrow::CowSlice;
use std::io::Input;
use std::rt::Files;

/// The names of sections in places, in their order; an empty name for a place without a section.
fn names_of<A: Allocator + Copy>(
    alloc: A,
    places: &[AtPlace],
) -> Result<Vec<CowSlice<'_, u8, A>, A>, AllocError> {
    let mut names = Vec::new(alloc);
    for place in places {
        let name = match place {
            AtPlace::Counted(_) => CowSlice::Borrowed(&b""[..]),
            AtPlace::InSection { section, .. } => bytes_of(alloc, section.as_str())?,
        };
        names.push(name)?;
    }
    Ok(names)
}

/// The spots of places, with these names of sections.
fn spots_of<'n, A: Allocator + Copy>(
    alloc: A,
    places: &[AtPlace],
    names: &'n [CowSlice<'_, u8, A>],
) -> Result<Vec<Spot<'n>, A>, AllocError> {
    let mut spots = Vec::new(alloc);
    for (place, section) in places.iter().zip(names) {
        spots.push(match place {
            AtPlace::Counted(place) => Spot::At(*place),
            AtPlace::InSection { offset, .. } => Spot::In {
                section,
                offset: *offset,
            },
        })?;
    }
    Ok(spots)
}

/// Shows what is at places of a file, and returns the exit status.
pub(crate) fn run_at<R: Files + Input + Print + Eprint + Alloc>(
    rt: &R,
    path: &str,
    places: &[AtPlace],
) -> u8
where
    R::A: Copy,
{
    let Ok(names) = names_of(rt.alloc(), places) else {
        return refuse_memory(rt);
    };
    match spots_of(rt.alloc(), places, &names) {
        Ok(spots) => run_file(rt, Engine::At(&spots), None, path),
        Err(_) => refuse_memory(rt),
    }
}
