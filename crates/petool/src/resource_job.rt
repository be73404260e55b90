//! The command `resource` with a LEAF: writes one resource.

use crate::extraction::{Part, run_extraction};
use crate::messages::refuse_memory;
use crate::statuses::BAD_WORDS;
use pe_resource_files::{Form, Wanted, Wish};
use pe_resource_pages::resource_type_number;
use std::alloc::{AllocError, Allocator};
use std::io::Input;
use std::rt::Files;

/// A name between the slashes of a word. In quotes it is a text whatever it is.
#[derive(Clone, Copy)]
struct Name<'n> {
    text: &'n str,
    is_quoted: bool,
}

/// The first name of a word, and what comes after its slash, if it has one. Quotes around a name hold slashes.
fn first_name(names: &str) -> (Name<'_>, Option<&str>) {
    if let Some(quoted) = names.strip_prefix('"') {
        if let Some((text, rest)) = quoted.split_once("\"/") {
            let is_quoted = true;
            return (Name { text, is_quoted }, Some(rest));
        }
        if let Some(text) = quoted.strip_suffix('"') {
            let is_quoted = true;
            return (Name { text, is_quoted }, None);
        }
    }
    let is_quoted = false;
    match names.split_once('/') {
        Some((text, rest)) => (Name { text, is_quoted }, Some(rest)),
        None => (
            Name {
                text: names,
                is_quoted,
            },
            None,
        ),
    }
}

/// The names of a word; those that are left out are empty.
#[derive(Clone, Copy)]
struct Names<'n> {
    kind: Name<'n>,
    name: Name<'n>,
    language: Name<'n>,
}

/// The names of a word, which has at most three.
fn names_in(leaf: &str) -> Option<Names<'_>> {
    let (kind, rest) = first_name(leaf);
    let (name, rest) = first_name(rest.unwrap_or(""));
    let (language, rest) = first_name(rest.unwrap_or(""));
    match rest {
        Some(_) => None,
        None => Some(Names {
            kind,
            name,
            language,
        }),
    }
}

/// A text in UTF-16, by its bytes.
fn units_of<A: Allocator + Copy>(alloc: A, text: &str) -> Result<Vec<u8, A>, AllocError> {
    let mut units = Vec::new(alloc);
    for unit in text.encode_utf16() {
        units.extend_from_slice(&unit.to_le_bytes())?;
    }
    Ok(units)
}

/// The texts of names in UTF-16.
#[derive(Drop)]
struct Units<A: Allocator> {
    kind: Vec<u8, A>,
    name: Vec<u8, A>,
    language: Vec<u8, A>,
}

/// The texts of these names in UTF-16.
fn all_units<A: Allocator + Copy>(alloc: A, names: Names) -> Result<Units<A>, AllocError> {
    Ok(Units {
        kind: units_of(alloc, names.kind.text)?,
        name: units_of(alloc, names.name.text)?,
        language: units_of(alloc, names.language.text)?,
    })
}

/// What an entry is to be called by a name: nothing if it is left out, a number if it is one, otherwise a text, for which the units
/// are given.
fn wish_of<'w>(name: Name<'_>, units: &'w [u8]) -> Option<Wish<'w>> {
    if name.is_quoted {
        return Some(Wish::Text(units));
    }
    if name.text.is_empty() {
        return None;
    }
    match name.text.parse::<u32>() {
        Ok(id) => Some(Wish::Id(id)),
        Err(_) => Some(Wish::Text(units)),
    }
}

/// What the type is to be called by a name, which may also be one of winuser.h.
fn type_wish<'w>(name: Name<'_>, units: &'w [u8]) -> Option<Wish<'w>> {
    if name.is_quoted {
        return Some(Wish::Text(units));
    }
    match resource_type_number(name.text) {
        Some(id) => Some(Wish::Id(id)),
        None => wish_of(name, units),
    }
}

/// The resource that is called by these names, for which the units are given.
fn wanted_by<'w, A: Allocator>(names: Names<'_>, units: &'w Units<A>) -> Wanted<'w> {
    Wanted {
        kind: type_wish(names.kind, units.kind.as_slice()),
        name: wish_of(names.name, units.name.as_slice()),
        language: wish_of(names.language, units.language.as_slice()),
    }
}

/// Writes the first resource of a file that a word like `version/1/1033` calls so, and returns the exit status.
pub(crate) fn run_resource<R: Files + Input + Print + Eprint + Alloc>(
    rt: &R,
    path: &str,
    leaf: &str,
    is_raw: bool,
) -> u8
where
    R::A: Copy,
{
    let Some(names) = names_in(leaf) else {
        let _ = eprintln!(rt; "petool: a resource has at most three names, as in version/1/1033");
        return BAD_WORDS;
    };
    let Ok(units) = all_units(rt.alloc(), names) else {
        return refuse_memory(rt);
    };
    let form = if is_raw { Form::Raw } else { Form::File };
    let wanted = wanted_by(names, &units);
    run_extraction(rt, path, Part::Resource { form, wanted })
}
