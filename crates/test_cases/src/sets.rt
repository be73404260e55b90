//! The set that the words of a case describe.

use crate::edits::edit;
use crate::numbers::{name_of, number_of};
use pe_set::{Policy, SetEntry};
use std::alloc::Global;
use std::fs;
use std::rt::Files;

/// A file of a set, with the name of its module and its base.
#[derive(Drop)]
pub(crate) struct Member {
    pub name: Vec<u8>,
    pub file: Vec<u8>,
    pub base: u64,
}

/// The set of a case.
#[derive(Drop)]
pub(crate) struct SetCase<'a> {
    pub members: Vec<Member>,
    /// What happens to imports from modules that are not in the set.
    pub policy: Policy,
    /// The other words of the case.
    pub others: Vec<&'a str>,
}

/// The file that a word puts into the set.
fn read_member<R: Files + AllocGlobal>(rt: &R, base: &str, named: &str) -> Option<Member> {
    let (name, path) = named.split_once("=")?;
    Some(Member {
        name: name_of(rt.alloc(), name)?,
        file: fs::read(rt, path).ok()?,
        base: number_of(base)?,
    })
}

/// Carries out a word.
fn add_word<'a, R: Files + AllocGlobal>(
    rt: &R,
    set: &mut SetCase<'a>,
    word: &'a str,
) -> Option<()> {
    let Some((place, value)) = word.split_once("=") else {
        return set.others.push(word).ok();
    };
    if value.contains("=") {
        return set.members.push(read_member(rt, place, value)?).ok();
    }
    edit(rt.alloc(), &mut set.members.last_mut()?.file, word)
}

/// The set of a case, or `None` if one of its words cannot be carried out.
pub(crate) fn read_set<'a, R: Files + AllocGlobal>(rt: &R, words: &'a str) -> Option<SetCase<'a>> {
    let mut set = SetCase {
        members: Vec::new(rt.alloc()),
        policy: Policy::Strict,
        others: Vec::new(rt.alloc()),
    };
    for word in words.split_ascii_whitespace() {
        match word {
            "--known" => set.policy = Policy::Known,
            _ => add_word(rt, &mut set, word)?,
        }
    }
    Some(set)
}

/// The set of these files, which it borrows; `None` if memory runs out.
pub(crate) fn set_of(alloc: Global, members: &[Member]) -> Option<Vec<SetEntry<'_>>> {
    let mut set = Vec::new(alloc);
    for member in members {
        let entry = SetEntry {
            name: &member.name,
            file: &member.file,
            base: member.base,
        };
        set.push(entry).ok()?;
    }
    Some(set)
}
