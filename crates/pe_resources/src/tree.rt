//! `read_directory`: the walk through a directory and all below it.

ghost use Rattle.std.specs.Prelude.{◌≡◌, ◌<◌, ◌≤◌, ◌^◌, OnOk};
ghost use Rattle.pe_layout.specs.Layout.{image_of};
ghost use Rattle.pe_resources.specs.Found.{Shows, AreSome};
ghost use Rattle.pe_resources.specs.Walk.{Walk, read_directory};

use crate::entry::Entry;
use crate::found::Found;
use crate::leaf::Path;
use crate::section::Section;
use std::alloc::{AllocError, Allocator};

/// Reads the directory at an offset of the last level, that of languages, and what it leads to.
#[inline]
fn read_last<A: Allocator + Copy>(
    found: &mut Found<A>,
    section: Section,
    path: Path,
    offset: u32,
) -> Result<(), AllocError>
    requires some { AreSome found.old }
    requires small { section.start ≤ 2 ^ 31 }
    requires offset { offset < 2 ^ 31 }
    ensures shows { (w : Walk) → Shows found.old w → OnOk result (Shows found.new (read_directory (image_of section.entry.layout.now) section.entry.start 1 path offset w)) }
    ensures some { OnOk result (AreSome found.new) }
{
    let Some(count) = found.enter(section, offset)? else {
        return Ok(());
    };
    let rows = section.rows(offset, count);
    for index in 0..count {
        let entry = Entry::of(&rows[index as usize]);
        found.check_name(section, entry)?;
        if entry.is_directory() {
            found.find(section, 187, entry.offset(), true)?;
        } else {
            let path = path.named(0, entry.name);
            found.read_leaf(section, 0, path, entry.offset())?;
        }
    }
    Ok(())
}

/// Reads the directory at an offset, which has so many levels, and what it leads to.
pub(crate) fn read_directory<A: Allocator + Copy>(
    found: &mut Found<A>,
    section: Section,
    levels: u32,
    path: Path,
    offset: u32,
) -> Result<(), AllocError>
    requires some { AreSome found.old }
    requires small { section.start ≤ 2 ^ 31 }
    requires offset { offset < 2 ^ 31 }
    ensures shows { (w : Walk) → Shows found.old w → OnOk result (Shows found.new (read_directory (image_of section.entry.layout.now) section.entry.start levels path offset w)) }
    ensures some { OnOk result (AreSome found.new) }
{
    if levels == 0 {
        return found.find(section, 187, offset, true);
    }
    let below = levels - 1;
    let Some(count) = found.enter(section, offset)? else {
        return Ok(());
    };
    let rows = section.rows(offset, count);
    let mut path = path;
    for index in 0..count {
        let entry = Entry::of(&rows[index as usize]);
        path = path.named(below, entry.name);
        found.check_name(section, entry)?;
        if !entry.is_directory() {
            found.read_leaf(section, below, path, entry.offset())?;
        } else if below == 1 {
            read_last(found, section, path, entry.offset())?;
        } else {
            read_directory(found, section, below, path, entry.offset())?;
        }
    }
    Ok(())
}
