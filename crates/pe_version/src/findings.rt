//! `version_findings`: the rules of version information that are broken.

ghost use Rattle.std.specs.Prelude.{◌≡◌, if◌then◌else◌, ◌++◌, ◌∷◌, [], ◌+◌, ◌≤◌, ◌<◌, ◌^◌, OnOk, IfOk, IsTrue, length};
ghost use Rattle.pe_view.specs.View.{bytes_of, size_of};
ghost use Rattle.pe_view.specs.Standing.{standing};
ghost use Rattle.pe_version.specs.Block.{place_of};
ghost use Rattle.pe_version.specs.Findings.{finding, end_tests, is_read, level_tests, version_tests};

use crate::block::{Block, word};
use crate::blocks::Blocks;
use crate::fixed::fixed_info;
use crate::tables::files;
use pe_view::{Fault, Place, View};
use std::alloc::{AllocError, Allocator};

/// How many levels of blocks there are in the first one: tables are in the second, and strings in the third.
const LEVELS: u32 = 3;

/// How many there are in a block that holds tables.
const TABLES: u32 = 2;

/// Adds the finding of a rule at an offset, if it is broken.
fn find<A: Allocator>(
    findings: &mut Vec<Fault, A>,
    image: u16,
    rva: u32,
    number: u16,
    at: u32,
    stands: bool,
) -> Result<(), AllocError>
    requires { IsTrue stands → rva + at < 2 ^ 32 }
    ensures { OnOk result (findings.new.items ≡ findings.old.items ++ standing (finding image rva number at stands ∷ [])) }
{
    if stands {
        findings.push(Fault {
            number,
            image,
            place: Place::Rva(rva + at),
        })?;
    }
    Ok(())
}

/// Adds the findings of the offset at which no whole block is, before an end.
fn find_end<A: Allocator>(
    findings: &mut Vec<Fault, A>,
    image: u16,
    rva: u32,
    view: View,
    end: u64,
    at: u32,
) -> Result<(), AllocError>
    requires inside { end ≤ size_of view }
    requires small { rva + size_of view ≤ 2 ^ 32 }
    ensures { OnOk result (findings.new.items ≡ findings.old.items ++ standing (end_tests image rva (bytes_of view.entry) end at)) }
{
    if u64::from(at) + 6 > end {
        return Ok(());
    }
    let len = word(view, at);
    let passes = u64::from(at) + u64::from(len) > end;
    find(findings, image, rva, 212, at, passes)?;
    find(findings, image, rva, 214, at, len < 6)
}

/// How many levels of blocks are read in a block, if there are so many: of those in the first block only `StringFileInfo` has some.
fn levels_in(below: u32, block: Block) -> u32
    ensures value { result ≡ (if is_read (bytes_of block.entry.view) below (place_of block.entry) then below else 0) }
    ensures bound { result ≤ below }
{
    if below != TABLES || block.is_string_file_info() {
        below
    } else {
        0
    }
}

/// Adds the findings of blocks of so many levels.
fn find_blocks<A: Allocator>(
    findings: &mut Vec<Fault, A>,
    image: u16,
    rva: u32,
    levels: u32,
    blocks: Blocks,
) -> Result<(), AllocError>
    requires { rva + size_of blocks.view ≤ 2 ^ 32 }
    ensures { OnOk result (findings.new.items ≡ findings.old.items ++ standing (level_tests image rva (bytes_of blocks.entry.view) levels blocks.entry.end blocks.entry.at)) }
{
    if levels == 0 {
        return Ok(());
    }
    let below = levels - 1;
    let mut left = blocks;
    while let Some(block) = left.next() {
        find(findings, image, rva, 213, block.start, !block.has_key_end())?;
        let inner = levels_in(below, block);
        find_blocks(findings, image, rva, inner, block.children())?;
    }
    find_end(
        findings,
        image,
        rva,
        left.view,
        u64::from(left.end),
        left.at,
    )
}

/// The findings of version information, in the order of its bytes: 211 to 214. Its first byte is at the RVA `rva` of image `image`.
pub fn version_findings<A: Allocator + Copy>(
    alloc: A,
    image: u16,
    rva: u32,
    bytes: &[u8],
) -> Result<Vec<Fault, A>, AllocError>
    requires { rva + length bytes.now ≤ 2 ^ 32 }
    ensures { IfOk result (λ findings. findings.items ≡ standing (version_tests image rva bytes.now)) }
{
    let view = View::new(bytes);
    let mut findings = Vec::new(alloc);
    find(
        &mut findings,
        image,
        rva,
        211,
        0,
        fixed_info(bytes).is_none(),
    )?;
    find_end(&mut findings, image, rva, view, view.len(), 0)?;
    find_blocks(&mut findings, image, rva, LEVELS, files(view))?;
    Ok(findings)
}
