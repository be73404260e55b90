//! `delay_findings`: the findings of the delay-load directory table.

ghost use Rattle.std.specs.Prelude.{◌≡◌, ◌≢◌, ◌+◌, ◌*◌, ◌/◌, ◌<◌, ◌≤◌, ◌^◌, [], IfOk, OnErr, length, nat_lt};
ghost use Rattle.pe_view.specs.Standing.{Adds, standing};
ghost use Rattle.pe_view.specs.TextEnds.{AreEndsOf};
ghost use Rattle.pe_layout.specs.Layout.{file_of, image_of};
ghost use Rattle.pe_records.specs.Records.{raw_bytes};
ghost use Rattle.pe_delay.specs.Descriptors.{delay_descriptors, descriptors_from};
ghost use Rattle.pe_delay.specs.Entries.{entry_at, entry_count};
ghost use Rattle.pe_delay.specs.Findings.{value_tests, entry_tests, descriptor_tests, descriptors_tests, delay_tests};
ghost use Rattle.pe_delay.specs.Left.{descriptors_left};
ghost use Rattle.pe_delay.specs.Tables.{tables_of};

use crate::descriptor::DelayDescriptor;
use crate::descriptors::DelayDescriptors;
use crate::entry::{entry_rva, has_other_bits, is_inside, slot_rva, value_at};
use crate::key::lacks_name;
use crate::tables::{Tables, tables_of};
use crate::walk::{ENTRY_LIMIT, count_entries};
use pe_head::directory_index;
use pe_layout::Layout;
use pe_records::finding::add;
use pe_view::{Fault, Place, TextEnds};
use std::alloc::{AllocError, Allocator};

/// Adds the findings of entry `index` of a name table, which has this value, where `read` entries of all tables were read before.
fn find_value<A: Allocator + Copy>(
    findings: &mut Vec<Fault, A>,
    ends: &mut TextEnds<A>,
    layout: &Layout,
    tables: &Tables,
    index: u32,
    value: u64,
    read: u32,
) -> Result<(), AllocError>
    requires known { AreEndsOf (file_of layout.now) ends.old }
    requires value { value ≡ (entry_at (image_of layout.now) tables.now index).value }
    requires small { (entry_at (image_of layout.now) tables.now index).rva < 2 ^ 32 }
    ensures known { AreEndsOf (file_of layout.now) ends.new }
    ensures adds { Adds (value_tests (image_of layout.now) tables.now read (entry_at (image_of layout.now) tables.now index)) findings.old.items findings.new.items result }
{
    let rules = [
        (164, lacks_name(ends, layout, tables, value)),
        (165, has_other_bits(layout, tables, value)),
        (166, !is_inside(layout, slot_rva(layout, tables, index))),
        (167, read == ENTRY_LIMIT),
    ];
    let place = Place::Rva(entry_rva(layout, tables, index) as u32);
    add(findings, layout.image(), place, &rules)
}

/// Adds the findings of entry `index` of a name table, where `read` entries of all tables were read before.
fn find_entry<A: Allocator + Copy>(
    findings: &mut Vec<Fault, A>,
    ends: &mut TextEnds<A>,
    layout: &Layout,
    tables: &Tables,
    index: u32,
    read: u32,
) -> Result<(), AllocError>
    requires known { AreEndsOf (file_of layout.now) ends.old }
    requires small { (entry_at (image_of layout.now) tables.now index).rva < 2 ^ 32 }
    ensures known { AreEndsOf (file_of layout.now) ends.new }
    ensures adds { Adds (entry_tests (image_of layout.now) tables.now read (entry_at (image_of layout.now) tables.now index)) findings.old.items findings.new.items result }
{
    let rva = entry_rva(layout, tables, index);
    let rules = [(163, !is_inside(layout, rva))];
    add(findings, layout.image(), Place::Rva(rva as u32), &rules)?;
    match value_at(layout, rva) {
        None => Ok(()),
        Some(value) => find_value(findings, ends, layout, tables, index, value, read),
    }
}

/// Adds the findings of a descriptor with these tables, of which `count` entries import, where `read` entries of all tables were read
/// before.
fn find_descriptor<A: Allocator + Copy>(
    findings: &mut Vec<Fault, A>,
    ends: &mut TextEnds<A>,
    layout: &Layout,
    descriptor: &DelayDescriptor,
    tables: &Tables,
    count: u32,
    read: u32,
) -> Result<(), AllocError>
    requires known { AreEndsOf (file_of layout.now) ends.old }
    requires tables { tables.now ≡ tables_of (image_of layout.now) descriptor.now }
    requires count { count ≡ entry_count (image_of layout.now) tables.now read }
    requires few { read + count ≤ 1048576 }
    requires small { (entry_at (image_of layout.now) tables.now count).rva < 2 ^ 32 }
    ensures known { AreEndsOf (file_of layout.now) ends.new }
    ensures adds { Adds (descriptor_tests (image_of layout.now) read descriptor.now) findings.old.items findings.new.items result }
{
    let rules = [(162, descriptor.module_kept(ends, layout).is_none())];
    add(findings, layout.image(), Place::Rva(descriptor.rva), &rules)?;
    find_entry(findings, ends, layout, tables, count, read + count)
}

/// Adds the findings of each descriptor.
fn find_descriptors<A: Allocator + Copy>(
    findings: &mut Vec<Fault, A>,
    ends: &mut TextEnds<A>,
    layout: &Layout,
) -> Result<(), AllocError>
    requires known { AreEndsOf (file_of layout.now) ends.old }
    ensures { Adds (descriptors_tests (image_of layout.now) 0 (delay_descriptors (image_of layout.now))) findings.old.items findings.new.items result }
{
    let mut descriptors = DelayDescriptors::of(layout);
    let mut read = 0;
    while let Some(descriptor) = descriptors.next() {
        let tables = tables_of(layout, &descriptor);
        let count = count_entries(ends, layout, &tables, read);
        find_descriptor(findings, ends, layout, &descriptor, &tables, count, read)?;
        read += count;
    }
    Ok(())
}

/// Whether a descriptor of the table at an RVA ends it.
pub(crate) fn is_ended(layout: &Layout, start: u32) -> bool
    ensures { result ≡ nat_lt (length (descriptors_from start (raw_bytes (image_of layout.now) start) 0)) (length (raw_bytes (image_of layout.now) start) / 32) }
{
    let whole = layout.raw_bytes(start).len() / 32;
    let mut descriptors = DelayDescriptors::at(layout, start);
    let mut count = 0;
    while let Some(_descriptor) = descriptors.next() {
        count += 1;
    }
    count < whole
}

/// Adds the findings of an image's delay-load directory table.
fn find_table<A: Allocator + Copy>(
    findings: &mut Vec<Fault, A>,
    ends: &mut TextEnds<A>,
    layout: &Layout,
) -> Result<(), AllocError>
    requires known { AreEndsOf (file_of layout.now) ends.old }
    ensures { Adds (delay_tests (image_of layout.now)) findings.old.items findings.new.items result }
{
    let Some(directory) = layout.directory(directory_index::DELAY_IMPORT) else {
        return Ok(());
    };
    let rules = [(161, !is_ended(layout, directory.rva))];
    add(findings, layout.image(), Place::Rva(directory.rva), &rules)?;
    find_descriptors(findings, ends, layout)
}

/// The findings 161 to 167 of an image: of its delay-load directory table, and then of each descriptor in the order of the table. A
/// name table is read up to its first entry with a finding. Without the directory there are none.
///
/// The error is that no memory is left for a finding. It never comes if there is none.
pub fn delay_findings<A: Allocator + Copy>(
    alloc: A,
    layout: &Layout,
) -> Result<Vec<Fault, A>, AllocError>
    ensures all { IfOk result (λ findings. findings.items ≡ standing (delay_tests (image_of layout.now))) }
    ensures memory { OnErr result (standing (delay_tests (image_of layout.now)) ≢ []) }
{
    let mut findings = Vec::new(alloc);
    let mut ends = TextEnds::new(alloc);
    find_table(&mut findings, &mut ends, layout)?;
    Ok(findings)
}
