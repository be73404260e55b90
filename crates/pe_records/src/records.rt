//! `Records`: the records of a table, read when they are asked for, and `find_table`, which adds the findings of a table.

ghost use Rattle.std.specs.Prelude.{◌≡◌, ◌+◌, ◌*◌, ◌/◌, ◌<◌, ◌≤◌, ◌^◌, length};
ghost use Rattle.pe_view.specs.View.{bytes_of, size_of};
ghost use Rattle.pe_view.specs.Standing.{Adds};
ghost use Rattle.pe_layout.specs.Layout.{image_of};
ghost use Rattle.pe_records.specs.TableTests.{records_tests, table_tests};

use crate::finding::add;
use crate::record::Record;
use pe_layout::Layout;
use pe_view::{Fault, Place, View};
use std::alloc::{AllocError, Allocator};
use std::marker::PhantomData;

/// The records of a table, each read when it is asked for. No call allocates.
#[derive(Drop)]
pub struct Records<'a, R: Record> {
    pub(crate) table: View<'a>,
    pub(crate) start: u32,
    pub(crate) count: u32,
    of: PhantomData<R>,
    ghost counted: { count ≡ size_of table / R.LEN },
    ghost inside: { 0 < size_of table → start + size_of table ≤ 2 ^ 31 },
}

impl<'a, R: Record> Records<'a, R> {
    ghost use Rattle.std.specs.Prelude.{◌↔◌, slice_get, IsTrue};
    ghost use Rattle.pe_records.specs.Records.{record_before, records_in, start_of, table_bytes};

    /// The records of an image's table: as many as are whole in its directory's Size and in the bytes that the file holds in one run.
    /// A table that is not present has none.
    pub fn of(layout: &Layout<'a>) -> Records<'a, R>
        ensures bytes { bytes_of result.table ≡ table_bytes (image_of layout.now) ((image_of layout.now).directory R.DIRECTORY) }
        ensures start { result.start ≡ start_of ((image_of layout.now).directory R.DIRECTORY) }
    {
        let Some(directory) = layout.directory(R::DIRECTORY) else {
            return Records {
                table: View::new(&[]),
                start: 0,
                count: 0,
                of: PhantomData,
            };
        };
        let held = layout.raw_bytes(directory.rva);
        let len = held.len().min(directory.size as usize);
        Records {
            table: View::new(&held[..len]),
            start: directory.rva,
            count: len as u32 / R::LEN,
            of: PhantomData,
        }
    }

    /// The number of records.
    pub fn len(&self) -> u32
        ensures { result ≡ length (records_in R.record_at R.LEN (bytes_of self.now.table)) }
    {
        self.count
    }

    /// Whether there are none.
    pub fn is_empty(&self) -> bool
        ensures { IsTrue result ↔ (length (records_in R.record_at R.LEN (bytes_of self.now.table)) ≡ 0) }
    {
        self.count == 0
    }

    /// Record `index` of the table, from 0, or `None` if there is none.
    pub fn get(&self, index: u32) -> Option<R>
        ensures { result ≡ slice_get (records_in R.record_at R.LEN (bytes_of self.now.table)) index }
    {
        if index >= self.count {
            return None;
        }
        Some(R::read(self.table, u64::from(R::LEN * index)))
    }

    /// The record before record `index`, if there is one.
    fn before(&self, index: u32) -> Option<R>
        requires { index < self.now.count }
        ensures { result ≡ record_before R.record_at R.LEN (bytes_of self.now.table) index }
    {
        if index == 0 {
            return None;
        }
        self.get(index - 1)
    }
}

/// Adds the findings of the records of a table, in the order of the table.
fn find_records<R: Record, A: Allocator>(
    findings: &mut Vec<Fault, A>,
    layout: &Layout,
    file: View,
    records: &Records<R>,
) -> Result<(), AllocError>
    ensures { Adds (records_tests R.record_at R.tests R.LEN (image_of layout.now) (bytes_of file.entry) (bytes_of records.now.table) records.now.start) findings.old.items findings.new.items result }
{
    for index in 0..records.count {
        let record = records.get(index).unwrap();
        let before = records.before(index);
        record.find(
            findings,
            layout,
            file,
            before,
            records.start + R::LEN * index,
        )?;
    }
    Ok(())
}

/// Adds the findings of an image's table: of its directory, and then of each record in the order of the table. A table that is not
/// present has none.
pub(crate) fn find_table<R: Record, A: Allocator>(
    findings: &mut Vec<Fault, A>,
    layout: &Layout,
    file: View,
) -> Result<(), AllocError>
    ensures { Adds (table_tests R.record_at R.tests R.LEN R.FINDING (image_of layout.now) (bytes_of file.entry) ((image_of layout.now).directory R.DIRECTORY)) findings.old.items findings.new.items result }
{
    let Some(directory) = layout.directory(R::DIRECTORY) else {
        return Ok(());
    };
    let passes = layout.raw_bytes(directory.rva).len() < directory.size as usize;
    let is_cut = directory.size % R::LEN != 0;
    let rules = [(R::FINDING, passes), (R::FINDING + 1, is_cut)];
    add(findings, layout.image(), Place::Rva(directory.rva), &rules)?;
    let records: Records<R> = Records::of(layout);
    find_records(findings, layout, file, &records)
}
