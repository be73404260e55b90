//! The order of a set's faults: their keys, and the list of the faults found.

use pe_set::MapError;
use pe_view::{Fault, Place};
use std::alloc::{AllocError, Global};

/// The classes of a set's faults, in order.
#[derive(Clone, Copy, PartialEq, Eq, PartialOrd, Ord)]
pub(super) enum Class {
    /// The number and the names of the entries.
    Entries,
    /// The images, each alone.
    Images,
    /// The bases of the images.
    Bases,
    /// The searches for the imports.
    Searches,
}

/// The phases of an image, in order.
#[derive(Clone, Copy, PartialEq, Eq, PartialOrd, Ord)]
pub(super) enum Phase {
    Headers,
    Sections,
    Exports,
    Imports,
    Fixups,
}

/// The position of a fault in the order: keys are compared part by part. A class without phases has the first one.
#[derive(Clone, Copy, PartialEq, Eq, PartialOrd, Ord)]
struct Key {
    class: Class,
    /// The index of the entry.
    entry: usize,
    phase: Phase,
    /// The index of the record in its phase.
    record: u64,
    /// The fault's number.
    number: u16,
}

/// A test of the table of faults, applied to one record.
#[derive(Clone, Copy)]
pub(super) struct Row {
    pub number: u16,
    /// Whether its condition holds.
    pub stands: bool,
    pub place: Place,
    /// For fault 50, the length of the cycle.
    pub length: Option<u32>,
}

impl Row {
    /// A test of the table.
    pub fn new(number: u16, stands: bool, place: Place) -> Row {
        Row {
            number,
            stands,
            place,
            length: None,
        }
    }
}

/// A test whose place is a file offset.
pub(super) fn file_row(number: u16, stands: bool, offset: u64) -> Row {
    Row::new(number, stands, Place::File(offset))
}

/// A test whose place is an RVA. If it holds, that is below 2^32, since a walk through a table ends where it leaves the image.
pub(super) fn rva_row(number: u16, stands: bool, rva: u64) -> Row {
    let rva = u32::try_from(rva).unwrap_or(u32::MAX);
    Row::new(number, stands, Place::Rva(rva))
}

/// The faults found, each as an error with its key, and the record that is tested next.
#[derive(Drop)]
pub(super) struct Faults {
    listed: Vec<(Key, MapError)>,
    class: Class,
    entry: usize,
    phase: Phase,
    record: u64,
}

impl Faults {
    /// No faults.
    pub fn new(alloc: Global) -> Self {
        Faults {
            listed: Vec::new(alloc),
            class: Class::Entries,
            entry: 0,
            phase: Phase::Headers,
            record: 0,
        }
    }

    /// Whether none was found so far.
    pub fn is_empty(&self) -> bool {
        self.listed.is_empty()
    }

    /// Begins with the faults of an entry in a class.
    pub fn begin(&mut self, class: Class, entry: usize) {
        self.class = class;
        self.entry = entry;
        self.begin_phase(Phase::Headers);
    }

    /// Begins with the records of a phase.
    pub fn begin_phase(&mut self, phase: Phase) {
        self.phase = phase;
        self.record = 0;
    }

    /// Lists the faults of the next record, and returns whether it has one.
    pub fn record(&mut self, rows: &[Row]) -> Result<bool, AllocError> {
        let mut refused = false;
        for row in rows {
            if row.stands {
                refused = true;
                self.list(*row)?;
            }
        }
        self.record = self.record.saturating_add(1);
        Ok(refused)
    }

    /// Lists a fault of the record.
    fn list(&mut self, row: Row) -> Result<(), AllocError> {
        let key = Key {
            class: self.class,
            entry: self.entry,
            phase: self.phase,
            record: self.record,
            number: row.number,
        };
        let fault = Fault {
            number: row.number,
            image: u16::try_from(self.entry).unwrap_or(u16::MAX),
            place: row.place,
        };
        let error = match row.length {
            None => MapError::Fault(fault),
            Some(length) => MapError::Cycle { fault, length },
        };
        self.listed.push((key, error))?;
        Ok(())
    }

    /// The error with the least key.
    pub fn least(&self) -> Option<MapError> {
        let mut least: Option<(Key, MapError)> = None;
        for keyed in &self.listed {
            let is_less = match least {
                None => true,
                Some((key, _)) => keyed.0 < key,
            };
            if is_less {
                least = Some(*keyed);
            }
        }
        least.map(|keyed| keyed.1)
    }
}
