//! `FaultRecord`: a fault as C has it; and how a refusal is reported.

ghost use Rattle.std.specs.Prelude.{◌≡◌};
ghost use Rattle.pe_records_c.specs.Faults.{fault_record, fault_of, IsTold};

use crate::status;
use pe_view::{Fault, Place, Refusal};

/// A rule of the format that is broken: which, in which image, and where.
#[repr(C)]
#[derive(Clone, Copy)]
pub struct FaultRecord {
    /// Its number in docs/FAULTS.md: of a fault from 1 to 93, of a finding from 101 on.
    pub number: u16,
    /// What `at` counts: 0 bytes of the file, 1 bytes of the image, 2 bytes of the address space, 3 items of a list.
    pub place: u16,
    /// The index of the entry in a set; otherwise 0.
    pub image: u32,
    /// Where the rule is broken.
    pub at: u64,
}

/// A fault as C has it.
pub fn fault_record(fault: Fault) -> FaultRecord
    ensures { result ≡ fault_record fault }
{
    let (place, at) = match fault.place {
        Place::File(offset) => (0, offset),
        Place::Rva(rva) => (1, u64::from(rva)),
        Place::Address(address) => (2, address),
        Place::Item(index) => (3, u64::from(index)),
    };
    FaultRecord {
        number: fault.number,
        place,
        image: fault.image as u32,
        at,
    }
}

/// The fault of a record. A record that no call has filled is a fault too: by the lowest two bits of `place`, the lowest 16 of
/// `image`, and the lowest 32 of `at` if the place is an RVA or an item.
pub fn fault_of(told: &FaultRecord) -> Fault
    ensures { result ≡ fault_of told.now }
{
    let place = match told.place % 4 {
        0 => Place::File(told.at),
        1 => Place::Rva((told.at % (1 << 32)) as u32),
        2 => Place::Address(told.at),
        _ => Place::Item((told.at % (1 << 32)) as u32),
    };
    Fault {
        number: told.number,
        image: (told.image % (1 << 16)) as u16,
        place,
    }
}

/// Stores a fault in the caller's record, and returns the status, 1.
pub fn refuse(fault: Fault, told: &mut FaultRecord) -> u32
    ensures status { result ≡ 1 }
    ensures told { told.new ≡ fault_record fault }
{
    *told = fault_record(fault);
    status::FAULT
}

/// Stores a fault and returns 1; or, out of memory, returns 2 and leaves the record unchanged.
pub fn refuse_for(refusal: Refusal, told: &mut FaultRecord) -> u32
    ensures { IsTold refusal told.old told.new result }
{
    match refusal {
        Refusal::Fault(fault) => refuse(fault, told),
        Refusal::Memory => status::MEMORY,
    }
}
