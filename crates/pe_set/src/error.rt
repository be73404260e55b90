//! `MapError`: why a set is refused: a fault, a cycle of forwarders and its length, or out of memory.

ghost use Rattle.std.specs.Prelude.{◌≡◌};

use pe_tables::TableError;
use pe_view::{Fault, Place};
use std::alloc::{AllocError, AllocFailed};

/// Why a set of images is not accepted, or not mapped.
#[derive(Clone, Copy, Debug, PartialEq, Eq)]
pub enum MapError {
    /// The first fault of the set, which is not 50.
    Fault(Fault),
    /// The first fault of the set is 50: the search for an import runs in a cycle of forwarders.
    Cycle {
        /// The fault, at the slot of the import.
        fault: Fault,
        /// How long the cycle is: the least number of hops, above 0, after which the search is at the same key of the same image
        /// again.
        length: u32,
    },
    /// Out of memory.
    Memory,
}

impl From<AllocError> for MapError {
    ghost use Rattle.pe_set.specs.declared.error.MapError.TheVariants.{Memory};

    ghost from_gives = { λ _ error. error ≡ Memory };

    fn from(_error: AllocError) -> MapError {
        MapError::Memory
    }
}

impl<T: Drop> From<AllocFailed<T>> for MapError {
    ghost use Rattle.pe_set.specs.declared.error.MapError.TheVariants.{Memory};

    ghost from_gives = { λ _ error. error ≡ Memory };

    fn from(_error: AllocFailed<T>) -> MapError {
        MapError::Memory
    }
}

impl From<TableError> for MapError {
    ghost use Rattle.pe_set.specs.SetFaults.{map_error};

    ghost from_gives = { λ error mapped. mapped ≡ map_error error };

    fn from(error: TableError) -> MapError {
        match error {
            TableError::Fault(fault) => MapError::Fault(fault),
            TableError::Memory => MapError::Memory,
        }
    }
}

/// The error of a fault of image `image` at a place.
pub(crate) fn fault(number: u16, image: u16, place: Place) -> MapError
    ensures { result ≡ MapError.Fault (record { number = number; image = image; place = place }) }
{
    MapError::Fault(Fault {
        number,
        image,
        place,
    })
}
