//! `Refusal`: the error of calls that allocate, a fault or out of memory.

ghost use Rattle.std.specs.Prelude.{◌≡◌};

use crate::fault::Fault;
use std::alloc::{AllocError, AllocFailed};

/// Why a call that allocates returns no value.
#[derive(Clone, Copy, Debug, PartialEq, Eq)]
pub enum Refusal {
    /// A rule of the format is broken; this is the first fault.
    Fault(Fault),
    /// An allocation failed.
    Memory,
}

impl From<Fault> for Refusal {
    ghost use Rattle.pe_view.specs.declared.refusal.Refusal.TheVariants as refusals;

    ghost from_gives = { λ fault refusal. refusal ≡ refusals.Fault fault };

    fn from(fault: Fault) -> Refusal {
        Refusal::Fault(fault)
    }
}

impl From<AllocError> for Refusal {
    ghost use Rattle.pe_view.specs.declared.refusal.Refusal.TheVariants.{Memory};

    ghost from_gives = { λ _ refusal. refusal ≡ Memory };

    fn from(_error: AllocError) -> Refusal {
        Refusal::Memory
    }
}

impl<T: Drop> From<AllocFailed<T>> for Refusal {
    ghost use Rattle.pe_view.specs.declared.refusal.Refusal.TheVariants.{Memory};

    ghost from_gives = { λ _ refusal. refusal ≡ Memory };

    fn from(_error: AllocFailed<T>) -> Refusal {
        Refusal::Memory
    }
}
