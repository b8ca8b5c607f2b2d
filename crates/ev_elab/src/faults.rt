//! Why a theory was not elaborated.
use crate::theories::Kind;
use ev_terms::NoMemory;
use thiserror::Error;

/// Why a theory was not elaborated: its first faulty element, by its number from 1, and the kind of its fault.
#[derive(Debug, Clone, Copy, PartialEq, Eq, Drop, Error)]
pub enum ElabFault {
    #[error("element {0} is faulty")]
    Faulty(u32, Kind),
    #[error("out of memory")]
    NoMemory,
}

impl From<NoMemory> for ElabFault {
    ghost use Rattle.std.specs.Prelude.{◌≡◌};
    ghost use Rattle.ev_elab.specs.declared.faults.ElabFault.TheVariants.{NoMemory as OutOfMemory};

    ghost from_gives = { λ _ e. e ≡ OutOfMemory };

    fn from(_error: NoMemory) -> ElabFault {
        ElabFault::NoMemory
    }
}
