//! Why a condition was not made.
use ev_terms::NoMemory;
use thiserror::Error;

/// Why a condition was not made.
#[derive(Debug, Clone, Copy, PartialEq, Eq, Drop, Error)]
pub enum WdFault {
    #[error("the condition is larger than a formula may be")]
    TooLarge,
    #[error("out of memory")]
    NoMemory,
}

impl From<NoMemory> for WdFault {
    ghost use Rattle.std.specs.Prelude.{◌≡◌};
    ghost use Rattle.ev_wd.specs.declared.faults.WdFault.TheVariants.{NoMemory as OutOfMemory};

    ghost from_gives = { λ _ e. e ≡ OutOfMemory };

    fn from(_error: NoMemory) -> WdFault {
        WdFault::NoMemory
    }
}
