//! Why a text has no tokens.
use ev_terms::NoMemory;
use thiserror::Error;

/// Why a text has no tokens.
#[derive(Debug, Clone, Copy, PartialEq, Eq, Drop, Error)]
pub enum LexFault {
    #[error("no UTF-8, or a character that begins no token")]
    BadText,
    #[error("a number above 2^127 - 1")]
    NumberTooLarge,
    #[error("out of memory")]
    NoMemory,
}

impl From<NoMemory> for LexFault {
    ghost use Rattle.std.specs.Prelude.{◌≡◌};
    ghost use Rattle.ev_syntax.specs.declared.faults.LexFault.TheVariants.{NoMemory as OutOfMemory};

    ghost from_gives = { λ _ e. e ≡ OutOfMemory };

    fn from(_error: NoMemory) -> LexFault {
        LexFault::NoMemory
    }
}
