//! Why tokens are not read.
use ev_terms::NoMemory;
use thiserror::Error;

/// Why tokens are not read: they are no formula of the sort, it nests too deeply, or memory ran out.
#[derive(Debug, Clone, Copy, PartialEq, Eq, Drop, Error)]
pub enum ParseFault {
    #[error("no formula of this sort")]
    Syntax,
    #[error("nested too deeply")]
    TooDeep,
    #[error("out of memory")]
    NoMemory,
}

impl From<NoMemory> for ParseFault {
    ghost use Rattle.std.specs.Prelude.{◌≡◌};
    ghost use Rattle.ev_syntax.specs.declared.parse_faults.ParseFault.TheVariants.{NoMemory as OutOfMemory};

    ghost from_gives = { λ _ e. e ≡ OutOfMemory };

    fn from(_error: NoMemory) -> ParseFault {
        ParseFault::NoMemory
    }
}
