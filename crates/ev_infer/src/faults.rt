//! Why a formula has no annotation to give.
use ev_terms::NoMemory;
use thiserror::Error;

/// Why there is no annotation to give. Where several hold, the first is answered.
#[derive(Debug, Clone, Copy, PartialEq, Eq, Drop, Error)]
pub enum InferFault {
    /// A name is not in scope.
    #[error("a name is not in scope")]
    Unknown,
    /// A binder has a formula name.
    #[error("a bound name is taken")]
    Taken,
    /// No annotation exists.
    #[error("ill typed")]
    IllTyped,
    /// Two annotations exist.
    #[error("ambiguous")]
    Ambiguous,
    /// The only annotation has a size or a depth above the limit.
    #[error("too large")]
    TooLarge,
    #[error("out of memory")]
    NoMemory,
}

impl From<NoMemory> for InferFault {
    ghost use Rattle.std.specs.Prelude.{◌≡◌};
    ghost use Rattle.ev_infer.specs.declared.faults.InferFault.TheVariants.{NoMemory as OutOfMemory};

    ghost from_gives = { λ _ e. e ≡ OutOfMemory };

    fn from(_error: NoMemory) -> InferFault {
        InferFault::NoMemory
    }
}
