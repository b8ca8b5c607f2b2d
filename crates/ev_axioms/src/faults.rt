//! Why no axiom is given.
use thiserror::Error;

/// Why no axiom is given.
#[derive(Debug, Clone, Copy, PartialEq, Eq, Drop, Error)]
pub enum AxiomFault {
    #[error("no axiom has this number")]
    NoSuch,
    #[error("out of memory")]
    NoMemory,
}
