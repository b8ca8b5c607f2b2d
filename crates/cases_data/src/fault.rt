//! Why a case has no answer.
use ev_axioms::AxiomFault;
use ev_terms::NoMemory;
use std::alloc::AllocError;

#[derive(Debug, Clone, Copy, PartialEq, Eq, Drop)]
pub enum Fault {
    NoMemory,
    NoCase,
}

impl From<NoMemory> for Fault {
    fn from(_error: NoMemory) -> Fault {
        Fault::NoMemory
    }
}

impl From<AllocError> for Fault {
    fn from(_error: AllocError) -> Fault {
        Fault::NoMemory
    }
}

impl From<AxiomFault> for Fault {
    fn from(error: AxiomFault) -> Fault {
        match error {
            AxiomFault::NoMemory => Fault::NoMemory,
            AxiomFault::NoSuch => Fault::NoCase,
        }
    }
}
