//! Why a case has no other answer.
use ev_infer::InferFault;
use ev_parse::ParseFault;
use ev_syntax::LexFault;
use ev_terms::NoMemory;
use ev_wd::WdFault;
use std::alloc::{AllocError, AllocFailed};

/// Why a case has no other answer.
#[derive(Debug, Clone, Copy, PartialEq, Eq, Drop)]
pub enum Refusal {
    /// The case is none of this program.
    Case,
    /// The text is no formula.
    Text,
    TooLarge,
    NoMemory,
}

impl Refusal {
    pub fn word(&self) -> &'static str {
        match self {
            Refusal::Case => "no case",
            Refusal::Text => "no formula",
            Refusal::TooLarge => "too large",
            Refusal::NoMemory => "no memory",
        }
    }
}

impl From<NoMemory> for Refusal {
    fn from(_error: NoMemory) -> Refusal {
        Refusal::NoMemory
    }
}

impl From<AllocError> for Refusal {
    fn from(_error: AllocError) -> Refusal {
        Refusal::NoMemory
    }
}

impl<T: Drop> From<AllocFailed<T>> for Refusal {
    fn from(_error: AllocFailed<T>) -> Refusal {
        Refusal::NoMemory
    }
}

impl From<LexFault> for Refusal {
    fn from(fault: LexFault) -> Refusal {
        match fault {
            LexFault::NoMemory => Refusal::NoMemory,
            _ => Refusal::Text,
        }
    }
}

impl From<ParseFault> for Refusal {
    fn from(fault: ParseFault) -> Refusal {
        match fault {
            ParseFault::NoMemory => Refusal::NoMemory,
            _ => Refusal::Text,
        }
    }
}

impl From<InferFault> for Refusal {
    fn from(fault: InferFault) -> Refusal {
        match fault {
            InferFault::NoMemory => Refusal::NoMemory,
            _ => Refusal::Text,
        }
    }
}

impl From<WdFault> for Refusal {
    fn from(fault: WdFault) -> Refusal {
        match fault {
            WdFault::TooLarge => Refusal::TooLarge,
            WdFault::NoMemory => Refusal::NoMemory,
        }
    }
}
