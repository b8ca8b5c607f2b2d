//! Why a case has no other answer.
use ev_infer::InferFault;
use ev_syntax::{LexFault, ParseFault};
use ev_terms::NoMemory;
use std::alloc::{AllocError, AllocFailed};

/// Why a case has no other answer.
#[derive(Debug, Clone, Copy, PartialEq, Eq, Drop)]
pub enum Refusal {
    /// The case is none of this program.
    Case,
    Text,
    Syntax,
    Deep,
    /// A name has no meaning, or stands with another number of arguments.
    NoTerm,
    Unknown,
    Taken,
    IllTyped,
    Ambiguous,
    TooLarge,
    NoMemory,
}

impl Refusal {
    pub fn word(&self) -> &'static str {
        match self {
            Refusal::Case => "no case",
            Refusal::Text => "text",
            Refusal::Syntax => "syntax",
            Refusal::Deep => "deep",
            Refusal::NoTerm => "no term",
            Refusal::Unknown => "unknown",
            Refusal::Taken => "taken",
            Refusal::IllTyped => "ill-typed",
            Refusal::Ambiguous => "ambiguous",
            Refusal::TooLarge => "too-large",
            Refusal::NoMemory => "no memory",
        }
    }
}

impl From<NoMemory> for Refusal {
    fn from(_error: NoMemory) -> Refusal {
        Refusal::NoMemory
    }
}

impl From<AllocError> for Refusal {
    fn from(_error: AllocError) -> Refusal {
        Refusal::NoMemory
    }
}

impl<T: Drop> From<AllocFailed<T>> for Refusal {
    fn from(_error: AllocFailed<T>) -> Refusal {
        Refusal::NoMemory
    }
}

impl From<LexFault> for Refusal {
    fn from(fault: LexFault) -> Refusal {
        match fault {
            LexFault::BadText | LexFault::NumberTooLarge => Refusal::Text,
            LexFault::NoMemory => Refusal::NoMemory,
        }
    }
}

impl From<ParseFault> for Refusal {
    fn from(fault: ParseFault) -> Refusal {
        match fault {
            ParseFault::Syntax => Refusal::Syntax,
            ParseFault::TooDeep => Refusal::Deep,
            ParseFault::NoMemory => Refusal::NoMemory,
        }
    }
}

impl From<InferFault> for Refusal {
    fn from(fault: InferFault) -> Refusal {
        match fault {
            InferFault::Unknown => Refusal::Unknown,
            InferFault::Taken => Refusal::Taken,
            InferFault::IllTyped => Refusal::IllTyped,
            InferFault::Ambiguous => Refusal::Ambiguous,
            InferFault::TooLarge => Refusal::TooLarge,
            InferFault::NoMemory => Refusal::NoMemory,
        }
    }
}
