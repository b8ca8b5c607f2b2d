ghost use Rattle.std.specs.Prelude.{◌≡◌};

use ev_terms::{ListOf, Name, NoMemory, Shared, TryCopy};
use std::alloc::Global;

/// A type in which unknowns may stand, by their numbers. `Prop` is no part of one. A copy shares everything.
#[cycle(pat)]
#[derive(Drop)]
pub enum Pat {
    Int,
    Bool,
    Param(u32),
    Pow(Shared<Pat>),
    Prod(Shared<Pat>, Shared<Pat>),
    Data(Name, Pats),
    Unknown(u128),
}

/// A list of patterns: empty, or a pattern before further ones. A copy shares everything.
#[cycle(pat)]
pub enum Pats {
    Empty,
    More(Shared<Pat>, Shared<Pats>),
}

/// A loop along the list, up to where it is shared, so that a long one does not run out of stack.
impl Drop for Pats {
    #[cycle(drop_patterns)]
    fn drop(mut self) {
        loop {
            match self {
                Pats::Empty => return,
                Pats::More(pat, rest) => {
                    if let Some(pat) = Shared::into_inner(pat) {
                        drop(pat);
                    }
                    match Shared::into_inner(rest) {
                        Some(list) => self = list,
                        None => return,
                    }
                }
            }
        }
    }
}

/// Two patterns that are to be one type.
#[derive(Drop)]
pub struct PatPair {
    pub left: Pat,
    pub right: Pat,
}

pub type PatPairs = ListOf<PatPair>;

/// What an unknown is. Bound unknowns may stand in the pattern.
#[derive(Drop)]
pub struct Bind {
    pub unknown: u128,
    pub value: Pat,
}

/// The binds of a solution, at most one for each unknown.
pub type Solution = ListOf<Bind>;

/// Why there is no solution to give.
#[derive(Debug, Clone, Copy, PartialEq, Eq, Drop)]
pub enum UnifyFault {
    /// No types for the unknowns make the two patterns of each pair equal.
    Clash,
    NoMemory,
}

impl From<NoMemory> for UnifyFault {
    ghost use Rattle.std.specs.Prelude.{◌≡◌};
    ghost use Rattle.ev_unify.specs.declared.patterns.UnifyFault.TheVariants.{NoMemory as OutOfMemory};

    ghost from_gives = { λ _ e. e ≡ OutOfMemory };

    fn from(_error: NoMemory) -> UnifyFault {
        UnifyFault::NoMemory
    }
}

impl TryCopy for Pat {
    fn try_copy(&self, alloc: Global) -> Result<Pat, NoMemory> {
        match self {
            Pat::Int => Ok(Pat::Int),
            Pat::Bool => Ok(Pat::Bool),
            Pat::Param(i) => Ok(Pat::Param(*i)),
            Pat::Pow(a) => Ok(Pat::Pow(a.share()?)),
            Pat::Prod(a, b) => {
                let a = a.share()?;
                let b = b.share()?;
                Ok(Pat::Prod(a, b))
            }
            Pat::Data(name, pats) => Ok(Pat::Data(name.try_copy(alloc)?, pats.try_copy(alloc)?)),
            Pat::Unknown(u) => Ok(Pat::Unknown(*u)),
        }
    }
}

impl TryCopy for Pats {
    fn try_copy(&self, _alloc: Global) -> Result<Pats, NoMemory> {
        match self {
            Pats::Empty => Ok(Pats::Empty),
            Pats::More(a, rest) => {
                let a = a.share()?;
                let rest = rest.share()?;
                Ok(Pats::More(a, rest))
            }
        }
    }
}
