//! What a proof may cite.
ghost use Rattle.std.specs.Prelude.{◌≡◌};
ghost use Rattle.ev_replay.specs.Scopes.{IsScope};

use ev_rules::Element;
use ev_terms::{ListOf, Name, Names, Shared};
use ev_typing::Env;
use std::marker::Model;

/// An element of a scope with the name of its theory.
#[derive(Drop)]
pub struct CiteElement {
    pub theory: Name,
    pub element: Shared<Element>,
}

pub type CiteElements = ListOf<CiteElement>;

/// The parts of a scope: the environment, the names of the theory's type parameters so far, and all elements in order, the sequent's own
/// last.
#[derive(Drop)]
pub struct Scope {
    pub env: Env,
    pub params: Names,
    pub elements: CiteElements,
}

/// The scope of a sequent, in which its proof is read. Contracts see its parts. The labels of all elements but the last may be cited.
#[derive(Drop)]
pub struct CiteScope {
    parts: Scope,
}

impl Model for CiteScope {
    ghost use Rattle.ev_replay.specs.declared.scopes.Scope.{Scope};
    ghost use Rattle.ev_replay.specs.contracts.scopes.Scope as scope;
    ghost use Rattle.ev_replay.specs.Scopes.{IsScope};

    ghost Value = { Scope };

    ghost coded = { scope.the_row.coded };

    ghost view = { λ s. s.parts };

    ghost invariant = { λ s. IsScope s.parts };
}

impl CiteScope {
    /// A scope of these parts: the environment is that of the elements, whose formulas are typed over it and within the limits of
    /// formulas.
    pub fn new(env: Env, params: Names, elements: CiteElements) -> CiteScope
        requires { IsScope (record { env = env; params = params; elements = elements }) }
        ensures { result ≡ record { env = env; params = params; elements = elements } }
    {
        CiteScope {
            parts: Scope {
                env,
                params,
                elements,
            },
        }
    }

    /// The environment.
    pub fn env(&self) -> &Env
        ensures is { result.now ≡ self.now.env }
        ensures scope { IsScope self.now }
    {
        &self.parts.env
    }

    /// The names of the theory's type parameters so far.
    pub fn params(&self) -> &Names
        ensures { result.now ≡ self.now.params }
    {
        &self.parts.params
    }

    /// All elements in order.
    pub fn elements(&self) -> &CiteElements
        ensures { result.now ≡ self.now.elements }
    {
        &self.parts.elements
    }
}
