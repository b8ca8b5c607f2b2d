//! Elaboration of theories.
ghost use Rattle.std.specs.Prelude.{◌≡◌, ◌≤◌, ◌<◌, ◌^◌, ℕ, List, Err, length, IfOk};
ghost use Rattle.ev_theory_text.specs.Theories.{IsTheory as IsTheoryText};
ghost use Rattle.ev_elab.specs.States.{scope_env_of};
ghost use Rattle.ev_elab.specs.Scopes.{IsScope};
ghost use Rattle.ev_elab.specs.Elaborated.{IsTheory, IsFaulty, IsSoundTheory};
ghost use Rattle.ev_elab.specs.declared.faults.ElabFault.TheVariants as fault;
ghost use Rattle.ev_elab.specs.declared.theories.Kind.{Kind};

use crate::faults::ElabFault;
use crate::theories::{Scope, Theory};
use ev_terms::NoMemory;
use ev_theory_text::RawElements;
use ev_typing::Env;
use std::alloc::Global;

/// The elements of a theory with their formulas, and their obligations, or its first fault. Source: Butler and Maamria, Practical Theory
/// Extension in Event-B, in outline; the faults and their order are this project's own.
pub fn elaborate(
    _alloc: Global,
    _scope: &Scope,
    _elements: &RawElements,
) -> Result<Theory, ElabFault>
    requires text { (body : List ℕ) × (length body < 2 ^ 32) × IsTheoryText body _elements.now }
    requires scope { IsScope _scope.now _elements.now }
    ensures ok { IfOk result (IsTheory _scope.now _elements.now) }
    ensures sound { IfOk result (IsSoundTheory _scope.now) }
    ensures faulty { (n : ℕ) (k : Kind) → result ≡ Err (fault.Faulty n k) → IsFaulty _scope.now _elements.now n k }
{
    Err(ElabFault::NoMemory)
}

/// The environment of the scope and of the first elements of an elaborated theory, as many as are asked. Linear in the elements of the
/// scope and in these.
pub fn scope_env(
    _alloc: Global,
    _scope: &Scope,
    _theory: &Theory,
    _count: u32,
) -> Result<Env, NoMemory>
    requires elaborated { IsSoundTheory _scope.now _theory.now }
    requires few { _count ≤ length _theory.now.elements }
    ensures { IfOk result (λ env. env ≡ scope_env_of _scope.now _theory.now _count) }
{
    Err(NoMemory)
}
