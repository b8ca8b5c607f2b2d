ghost use Rattle.std.specs.Prelude.{◌≡◌, []};
ghost use Rattle.ev_kernel.specs.Derivable.{IsDerivation};

use crate::case::Case;
use crate::premises::premise;
use ev_congruence::{Derivation, Equation, symmetry};
use ev_terms::NoMemory;
use ev_typing::{Env, Sequent};
use std::alloc::Global;

/// The equation with its sides exchanged.
fn exchanged(
    alloc: Global,
    env: &Env,
    lines: &mut Derivation,
    at: &Sequent,
    sides: &Equation,
) -> Result<Option<u128>, NoMemory>
    requires { IsDerivation env.now lines.old }
{
    match premise(alloc, env, lines, at, sides)? {
        Some(number) => Ok(Some(symmetry(alloc, env, lines, at, sides, number)?)),
        None => Ok(None),
    }
}

/// The number of the line by `symmetry`.
pub fn by_equations(
    alloc: Global,
    call: &str,
    case: &Case,
    lines: &mut Derivation,
) -> Result<Option<u128>, NoMemory>
    requires { lines.old ≡ [] }
{
    let env = Env::new(alloc);
    let at = &case.at;
    match (call, case.equations.as_slice()) {
        ("symmetry", [sides]) => exchanged(alloc, &env, lines, at, sides),
        _ => Ok(None),
    }
}
