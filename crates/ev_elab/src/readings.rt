//! The formulas of elements, read as terms.
ghost use Rattle.std.specs.Prelude.{◌≡◌, false, IfOk};
ghost use Rattle.std.specs.Option.{option_copied};
ghost use Rattle.ev_resolve.specs.UsedNames.{variable_names};
ghost use Rattle.ev_resolve.specs.TakenNames.{takes_name};
ghost use Rattle.ev_resolve.specs.inner.Unknown.{uses_unknown};
ghost use Rattle.ev_infer.specs.Answers.{variables};
ghost use Rattle.ev_elab.specs.Formulas.{formula_at};
ghost use Rattle.ev_elab.specs.inner.Flaws.{IsReading};

use ev_infer::{InferFault, infer};
use ev_syntax::Raw;
use ev_terms::{Extent, Names, NoMemory, Tree, Ty};
use ev_typing::{Env, Vars};
use std::alloc::Global;

/// What a formula is read as: its only annotation, within the limits, or why there is none to give.
#[derive(Drop)]
pub enum Reading {
    Read(Tree),
    TooLarge,
    Ambiguous,
    IllTyped,
}

/// The formula under these variables, the outermost first, at the type that is asked, where one is. No name of it is unknown, and no
/// binder is taken.
pub(crate) fn read_formula(
    alloc: Global,
    env: &Env,
    params: &Names,
    vars: &Vars,
    raw: &Raw,
    expected: Option<&Ty>,
) -> Result<Reading, NoMemory>
    requires in_scope { uses_unknown env.now params.now raw.now (variable_names (variables vars.now)) ≡ false }
    requires free { takes_name env.now params.now raw.now ≡ false }
    ensures { IfOk result (IsReading params.now (formula_at env.now vars.now (option_copied expected.entry) raw.now)) }
{
    let limit = Extent {
        size: 65536,
        depth: 512,
    };
    match infer(alloc, env, params, vars, raw, expected, &limit) {
        Ok(tree) => Ok(Reading::Read(tree)),
        Err(InferFault::IllTyped) => Ok(Reading::IllTyped),
        Err(InferFault::Ambiguous) => Ok(Reading::Ambiguous),
        Err(InferFault::TooLarge) => Ok(Reading::TooLarge),
        Err(InferFault::NoMemory) => Err(NoMemory),
        Err(InferFault::Unknown) => unreachable!(),
        Err(InferFault::Taken) => unreachable!(),
    }
}
