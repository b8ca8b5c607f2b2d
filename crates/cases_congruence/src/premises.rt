ghost use Rattle.std.specs.Prelude.{◌≡◌, ◌++◌, ◌∷◌, [], Some, IfOk, IfSome};
ghost use Rattle.ev_terms.specs.Types.{type_list};
ghost use Rattle.ev_forms.specs.Forms.{equation};
ghost use Rattle.ev_typing.specs.Sequents.{◌⊢◌};
ghost use Rattle.ev_kernel.specs.Derivable.{IsDerivation};
ghost use Rattle.ev_congruence.specs.Growing.{concluded, Extends};
ghost use Rattle.ev_congruence.specs.Equating.{AreEquatedAt};

use ev_congruence::{Derivation, Equation, equated_beside, from_none};
use ev_kernel::{BaseRule, concludes};
use ev_terms::{NoMemory, Nums, Trees, TryCopy, Tys};
use ev_typing::{Env, Sequent, is_base_sequent};
use std::alloc::Global;

/// Terms on two sides, their types, and the lines that equate them.
#[derive(Drop)]
pub struct Premises {
    pub types: Tys,
    pub left: Trees,
    pub right: Trees,
    pub numbers: Nums,
}

/// The number of a line by `Hyp` that equates the terms; none where their equation is no hypothesis, or not typed.
pub fn premise(
    alloc: Global,
    env: &Env,
    lines: &mut Derivation,
    at: &Sequent,
    sides: &Equation,
) -> Result<Option<u128>, NoMemory>
    requires { IsDerivation env.now lines.old }
    ensures found { IfOk result (λ o. IfSome o (λ n. concluded lines.new n ≡ Some (at.now ⊢ equation sides.now.ty sides.now.left sides.now.right))) }
    ensures extends { Extends env.now lines.old lines.new }
{
    let sequent = equated_beside(alloc, at, &sides.ty, &sides.left, &sides.right)?;
    if !is_base_sequent(alloc, env, &sequent)? {
        return Ok(None);
    }
    if !concludes(alloc, env, &BaseRule::Hyp, &sequent)? {
        return Ok(None);
    }
    let number = from_none(alloc, env, lines, sequent, BaseRule::Hyp)?;
    Ok(Some(number))
}

/// The same terms and one more on each side.
fn with_sides(
    alloc: Global,
    premises: Premises,
    sides: &Equation,
    number: u128,
) -> Result<Premises, NoMemory>
    ensures types { IfOk result (λ p. type_list p.types ≡ type_list premises.types ++ sides.now.ty ∷ []) }
    ensures left { IfOk result (λ p. p.left ≡ premises.left ++ sides.now.left ∷ []) }
    ensures right { IfOk result (λ p. p.right ≡ premises.right ++ sides.now.right ∷ []) }
    ensures numbers { IfOk result (λ p. p.numbers ≡ premises.numbers ++ number ∷ []) }
{
    let Premises {
        mut types,
        mut left,
        mut right,
        mut numbers,
    } = premises;
    types.push(alloc, sides.ty.try_copy(alloc)?)?;
    left.push(alloc, sides.left.try_copy(alloc)?)?;
    right.push(alloc, sides.right.try_copy(alloc)?)?;
    numbers.push(alloc, number)?;
    Ok(Premises {
        types,
        left,
        right,
        numbers,
    })
}

/// More premises, one for each of the equations.
fn with_all(
    alloc: Global,
    env: &Env,
    lines: &mut Derivation,
    at: &Sequent,
    premises: Premises,
    equations: &[Equation],
) -> Result<Option<Premises>, NoMemory>
    requires derivation { IsDerivation env.now lines.old }
    requires equated { AreEquatedAt lines.old at.now (type_list premises.types) premises.left premises.right premises.numbers }
    ensures found { IfOk result (λ o. IfSome o (λ p. AreEquatedAt lines.new at.now (type_list p.types) p.left p.right p.numbers)) }
    ensures extends { Extends env.now lines.old lines.new }
{
    match equations {
        [] => Ok(Some(premises)),
        [first, rest @ ..] => match premise(alloc, env, lines, at, first)? {
            Some(number) => {
                let more = with_sides(alloc, premises, first, number)?;
                with_all(alloc, env, lines, at, more, rest)
            }
            None => Ok(None),
        },
    }
}

/// The premises for the equations: terms, and lines by `Hyp` that equate them.
pub fn premises_of(
    alloc: Global,
    env: &Env,
    lines: &mut Derivation,
    at: &Sequent,
    equations: &[Equation],
) -> Result<Option<Premises>, NoMemory>
    requires { IsDerivation env.now lines.old }
    ensures found { IfOk result (λ o. IfSome o (λ p. AreEquatedAt lines.new at.now (type_list p.types) p.left p.right p.numbers)) }
    ensures extends { Extends env.now lines.old lines.new }
{
    let none = Premises {
        types: Tys::new(alloc),
        left: Trees::new(alloc),
        right: Trees::new(alloc),
        numbers: Nums::new(alloc),
    };
    with_all(alloc, env, lines, at, none, equations)
}
