ghost use Rattle.std.specs.Prelude.{◌≤◌, ◌++◌, [], IfOk, IsTrue, length, ◌≡◌};
ghost use Rattle.ev_terms.specs.declared.types.Ty.{Ty as Type'};
ghost use Rattle.ev_terms.specs.Types.{type_list};
ghost use Rattle.ev_terms.specs.Term.{terms as all_of};
ghost use Rattle.ev_terms.specs.Measures.{depth, depths};
ghost use Rattle.ev_typing.specs.Typing.{Typed};
ghost use Rattle.ev_typing.specs.Occurs.{IsPlain};

use crate::case::{Case, read_case};
use crate::equations::by_equations;
use crate::premises::{Premises, premises_of};
use cases_notation::fault::Fault;
use ev_congruence::{Derivation, congruence_of};
use ev_terms::{NoMemory, Tree, TryCopy, Tys, extent, trees_extent};
use ev_typing::{Env, Sequent, is_plain, type_of};
use std::alloc::Global;

/// The greatest depth of a case's terms.
const DEPTH_LIMIT: u64 = 1_000;

/// The most types of a context, and of the body's variables.
const TYPES_LIMIT: usize = 1_000;

/// Whether there are so few types.
fn are_few(types: &Tys) -> bool
    ensures { IsTrue result → length (type_list types.now) ≤ 1000 }
{
    types.get(TYPES_LIMIT).is_none()
}

/// Whether no term is deep.
fn are_shallow(terms: &[Tree]) -> bool
    ensures { IsTrue result → depths (all_of terms.now) ≤ 1000 }
{
    trees_extent(terms).depth <= DEPTH_LIMIT
}

fn is_shallow(term: &Tree) -> bool
    ensures { IsTrue result → depth term.now ≤ 1000 }
{
    extent(term).depth <= DEPTH_LIMIT
}

/// The types of both lists.
fn appended(alloc: Global, before: Tys, types: &Tys) -> Result<Tys, NoMemory>
    ensures { IfOk result (λ all. type_list all ≡ type_list before ++ type_list types.now) }
{
    match types {
        Tys::Empty => Ok(before),
        Tys::More(ty, rest) => {
            let mut before = before;
            before.push(alloc, ty.get().try_copy(alloc)?)?;
            appended(alloc, before, rest.get())
        }
    }
}

/// Whether the body has a type in the longer context, and no direct operator occurs in it.
fn is_typed(
    alloc: Global,
    env: &Env,
    context: &Tys,
    types: &Tys,
    body: &Tree,
) -> Result<bool, NoMemory>
    ensures typed { IfOk result (λ b. IsTrue b → (A : Type') × Typed env.now (type_list context.now ++ type_list types.now) body.now A) }
    ensures plain { IfOk result (λ b. IsTrue b → IsPlain env.now body.now) }
{
    let context = appended(alloc, context.try_copy(alloc)?, types)?;
    match type_of(alloc, env, &context, body)? {
        Some(_) => Ok(is_plain(env, body)),
        None => Ok(false),
    }
}

/// The number of the line by congruence; none where the case is not such as congruence asks.
fn by_congruence(
    alloc: Global,
    case: &Case,
    lines: &mut Derivation,
) -> Result<Option<u128>, NoMemory>
    requires { lines.old ≡ [] }
{
    let env = Env::new(alloc);
    let at = &case.at;
    let equations = case.equations.as_slice();
    let Some(premises) = premises_of(alloc, &env, lines, at, equations)? else {
        return Ok(None);
    };
    let Premises {
        types,
        left,
        right,
        numbers,
    } = premises;
    if !are_few(&at.context) || !are_few(&types) || numbers.is_empty() {
        return Ok(None);
    }
    if !are_shallow(at.hyps.as_slice())
        || !are_shallow(left.as_slice())
        || !are_shallow(right.as_slice())
        || !is_shallow(&case.body)
    {
        return Ok(None);
    }
    if !is_typed(alloc, &env, &at.context, &types, &case.body)? {
        return Ok(None);
    }
    let number = congruence_of(alloc, &env, &case.body, &left, &right, &numbers, lines)?;
    Ok(Some(number))
}

/// The number of the line that the call answers; none where the fields are no case, or not such as the call asks.
pub fn derive(alloc: Global, fields: &[&str], lines: &mut Derivation) -> Result<Option<u128>, Fault>
    requires { lines.old ≡ [] }
{
    match fields {
        [call, context, equations, body] => if call.trim() == "congruence_of" {
            let case = read_case(alloc, *context, *equations, *body)?;
            Ok(by_congruence(alloc, &case, lines)?)
        } else {
            Ok(None)
        },
        [call, context, equations] => {
            let case = read_case(alloc, *context, *equations, "true")?;
            Ok(by_equations(alloc, call.trim(), &case, lines)?)
        }
        _ => Ok(None),
    }
}
