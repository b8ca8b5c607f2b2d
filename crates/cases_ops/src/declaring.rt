//! `declare NAME, PARAMETERS, TYPES, TYPE, TERM`: a direct operator, whose type parameter, where it has one, is the type of its first
//! argument. It is declared for the lines that follow, where it may be: `true` or `false`.
ghost use Rattle.std.specs.Prelude.{◌≡◌, ◌<◌, ◌≤◌, ◌^◌, ℕ, true, None, length, IfOk};
ghost use Rattle.ev_terms.specs.declared.types.Ty.{Param};
ghost use Rattle.ev_terms.specs.Types.{type_list};
ghost use Rattle.ev_terms.specs.Measures.{type_params, types_params, params, depth};
ghost use Rattle.ev_typing.specs.declared.typing.Entry.TheVariants.{Direct};
ghost use Rattle.ev_typing.specs.Env.{declaring};
ghost use Rattle.ev_typing.specs.Occurs.{have_param};
ghost use Rattle.ev_typing.specs.Proper.{IsResult};
ghost use Rattle.ev_typing.specs.Typing.{AreProper};
ghost use Rattle.ev_typing.specs.WellFormed.{IsGoodEntry, IsGoodSignature, IsGoodTerm, IsParamOf};

use crate::reading::{fields_of, read_signature};
use cases_notation::fault::Fault;
use cases_notation::reading::read_tree;
use cases_notation::text::Text;
use ev_terms::{Name, NoMemory, Same, Tree, Ty, Tys, bounds_of, type_params, types_params};
use ev_typing::{Entry, Env, Signature, are_proper, is_proper, type_of};
use std::alloc::Global;

fn is_new(env: &Env, name: &Name) -> bool
    ensures { result ≡ true → declaring env.now name.now ≡ None }
{
    match env.symbol(name) {
        Some(_) => false,
        None => true,
    }
}

/// Whether there are no more types than a line has.
#[tactic(auto, using(crate::proofs::Operators::short_step, crate::proofs::Operators::short_end))]
fn is_short(types: &Tys) -> bool
    ensures { result ≡ true → length (type_list types.now) < 2 ^ 30 }
{
    let mut room: u32 = 1000;
    let mut left = types;
    while let Tys::More(_, rest) = left {
        if room == 0 {
            return false;
        }
        room -= 1;
        left = rest.get();
    }
    true
}

#[tactic(auto, using(crate::proofs::Operators::proper_result))]
fn is_result(env: &Env, ty: &Ty) -> bool
    ensures { result ≡ true → IsResult env.now ty.now }
{
    match ty {
        Ty::Prop => true,
        _ => is_proper(env, ty),
    }
}

fn is_first_param(ty: &Ty) -> bool
    ensures { result ≡ true → ty.now ≡ Param 0 }
{
    match ty {
        Ty::Param(i) => *i == 0,
        _ => false,
    }
}

#[tactic(auto, using(crate::proofs::Operators::first_used))]
fn begin_with_param(types: &Tys) -> bool
    ensures { result ≡ true → have_param 0 types.now ≡ true }
{
    match types {
        Tys::More(ty, _) => is_first_param(ty.get()),
        Tys::Empty => false,
    }
}

#[tactic(auto, using(crate::proofs::Operators::none_unused, crate::proofs::Operators::one_used))]
fn uses_params(signature: &Signature) -> bool
    ensures { result ≡ true → (j : ℕ) → j < signature.now.params → IsParamOf signature.now j }
{
    if signature.params == 0 {
        return true;
    }
    signature.params == 1 && begin_with_param(&signature.args)
}

fn has_own_params(signature: &Signature) -> bool
    ensures { result ≡ true → (types_params signature.now.args ≤ signature.now.params) × (type_params signature.now.result ≤ signature.now.params) }
{
    let params = u64::from(signature.params);
    types_params(&signature.args) <= params && type_params(&signature.result) <= params
}

fn has_good_params(signature: &Signature) -> bool
    ensures { result ≡ true → (types_params signature.now.args ≤ signature.now.params) × ((type_params signature.now.result ≤ signature.now.params) × ((j : ℕ) → j < signature.now.params → IsParamOf signature.now j)) }
{
    if !has_own_params(signature) {
        return false;
    }
    uses_params(signature)
}

fn has_good_types(env: &Env, signature: &Signature) -> bool
    ensures { result ≡ true → (length (type_list signature.now.args) < 2 ^ 30) × (AreProper env.now signature.now.args × IsResult env.now signature.now.result) }
{
    is_short(&signature.args)
        && are_proper(env, &signature.args)
        && is_result(env, &signature.result)
}

#[tactic(auto, using(crate::proofs::Operators::good_signature))]
fn is_good_signature(env: &Env, signature: &Signature) -> bool
    ensures { result ≡ true → IsGoodSignature env.now signature.now }
{
    has_good_types(env, signature) && has_good_params(signature)
}

fn is_bounded(signature: &Signature, body: &Tree) -> bool
    ensures { result ≡ true → (params body.now ≤ signature.now.params) × (depth body.now < 2 ^ 29) }
{
    let bounds = bounds_of(body);
    bounds.params <= u64::from(signature.params) && bounds.depth < 1000
}

#[tactic(auto, using(crate::proofs::Operators::good_body))]
fn is_good_body(
    alloc: Global,
    env: &Env,
    signature: &Signature,
    body: &Tree,
) -> Result<bool, NoMemory>
    ensures { IfOk result (λ b. b ≡ true → IsGoodTerm env.now signature.now.params (type_list signature.now.args) signature.now.result body.now) }
{
    let Some(ty) = type_of(alloc, env, &signature.args, body)? else {
        return Ok(false);
    };
    Ok(ty.same(&signature.result) && is_bounded(signature, body))
}

#[tactic(auto, using(crate::proofs::Operators::good_entry))]
fn is_good(alloc: Global, env: &Env, signature: &Signature, body: &Tree) -> Result<bool, NoMemory>
    ensures { IfOk result (λ b. b ≡ true → IsGoodEntry env.now (Direct signature.now None body.now)) }
{
    if !is_good_signature(env, signature) {
        return Ok(false);
    }
    is_good_body(alloc, env, signature, body)
}

#[tactic(auto, using(crate::proofs::Operators::new_operator))]
fn declare(
    alloc: Global,
    env: &mut Env,
    signature: Signature,
    body: Tree,
) -> Result<bool, NoMemory> {
    if !is_new(env, &signature.name) {
        return Ok(false);
    }
    if !is_good(alloc, env, &signature, &body)? {
        return Ok(false);
    }
    env.add(alloc, Entry::Direct(signature, None, body))?;
    Ok(true)
}

/// Declares what the line says, and answers whether it could.
pub fn answer(alloc: Global, out: &mut Text, env: &mut Env, rest: &str) -> Result<(), Fault> {
    let fields = fields_of(alloc, rest)?;
    let [name, params, args, gives, body] = fields.as_slice() else {
        return Err(Fault::NoCase);
    };
    let signature = read_signature(alloc, *name, *params, *args, *gives)?;
    let body = read_tree(alloc, *body)?;
    let done = declare(alloc, env, signature, body)?;
    out.word(if done { "true" } else { "false" });
    Ok(())
}
