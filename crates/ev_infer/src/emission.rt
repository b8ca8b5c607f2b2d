//! The walk that emits the type equations of a term.
ghost use Rattle.std.specs.Prelude.{◌≡◌, ◌+◌, ◌<◌, ◌^◌, Some, None, reverse, length, slice_get, option_map, IfOk, OnOk};
ghost use Rattle.std.specs.Option.{option_copied};
ghost use Rattle.ev_unify.specs.declared.patterns.Pat.{Pat};
ghost use Rattle.ev_resolve.specs.Bare.{bare_var, bare_lit, bare_node, bare_of};
ghost use Rattle.ev_resolve.specs.inner.BareView.{bares};
ghost use Rattle.ev_infer.specs.Equations.{emit, emit_all, under};
ghost use Rattle.ev_infer.specs.inner.Walks.{pats, walk_of, all_walk_of, walk_told, all_walk_told, child_walk};

use crate::patterns::{meet, node_types, same_pattern, sort_of};
use crate::sorts::{Sort, Walked};
use ev_resolve::{Bare, BareForm};
use ev_terms::{NoMemory, Sym, TryCopy, Ty, binds};
use ev_typing::{Env, is_proper, types_of_symbol};
use ev_unify::{Pat, PatPairs};
use std::alloc::Global;

/// Emits the pairs of a bare term in a context, whose first pattern is that of the outermost variable, the unknowns numbered from one
/// on. None where a sort, a number of arguments or a written type does not fit. Linear in the term and its signatures.
#[cycle(emit)]
#[tactic(auto, using(crate::proofs::EmissionSteps::walk))]
pub(crate) fn emit(
    alloc: Global,
    env: &Env,
    bare: &Bare,
    context: &mut Vec<Pat>,
    next: u128,
    pairs: &mut PatPairs,
) -> Result<Option<Walked>, NoMemory>
    ensures told { IfOk result (λ o. option_map (walk_told pairs.new) o ≡ option_map (walk_of pairs.old) (emit env.now bare.now context.old.items next)) }
    ensures kept { OnOk result (context.new.items ≡ context.old.items) }
{
    match bare.form() {
        BareForm::Var(i) => emit_variable(alloc, env, context.as_slice(), *i, next, pairs),
        BareForm::Lit(n) => Ok(emit_literal(env, context.as_slice(), *n, next, pairs)),
        BareForm::Node(sym, written, children) => emit_node(
            alloc,
            env,
            sym,
            written,
            children.as_slice(),
            context,
            next,
            pairs,
        ),
        BareForm::Of(bare, ty) => emit_typed(alloc, env, &**bare, ty, context, next, pairs),
    }
}

#[tactic(auto, using(crate::proofs::EmissionSteps::leaves))]
fn emit_variable(
    alloc: Global,
    _env: &Env,
    context: &[Pat],
    i: usize,
    next: u128,
    _pairs: &PatPairs,
) -> Result<Option<Walked>, NoMemory>
    ensures { IfOk result (λ o. option_map (walk_told _pairs.now) o ≡ option_map (walk_of _pairs.now) (emit _env.now (bare_var i) context.now next)) }
{
    match variable_pattern(context, i) {
        Some(pat) => Ok(Some(Walked {
            next,
            sort: Sort::Expression(pat.try_copy(alloc)?),
        })),
        None => Ok(None),
    }
}

#[tactic(auto, using(crate::proofs::EmissionSteps::variables))]
fn variable_pattern(context: &[Pat], i: usize) -> Option<&Pat>
    ensures { option_copied result ≡ slice_get (reverse context.now) i }
{
    if i < context.len() {
        Some(&context[context.len() - 1 - i])
    } else {
        None
    }
}

#[tactic(auto, using(crate::proofs::EmissionSteps::leaves))]
fn emit_literal(
    _env: &Env,
    _context: &[Pat],
    n: u128,
    next: u128,
    _pairs: &PatPairs,
) -> Option<Walked>
    ensures { option_map (walk_told _pairs.now) result ≡ option_map (walk_of _pairs.now) (emit _env.now (bare_lit n) _context.now next) }
{
    if n < 1 << 127 {
        Some(Walked {
            next,
            sort: Sort::Expression(Pat::Int),
        })
    } else {
        None
    }
}

#[cycle(emit)]
#[tactic(auto, using(crate::proofs::EmissionSteps::walk))]
fn emit_typed(
    alloc: Global,
    env: &Env,
    bare: &Bare,
    ty: &Ty,
    context: &mut Vec<Pat>,
    next: u128,
    pairs: &mut PatPairs,
) -> Result<Option<Walked>, NoMemory>
    ensures told { IfOk result (λ o. option_map (walk_told pairs.new) o ≡ option_map (walk_of pairs.old) (emit env.now (bare_of bare.now ty.now) context.old.items next)) }
    ensures kept { OnOk result (context.new.items ≡ context.old.items) }
{
    if !is_proper(env, ty) {
        return Ok(None);
    }
    let Some(walked) = emit(alloc, env, bare, context, next, pairs)? else {
        return Ok(None)
    };
    let asked = Sort::Expression(same_pattern(alloc, ty)?);
    if !meet(alloc, pairs, &walked.sort, &asked)? {
        return Ok(None);
    }
    Ok(Some(walked))
}

#[cycle(emit)]
#[tactic(auto, using(crate::proofs::EmissionSteps::walk))]
fn emit_node(
    alloc: Global,
    env: &Env,
    sym: &Sym,
    written: &Option<Ty>,
    children: &[Bare],
    context: &mut Vec<Pat>,
    next: u128,
    pairs: &mut PatPairs,
) -> Result<Option<Walked>, NoMemory>
    ensures told { IfOk result (λ o. option_map (walk_told pairs.new) o ≡ option_map (walk_of pairs.old) (emit env.now (bare_node sym.now written.now (bares children.now)) context.old.items next)) }
    ensures kept { OnOk result (context.new.items ≡ context.old.items) }
{
    let Some(signature) = types_of_symbol(alloc, env, sym)? else {
        return Ok(None)
    };
    let Some(own) = node_types(alloc, env, written, signature.params, next)? else {
        return Ok(None)
    };
    let types = own.types.as_slice();
    let args = signature.args.as_slice();
    let walked = emit_inside(
        alloc, env, sym, children, args, types, context, own.next, pairs,
    )?;
    let Some(next) = walked else { return Ok(None) };
    let sort = sort_of(alloc, types, &signature.result)?;
    Ok(Some(Walked { next, sort }))
}

/// The children of a symbol, under the variable that it may bind.
#[cycle(emit)]
#[tactic(auto, using(crate::proofs::EmissionSteps::walk))]
fn emit_inside(
    alloc: Global,
    env: &Env,
    sym: &Sym,
    children: &[Bare],
    args: &[Ty],
    types: &[Pat],
    context: &mut Vec<Pat>,
    next: u128,
    pairs: &mut PatPairs,
) -> Result<Option<u128>, NoMemory>
    ensures told { IfOk result (λ o. option_map (all_walk_told pairs.new) o
        ≡ option_map (all_walk_of pairs.old) (emit_all env.now (bares children.now) args.now (pats types.now) (under env.now context.old.items sym.now (pats types.now)) next)) }
    ensures kept { OnOk result (context.new.items ≡ context.old.items) }
{
    if binds(sym) == 0 {
        return emit_all(alloc, env, children, args, types, context, next, pairs);
    }
    match types.first() {
        None => emit_all(alloc, env, children, args, types, context, next, pairs),
        Some(pat) => {
            context.push(pat.try_copy(alloc)?)?;
            let walked = emit_all(alloc, env, children, args, types, context, next, pairs)?;
            let _bound = context.pop();
            Ok(walked)
        }
    }
}

#[cycle(emit)]
#[tactic(auto, using(crate::proofs::EmissionSteps::walk))]
fn emit_all(
    alloc: Global,
    env: &Env,
    children: &[Bare],
    args: &[Ty],
    types: &[Pat],
    context: &mut Vec<Pat>,
    next: u128,
    pairs: &mut PatPairs,
) -> Result<Option<u128>, NoMemory>
    ensures told { IfOk result (λ o. option_map (all_walk_told pairs.new) o
        ≡ option_map (all_walk_of pairs.old) (emit_all env.now (bares children.now) args.now (pats types.now) context.old.items next)) }
    ensures kept { OnOk result (context.new.items ≡ context.old.items) }
{
    if children.len() != args.len() {
        return Ok(None);
    }
    let mut unused = next;
    for i in 0..children.len() {
        let child = &children[i];
        let arg = &args[i];
        match emit_child(alloc, env, child, arg, types, context, unused, pairs)? {
            None => return Ok(None),
            Some(after) => unused = after,
        }
    }
    Ok(Some(unused))
}

/// A child at the type that the signature of its symbol has.
#[cycle(emit)]
#[tactic(auto, using(crate::proofs::EmissionSteps::walk))]
fn emit_child(
    alloc: Global,
    env: &Env,
    bare: &Bare,
    arg: &Ty,
    types: &[Pat],
    context: &mut Vec<Pat>,
    next: u128,
    pairs: &mut PatPairs,
) -> Result<Option<u128>, NoMemory>
    ensures told { IfOk result (λ o. option_map (all_walk_told pairs.new) o ≡ child_walk env.now bare.now arg.now (pats types.now) context.old.items next pairs.old) }
    ensures kept { OnOk result (context.new.items ≡ context.old.items) }
{
    let Some(walked) = emit(alloc, env, bare, context, next, pairs)? else {
        return Ok(None)
    };
    let asked = sort_of(alloc, types, arg)?;
    if !meet(alloc, pairs, &walked.sort, &asked)? {
        return Ok(None);
    }
    Ok(Some(walked.next))
}
