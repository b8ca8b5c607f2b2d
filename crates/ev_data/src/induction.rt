//! Induction over a datatype.
ghost use Rattle.std.specs.Prelude.{◌≡◌, ◌<◌, ◌^◌, ◌++◌, ◌∷◌, [], length, map, Some, None, IfOk, IfSome, IfNone, OnOk};
ghost use Rattle.ev_terms.specs.Types.{type_list};
ghost use Rattle.ev_terms.specs.Term.{Term};
ghost use Rattle.ev_terms.specs.Substitution.{shift, substitute};
ghost use Rattle.ev_typing.specs.TypeLists.{types};
ghost use Rattle.ev_data.specs.Induction.{premises_for, induction_premises, induction_premise, recursive_vars};

use crate::parts::{
    append_types, field_types_at, is_recursive, listed_types, make_call, make_types, make_vars,
};
use ev_forms::{Binder, bound_parts};
use ev_terms::{
    NoMemory, Tree, Trees, Ty, Tys, make_var, shift, shift_fits, substitute, substitute_fits,
};
use ev_typing::{Con, DataDecl, Env, Sequent, Sequents};
use std::alloc::Global;

/// An induction: over the datatype at types, of the predicate of one variable.
#[derive(Drop)]
struct Induction<'a> {
    decl: &'a DataDecl,
    types: &'a Tys,
    predicate: &'a Tree,
}

/// The premises of induction for a sequent, one for each constructor in order; none where its goal is no `!` over a datatype. Where a
/// term has no room for its variables the answer is want of memory.
pub fn induction_premises(
    alloc: Global,
    env: &Env,
    conclusion: &Sequent,
) -> Result<Option<Sequents>, NoMemory>
    ensures { IfOk result (λ o. o ≡ premises_for env.now conclusion.now) }
{
    match find_induction(env, conclusion) {
        Some(induction) => Ok(Some(make_premises(alloc, conclusion, &induction)?)),
        None => Ok(None),
    }
}

/// The induction that proves the sequent's goal.
fn find_induction<'a>(env: &'a Env, conclusion: &'a Sequent) -> Option<Induction<'a>>
    ensures found { IfSome result (λ i. premises_for env.now conclusion.now ≡ Some (map (induction_premise conclusion.now i.decl.now i.types.now i.predicate.now) i.decl.now.cons)) }
    ensures none { IfNone result (premises_for env.now conclusion.now ≡ None) }
{
    match bound_parts(&conclusion.goal, Binder::ForAll) {
        Some((ty, predicate)) => induction_over(env, conclusion, ty, predicate),
        None => None,
    }
}

/// The induction over the type, where that is a datatype.
#[tactic(auto, using(crate::proofs::Inductions::other_types))]
fn induction_over<'a>(
    env: &'a Env,
    conclusion: &Sequent,
    ty: &'a Ty,
    predicate: &'a Tree,
) -> Option<Induction<'a>>
    ensures found { IfSome result (λ i. induction_premises env.now conclusion.now ty.now predicate.now ≡ Some (map (induction_premise conclusion.now i.decl.now i.types.now i.predicate.now) i.decl.now.cons)) }
    ensures none { IfNone result (induction_premises env.now conclusion.now ty.now predicate.now ≡ None) }
{
    match ty {
        Ty::Data(name, types) => match env.datatype(name) {
            Some(decl) => Some(Induction {
                decl,
                types,
                predicate,
            }),
            None => None,
        },
        Ty::Int | Ty::Bool | Ty::Prop | Ty::Param(_) | Ty::Pow(_) | Ty::Prod(_, _) => None,
    }
}

fn make_premises(
    alloc: Global,
    conclusion: &Sequent,
    induction: &Induction<'_>,
) -> Result<Sequents, NoMemory>
    ensures { IfOk result (λ ps. ps ≡ map (induction_premise conclusion.now induction.now.decl.now induction.now.types.now induction.now.predicate.now) induction.now.decl.now.cons) }
{
    let mut all = Sequents::new(alloc);
    for con in induction.decl.cons.as_slice() {
        all.push(alloc, make_premise(alloc, conclusion, induction, con)?)?;
    }
    Ok(all)
}

/// `C, As; H shifted, P[x] for each recursive argument x |- P[c(xs)]`
fn make_premise(
    alloc: Global,
    conclusion: &Sequent,
    induction: &Induction<'_>,
    con: &Con,
) -> Result<Sequent, NoMemory>
    ensures { IfOk result (λ s. s ≡ induction_premise conclusion.now induction.now.decl.now induction.now.types.now induction.now.predicate.now con.now) }
{
    let Ok(count) = u32::try_from(con.fields.len()) else {
        return Err(NoMemory);
    };
    let fields = field_types_at(alloc, con, induction.types)?;
    let context = longer(alloc, &conclusion.context, fields.as_slice())?;
    let raised = raise(alloc, induction.predicate, 1, count)?;
    let mut hyps = raise_all(alloc, conclusion.hyps.as_slice(), count)?;
    add_hypotheses(&mut hyps, alloc, induction.decl, con, &raised)?;
    let made = make_call(
        alloc,
        &con.name,
        induction.types,
        make_vars(alloc, count, 0)?,
    )?;
    let goal = put(alloc, &raised, made)?;
    Ok(Sequent {
        context,
        hyps,
        goal,
    })
}

/// The context with further types behind.
fn longer(alloc: Global, context: &Tys, more: &[Ty]) -> Result<Tys, NoMemory>
    ensures { IfOk result (λ As. As ≡ types (type_list context.now ++ more.now)) }
{
    let mut all = listed_types(alloc, context)?;
    append_types(&mut all, alloc, more)?;
    make_types(alloc, all.as_slice())
}

/// The term with its variables from `from` on raised.
fn raise(alloc: Global, tree: &Tree, from: u32, by: u32) -> Result<Tree, NoMemory>
    ensures { IfOk result (λ t. t ≡ shift tree.now from by) }
{
    if !shift_fits(tree, from, by) {
        return Err(NoMemory);
    }
    shift(alloc, tree, from, by)
}

fn raise_all(alloc: Global, trees: &[Tree], by: u32) -> Result<Trees, NoMemory>
    ensures { IfOk result (λ ts. ts ≡ map (λ t. shift t 0 by) trees.now) }
{
    let mut all = Trees::new(alloc);
    for tree in trees {
        all.push(alloc, raise(alloc, tree, 0, by)?)?;
    }
    Ok(all)
}

/// The predicate with the term for its variable.
fn put(alloc: Global, predicate: &Tree, term: Tree) -> Result<Tree, NoMemory>
    ensures { IfOk result (λ t. t ≡ substitute predicate.now (term ∷ [])) }
{
    let mut terms = Trees::new(alloc);
    terms.push(alloc, term)?;
    if !substitute_fits(predicate, &terms) {
        return Err(NoMemory);
    }
    substitute(alloc, predicate, &terms)
}

/// Appends what the predicate says of each recursive argument.
#[tactic(auto, using(crate::proofs::Inductions::hypotheses))]
fn add_hypotheses(
    hyps: &mut Trees,
    alloc: Global,
    decl: &DataDecl,
    con: &Con,
    predicate: &Tree,
) -> Result<(), NoMemory>
    requires { length con.now.fields < 2 ^ 32 }
    ensures { OnOk result (hyps.new ≡ hyps.old ++ map (λ (x : Term). substitute predicate.now (x ∷ [])) (recursive_vars decl.now con.now)) }
{
    let fields = con.fields.as_slice();
    for i in 0..fields.len() {
        if is_recursive(decl, &fields[i].ty) {
            let argument = make_var(alloc, (fields.len() - (i + 1)) as u32)?;
            hyps.push(alloc, put(alloc, predicate, argument)?)?;
        }
    }
    Ok(())
}
