//! The obligations of recursive operators.
ghost use Rattle.std.specs.Prelude.{◌≡◌, ◌<◌, ◌≤◌, ◌+◌, ◌++◌, Err, IfOk, OnOk, length, flat_map, map, reverse, zip};
ghost use Rattle.std.specs.List.{enumerate_from};
ghost use Rattle.ev_terms.specs.Types.{type_list};
ghost use Rattle.ev_terms.specs.Substitution.{type_inst, type_at, fill};
ghost use Rattle.ev_typing.specs.Env.{field_types};
ghost use Rattle.ev_typing.specs.WellFormed.{case_context, spliced};
ghost use Rattle.ev_data.specs.Closed.{case_arguments};
ghost use Rattle.ev_forms.specs.Forms.{call};
ghost use Rattle.ev_wd.specs.Limits.{IsSmall};
ghost use Rattle.ev_oblig.specs.Obligations.{case_condition, case_wd, case_obligation, AreSmall};
ghost use Rattle.ev_oblig.specs.declared.faults.ObligFault.TheVariants.{TooLarge};

use crate::faults::ObligFault;
use crate::lists::{call_of, number_after, push_trees, push_types, put_all};
use crate::makers::{condition_of, make_alls, make_imp};
use crate::making::push_wd;
use crate::named::NamedList;
use ev_data::make_vars;
use ev_forms::{is_truth, make_truth};
use ev_terms::{NoMemory, ObKind, Tree, Trees, Ty, Tys, instantiate_type};
use ev_typing::{Con, Env, Signature};
use std::alloc::Global;

/// A recursive operator with its inductive place, from 0, and the types of the datatype there.
#[derive(Drop)]
pub(crate) struct Operator<'a> {
    pub(crate) signature: &'a Signature,
    pub(crate) condition: &'a Option<Tree>,
    pub(crate) place: u32,
    pub(crate) types: &'a Tys,
}

/// One for each constructor with its body.
#[tactic(auto, using(crate::proofs::Listing::numbered))]
pub(crate) fn cases(
    alloc: Global,
    env: &Env,
    operator: &Operator<'_>,
    cons: &[Con],
    bodies: &[Tree],
) -> Result<NamedList, ObligFault>
    requires { operator.now.place < length (type_list operator.now.signature.now.args) }
    ensures found { IfOk result (λ l. l ≡ flat_map (case_obligation env.now operator.now.signature.now operator.now.condition.now operator.now.place operator.now.types.now) (enumerate_from 1 (zip cons.now bodies.now))) }
    ensures large { result ≡ Err TooLarge → ¬ AreSmall (flat_map (case_obligation env.now operator.now.signature.now operator.now.condition.now operator.now.place operator.now.types.now) (enumerate_from 1 (zip cons.now bodies.now))) }
{
    let count = cons.len().min(bodies.len());
    let mut all = NamedList::new(alloc);
    for i in 0..count {
        add_case(&mut all, alloc, env, operator, i, &cons[i], &bodies[i])?;
    }
    Ok(all)
}

/// Appends that of the constructor with the number i, from 0.
fn add_case(
    all: &mut NamedList,
    alloc: Global,
    env: &Env,
    operator: &Operator<'_>,
    i: usize,
    con: &Con,
    body: &Tree,
) -> Result<(), ObligFault>
    requires { operator.now.place < length (type_list operator.now.signature.now.args) }
    ensures ok { OnOk result (all.new ≡ all.old ++ case_obligation env.now operator.now.signature.now operator.now.condition.now operator.now.place operator.now.types.now (i + 1, (con.now, body.now))) }
    ensures large { result ≡ Err TooLarge → ¬ AreSmall (case_obligation env.now operator.now.signature.now operator.now.condition.now operator.now.place operator.now.types.now (i + 1, (con.now, body.now))) }
{
    let goal = case_goal(alloc, env, operator, con, body)?;
    let number = number_after(i)?;
    push_wd(all, alloc, ObKind::WdOf(number), goal)?;
    Ok(())
}

/// That the body is well defined where the condition holds.
fn case_goal(
    alloc: Global,
    env: &Env,
    operator: &Operator<'_>,
    con: &Con,
    body: &Tree,
) -> Result<Tree, ObligFault>
    requires { operator.now.place < length (type_list operator.now.signature.now.args) }
    ensures found { IfOk result (λ t. t ≡ case_wd env.now operator.now.signature.now operator.now.condition.now operator.now.place operator.now.types.now con.now body.now) }
    ensures large { result ≡ Err TooLarge → ¬ IsSmall (case_wd env.now operator.now.signature.now operator.now.condition.now operator.now.place operator.now.types.now con.now body.now) }
{
    let inner = condition_of(alloc, env, body)?;
    if is_truth(&inner) {
        return Ok(inner);
    }
    let context = context_of(alloc, operator, con)?;
    let guard = guard_of(alloc, operator, con, context.as_slice())?;
    let guarded = make_imp(alloc, guard, inner)?;
    Ok(make_alls(alloc, context.as_slice(), guarded)?)
}

/// The types of the arguments, with those of the constructor in the inductive place.
fn context_of(alloc: Global, operator: &Operator<'_>, con: &Con) -> Result<Vec<Ty>, NoMemory>
    requires { operator.now.place < length (type_list operator.now.signature.now.args) }
    ensures { IfOk result (λ C. C.items ≡ case_context operator.now.signature.now operator.now.place operator.now.types.now con.now) }
{
    let args = operator.signature.args.to_vec(alloc)?;
    let fields = field_types_at(alloc, con, operator.types)?;
    spliced(
        alloc,
        args.as_slice(),
        operator.place as usize,
        fields.as_slice(),
    )
}

/// The types of a constructor's arguments, with types put for the datatype's parameters.
fn field_types_at(alloc: Global, con: &Con, types: &Tys) -> Result<Vec<Ty>, NoMemory>
    ensures { IfOk result (λ As. As.items ≡ map (type_inst (type_at types.now)) (field_types con.now)) }
{
    let mut all = Vec::new(alloc);
    for field in con.fields.as_slice() {
        all.push(instantiate_type(alloc, &field.ty, types)?)?;
    }
    Ok(all)
}

/// The types with others in place of the one at the place.
fn spliced(alloc: Global, args: &[Ty], place: usize, fields: &[Ty]) -> Result<Vec<Ty>, NoMemory>
    requires { place < length args.now }
    ensures { IfOk result (λ C. C.items ≡ spliced args.now place fields.now) }
{
    let mut all = Vec::new(alloc);
    push_types(&mut all, alloc, &args[..place])?;
    push_types(&mut all, alloc, fields)?;
    push_types(&mut all, alloc, &args[place + 1..])?;
    Ok(all)
}

/// The condition with the constructor in the inductive place, for the context of its case.
fn guard_of(
    alloc: Global,
    operator: &Operator<'_>,
    con: &Con,
    context: &[Ty],
) -> Result<Tree, NoMemory>
    requires within { operator.now.place < length (type_list operator.now.signature.now.args) }
    requires context { context.now ≡ case_context operator.now.signature.now operator.now.place operator.now.types.now con.now }
    ensures { IfOk result (λ t. t ≡ case_condition operator.now.signature.now operator.now.condition.now operator.now.place operator.now.types.now con.now) }
{
    let Some(condition) = operator.condition else {
        return make_truth(alloc);
    };
    let Ok(count) = u32::try_from(context.len()) else {
        return Err(NoMemory);
    };
    let variables = make_vars(alloc, count, 0)?;
    let args = arguments_of(alloc, operator, con, variables.as_slice())?;
    put_all(alloc, condition, args.as_slice())
}

/// The operator's arguments among the variables, with the constructor on its own in the inductive place.
fn arguments_of(
    alloc: Global,
    operator: &Operator<'_>,
    con: &Con,
    variables: &[Tree],
) -> Result<Trees, NoMemory>
    requires { operator.now.place + length con.now.fields ≤ length variables.now }
    ensures { IfOk result (λ ts. ts ≡ case_arguments operator.now.place (length con.now.fields) con.now operator.now.types.now variables.now) }
{
    let place = operator.place as usize;
    let count = con.fields.len();
    let (before, rest) = variables.split_at(place);
    let (own, behind) = rest.split_at(count);
    let mut inner = Trees::new(alloc);
    push_trees(&mut inner, alloc, own)?;
    let made = call_of(alloc, &con.name, operator.types, inner)?;
    let mut all = Trees::new(alloc);
    push_trees(&mut all, alloc, before)?;
    all.push(alloc, made)?;
    push_trees(&mut all, alloc, behind)?;
    Ok(all)
}
