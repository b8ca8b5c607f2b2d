//! The closed formulas of datatypes and recursive operators, at the symbols' own type parameters.
ghost use Rattle.std.specs.Prelude.{◌≡◌, ◌↔◌, ◌<◌, ◌≤◌, ◌+◌, ◌-◌, ◌^◌, length, Some, None, IsTrue, IsSome, IfOk, IfSome, IfNone};
ghost use Rattle.ev_terms.specs.Types.{type_list};
ghost use Rattle.ev_typing.specs.Env.{look_up, symbols, declaring, own_type};
ghost use Rattle.ev_typing.specs.WellFormed.{IsWellFormed, inductive_data, case_context, spliced};
ghost use Rattle.ev_forms.specs.Forms.{call, vars_above};
ghost use Rattle.ev_typing.specs.TypeLists.{own_types};
ghost use Rattle.ev_data.specs.Closed.{destructor_row, distinctness_row, recursion_row, destructor_formula, distinctness_formula, recursion_formula, recursion_in, recursion_of, case_arguments, cases_by_name};

use crate::look_ups::{constructor, inductive_argument};
use crate::parts::{
    append_trees, append_types, field_types, field_types_at, listed_types, make_call,
    make_equation, make_for_all, make_own_types, make_vars,
};
use ev_forms::{Relation, make_negation, make_related};
use ev_terms::{Name, NoMemory, Tree, Trees, TryCopy, Ty, Tys, make_var};
use ev_typing::{Con, DataDecl, Entry, Env, Signature, Var};
use std::alloc::Global;

/// What the destructor at a place, from 1, makes of its constructor: `!xs. des(con(xs)) = x`.
pub fn destructor_equation(
    alloc: Global,
    env: &Env,
    con: &Name,
    place: u32,
) -> Result<Tree, NoMemory>
    requires { IsSome (destructor_row env.now con.now place) }
    ensures { IfOk result (λ t. destructor_row env.now con.now place ≡ Some t) }
{
    match find_field(env, con, place) {
        Some((decl, con, field)) => make_destructed(alloc, decl, con, place - 1, field),
        None => unreachable!(),
    }
}

/// A test that `destructor_equation` may be called: the name is a constructor's, and it has that many fields.
pub fn has_destructor_equation(env: &Env, con: &Name, place: u32) -> bool
    ensures { IsTrue result ↔ IsSome (destructor_row env.now con.now place) }
{
    find_field(env, con, place).is_some()
}

/// The datatype, the constructor and its field at the place, from 1.
fn find_field<'a>(env: &'a Env, con: &Name, place: u32) -> Option<(&'a DataDecl, &'a Con, &'a Var)>
    ensures found { IfSome result (λ p. destructor_row env.now con.now place ≡ Some (destructor_formula p.0.now p.1.now (place - 1) p.2.now)) }
    ensures within { IfSome result (λ p. (0 < place) × (place ≤ length p.1.now.fields) × (length p.1.now.fields < 2 ^ 30)) }
    ensures none { IfNone result (destructor_row env.now con.now place ≡ None) }
{
    if place == 0 {
        return None;
    }
    match constructor(env, con) {
        Some((decl, con)) => match con.fields.get((place - 1) as usize) {
            Some(field) => Some((decl, con, field)),
            None => None,
        },
        None => None,
    }
}

/// The constructor on the variables of its arguments, with `inner` more binders inside theirs.
fn make_con(alloc: Global, decl: &DataDecl, con: &Con, inner: u32) -> Result<Tree, NoMemory>
    requires { length con.now.fields + inner < 2 ^ 32 }
    ensures { IfOk result (λ t. t ≡ call con.now.name (own_types decl.now.params) (vars_above (length con.now.fields) inner)) }
{
    let args = make_vars(alloc, con.fields.len() as u32, inner)?;
    let types = make_own_types(alloc, decl.params)?;
    make_call(alloc, &con.name, &types, args)
}

/// `!xs. des(con(xs)) = x`, for the field at the place, from 0.
fn make_destructed(
    alloc: Global,
    decl: &DataDecl,
    con: &Con,
    place: u32,
    field: &Var,
) -> Result<Tree, NoMemory>
    requires { (place < length con.now.fields) × (length con.now.fields < 2 ^ 30) }
    ensures { IfOk result (λ t. t ≡ destructor_formula decl.now con.now place field.now) }
{
    let count = con.fields.len() as u32;
    let mut args = Trees::new(alloc);
    args.push(alloc, make_con(alloc, decl, con, 0)?)?;
    let types = make_own_types(alloc, decl.params)?;
    let taken = make_call(alloc, &field.name, &types, args)?;
    let value = make_var(alloc, count - (place + 1))?;
    let ty = field.ty.try_copy(alloc)?;
    let equal = make_related(alloc, Relation::Equal, ty, taken, value)?;
    make_for_all(alloc, field_types(alloc, con)?.as_slice(), equal)
}

/// That two different constructors of one datatype make no equal values: `!xs. !ys. not left(xs) = right(ys)`.
pub fn distinctness(alloc: Global, env: &Env, left: &Name, right: &Name) -> Result<Tree, NoMemory>
    requires { IsSome (distinctness_row env.now left.now right.now) }
    ensures { IfOk result (λ t. distinctness_row env.now left.now right.now ≡ Some t) }
{
    match find_two(env, left, right) {
        Some((decl, left, right)) => make_distinct(alloc, decl, left, right),
        None => unreachable!(),
    }
}

/// A test that `distinctness` may be called: the names are those of two constructors of one datatype.
pub fn has_distinctness(env: &Env, left: &Name, right: &Name) -> bool
    ensures { IsTrue result ↔ IsSome (distinctness_row env.now left.now right.now) }
{
    find_two(env, left, right).is_some()
}

/// The datatype and its two constructors of the names, which differ.
fn find_two<'a>(env: &'a Env, left: &Name, right: &Name) -> Option<(&'a DataDecl, &'a Con, &'a Con)>
    ensures found { IfSome result (λ p. distinctness_row env.now left.now right.now ≡ Some (distinctness_formula p.0.now p.1.now p.2.now)) }
    ensures small { IfSome result (λ p. (length p.1.now.fields < 2 ^ 30) × (length p.2.now.fields < 2 ^ 30)) }
    ensures none { IfNone result (distinctness_row env.now left.now right.now ≡ None) }
{
    match (constructor(env, left), constructor(env, right)) {
        (Some((decl, left)), Some((other, right))) => if decl.name == other.name
            && left.name != right.name
        {
            Some((decl, left, right))
        } else {
            None
        },
        _ => None,
    }
}

/// `!xs. !ys. not left(xs) = right(ys)`
fn make_distinct(alloc: Global, decl: &DataDecl, left: &Con, right: &Con) -> Result<Tree, NoMemory>
    requires { (length left.now.fields < 2 ^ 30) × (length right.now.fields < 2 ^ 30) }
    ensures { IfOk result (λ t. t ≡ distinctness_formula decl.now left.now right.now) }
{
    let first = make_con(alloc, decl, left, right.fields.len() as u32)?;
    let second = make_con(alloc, decl, right, 0)?;
    let ty = own_type(alloc, decl)?;
    let equal = make_related(alloc, Relation::Equal, ty, first, second)?;
    let differ = make_negation(alloc, equal)?;
    let inner = make_for_all(alloc, field_types(alloc, right)?.as_slice(), differ)?;
    make_for_all(alloc, field_types(alloc, left)?.as_slice(), inner)
}

/// The datatype at its own parameters.
fn own_type(alloc: Global, decl: &DataDecl) -> Result<Ty, NoMemory>
    ensures { IfOk result (λ A. A ≡ own_type decl.now) }
{
    let types = make_own_types(alloc, decl.params)?;
    Ok(Ty::Data(decl.name.try_copy(alloc)?, types))
}

/// A constructor's case of a recursive operator: the operator with its inductive place, from 0, the types of the datatype there, the
/// constructor and the body.
#[derive(Drop)]
struct Case<'a> {
    signature: &'a Signature,
    place: u32,
    types: &'a Tys,
    con: &'a Con,
    body: &'a Tree,
}

/// What a recursive operator is at a constructor: `!ys. op(.., con(xs), ..) = body`, or `<=>` for a predicate.
pub fn equation(alloc: Global, env: &Env, op: &Name, con: &Name) -> Result<Tree, NoMemory>
    requires { IsSome (recursion_row env.now op.now con.now) }
    ensures { IfOk result (λ t. recursion_row env.now op.now con.now ≡ Some t) }
{
    match find_case(env, op, con) {
        Some(case) => make_case(alloc, &case),
        None => unreachable!(),
    }
}

/// A test that `equation` may be called: a recursive operator, and a constructor of the datatype at its inductive place.
pub fn has_equation(env: &Env, op: &Name, con: &Name) -> bool
    ensures { IsTrue result ↔ IsSome (recursion_row env.now op.now con.now) }
{
    find_case(env, op, con).is_some()
}

/// The constructor's case of the operator.
fn find_case<'a>(env: &'a Env, op: &Name, con: &Name) -> Option<Case<'a>>
    ensures found { IfSome result (λ c. recursion_row env.now op.now con.now ≡ Some (recursion_formula c.signature.now c.place c.types.now c.con.now c.body.now)) }
    ensures small { IfSome result (λ c. (c.place < length (type_list c.signature.now.args)) × (length (type_list c.signature.now.args) < 2 ^ 30) × (length c.con.now.fields < 2 ^ 30)) }
    ensures none { IfNone result (recursion_row env.now op.now con.now ≡ None) }
{
    match env.symbol(op) {
        Some(entry) => case_in_entry(env, entry, op, con),
        None => None,
    }
}

/// The same, where the entry declares the operator's name.
#[tactic(auto, using(crate::proofs::Cases::operators))]
fn case_in_entry<'a>(env: &'a Env, entry: &'a Entry, op: &Name, con: &Name) -> Option<Case<'a>>
    requires well_formed { IsWellFormed env.now }
    requires declares { Some entry.now ≡ declaring env.now op.now }
    ensures found { IfSome result (λ c. recursion_of env.now (look_up (symbols entry.now) op.now) con.now ≡ Some (recursion_formula c.signature.now c.place c.types.now c.con.now c.body.now)) }
    ensures small { IfSome result (λ c. (c.place < length (type_list c.signature.now.args)) × (length (type_list c.signature.now.args) < 2 ^ 30) × (length c.con.now.fields < 2 ^ 30)) }
    ensures none { IfNone result (recursion_of env.now (look_up (symbols entry.now) op.now) con.now ≡ None) }
{
    match entry {
        Entry::Recursive(signature, _, place, bodies) => if signature.name == *op {
            case_of(env, signature, *place, bodies, con)
        } else {
            None
        },
        Entry::Data(_) | Entry::Constant(_, _) | Entry::Direct(_, _, _) => None,
    }
}

/// The same, where the operator is found.
fn case_of<'a>(
    env: &'a Env,
    signature: &'a Signature,
    place: u32,
    bodies: &'a Trees,
    con: &Name,
) -> Option<Case<'a>>
    requires well_formed { IsWellFormed env.now }
    requires few_args { length (type_list signature.now.args) < 2 ^ 30 }
    ensures found { IfSome result (λ c. recursion_in signature.now place bodies.now con.now (inductive_data env.now signature.now place) ≡ Some (recursion_formula c.signature.now c.place c.types.now c.con.now c.body.now)) }
    ensures small { IfSome result (λ c. (c.place < length (type_list c.signature.now.args)) × (length (type_list c.signature.now.args) < 2 ^ 30) × (length c.con.now.fields < 2 ^ 30)) }
    ensures none { IfNone result (recursion_in signature.now place bodies.now con.now (inductive_data env.now signature.now place) ≡ None) }
{
    match inductive_argument(env, signature, place) {
        Some((decl, types)) => match case_in(decl, bodies, con) {
            Some((con, body)) => Some(Case {
                signature,
                place,
                types,
                con,
                body,
            }),
            None => None,
        },
        None => None,
    }
}

/// The constructor of the name with the body of its case.
#[tactic(auto, using(crate::proofs::Cases::cases))]
fn case_in<'a>(decl: &'a DataDecl, bodies: &'a Trees, name: &Name) -> Option<(&'a Con, &'a Tree)>
    ensures found { IfSome result (λ p. look_up (cases_by_name decl.now.cons bodies.now) name.now ≡ Some (p.0.now, p.1.now)) }
    ensures none { IfNone result (look_up (cases_by_name decl.now.cons bodies.now) name.now ≡ None) }
{
    let cons = decl.cons.as_slice();
    let trees = bodies.as_slice();
    let count = cons.len().min(trees.len());
    for i in 0..count {
        if cons[i].name == *name {
            return Some((&cons[i], &trees[i]));
        }
    }
    None
}

/// `!ys. op(.., con(xs), ..) ~~ body`
fn make_case(alloc: Global, case: &Case<'_>) -> Result<Tree, NoMemory>
    requires place_in { case.now.place < length (type_list case.now.signature.now.args) }
    requires few_args { length (type_list case.now.signature.now.args) < 2 ^ 30 }
    requires few_fields { length case.now.con.now.fields < 2 ^ 30 }
    ensures { IfOk result (λ t. t ≡ recursion_formula case.now.signature.now case.now.place case.now.types.now case.now.con.now case.now.body.now) }
{
    let signature = case.signature;
    let context = context_of(alloc, case)?;
    let variables = make_vars(alloc, context.len() as u32, 0)?;
    let args = arguments_of(alloc, case, variables.as_slice())?;
    let types = make_own_types(alloc, signature.params)?;
    let applied = make_call(alloc, &signature.name, &types, args)?;
    let equal = make_equation(
        alloc,
        &signature.result,
        applied,
        case.body.try_copy(alloc)?,
    )?;
    make_for_all(alloc, context.as_slice(), equal)
}

/// The types of the variables `ys`.
fn context_of(alloc: Global, case: &Case<'_>) -> Result<Vec<Ty>, NoMemory>
    requires { case.now.place < length (type_list case.now.signature.now.args) }
    ensures { IfOk result (λ C. C.items ≡ case_context case.now.signature.now case.now.place case.now.types.now case.now.con.now) }
{
    let args = listed_types(alloc, &case.signature.args)?;
    let fields = field_types_at(alloc, case.con, case.types)?;
    let place = case.place as usize;
    spliced(alloc, args.as_slice(), place, fields.as_slice())
}

/// The types with others in place of the one at the place.
fn spliced(alloc: Global, args: &[Ty], place: usize, fields: &[Ty]) -> Result<Vec<Ty>, NoMemory>
    requires { place < length args.now }
    ensures { IfOk result (λ C. C.items ≡ spliced args.now place fields.now) }
{
    let mut all = Vec::new(alloc);
    append_types(&mut all, alloc, &args[..place])?;
    append_types(&mut all, alloc, fields)?;
    append_types(&mut all, alloc, &args[place + 1..])?;
    Ok(all)
}

/// The operator's arguments among the variables, with the constructor on its own in the inductive place.
fn arguments_of(alloc: Global, case: &Case<'_>, variables: &[Tree]) -> Result<Trees, NoMemory>
    requires { case.now.place + length case.now.con.now.fields ≤ length variables.now }
    ensures { IfOk result (λ ts. ts ≡ case_arguments case.now.place (length case.now.con.now.fields) case.now.con.now case.now.types.now variables.now) }
{
    let place = case.place as usize;
    let count = case.con.fields.len();
    let (before, rest) = variables.split_at(place);
    let (own, behind) = rest.split_at(count);
    let mut inner = Trees::new(alloc);
    append_trees(&mut inner, alloc, own)?;
    let made = make_call(alloc, &case.con.name, case.types, inner)?;
    let mut all = Trees::new(alloc);
    append_trees(&mut all, alloc, before)?;
    all.push(alloc, made)?;
    append_trees(&mut all, alloc, behind)?;
    Ok(all)
}
