//! Environments.
ghost use Rattle.std.specs.Prelude.{◌≡◌, IfOk, codes, [], ◌∷◌, None};
ghost use Rattle.ev_terms.specs.declared.types.Ty.{Data};
ghost use Rattle.ev_terms.specs.declared.types.Tys.{Empty};
ghost use Rattle.ev_terms.specs.Types.{more, pow, prod};
ghost use Rattle.cases_infer.specs.Samples.{cons_fields, list_decl, truth, top_entry, pick_entry, even_entry, succ_entry};

use ev_terms::{Name, NoMemory, Shared, Sym, Tree, Trees, Ty, Tys, make_node};
use ev_typing::{Con, Cons, DataDecl, Entry, Env, Signature, Var, Vars};
use std::alloc::Global;

#[tactic(auto, using(ev_typing::proofs::Signatures::forms))]
fn one_type(alloc: Global, ty: Ty) -> Result<Tys, NoMemory>
    ensures { IfOk result (λ As. As ≡ more ty Empty) }
{
    let ty = Shared::new(alloc, ty)?;
    Ok(Tys::More(ty, Shared::new(alloc, Tys::Empty)?))
}

fn field(alloc: Global, name: &[u8], ty: Ty) -> Result<Var, NoMemory>
    ensures { IfOk result (λ v. v ≡ record { name = name.now; ty = ty }) }
{
    Ok(Var {
        name: Name::from_slice(alloc, name)?,
        ty,
    })
}

fn constructor(alloc: Global, name: &[u8], fields: Vars) -> Result<Con, NoMemory>
    ensures { IfOk result (λ c. c ≡ record { name = name.now; fields = fields }) }
{
    Ok(Con {
        name: Name::from_slice(alloc, name)?,
        fields,
    })
}

fn list_of(alloc: Global, ty: Ty) -> Result<Ty, NoMemory>
    ensures { IfOk result (λ a. a ≡ Data (codes "list") (more ty Empty)) }
{
    let types = one_type(alloc, ty)?;
    Ok(Ty::Data(Name::from_slice(alloc, b"list")?, types))
}

fn fields_of_cons(alloc: Global) -> Result<Vars, NoMemory>
    ensures { IfOk result (λ fields. fields ≡ cons_fields) }
{
    let mut fields = Vars::new(alloc);
    fields.push(alloc, field(alloc, b"head", Ty::Param(0))?)?;
    fields.push(alloc, field(alloc, b"tail", list_of(alloc, Ty::Param(0))?)?)?;
    Ok(fields)
}

fn lists(alloc: Global) -> Result<DataDecl, NoMemory>
    ensures { IfOk result (λ d. d ≡ list_decl) }
{
    let fields = fields_of_cons(alloc)?;
    let mut cons = Cons::new(alloc);
    cons.push(alloc, constructor(alloc, b"nil", Vars::new(alloc))?)?;
    cons.push(alloc, constructor(alloc, b"cons", fields)?)?;
    Ok(DataDecl {
        name: Name::from_slice(alloc, b"list")?,
        params: 1,
        cons,
    })
}

/// `list(?0) = nil | cons(head: ?0, tail: list(?0))`
pub fn env_of_lists(alloc: Global) -> Result<Env, NoMemory> {
    let mut env = Env::new(alloc);
    let decl = lists(alloc)?;
    env.add(alloc, Entry::Data(decl))?;
    Ok(env)
}

fn signature(
    alloc: Global,
    name: &[u8],
    params: u32,
    args: Tys,
    gives: Ty,
) -> Result<Signature, NoMemory>
    ensures { IfOk result (λ s. s ≡ record { name = name.now; params = params; args = args; result = gives }) }
{
    Ok(Signature {
        name: Name::from_slice(alloc, name)?,
        params,
        args,
        result: gives,
    })
}

fn truth(alloc: Global) -> Result<Tree, NoMemory>
    ensures { IfOk result (λ t. t ≡ truth) }
{
    make_node(alloc, Sym::Base(0), Tys::Empty, Trees::new(alloc))
}

/// `top: PRED`, defined as `true`
fn top(alloc: Global) -> Result<Entry, NoMemory>
    ensures { IfOk result (λ e. e ≡ top_entry) }
{
    let head = signature(alloc, b"top", 0, Tys::Empty, Ty::Prop)?;
    let body = truth(alloc)?;
    Ok(Entry::Direct(head, None, body))
}

#[tactic(auto, using(ev_typing::proofs::Signatures::forms))]
fn set_of(alloc: Global, ty: Ty) -> Result<Ty, NoMemory>
    ensures { IfOk result (λ a. a ≡ pow ty) }
{
    Ok(Ty::Pow(Shared::new(alloc, ty)?))
}

#[tactic(auto, using(ev_typing::proofs::Signatures::forms))]
fn pair_of(alloc: Global, first: Ty, second: Ty) -> Result<Ty, NoMemory>
    ensures { IfOk result (λ a. a ≡ prod first second) }
{
    let first = Shared::new(alloc, first)?;
    let second = Shared::new(alloc, second)?;
    Ok(Ty::Prod(first, second))
}

/// `pick(S: POW(?0)): ?0`
fn pick(alloc: Global) -> Result<Entry, NoMemory>
    ensures { IfOk result (λ e. e ≡ pick_entry) }
{
    let args = one_type(alloc, set_of(alloc, Ty::Param(0))?)?;
    let head = signature(alloc, b"pick", 1, args, Ty::Param(0))?;
    Ok(Entry::Constant(head, None))
}

/// `even(k: INT): PRED`
fn even(alloc: Global) -> Result<Entry, NoMemory>
    ensures { IfOk result (λ e. e ≡ even_entry) }
{
    let args = one_type(alloc, Ty::Int)?;
    let head = signature(alloc, b"even", 0, args, Ty::Prop)?;
    Ok(Entry::Constant(head, None))
}

/// `succ: POW(INT ** INT)`
fn succ(alloc: Global) -> Result<Entry, NoMemory>
    ensures { IfOk result (λ e. e ≡ succ_entry) }
{
    let relation = set_of(alloc, pair_of(alloc, Ty::Int, Ty::Int)?)?;
    let head = signature(alloc, b"succ", 0, Tys::Empty, relation)?;
    Ok(Entry::Constant(head, None))
}

fn env_of_top(alloc: Global) -> Result<Env, NoMemory>
    ensures { IfOk result (λ env. env ≡ top_entry ∷ []) }
{
    let mut env = Env::new(alloc);
    let entry = top(alloc)?;
    env.add(alloc, entry)?;
    Ok(env)
}

fn with_pick(alloc: Global) -> Result<Env, NoMemory>
    ensures { IfOk result (λ env. env ≡ top_entry ∷ (pick_entry ∷ [])) }
{
    let mut env = env_of_top(alloc)?;
    let entry = pick(alloc)?;
    env.add(alloc, entry)?;
    Ok(env)
}

fn with_even(alloc: Global) -> Result<Env, NoMemory>
    ensures { IfOk result (λ env. env ≡ top_entry ∷ (pick_entry ∷ (even_entry ∷ []))) }
{
    let mut env = with_pick(alloc)?;
    let entry = even(alloc)?;
    env.add(alloc, entry)?;
    Ok(env)
}

/// `top: PRED`, `pick(S: POW(?0)): ?0`, `even(k: INT): PRED`, `succ: POW(INT ** INT)`
pub fn env_of_symbols(alloc: Global) -> Result<Env, NoMemory> {
    let mut env = with_even(alloc)?;
    let entry = succ(alloc)?;
    env.add(alloc, entry)?;
    Ok(env)
}
