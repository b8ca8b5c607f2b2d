//! The environments of the cases: `none`, `lists` with a datatype of lists, `top` with a direct operator.
ghost use Rattle.std.specs.Prelude.{◌≡◌, IfOk, codes};
ghost use Rattle.ev_terms.specs.declared.types.Ty.{Data};
ghost use Rattle.ev_terms.specs.declared.types.Tys.{Empty};
ghost use Rattle.ev_terms.specs.Types.{more};
ghost use Rattle.cases_typing.specs.Samples.{cons_fields, list_decl, truth};

use cases_notation::fault::Fault;
use ev_forms::make_truth;
use ev_terms::{Name, NoMemory, Shared, Tree, Ty, Tys};
use ev_typing::{Con, Cons, DataDecl, Entry, Env, Signature, Var, Vars};
use std::alloc::Global;

fn field(alloc: Global, name: &[u8], ty: Ty) -> Result<Var, NoMemory>
    ensures { IfOk result (λ v. v ≡ record { name = name.now; ty = ty }) }
{
    Ok(Var {
        name: Name::from_slice(alloc, name)?,
        ty,
    })
}

fn constructor(alloc: Global, name: &[u8], fields: Vars) -> Result<Con, NoMemory>
    ensures { IfOk result (λ c. c ≡ record { name = name.now; fields = fields }) }
{
    Ok(Con {
        name: Name::from_slice(alloc, name)?,
        fields,
    })
}

#[tactic(auto, using(ev_terms::specs::Types::type_forms))]
fn list_of(alloc: Global, ty: Ty) -> Result<Ty, NoMemory>
    ensures { IfOk result (λ a. a ≡ Data (codes "list") (more ty Empty)) }
{
    let rest = Shared::new(alloc, Tys::Empty)?;
    let types = Tys::More(Shared::new(alloc, ty)?, rest);
    Ok(Ty::Data(Name::from_slice(alloc, b"list")?, types))
}

fn fields_of_cons(alloc: Global) -> Result<Vars, NoMemory>
    ensures { IfOk result (λ fields. fields ≡ cons_fields) }
{
    let mut fields = Vars::new(alloc);
    fields.push(alloc, field(alloc, b"head", Ty::Param(0))?)?;
    fields.push(alloc, field(alloc, b"tail", list_of(alloc, Ty::Param(0))?)?)?;
    Ok(fields)
}

fn lists(alloc: Global) -> Result<DataDecl, NoMemory>
    ensures { IfOk result (λ d. d ≡ list_decl) }
{
    let fields = fields_of_cons(alloc)?;
    let mut cons = Cons::new(alloc);
    cons.push(alloc, constructor(alloc, b"nil", Vars::new(alloc))?)?;
    cons.push(alloc, constructor(alloc, b"cons", fields)?)?;
    Ok(DataDecl {
        name: Name::from_slice(alloc, b"list")?,
        params: 1,
        cons,
    })
}

#[tactic(auto, using(crate::proofs::SampleProofs::samples))]
fn env_of_lists(alloc: Global) -> Result<Env, NoMemory> {
    let mut env = Env::new(alloc);
    let data = lists(alloc)?;
    env.add(alloc, Entry::Data(data))?;
    Ok(env)
}

/// `true`
fn top_body(alloc: Global) -> Result<Tree, NoMemory>
    ensures { IfOk result (λ t. t ≡ truth) }
{
    make_truth(alloc)
}

/// A predicate without arguments that is defined as `true`.
#[tactic(auto, using(crate::proofs::SampleProofs::tops))]
fn env_of_top(alloc: Global) -> Result<Env, NoMemory> {
    let mut env = Env::new(alloc);
    let signature = Signature {
        name: Name::from_slice(alloc, b"top")?,
        params: 0,
        args: Tys::Empty,
        result: Ty::Prop,
    };
    let body = top_body(alloc)?;
    env.add(alloc, Entry::Direct(signature, None, body))?;
    Ok(env)
}

/// The environment of this name.
pub fn environment(alloc: Global, word: &str) -> Result<Env, Fault> {
    match word.trim() {
        "none" => Ok(Env::new(alloc)),
        "lists" => Ok(env_of_lists(alloc)?),
        "top" => Ok(env_of_top(alloc)?),
        _ => Err(Fault::NoCase),
    }
}
