//! Where cases stand: an environment with variables.
ghost use Rattle.std.specs.Prelude.{◌≡◌, IfOk, codes};
ghost use Rattle.ev_terms.specs.declared.types.Ty.{Param, Data};
ghost use Rattle.ev_terms.specs.Types.{pow, prod};
ghost use Rattle.ev_terms.specs.Term.{var};
ghost use Rattle.ev_forms.specs.Base.{at_type};
ghost use Rattle.cases_wd.specs.Samples.{cons_fields, list_decl, list_env, is_not_empty, pick_entry, pick_env};

use crate::refusals::Refusal;
use ev_forms::{Relation, make_negation, make_related};
use ev_terms::symbols::EMPTY;
use ev_terms::{Name, NoMemory, Shared, Sym, Tree, Trees, Ty, Tys, make_node, make_var};
use ev_typing::{Con, Cons, DataDecl, Entry, Env, Signature, Var, Vars};
use std::alloc::Global;

/// Where cases stand.
#[derive(Drop)]
pub struct Setting {
    pub env: Env,
    /// The outermost first.
    pub vars: Vars,
}

impl Setting {
    /// Nothing is declared.
    pub fn new(alloc: Global) -> Result<Setting, NoMemory> {
        Ok(Setting {
            env: Env::new(alloc),
            vars: base_vars(alloc)?,
        })
    }

    /// Takes the environment of a name.
    pub fn set(&mut self, alloc: Global, name: &str) -> Result<(), Refusal> {
        match name {
            "none" => {
                self.env = Env::new(alloc);
                self.vars = base_vars(alloc)?;
            }
            "lists" => {
                self.env = env_of_lists(alloc)?;
                self.vars = list_vars(alloc)?;
            }
            "pick" => {
                self.env = env_of_pick(alloc)?;
                self.vars = base_vars(alloc)?;
            }
            _ => return Err(Refusal::Case),
        }
        Ok(())
    }
}

/// `x`, `y`, `z`: INT; `S`: POW(INT); `R`: POW(POW(INT)); `f`: POW(INT ** BOOL); `b`: BOOL
fn base_vars(alloc: Global) -> Result<Vars, NoMemory> {
    let mut vars = Vars::new(alloc);
    for name in [b"x", b"y", b"z"] {
        vars.push(alloc, field(alloc, name, Ty::Int)?)?;
    }
    vars.push(alloc, field(alloc, b"S", set_of(alloc, Ty::Int)?)?)?;
    let sets = set_of(alloc, set_of(alloc, Ty::Int)?)?;
    vars.push(alloc, field(alloc, b"R", sets)?)?;
    let pairs = pair_of(alloc, Ty::Int, Ty::Bool)?;
    vars.push(alloc, field(alloc, b"f", set_of(alloc, pairs)?)?)?;
    vars.push(alloc, field(alloc, b"b", Ty::Bool)?)?;
    Ok(vars)
}

/// These, and `l`: list(INT)
fn list_vars(alloc: Global) -> Result<Vars, NoMemory> {
    let mut vars = base_vars(alloc)?;
    vars.push(alloc, field(alloc, b"l", list_of(alloc, Ty::Int)?)?)?;
    Ok(vars)
}

#[tactic(auto, using(crate::proofs::SampleProofs::types))]
fn set_of(alloc: Global, ty: Ty) -> Result<Ty, NoMemory>
    ensures { IfOk result (λ a. a ≡ pow ty) }
{
    Ok(Ty::Pow(Shared::new(alloc, ty)?))
}

#[tactic(auto, using(crate::proofs::SampleProofs::types))]
fn pair_of(alloc: Global, first: Ty, second: Ty) -> Result<Ty, NoMemory>
    ensures { IfOk result (λ a. a ≡ prod first second) }
{
    let first = Shared::new(alloc, first)?;
    let second = Shared::new(alloc, second)?;
    Ok(Ty::Prod(first, second))
}

#[tactic(auto, using(crate::proofs::SampleProofs::types))]
fn one_type(alloc: Global, ty: Ty) -> Result<Tys, NoMemory>
    ensures { IfOk result (λ As. As ≡ at_type ty) }
{
    let ty = Shared::new(alloc, ty)?;
    Ok(Tys::More(ty, Shared::new(alloc, Tys::Empty)?))
}

fn field(alloc: Global, name: &[u8], ty: Ty) -> Result<Var, NoMemory>
    ensures { IfOk result (λ v. v ≡ record { name = name.now; ty = ty }) }
{
    Ok(Var {
        name: Name::from_slice(alloc, name)?,
        ty,
    })
}

fn constructor(alloc: Global, name: &[u8], fields: Vars) -> Result<Con, NoMemory>
    ensures { IfOk result (λ c. c ≡ record { name = name.now; fields = fields }) }
{
    Ok(Con {
        name: Name::from_slice(alloc, name)?,
        fields,
    })
}

fn list_of(alloc: Global, ty: Ty) -> Result<Ty, NoMemory>
    ensures { IfOk result (λ a. a ≡ Data (codes "list") (at_type ty)) }
{
    let types = one_type(alloc, ty)?;
    Ok(Ty::Data(Name::from_slice(alloc, b"list")?, types))
}

fn fields_of_cons(alloc: Global) -> Result<Vars, NoMemory>
    ensures { IfOk result (λ fields. fields ≡ cons_fields) }
{
    let mut fields = Vars::new(alloc);
    fields.push(alloc, field(alloc, b"head", Ty::Param(0))?)?;
    fields.push(alloc, field(alloc, b"tail", list_of(alloc, Ty::Param(0))?)?)?;
    Ok(fields)
}

fn lists(alloc: Global) -> Result<DataDecl, NoMemory>
    ensures { IfOk result (λ d. d ≡ list_decl) }
{
    let fields = fields_of_cons(alloc)?;
    let mut cons = Cons::new(alloc);
    cons.push(alloc, constructor(alloc, b"nil", Vars::new(alloc))?)?;
    cons.push(alloc, constructor(alloc, b"cons", fields)?)?;
    Ok(DataDecl {
        name: Name::from_slice(alloc, b"list")?,
        params: 1,
        cons,
    })
}

/// `list(?0) = nil | cons(head: ?0, tail: list(?0))`
fn env_of_lists(alloc: Global) -> Result<Env, NoMemory>
    ensures { IfOk result (λ env. env ≡ list_env) }
{
    let mut env = Env::new(alloc);
    let decl = lists(alloc)?;
    env.add(alloc, Entry::Data(decl))?;
    Ok(env)
}

/// `not S = {}`, for S the variable 0, a set of members of the type parameter 0.
fn is_not_empty(alloc: Global) -> Result<Tree, NoMemory>
    ensures { IfOk result (λ t. t ≡ is_not_empty (Param 0) (var 0)) }
{
    let types = one_type(alloc, Ty::Param(0))?;
    let empty = make_node(alloc, Sym::Base(EMPTY), types, Trees::new(alloc))?;
    let sets = set_of(alloc, Ty::Param(0))?;
    let set = make_var(alloc, 0)?;
    make_negation(
        alloc,
        make_related(alloc, Relation::Equal, sets, set, empty)?,
    )
}

fn pick(alloc: Global) -> Result<Entry, NoMemory>
    ensures { IfOk result (λ e. e ≡ pick_entry) }
{
    let condition = is_not_empty(alloc)?;
    let args = one_type(alloc, set_of(alloc, Ty::Param(0))?)?;
    let signature = Signature {
        name: Name::from_slice(alloc, b"pick")?,
        params: 1,
        args,
        result: Ty::Param(0),
    };
    Ok(Entry::Constant(signature, Some(condition)))
}

/// `pick(S: POW(?0)): ?0`, defined where S is not empty.
fn env_of_pick(alloc: Global) -> Result<Env, NoMemory>
    ensures { IfOk result (λ env. env ≡ pick_env) }
{
    let mut env = Env::new(alloc);
    let entry = pick(alloc)?;
    env.add(alloc, entry)?;
    Ok(env)
}
