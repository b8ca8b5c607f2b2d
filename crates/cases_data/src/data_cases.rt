//! `premises WORD`: those of induction for `INT; v0 = 0 |- !x. x = x` over the type of that word, or `none`. `admit WORD`: whether the
//! datatype of that word is admitted.
use crate::fault::Fault;
use crate::writing::push_sequent;
use cases_samples::samples::{data_at, field, lists, one_type, trees, two_cons};
use ev_data::{admit, induction_premises};
use ev_forms::{Binder, Connective, Relation, make_bound, make_joined, make_related, make_truth};
use ev_terms::{Name, NoMemory, Shared, Tree, Trees, TryCopy, Ty, Tys, make_lit, make_var};
use ev_typing::{Con, Cons, DataDecl, Env, Sequent, Vars};
use std::alloc::Global;

/// `!x. x = x`
fn reflexive(alloc: Global, ty: &Ty) -> Result<Tree, NoMemory> {
    let (left, right) = (make_var(alloc, 0)?, make_var(alloc, 0)?);
    let equal = make_related(alloc, Relation::Equal, ty.try_copy(alloc)?, left, right)?;
    make_bound(alloc, Binder::ForAll, ty.try_copy(alloc)?, equal)
}

fn goal_of(alloc: Global, word: &str) -> Result<Tree, Fault> {
    match word {
        "list" => Ok(reflexive(alloc, &data_at(alloc, b"List", Ty::Bool)?)?),
        "tree" => Ok(reflexive(alloc, &data_at(alloc, b"B", Ty::Int)?)?),
        "int" => Ok(reflexive(alloc, &Ty::Int)?),
        "unknown" => Ok(reflexive(alloc, &data_at(alloc, b"C", Ty::Int)?)?),
        "true" => Ok(make_truth(alloc)?),
        "joined" => {
            let tree = reflexive(alloc, &data_at(alloc, b"B", Ty::Int)?)?;
            Ok(make_joined(alloc, Connective::And, tree, make_truth(alloc)?)?)
        }
        _ => Err(Fault::NoCase),
    }
}

fn sequent_of(alloc: Global, goal: Tree) -> Result<Sequent, NoMemory> {
    let (left, right) = (make_var(alloc, 0)?, make_lit(alloc, 0)?);
    let mut hyps = Trees::new(alloc);
    hyps.push(
        alloc,
        make_related(alloc, Relation::Equal, Ty::Int, left, right)?,
    )?;
    Ok(Sequent {
        context: one_type(alloc, Ty::Int)?,
        hyps,
        goal,
    })
}

fn push_premises(alloc: Global, out: &mut String, env: &Env, word: &str) -> Result<(), Fault> {
    let sequent = sequent_of(alloc, goal_of(alloc, word)?)?;
    match induction_premises(alloc, env, &sequent)? {
        Some(premises) => {
            let mut count = 0u32;
            for premise in premises.as_slice() {
                if count > 0 {
                    out.push_str(" / ")?;
                }
                push_sequent(alloc, out, env, premise)?;
                count = count.saturating_add(1);
            }
            Ok(())
        }
        None => Ok(out.push_str("none")?),
    }
}

/// `D = n | c(d: A)`, with so many parameters.
fn with_field(alloc: Global, params: u32, ty: Ty) -> Result<DataDecl, NoMemory> {
    let mut fields = Vars::new(alloc);
    fields.push(alloc, field(alloc, b"d", ty)?)?;
    Ok(DataDecl {
        name: Name::from_slice(alloc, b"D")?,
        params,
        cons: two_cons(alloc, b"n", b"c", fields)?,
    })
}

/// `D = c(d: D)`
fn endless(alloc: Global) -> Result<DataDecl, NoMemory> {
    let name = Name::from_slice(alloc, b"D")?;
    let mut fields = Vars::new(alloc);
    fields.push(alloc, field(alloc, b"d", Ty::Data(name, Tys::Empty))?)?;
    let mut cons = Cons::new(alloc);
    cons.push(
        alloc,
        Con {
            name: Name::from_slice(alloc, b"c")?,
            fields,
        },
    )?;
    Ok(DataDecl {
        name: Name::from_slice(alloc, b"D")?,
        params: 0,
        cons,
    })
}

/// `POW(D)`
fn sets(alloc: Global) -> Result<Ty, NoMemory> {
    let name = Name::from_slice(alloc, b"D")?;
    Ok(Ty::Pow(Shared::new(alloc, Ty::Data(name, Tys::Empty))?))
}

fn decl_of(alloc: Global, word: &str) -> Result<DataDecl, Fault> {
    match word {
        "list" => Ok(lists(alloc)?),
        "tree" => Ok(trees(alloc)?),
        "endless" => Ok(endless(alloc)?),
        "sets" => Ok(with_field(alloc, 0, sets(alloc)?)?),
        "other" => Ok(with_field(alloc, 1, data_at(alloc, b"D", Ty::Int)?)?),
        "own" => Ok(with_field(alloc, 1, data_at(alloc, b"D", Ty::Param(0))?)?),
        "extra" => Ok(with_field(alloc, 1, Ty::Param(1))?),
        "inside" => Ok(with_field(
            alloc,
            1,
            data_at(alloc, b"List", data_at(alloc, b"D", Ty::Param(1))?)?,
        )?),
        _ => Err(Fault::NoCase),
    }
}

fn push_admission(alloc: Global, out: &mut String, env: &Env, word: &str) -> Result<(), Fault> {
    match admit(env, &decl_of(alloc, word)?) {
        Ok(()) => Ok(out.push_str("admitted")?),
        Err(fault) => Ok(out.push_str(format!(in alloc; "{fault}")?.as_str())?),
    }
}

/// Whether the case is one of these, and then its answer.
pub fn answer(
    alloc: Global,
    out: &mut String,
    env: &Env,
    case: &str,
    rest: &str,
) -> Result<bool, Fault> {
    match case {
        "premises" => push_premises(alloc, out, env, rest)?,
        "admit" => push_admission(alloc, out, env, rest)?,
        _ => return Ok(false),
    }
    Ok(true)
}
