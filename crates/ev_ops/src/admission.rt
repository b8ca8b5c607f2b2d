//! Which operators are admitted.
ghost use Rattle.std.specs.Prelude.{◌≡◌, ◌↔◌, ◌||◌, nat_lt, IsTrue, IsSome};
ghost use Rattle.std.specs.Option.{option_copied};
ghost use Rattle.std.specs.List.{list_any};
ghost use Rattle.ev_terms.specs.Measures.{params};
ghost use Rattle.ev_typing.specs.WellFormed.{inductive_data};
ghost use Rattle.ev_ops.specs.Admission.{IsUnguarded, IsDirectAdmission, IsRecursiveAdmission, case_count};
ghost use Rattle.ev_ops.specs.inner.Tests.{AnyUnguarded, HasUnguarded, IsUnguardedCase, IsCaseAnswer, IsInductiveAt, condition_exceeds, case_exceeds, misses, repeats};

use crate::cases::{Case, Cases};
use crate::faults::OpFault;
use crate::guards::{Guard, is_guarded};
use ev_data::inductive_argument;
use ev_terms::{Tree, Ty, Tys, bounds_of};
use ev_typing::{Con, DataDecl, Env, Signature};

/// Whether the direct operator is admitted, which no other fault than `ExtraTypeParameter` prevents. In constant time.
#[tactic(auto, using(crate::proofs::Admitting::direct))]
pub fn admit_direct(
    _env: &Env,
    sig: &Signature,
    condition: Option<&Tree>,
    body: &Tree,
) -> Result<(), OpFault>
    ensures { IsDirectAdmission sig.now (option_copied condition.entry) body.now result }
{
    if body_exceeds(sig, condition, body) {
        return Err(OpFault::ExtraTypeParameter);
    }
    Ok(())
}

/// Whether the recursive operator is admitted, with the inductive place from 0 and its cases in any order: the first fault that holds.
/// Linear in the bodies, and in the number of constructors times that of cases.
#[tactic(auto, using(crate::proofs::Admitting::recursive))]
pub fn admit_recursive(
    env: &Env,
    sig: &Signature,
    condition: Option<&Tree>,
    place: u32,
    cases: &Cases,
) -> Result<(), OpFault>
    requires { IsSome (inductive_data env.now sig.now place) }
    ensures { IsRecursiveAdmission env.now sig.now (option_copied condition.entry) place cases.now result }
{
    if some_exceeds(sig, condition, cases) {
        return Err(OpFault::ExtraTypeParameter);
    }
    match inductive_argument(env, sig, place) {
        Some((decl, types)) => admit_cases(sig, place, decl, types, cases),
        None => unreachable!(),
    }
}

/// The faults of the cases but for extra parameters, over the datatype at the types of the inductive place.
#[tactic(auto, using(crate::proofs::Admitting::cases))]
fn admit_cases(
    sig: &Signature,
    place: u32,
    decl: &DataDecl,
    types: &Tys,
    cases: &Cases,
) -> Result<(), OpFault>
    requires { IsInductiveAt sig.now place decl.now types.now }
    ensures { IsCaseAnswer sig.now place cases.now decl.now types.now result }
{
    if has_unguarded(sig, place, decl, types, cases) {
        return Err(OpFault::Unguarded);
    }
    if misses_case(decl, cases) {
        return Err(OpFault::MissingCase);
    }
    if repeats_case(decl, cases) {
        return Err(OpFault::RepeatedCase);
    }
    Ok(())
}

/// Whether the term has a type parameter that is not the operator's.
fn exceeds(sig: &Signature, tree: &Tree) -> bool
    ensures { result ≡ nat_lt sig.now.params (params tree.now) }
{
    u64::from(sig.params) < bounds_of(tree).params
}

fn condition_exceeds(sig: &Signature, condition: Option<&Tree>) -> bool
    ensures { result ≡ condition_exceeds sig.now.params (option_copied condition.entry) }
{
    match condition {
        Some(tree) => exceeds(sig, tree),
        None => false,
    }
}

fn body_exceeds(sig: &Signature, condition: Option<&Tree>, body: &Tree) -> bool
    ensures { result ≡ (condition_exceeds sig.now.params (option_copied condition.entry) || nat_lt sig.now.params (params body.now)) }
{
    condition_exceeds(sig, condition) || exceeds(sig, body)
}

fn some_exceeds(sig: &Signature, condition: Option<&Tree>, cases: &Cases) -> bool
    ensures { result ≡ (condition_exceeds sig.now.params (option_copied condition.entry) || list_any (case_exceeds sig.now.params) cases.now) }
{
    condition_exceeds(sig, condition) || some_case_exceeds(sig, cases)
}

fn some_case_exceeds(sig: &Signature, cases: &Cases) -> bool
    ensures { result ≡ list_any (case_exceeds sig.now.params) cases.now }
{
    cases.as_slice().iter().any(|case| exceeds(sig, &case.body))
}

/// Whether a case of a constructor calls the operator on something else than what the constructor was made of.
#[tactic(auto, using(crate::proofs::Admitting::inductive))]
fn has_unguarded(sig: &Signature, place: u32, decl: &DataDecl, types: &Tys, cases: &Cases) -> bool
    requires { IsInductiveAt sig.now place decl.now types.now }
    ensures { IsTrue result ↔ IsUnguarded sig.now place decl.now types.now cases.now }
{
    match sig.args.get(place as usize) {
        Some(own) => some_unguarded(
            sig,
            place,
            own,
            types,
            decl.cons.as_slice(),
            cases.as_slice(),
        ),
        None => unreachable!(),
    }
}

/// The same for the constructors, by the type at the inductive place.
#[tactic(auto, using(crate::proofs::Admitting::constructors))]
fn some_unguarded(
    sig: &Signature,
    place: u32,
    own: &Ty,
    types: &Tys,
    cons: &[Con],
    cases: &[Case],
) -> bool
    ensures { IsTrue result ↔ AnyUnguarded sig.now place own.now types.now cases.now cons.now }
{
    for con in cons {
        let guard = Guard {
            sig,
            place,
            own,
            types,
            con,
        };
        if con_unguarded(&guard, cases) {
            return true;
        }
    }
    false
}

/// Whether a case of the constructor does.
#[tactic(auto, using(crate::proofs::Admitting::constructors))]
fn con_unguarded(guard: &Guard, cases: &[Case]) -> bool
    ensures { IsTrue result ↔ HasUnguarded guard.now.sig.now guard.now.place guard.now.own.now guard.now.types.now guard.now.con.now cases.now }
{
    for case in cases {
        if is_unguarded(guard, case) {
            return true;
        }
    }
    false
}

/// Whether the case is one of the constructor and does.
#[tactic(auto, using(crate::proofs::Admitting::single))]
fn is_unguarded(guard: &Guard, case: &Case) -> bool
    ensures { IsTrue result ↔ IsUnguardedCase guard.now.sig.now guard.now.place guard.now.own.now guard.now.types.now guard.now.con.now case.now }
{
    case.con == guard.con.name && !is_guarded(guard, 0, &case.body)
}

/// How many cases name the constructor.
fn case_count(cases: &Cases, con: &Con) -> usize
    ensures { result ≡ case_count cases.now con.now }
{
    let mut count = 0;
    for case in cases.as_slice() {
        if case.con == con.name {
            count += 1;
        }
    }
    count
}

fn misses_case(decl: &DataDecl, cases: &Cases) -> bool
    ensures { result ≡ list_any (misses cases.now) decl.now.cons }
{
    decl.cons
        .as_slice()
        .iter()
        .any(|con| case_count(cases, con) == 0)
}

fn repeats_case(decl: &DataDecl, cases: &Cases) -> bool
    ensures { result ≡ list_any (repeats cases.now) decl.now.cons }
{
    decl.cons
        .as_slice()
        .iter()
        .any(|con| 1 < case_count(cases, con))
}
