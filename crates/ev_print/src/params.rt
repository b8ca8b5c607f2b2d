//! Type parameters that occur in types.
ghost use Rattle.std.specs.Prelude.{◌≡◌, not, map};
ghost use Rattle.std.specs.List.{list_any, range_with_len};
ghost use Rattle.ev_terms.specs.Types.{type_list};
ghost use Rattle.ev_typing.specs.declared.typing.Var.{Var};
ghost use Rattle.ev_typing.specs.Occurs.{has_param, have_param};

use ev_terms::{Ty, Tys};
use ev_typing::Var;

#[cycle(has_param)]
#[tactic(auto, using(crate::proofs::ParamSteps::walk))]
fn has_param(ty: &Ty, i: u32) -> bool
    ensures { result ≡ has_param i ty.now }
{
    match ty {
        Ty::Int => false,
        Ty::Bool => false,
        Ty::Prop => false,
        Ty::Param(j) => *j == i,
        Ty::Pow(a) => has_param(a.get(), i),
        Ty::Prod(a, b) => {
            if has_param(a.get(), i) {
                return true;
            }
            has_param(b.get(), i)
        }
        Ty::Data(_, types) => have_param(types, i),
    }
}

#[cycle(has_param)]
#[tactic(auto, using(crate::proofs::ParamSteps::walk))]
fn have_param(types: &Tys, i: u32) -> bool
    ensures { result ≡ have_param i types.now }
{
    let mut left = types;
    while let Tys::More(a, rest) = left {
        if has_param(a.get(), i) {
            return true;
        }
        left = rest.get();
    }
    false
}

#[tactic(auto, using(crate::proofs::ParamSteps::fields))]
fn fields_have_param(fields: &[Var], i: u32) -> bool
    ensures { result ≡ list_any (has_param i) (map (λ (f : Var). f.ty) fields.now) }
{
    for field in fields {
        if has_param(&field.ty, i) {
            return true;
        }
    }
    false
}

/// Whether a parameter below `params` occurs in none of the types.
#[tactic(auto, using(crate::proofs::ParamSteps::params))]
pub(crate) fn types_leave_open(params: u32, types: &Tys) -> bool
    ensures { result ≡ list_any (λ i. not (list_any (has_param i) (type_list types.now))) (range_with_len 0 params) }
{
    for i in 0..params {
        if !have_param(types, i) {
            return true;
        }
    }
    false
}

/// Whether a parameter below `params` occurs in the type of none of the fields.
#[tactic(auto, using(crate::proofs::ParamSteps::params))]
pub(crate) fn fields_leave_open(params: u32, fields: &[Var]) -> bool
    ensures { result ≡ list_any (λ i. not (list_any (has_param i) (map (λ (f : Var). f.ty) fields.now))) (range_with_len 0 params) }
{
    for i in 0..params {
        if !fields_have_param(fields, i) {
            return true;
        }
    }
    false
}
