//! Matching of types.
ghost use Rattle.std.specs.Prelude.{IfOk};
ghost use Rattle.ev_terms.specs.declared.types.Ty.{Param};
ghost use Rattle.ev_rewrite.specs.inner.Taken.{TypeTaken, TypesTaken};

use crate::slots::{Found, put};
use ev_terms::{NoMemory, Same, TryCopy, Ty, Tys};
use std::alloc::Global;

/// Whether types for the parameters make the pattern the type and agree with what is found, to which those that it determines are
/// added. Linear in the pattern and the type.
#[cycle(match_type)]
pub(crate) fn match_type(
    alloc: Global,
    pattern: &Ty,
    ty: &Ty,
    found: &mut Found,
) -> Result<bool, NoMemory>
    ensures { IfOk result (TypeTaken pattern.now ty.now found.old found.new) }
{
    match pattern {
        Ty::Param(j) => match_param(alloc, *j, ty, found),
        Ty::Int | Ty::Bool | Ty::Prop => Ok(pattern.same(ty)),
        Ty::Pow(a) => match ty {
            Ty::Pow(b) => match_type(alloc, a.get(), b.get(), found),
            _ => Ok(false),
        },
        Ty::Prod(a, b) => match ty {
            Ty::Prod(c, d) => {
                if !match_type(alloc, a.get(), c.get(), found)? {
                    return Ok(false);
                }
                match_type(alloc, b.get(), d.get(), found)
            }
            _ => Ok(false),
        },
        Ty::Data(name, list) => match ty {
            Ty::Data(other, others) => {
                if !name.same(other) {
                    return Ok(false);
                }
                match_types(alloc, list, others, found)
            }
            _ => Ok(false),
        },
    }
}

/// The same for the types of two lists, one each.
#[cycle(match_type)]
pub(crate) fn match_types(
    alloc: Global,
    patterns: &Tys,
    list: &Tys,
    found: &mut Found,
) -> Result<bool, NoMemory>
    ensures { IfOk result (TypesTaken patterns.now list.now found.old found.new) }
{
    let mut left = patterns;
    let mut others = list;
    while let Tys::More(a, rest) = left {
        let Tys::More(b, further) = others else {
            return Ok(false);
        };
        if !match_type(alloc, a.get(), b.get(), found)? {
            return Ok(false);
        }
        left = rest.get();
        others = further.get();
    }
    Ok(left.same(others))
}

fn match_param(alloc: Global, j: u32, ty: &Ty, found: &mut Found) -> Result<bool, NoMemory>
    ensures { IfOk result (TypeTaken (Param j) ty.now found.old found.new) }
{
    let at = j as usize;
    if at >= found.types.len() {
        return Ok(ty.same(&Ty::Param(j)));
    }
    Ok(put(&mut found.types, at, ty.try_copy(alloc)?))
}
