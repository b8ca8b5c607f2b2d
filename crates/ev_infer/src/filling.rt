//! The term of a bare one, once its types are known.
ghost use Rattle.std.specs.Prelude.{◌≡◌, Some, None, IfOk};
ghost use Rattle.ev_terms.specs.Term.{var, lit};
ghost use Rattle.ev_typing.specs.Env.{profile};
ghost use Rattle.ev_resolve.specs.inner.BareView.{bares};
ghost use Rattle.ev_infer.specs.inner.Numbers.{params_of, node_numbers};
ghost use Rattle.ev_infer.specs.inner.Bulks.{bulk_at, type_at_unknown};
ghost use Rattle.ev_infer.specs.inner.Filling.{measured_told, made_told, types_told, all_made_told, measured, all_measured, made, all_made, types_measured, types_made};

use crate::bulks::{Bulk, NOTHING, above, beside, type_bulk, unknown_bulk};
use crate::solving::unknown_type;
use ev_resolve::{Bare, BareForm};
use ev_terms::{
    NoMemory, Shared, Sym, Tree, Trees, TryCopy, Ty, Tys, make_lit, make_node, make_var,
};
use ev_typing::{Env, is_proper, types_of_symbol};
use std::alloc::Global;

/// How large a part is, and the first unknown that it does not use.
#[derive(Clone, Copy, Drop)]
pub(crate) struct Measured {
    pub(crate) bulk: Bulk,
    pub(crate) next: u128,
}

/// A term, and the first unknown that it does not use.
#[derive(Drop)]
pub(crate) struct Made {
    pub(crate) tree: Tree,
    pub(crate) next: u128,
}

/// The type arguments of a node, and the first unknown that is not used.
#[derive(Drop)]
pub(crate) struct MadeTypes {
    pub(crate) types: Tys,
    pub(crate) next: u128,
}

/// Terms, and the first unknown that they do not use.
#[derive(Drop)]
pub(crate) struct AllMade {
    pub(crate) trees: Trees,
    pub(crate) next: u128,
}

/// How many type parameters a symbol has; none where there is no such symbol.
fn param_count(alloc: Global, env: &Env, sym: &Sym) -> Result<u32, NoMemory>
    ensures { IfOk result (λ n. n ≡ params_of (profile env.now sym.now)) }
{
    match types_of_symbol(alloc, env, sym)? {
        Some(types) => Ok(types.params),
        None => Ok(0),
    }
}

/// How large the term of a bare one is, from the table of its unknowns, which begin at a number. Linear in the bare term.
#[cycle(measure)]
#[tactic(auto, using(crate::proofs::FillingSteps::walk))]
pub(crate) fn measure(
    alloc: Global,
    env: &Env,
    bare: &Bare,
    next: u128,
    bulks: &[Bulk],
) -> Result<Measured, NoMemory>
    ensures { IfOk result (λ m. measured_told m ≡ measured env.now bare.now next (bulk_at bulks.now)) }
{
    match bare.form() {
        BareForm::Var(_) | BareForm::Lit(_) => Ok(Measured {
            bulk: Bulk { size: 1, depth: 1 },
            next,
        }),
        BareForm::Node(sym, written, children) => {
            let types = measure_types(alloc, env, sym, written, next, bulks)?;
            let all = measure_all(alloc, env, children.as_slice(), types.next, bulks)?;
            Ok(Measured {
                bulk: above(beside(types.bulk, all.bulk)),
                next: all.next,
            })
        }
        BareForm::Of(bare, _) => measure(alloc, env, &**bare, next, bulks),
    }
}

fn measure_types(
    alloc: Global,
    env: &Env,
    sym: &Sym,
    written: &Option<Ty>,
    next: u128,
    bulks: &[Bulk],
) -> Result<Measured, NoMemory>
    ensures { IfOk result (λ m. measured_told m ≡ types_measured (node_numbers written.now (params_of (profile env.now sym.now)) next) (bulk_at bulks.now)) }
{
    match written {
        Some(ty) => Ok(measure_written(ty, next, bulks)),
        None => measure_unknowns(param_count(alloc, env, sym)?, next, bulks),
    }
}

#[tactic(auto, using(crate::proofs::FillingSteps::written))]
fn measure_written(ty: &Ty, next: u128, _bulks: &[Bulk]) -> Measured
    ensures { measured_told result ≡ types_measured (node_numbers (Some ty.now) 0 next) (bulk_at _bulks.now) }
{
    Measured {
        bulk: beside(type_bulk(ty), NOTHING),
        next,
    }
}

fn measure_unknowns(count: u32, next: u128, bulks: &[Bulk]) -> Result<Measured, NoMemory>
    ensures { IfOk result (λ m. measured_told m ≡ types_measured (node_numbers None count next) (bulk_at bulks.now)) }
{
    let Some(end) = next.checked_add(u128::from(count)) else {
        return Err(NoMemory)
    };
    let mut bulk = NOTHING;
    let mut unknown = end;
    while unknown > next {
        unknown -= 1;
        bulk = beside(unknown_bulk(bulks, unknown), bulk);
    }
    Ok(Measured { bulk, next: end })
}

#[cycle(measure)]
#[tactic(auto, using(crate::proofs::FillingSteps::walk))]
fn measure_all(
    alloc: Global,
    env: &Env,
    children: &[Bare],
    next: u128,
    bulks: &[Bulk],
) -> Result<Measured, NoMemory>
    ensures { IfOk result (λ m. measured_told m ≡ all_measured env.now (bares children.now) next (bulk_at bulks.now)) }
{
    let mut bulk = NOTHING;
    let mut unused = next;
    for child in children {
        let one = measure(alloc, env, child, unused, bulks)?;
        bulk = beside(bulk, one.bulk);
        unused = one.next;
    }
    Ok(Measured { bulk, next: unused })
}

/// The term of a bare one, from the table of its unknowns, which begin at a number. Linear in the bare term and in the type arguments.
#[cycle(build)]
#[tactic(auto, using(crate::proofs::FillingSteps::walk))]
pub(crate) fn build(
    alloc: Global,
    env: &Env,
    bare: &Bare,
    next: u128,
    types: &[Ty],
) -> Result<Made, NoMemory>
    ensures { IfOk result (λ m. made_told m ≡ made env.now bare.now next (type_at_unknown types.now)) }
{
    match bare.form() {
        BareForm::Var(i) => Ok(Made {
            tree: variable(alloc, *i)?,
            next,
        }),
        BareForm::Lit(n) => Ok(Made {
            tree: literal(alloc, *n)?,
            next,
        }),
        BareForm::Node(sym, written, children) => {
            let own = build_types(alloc, env, sym, written, next, types)?;
            let all = build_all(alloc, env, children.as_slice(), own.next, types)?;
            let sym = sym.try_copy(alloc)?;
            Ok(Made {
                tree: make_node(alloc, sym, own.types, all.trees)?,
                next: all.next,
            })
        }
        BareForm::Of(bare, _) => build(alloc, env, &**bare, next, types),
    }
}

/// A variable. There are fewer than 2^32, so no other is met.
pub(crate) fn variable(alloc: Global, i: usize) -> Result<Tree, NoMemory>
    ensures { IfOk result (λ t. t ≡ var i) }
{
    match u32::try_from(i) {
        Ok(i) => make_var(alloc, i),
        Err(_) => Err(NoMemory),
    }
}

/// A literal. What is above the limit of literals has no equations, so it is not met.
fn literal(alloc: Global, n: u128) -> Result<Tree, NoMemory>
    ensures { IfOk result (λ t. t ≡ lit n) }
{
    if n < 1 << 127 {
        make_lit(alloc, n)
    } else {
        Err(NoMemory)
    }
}

fn build_types(
    alloc: Global,
    env: &Env,
    sym: &Sym,
    written: &Option<Ty>,
    next: u128,
    types: &[Ty],
) -> Result<MadeTypes, NoMemory>
    ensures { IfOk result (λ m. types_told m ≡ types_made (node_numbers written.now (params_of (profile env.now sym.now)) next) (type_at_unknown types.now)) }
{
    match written {
        Some(ty) => build_written(alloc, env, ty, next, types),
        None => build_unknowns(alloc, param_count(alloc, env, sym)?, next, types),
    }
}

/// A written type. One that is no type of the environment has no equations, so it is not met.
#[tactic(auto, using(crate::proofs::FillingSteps::written))]
fn build_written(
    alloc: Global,
    env: &Env,
    ty: &Ty,
    next: u128,
    _types: &[Ty],
) -> Result<MadeTypes, NoMemory>
    ensures { IfOk result (λ m. types_told m ≡ types_made (node_numbers (Some ty.now) 0 next) (type_at_unknown _types.now)) }
{
    if !is_proper(env, ty) {
        return Err(NoMemory);
    }
    let first = Shared::new(alloc, ty.try_copy(alloc)?)?;
    let rest = Shared::new(alloc, Tys::Empty)?;
    Ok(MadeTypes {
        types: Tys::More(first, rest),
        next,
    })
}

#[tactic(auto, using(crate::proofs::FillingSteps::counting))]
fn build_unknowns(
    alloc: Global,
    count: u32,
    next: u128,
    types: &[Ty],
) -> Result<MadeTypes, NoMemory>
    ensures { IfOk result (λ m. types_told m ≡ types_made (node_numbers None count next) (type_at_unknown types.now)) }
{
    let Some(end) = next.checked_add(u128::from(count)) else {
        return Err(NoMemory)
    };
    let mut list = Tys::Empty;
    let mut unknown = end;
    while unknown > next {
        unknown -= 1;
        let rest = Shared::new(alloc, list)?;
        list = Tys::More(
            Shared::new(alloc, unknown_type(alloc, unknown, types)?)?,
            rest,
        );
    }
    Ok(MadeTypes {
        types: list,
        next: end,
    })
}

#[cycle(build)]
#[tactic(auto, using(crate::proofs::FillingSteps::walk))]
fn build_all(
    alloc: Global,
    env: &Env,
    children: &[Bare],
    next: u128,
    types: &[Ty],
) -> Result<AllMade, NoMemory>
    ensures { IfOk result (λ m. all_made_told m ≡ all_made env.now (bares children.now) next (type_at_unknown types.now)) }
{
    let mut trees = Trees::new(alloc);
    let mut unused = next;
    for child in children {
        let one = build(alloc, env, child, unused, types)?;
        trees.push(alloc, one.tree)?;
        unused = one.next;
    }
    Ok(AllMade {
        trees,
        next: unused,
    })
}
