//! Where a recursive operator calls itself.
ghost use Rattle.std.specs.Prelude.{◌≡◌, ◌≢◌, true, ◌&&◌, ◌≤◌, ◌<◌, ◌+◌, ◌-◌, ◌^◌, ◌↔◌, IsTrue, IfSome, IfNone, slice_get, drop, length};
ghost use Rattle.ev_terms.specs.declared.types.Ty.{Ty as TheTy, Param, Data};
ghost use Rattle.ev_terms.specs.declared.types.Ty.TheVariants.{Pow, Prod};
ghost use Rattle.ev_terms.specs.declared.types.Tys.{Tys as TheTys, Empty};
ghost use Rattle.ev_terms.specs.declared.types.Tys.TheVariants.{More};
ghost use Rattle.ev_typing.specs.Env.{Name as TheName};
ghost use Rattle.ev_terms.specs.Substitution.{type_inst, types_inst, type_at};
ghost use Rattle.ev_terms.specs.Types.{type_list};
ghost use Rattle.ev_terms.specs.Measures.{capped};
ghost use Rattle.ev_terms.specs.Term.{terms};
ghost use Rattle.ev_typing.specs.TypeLists.{own_types};
ghost use Rattle.ev_data.specs.Guarded.{is_named, IsVarOf};
ghost use Rattle.ev_ops.specs.inner.Tests.{calls, some_call, IsOwnVar, IsSeenVar, IsSeen, IsGuardedUnder, AreGuardedUnder};

use ev_forms::node_parts;
use ev_terms::{Name, Same, Sym, Tree, Ty, Tys, binds, loose};
use ev_typing::{Con, Signature};

/// A constructor's case of a recursive operator: the operator with its inductive place, from 0, the type there with the types that it
/// has, and the constructor.
#[derive(Drop)]
pub(crate) struct Guard<'a> {
    pub sig: &'a Signature,
    pub place: u32,
    pub own: &'a Ty,
    pub types: &'a Tys,
    pub con: &'a Con,
}

/// Whether under so many binders each call of the operator in the term is at its own parameters and has, at the inductive place, a
/// variable of the constructor whose type is the one there.
#[cycle(guarded)]
#[tactic(auto, using(crate::proofs::Guarding::walk))]
pub(crate) fn is_guarded(guard: &Guard, depth: u64, tree: &Tree) -> bool
    ensures { IsTrue result ↔ IsGuardedUnder guard.now.sig.now guard.now.place guard.now.own.now guard.now.types.now guard.now.con.now depth tree.now }
{
    if loose(tree) <= depth {
        return !calls(guard.sig, tree);
    }
    match node_parts(tree) {
        Some((sym, types, children)) => {
            if !is_guarded_at(guard, depth, sym, types, children) {
                return false;
            }
            are_guarded(guard, depth + u64::from(binds(sym)), children)
        }
        None => true,
    }
}

#[cycle(guarded)]
#[tactic(auto, using(crate::proofs::Guarding::walk))]
fn are_guarded(guard: &Guard, depth: u64, trees: &[Tree]) -> bool
    ensures { IsTrue result ↔ AreGuardedUnder guard.now.sig.now guard.now.place guard.now.own.now guard.now.types.now guard.now.con.now depth (terms trees.now) }
{
    for tree in trees {
        if !is_guarded(guard, depth, tree) {
            return false;
        }
    }
    true
}

/// Whether the symbol is not the operator, or its call at the types and on the arguments is as it must be.
#[tactic(auto, using(crate::proofs::Guarding::calls_of))]
fn is_guarded_at(guard: &Guard, depth: u64, sym: &Sym, types: &Tys, arguments: &[Tree]) -> bool
    ensures { IsTrue result ↔ (is_named guard.now.sig.now.name sym.now ≡ true → IsSeen guard.now.sig.now guard.now.place guard.now.own.now guard.now.types.now guard.now.con.now depth types.now arguments.now) }
{
    if !is_named(guard.sig, sym) {
        return true;
    }
    is_call_guarded(guard, depth, types, arguments)
}

/// Whether the operator is called in the term.
#[cycle(calls)]
#[tactic(auto, using(crate::proofs::Guarding::calling))]
fn calls(sig: &Signature, tree: &Tree) -> bool
    ensures { result ≡ calls sig.now.name tree.now }
{
    match node_parts(tree) {
        Some((sym, _, children)) => is_named(sig, sym) || some_call(sig, children),
        None => false,
    }
}

#[cycle(calls)]
#[tactic(auto, using(crate::proofs::Guarding::calling))]
fn some_call(sig: &Signature, trees: &[Tree]) -> bool
    ensures { result ≡ some_call sig.now.name (terms trees.now) }
{
    for tree in trees {
        if calls(sig, tree) {
            return true;
        }
    }
    false
}

fn is_named(sig: &Signature, sym: &Sym) -> bool
    ensures { result ≡ is_named sig.now.name sym.now }
{
    match sym {
        Sym::Base(_) => false,
        Sym::User(name) => *name == sig.name,
    }
}

/// Whether a call at the types and on the arguments is as it must be.
#[tactic(auto, using(crate::proofs::Guarding::called))]
fn is_call_guarded(guard: &Guard, depth: u64, types: &Tys, arguments: &[Tree]) -> bool
    ensures { IsTrue result ↔ IsSeen guard.now.sig.now guard.now.place guard.now.own.now guard.now.types.now guard.now.con.now depth types.now arguments.now }
{
    are_own_types(types, guard.sig.params) && is_argument(guard, depth, arguments)
}

/// Whether the types are the n parameters of an operator, in order.
fn are_own_types(types: &Tys, n: u32) -> bool
    ensures { IsTrue result ↔ (types.now ≡ own_types n) }
{
    let mut left = types;
    let mut i = 0;
    while let Tys::More(ty, rest) = left {
        if i == n {
            return false;
        }
        if !is_param(ty.get(), i) {
            return false;
        }
        i += 1;
        left = rest.get();
    }
    i == n
}

fn is_param(ty: &Ty, i: u32) -> bool
    ensures { IsTrue result ↔ (ty.now ≡ Param i) }
{
    match ty {
        Ty::Param(j) => *j == i,
        _ => false,
    }
}

/// Whether the argument at the inductive place is a variable of the constructor of the type there, seen from under so many binders.
#[tactic(auto, using(crate::proofs::Guarding::argued))]
fn is_argument(guard: &Guard, depth: u64, arguments: &[Tree]) -> bool
    ensures { IsTrue result ↔ IsVarOf (IsSeenVar guard.now.sig.now guard.now.place guard.now.own.now guard.now.types.now guard.now.con.now depth) (slice_get arguments.now guard.now.place) }
{
    let Some(argument) = arguments.get(guard.place as usize) else {
        return false;
    };
    match argument.var() {
        Some(i) => depth <= u64::from(i) && is_own_var(guard, u64::from(i) - depth),
        None => false,
    }
}

/// Whether the variable of a case is one of the constructor's, and has the type at the inductive place.
#[tactic(auto, using(crate::proofs::Guarding::variables))]
fn is_own_var(guard: &Guard, i: u64) -> bool
    requires { i < 2 ^ 32 }
    ensures { IsTrue result ↔ IsOwnVar guard.now.sig.now guard.now.place guard.now.own.now guard.now.types.now guard.now.con.now i }
{
    let behind = count(behind(&guard.sig.args, guard.place));
    let fields = guard.con.fields.as_slice();
    if i < behind || fields.len() as u64 <= i - behind {
        return false;
    }
    let at = fields.len() - 1 - (i - behind) as usize;
    is_instance(&fields[at].ty, guard.types, guard.own)
}

/// The types behind the place.
#[tactic(auto, using(crate::proofs::Guarding::walked))]
fn behind(list: &Tys, place: u32) -> &Tys
    ensures { type_list result.now ≡ drop (place + 1) (type_list list.now) }
{
    let mut left = list;
    let mut further = place;
    while let Tys::More(_, rest) = left {
        left = rest.get();
        if further == 0 {
            return left;
        }
        further -= 1;
    }
    left
}

/// How many types there are, as far as the number goes.
#[tactic(auto, using(crate::proofs::Guarding::walked))]
pub(crate) fn count(list: &Tys) -> u64
    ensures { result ≡ capped (length (type_list list.now)) }
{
    let mut n: u64 = 0;
    let mut left = list;
    while let Tys::More(_, rest) = left {
        n = n.saturating_add(1);
        left = rest.get();
    }
    n
}

fn set_part(ty: &Ty) -> Option<&Ty>
    ensures found { IfSome result (λ a. ty.now ≡ Pow a.now) }
    ensures none { IfNone result ((A : TheTy) → ty.now ≢ Pow A) }
{
    match ty {
        Ty::Pow(a) => Some(a.get()),
        _ => None,
    }
}

fn pair_parts(ty: &Ty) -> Option<(&Ty, &Ty)>
    ensures found { IfSome result (λ p. ty.now ≡ Prod p.0.now p.1.now) }
    ensures none { IfNone result ((A B : TheTy) → ty.now ≢ Prod A B) }
{
    match ty {
        Ty::Prod(a, b) => Some((a.get(), b.get())),
        _ => None,
    }
}

fn data_parts(ty: &Ty) -> Option<(&Name, &Tys)>
    ensures found { IfSome result (λ p. ty.now ≡ Data p.0.now p.1.now) }
    ensures none { IfNone result ((n : TheName) (As : TheTys) → ty.now ≢ Data n As) }
{
    match ty {
        Ty::Data(name, types) => Some((name, types)),
        _ => None,
    }
}

fn is_empty(list: &Tys) -> bool
    ensures { IsTrue result ↔ (list.now ≡ Empty) }
{
    match list {
        Tys::Empty => true,
        Tys::More(_, _) => false,
    }
}

fn more_parts(list: &Tys) -> Option<(&Ty, &Tys)>
    ensures found { IfSome result (λ p. list.now ≡ More p.0.now p.1.now) }
    ensures none { IfNone result ((A : TheTy) (As : TheTys) → list.now ≢ More A As) }
{
    match list {
        Tys::More(a, rest) => Some((a.get(), rest.get())),
        Tys::Empty => None,
    }
}

/// Whether the type is the other one with the types put in.
#[cycle(is_instance)]
#[tactic(auto, using(crate::proofs::Guarding::instances))]
fn is_instance(pattern: &Ty, types: &Tys, ty: &Ty) -> bool
    ensures { IsTrue result ↔ (type_inst (type_at types.now) pattern.now ≡ ty.now) }
{
    match pattern {
        Ty::Param(i) => is_param_at(*i, types, ty),
        Ty::Int => pattern.same(ty),
        Ty::Bool => pattern.same(ty),
        Ty::Prop => pattern.same(ty),
        Ty::Pow(a) => match set_part(ty) {
            Some(b) => is_instance(a.get(), types, b),
            None => false,
        },
        Ty::Prod(a, b) => match pair_parts(ty) {
            Some((c, d)) => both(
                is_instance(a.get(), types, c),
                is_instance(b.get(), types, d),
            ),
            None => false,
        },
        Ty::Data(name, list) => match data_parts(ty) {
            Some((other, others)) => both(*name == *other, are_instances(list, types, others)),
            None => false,
        },
    }
}

#[cycle(is_instance)]
#[tactic(auto, using(crate::proofs::Guarding::instances))]
fn are_instances(patterns: &Tys, types: &Tys, list: &Tys) -> bool
    ensures { IsTrue result ↔ (types_inst (type_at types.now) patterns.now ≡ list.now) }
{
    let mut left = patterns;
    let mut others = list;
    while let Tys::More(a, rest) = left {
        let Some((b, further)) = more_parts(others) else {
            return false;
        };
        if !is_instance(a.get(), types, b) {
            return false;
        }
        left = rest.get();
        others = further;
    }
    is_empty(others)
}

fn both(a: bool, b: bool) -> bool
    ensures { result ≡ (a && b) }
{
    a && b
}

fn is_param_at(i: u32, types: &Tys, ty: &Ty) -> bool
    ensures { IsTrue result ↔ (type_at types.now i ≡ ty.now) }
{
    match types.get(i as usize) {
        Some(a) => a.same(ty),
        None => is_param(ty, i),
    }
}
