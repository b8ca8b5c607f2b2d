//! What the formulas are made of: variables, types, applications, quantifiers.
ghost use Rattle.std.specs.Prelude.{◌≡◌, ◌≤◌, ◌+◌, ◌++◌, ◌^◌, ◌↔◌, map, IsTrue, IfOk, OnOk};
ghost use Rattle.ev_terms.specs.declared.types.Ty.{Param};
ghost use Rattle.ev_terms.specs.Types.{type_list};
ghost use Rattle.ev_terms.specs.Substitution.{type_inst, type_at};
ghost use Rattle.ev_forms.specs.Forms.{equation, forall_all, vars_above, call};
ghost use Rattle.ev_typing.specs.TypeLists.{types, own_types};
ghost use Rattle.ev_typing.specs.Env.{field_types};
ghost use Rattle.ev_data.specs.Induction.{are_own, is_recursive};

use ev_forms::{Binder, Connective, Relation, make_bound, make_joined, make_related};
use ev_terms::{
    Name, NoMemory, Shared, Sym, Tree, Trees, TryCopy, Ty, Tys, instantiate_type, make_node,
    make_var,
};
use ev_typing::{Con, DataDecl};
use std::alloc::Global;

/// The variables of n binders that have `inner` more binders inside them, the outermost first.
#[tactic(auto, using(crate::proofs::Lists::variables))]
pub fn make_vars(alloc: Global, n: u32, inner: u32) -> Result<Trees, NoMemory>
    requires { n + inner ≤ 2 ^ 32 }
    ensures { IfOk result (λ ts. ts ≡ vars_above n inner) }
{
    let mut all = Trees::new(alloc);
    let mut left = n;
    while left > 0 {
        left -= 1;
        all.push(alloc, make_var(alloc, left + inner)?)?;
    }
    Ok(all)
}

/// A symbol's own type parameters, of which there are n.
#[tactic(auto, using(crate::proofs::Lists::own_lists))]
pub fn make_own_types(alloc: Global, n: u32) -> Result<Tys, NoMemory>
    ensures { IfOk result (λ As. As ≡ own_types n) }
{
    let mut list = Tys::Empty;
    let mut left = n;
    while left > 0 {
        left -= 1;
        let first = Shared::new(alloc, Ty::Param(left))?;
        list = Tys::More(first, Shared::new(alloc, list)?);
    }
    Ok(list)
}

/// A constructor, destructor or operator at types on arguments.
pub(crate) fn make_call(
    alloc: Global,
    name: &Name,
    types: &Tys,
    args: Trees,
) -> Result<Tree, NoMemory>
    ensures { IfOk result (λ t. t ≡ call name.now types.now args) }
{
    let sym = Sym::User(name.try_copy(alloc)?);
    make_node(alloc, sym, types.try_copy(alloc)?, args)
}

/// `s <=> t` between predicates, `s = t` between expressions of the type.
#[tactic(auto, using(crate::proofs::Lists::equations))]
pub(crate) fn make_equation(
    alloc: Global,
    ty: &Ty,
    left: Tree,
    right: Tree,
) -> Result<Tree, NoMemory>
    ensures { IfOk result (λ t. t ≡ equation ty.now left right) }
{
    match ty {
        Ty::Prop => make_joined(alloc, Connective::Iff, left, right),
        _ => make_related(alloc, Relation::Equal, ty.try_copy(alloc)?, left, right),
    }
}

/// `!xs. P`, the first type being that of the outermost variable.
#[tactic(auto, using(crate::proofs::Lists::quantified))]
pub fn make_for_all(alloc: Global, types: &[Ty], body: Tree) -> Result<Tree, NoMemory>
    ensures { IfOk result (λ t. t ≡ forall_all types.now body) }
{
    let mut tree = body;
    let mut left = types.len();
    while left > 0 {
        left -= 1;
        tree = make_bound(alloc, Binder::ForAll, types[left].try_copy(alloc)?, tree)?;
    }
    Ok(tree)
}

/// The types of a constructor's arguments.
pub(crate) fn field_types(alloc: Global, con: &Con) -> Result<Vec<Ty>, NoMemory>
    ensures { IfOk result (λ As. As.items ≡ field_types con.now) }
{
    let mut all = Vec::new(alloc);
    for field in con.fields.as_slice() {
        all.push(field.ty.try_copy(alloc)?)?;
    }
    Ok(all)
}

/// The same with types put for the datatype's parameters.
pub(crate) fn field_types_at(alloc: Global, con: &Con, types: &Tys) -> Result<Vec<Ty>, NoMemory>
    ensures { IfOk result (λ As. As.items ≡ map (type_inst (type_at types.now)) (field_types con.now)) }
{
    let mut all = Vec::new(alloc);
    for field in con.fields.as_slice() {
        all.push(instantiate_type(alloc, &field.ty, types)?)?;
    }
    Ok(all)
}

/// The types of a list.
#[tactic(auto, using(crate::proofs::Lists::type_lists))]
pub(crate) fn listed_types(alloc: Global, list: &Tys) -> Result<Vec<Ty>, NoMemory>
    ensures { IfOk result (λ As. As.items ≡ type_list list.now) }
{
    let mut all = Vec::new(alloc);
    let mut left = list;
    while let Tys::More(ty, rest) = left {
        all.push(ty.get().try_copy(alloc)?)?;
        left = rest.get();
    }
    Ok(all)
}

/// A list of types.
#[tactic(auto, using(crate::proofs::Lists::rows_of_types))]
pub(crate) fn make_types(alloc: Global, all: &[Ty]) -> Result<Tys, NoMemory>
    ensures { IfOk result (λ As. As ≡ types all.now) }
{
    let mut list = Tys::Empty;
    let mut left = all.len();
    while left > 0 {
        left -= 1;
        let first = Shared::new(alloc, all[left].try_copy(alloc)?)?;
        list = Tys::More(first, Shared::new(alloc, list)?);
    }
    Ok(list)
}

/// Appends copies of the types.
pub(crate) fn append_types(all: &mut Vec<Ty>, alloc: Global, types: &[Ty]) -> Result<(), NoMemory>
    ensures { OnOk result (all.new.items ≡ all.old.items ++ types.now) }
{
    for ty in types {
        all.push(ty.try_copy(alloc)?)?;
    }
    Ok(())
}

/// Appends copies of the terms.
pub(crate) fn append_trees(all: &mut Trees, alloc: Global, trees: &[Tree]) -> Result<(), NoMemory>
    ensures { OnOk result (all.new ≡ all.old ++ trees.now) }
{
    for tree in trees {
        all.push(alloc, tree.try_copy(alloc)?)?;
    }
    Ok(())
}

/// Whether a constructor's argument of the type is recursive: the type is the datatype at its own parameters.
#[tactic(auto, using(crate::proofs::Lists::other_types))]
pub fn is_recursive(decl: &DataDecl, ty: &Ty) -> bool
    ensures { result ≡ is_recursive decl.now ty.now }
{
    match ty {
        Ty::Data(name, types) => *name == decl.name && are_own(types, decl.params),
        Ty::Int | Ty::Bool | Ty::Prop | Ty::Param(_) | Ty::Pow(_) | Ty::Prod(_, _) => false,
    }
}

/// Whether the types are the n type parameters of a symbol, in order.
#[tactic(auto, using(crate::proofs::Lists::own_walk))]
fn are_own(types: &Tys, n: u32) -> bool
    ensures { result ≡ are_own 0 n types.now }
{
    let mut left = types;
    let mut i = 0;
    while let Tys::More(ty, rest) = left {
        if i == n {
            return false;
        }
        if !is_param(ty.get(), i) {
            return false;
        }
        i += 1;
        left = rest.get();
    }
    i == n
}

fn is_param(ty: &Ty, i: u32) -> bool
    ensures { IsTrue result ↔ (ty.now ≡ Param i) }
{
    match ty {
        Ty::Param(j) => *j == i,
        Ty::Int | Ty::Bool | Ty::Prop | Ty::Pow(_) | Ty::Prod(_, _) | Ty::Data(_, _) => false,
    }
}
