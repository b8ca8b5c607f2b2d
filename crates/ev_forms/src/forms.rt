//! Terms at base symbols with type arguments: quantifiers, the set former, equality, membership, truth values. Source: Métayer and
//! Voisin, The Event-B Mathematical Language.
ghost use Rattle.std.specs.Prelude.{◌≡◌, ◌≢◌, ◌↔◌, Some, [], ◌∷◌, IsTrue, IfOk, IfSome, IfNone};
ghost use Rattle.ev_terms.specs.Term.{Term, Terms, node, nil, cons, terms, types_of};
ghost use Rattle.ev_terms.specs.declared.types.Sym.{Sym};
ghost use Rattle.ev_terms.specs.declared.types.Sym.TheVariants.{Base};
ghost use Rattle.ev_terms.specs.declared.types.Ty.{Ty, Prop};
ghost use Rattle.ev_terms.specs.declared.types.Tys.{Tys, Empty};
ghost use Rattle.ev_forms.specs.Base.{at_type};
ghost use Rattle.ev_forms.specs.Forms.{neg, bool_of, bool_true, equation};
ghost use Rattle.ev_forms.specs.Binders.{bound, related, equated};

use crate::connectives::{Connective, base_parts, is_leaf, joined_parts, pair_of};
use ev_terms::symbols::{BOOL, EQUAL, FOR_ALL, FOR_SOME, IN, NOT, SET, TRUE_VALUE};
use ev_terms::{NoMemory, Sym, Tree, Trees, Ty, Tys, make_node};
use std::alloc::Global;

/// A symbol that binds one variable in its child: `!`, `#` or the set former.
#[derive(Debug, Clone, Copy, PartialEq, Eq)]
pub enum Binder {
    ForAll,
    ForSome,
    SetOf,
}

/// A symbol between two terms: `=` between two of a type, `:` between one of a type and a set of such.
#[derive(Debug, Clone, Copy, PartialEq, Eq)]
pub enum Relation {
    Equal,
    In,
}

fn row_of_binder(binder: Binder) -> u16
    ensures { (A : Ty) (P : Term) → node (Base result) (at_type A) (cons P nil) ≡ bound binder A P }
{
    match binder {
        Binder::ForAll => FOR_ALL,
        Binder::ForSome => FOR_SOME,
        Binder::SetOf => SET,
    }
}

fn row_of_relation(relation: Relation) -> u16
    ensures { (A : Ty) (s t : Term) → node (Base result) (at_type A) (cons s (cons t nil)) ≡ related relation A s t }
{
    match relation {
        Relation::Equal => EQUAL,
        Relation::In => IN,
    }
}

/// `!x. P`, `#x. P` or `{x | P}` with x of the type. The variable 0 of P is the one that is bound.
pub fn make_bound(alloc: Global, binder: Binder, ty: Ty, body: Tree) -> Result<Tree, NoMemory>
    ensures { IfOk result (λ t. t ≡ bound binder ty body) }
{
    let mut children = Trees::new(alloc);
    children.push(alloc, body)?;
    let types = Tys::one(alloc, ty)?;
    make_node(alloc, Sym::Base(row_of_binder(binder)), types, children)
}

/// `s = t` for s and t of the type, or `s : t` for s of the type and t a set of such.
pub fn make_related(
    alloc: Global,
    relation: Relation,
    ty: Ty,
    left: Tree,
    right: Tree,
) -> Result<Tree, NoMemory>
    ensures { IfOk result (λ t. t ≡ related relation ty left right) }
{
    let mut children = Trees::new(alloc);
    children.push(alloc, left)?;
    children.push(alloc, right)?;
    let types = Tys::one(alloc, ty)?;
    make_node(alloc, Sym::Base(row_of_relation(relation)), types, children)
}

/// `bool(P)`
pub fn make_bool(alloc: Global, predicate: Tree) -> Result<Tree, NoMemory>
    ensures { IfOk result (λ t. t ≡ bool_of predicate) }
{
    let mut children = Trees::new(alloc);
    children.push(alloc, predicate)?;
    make_node(alloc, Sym::Base(BOOL), Tys::Empty, children)
}

/// `TRUE`
pub fn make_true_value(alloc: Global) -> Result<Tree, NoMemory>
    ensures { IfOk result (λ t. t ≡ bool_true) }
{
    make_node(alloc, Sym::Base(TRUE_VALUE), Tys::Empty, Trees::new(alloc))
}

/// The symbol, the type arguments and the children of a term that has a symbol at its root.
#[tactic(auto, using(crate::proofs::FormViews::nodes))]
pub fn node_parts(tree: &Tree) -> Option<(&Sym, &Tys, &[Tree])>
    ensures found { IfSome result (λ p. tree.now ≡ node p.0.now p.1.now (terms p.2.now)) }
    ensures none { IfNone result ((s : Sym) (As : Tys) (ts : Terms) → tree.now ≢ node s As ts) }
{
    match (tree.sym(), tree.types()) {
        (Some(sym), Some(types)) => Some((sym, types, tree.children())),
        _ => None,
    }
}

/// The type arguments and the children of a term that has this base symbol at its root.
#[tactic(auto, using(crate::proofs::FormViews::rows))]
fn row_parts(tree: &Tree, row: u16) -> Option<(&Tys, &[Tree])>
    ensures found { IfSome result (λ p. tree.now ≡ node (Base row) p.0.now (terms p.1.now)) }
    ensures none { IfNone result ((As : Tys) (ts : Terms) → tree.now ≢ node (Base row) As ts) }
{
    let (sym, types, children) = node_parts(tree)?;
    match sym {
        Sym::Base(found) => if *found == row {
            Some((types, children))
        } else {
            None
        },
        Sym::User(_) => None,
    }
}

/// The only type of a list.
#[tactic(auto, using(crate::proofs::FormViews::one_type))]
fn only_type(types: &Tys) -> Option<&Ty>
    ensures found { IfSome result (λ A. types.now ≡ at_type A.now) }
    ensures none { IfNone result ((A : Ty) → types.now ≢ at_type A) }
{
    match types {
        Tys::Empty => None,
        Tys::More(ty, rest) => match rest.get() {
            Tys::Empty => Some(ty.get()),
            Tys::More(_, _) => None,
        },
    }
}

/// The only child of a node with one.
fn only_of(children: &[Tree]) -> Option<&Tree>
    ensures found { IfSome result (λ t. children.now ≡ t.now ∷ []) }
    ensures none { IfNone result ((t : Term) → children.now ≢ t ∷ []) }
{
    match children {
        [only] => Some(only),
        _ => None,
    }
}

/// The type of the bound variable and the predicate under the binder, where the term is such.
pub fn bound_parts(tree: &Tree, binder: Binder) -> Option<(&Ty, &Tree)>
    ensures found { IfSome result (λ p. tree.now ≡ bound binder p.0.now p.1.now) }
    ensures none { IfNone result ((A : Ty) (P : Term) → tree.now ≢ bound binder A P) }
{
    let (types, children) = row_parts(tree, row_of_binder(binder))?;
    let ty = only_type(types)?;
    let body = only_of(children)?;
    Some((ty, body))
}

/// The type and the two terms that the relation stands between, where the term is such.
pub fn related_parts(tree: &Tree, relation: Relation) -> Option<(&Ty, &Tree, &Tree)>
    ensures found { IfSome result (λ p. tree.now ≡ related relation p.0.now p.1.now p.2.now) }
    ensures none { IfNone result ((A : Ty) (s t : Term) → tree.now ≢ related relation A s t) }
{
    let (types, children) = row_parts(tree, row_of_relation(relation))?;
    let ty = only_type(types)?;
    let (left, right) = pair_of(children)?;
    Some((ty, left, right))
}

/// The predicate that is negated, where the term is a negation.
pub fn negated_part(tree: &Tree) -> Option<&Tree>
    ensures found { IfSome result (λ P. tree.now ≡ neg P.now) }
    ensures none { IfNone result ((P : Term) → tree.now ≢ neg P) }
{
    only_child(tree, NOT)
}

/// The predicate P, where the term is `bool(P)`.
pub fn bool_part(tree: &Tree) -> Option<&Tree>
    ensures found { IfSome result (λ P. tree.now ≡ bool_of P.now) }
    ensures none { IfNone result ((P : Term) → tree.now ≢ bool_of P) }
{
    only_child(tree, BOOL)
}

/// Whether the term is `TRUE`.
pub fn is_true_value(tree: &Tree) -> bool
    ensures { IsTrue result ↔ (tree.now ≡ bool_true) }
{
    is_leaf(tree, TRUE_VALUE)
}

/// The only child of a term at this base symbol without type arguments.
#[tactic(auto, using(crate::proofs::FormViews::one_child))]
fn only_child(tree: &Tree, row: u16) -> Option<&Tree>
    ensures found { IfSome result (λ P. tree.now ≡ node (Base row) Empty (cons P.now nil)) }
    ensures none { IfNone result ((P : Term) → tree.now ≢ node (Base row) Empty (cons P nil)) }
{
    let (found, children) = base_parts(tree)?;
    if found != row {
        return None;
    }
    only_of(children)
}

/// An equation's type arguments, which are none for `<=>` and the type for `=`, and its two sides. `=` at `Prop`, which no typed
/// term has, is no equation.
#[tactic(auto, using(crate::proofs::FormViews::equations))]
pub fn equation_parts(tree: &Tree) -> Option<(&Tys, &Tree, &Tree)>
    ensures found { IfSome result (λ e. (tree.now ≡ equation (equated e.0.now) e.1.now e.2.now) × (types_of tree.now ≡ Some e.0.now)) }
    ensures none { IfNone result ((A : Ty) (s t : Term) → tree.now ≢ equation A s t) }
{
    let (left, right) = sides_of(tree)?;
    match tree.types() {
        Some(types) => Some((types, left, right)),
        None => unreachable!(),
    }
}

/// The two sides of an equation.
#[tactic(auto, using(crate::proofs::FormViews::sides))]
fn sides_of(tree: &Tree) -> Option<(&Tree, &Tree)>
    ensures found { IfSome result (λ p. (A : Ty) × (tree.now ≡ equation A p.0.now p.1.now)) }
    ensures none { IfNone result ((A : Ty) (s t : Term) → tree.now ≢ equation A s t) }
{
    match joined_parts(tree, Connective::Iff) {
        Some(sides) => Some(sides),
        None => expressions_of(tree),
    }
}

/// The two sides of an equation between expressions.
#[tactic(auto, using(crate::proofs::FormViews::sides))]
fn expressions_of(tree: &Tree) -> Option<(&Tree, &Tree)>
    ensures found { IfSome result (λ p. (A : Ty) × (tree.now ≡ equation A p.0.now p.1.now)) }
    ensures none { IfNone result ((A : Ty) (s t : Term) → A ≢ Prop → tree.now ≢ equation A s t) }
{
    match related_parts(tree, Relation::Equal) {
        Some((ty, left, right)) => if is_prop(ty) {
            None
        } else {
            Some((left, right))
        },
        None => None,
    }
}

fn is_prop(ty: &Ty) -> bool
    ensures { IsTrue result ↔ (ty.now ≡ Prop) }
{
    match ty {
        Ty::Prop => true,
        _ => false,
    }
}
