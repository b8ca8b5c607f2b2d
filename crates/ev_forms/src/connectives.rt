ghost use Rattle.std.specs.Prelude.{◌≡◌, ◌≢◌, ◌↔◌, ℕ, [], ◌∷◌, IsTrue, IfOk, IfSome, IfNone};
ghost use Rattle.ev_terms.specs.Term.{Term, Terms, node, nil, cons, terms};
ghost use Rattle.ev_terms.specs.declared.types.Sym.TheVariants.{Base};
ghost use Rattle.ev_terms.specs.declared.types.Tys.{Empty};
ghost use Rattle.ev_forms.specs.Forms.{truth, falsity, neg};
ghost use Rattle.ev_forms.specs.Connectives.{joined};

use ev_terms::symbols::{AND, FALSE, IFF, IMPLIES, NOT, OR, TRUE};
use ev_terms::{NoMemory, Sym, Tree, Trees, Tys, make_node};
use std::alloc::Global;

/// A connective between two predicates.
#[derive(Debug, Clone, Copy, PartialEq, Eq)]
pub enum Connective {
    And,
    Or,
    Implies,
    Iff,
}

fn row_of(connective: Connective) -> u16
    ensures { (P Q : Term) → node (Base result) Empty (cons P (cons Q nil)) ≡ joined connective P Q }
{
    match connective {
        Connective::And => AND,
        Connective::Or => OR,
        Connective::Implies => IMPLIES,
        Connective::Iff => IFF,
    }
}

/// `true`
pub fn make_truth(alloc: Global) -> Result<Tree, NoMemory>
    ensures { IfOk result (λ t. t ≡ truth) }
{
    make_node(alloc, Sym::Base(TRUE), Tys::Empty, Trees::new(alloc))
}

/// `false`
pub fn make_falsity(alloc: Global) -> Result<Tree, NoMemory>
    ensures { IfOk result (λ t. t ≡ falsity) }
{
    make_node(alloc, Sym::Base(FALSE), Tys::Empty, Trees::new(alloc))
}

/// `not P`
pub fn make_negation(alloc: Global, negated: Tree) -> Result<Tree, NoMemory>
    ensures { IfOk result (λ t. t ≡ neg negated) }
{
    let mut children = Trees::new(alloc);
    children.push(alloc, negated)?;
    make_node(alloc, Sym::Base(NOT), Tys::Empty, children)
}

/// Two predicates with a connective between them.
pub fn make_joined(
    alloc: Global,
    connective: Connective,
    left: Tree,
    right: Tree,
) -> Result<Tree, NoMemory>
    ensures { IfOk result (λ t. t ≡ joined connective left right) }
{
    let mut children = Trees::new(alloc);
    children.push(alloc, left)?;
    children.push(alloc, right)?;
    make_node(alloc, Sym::Base(row_of(connective)), Tys::Empty, children)
}

/// The symbol's row and the children of a term that has a base symbol without type arguments at its root.
#[tactic(auto, using(crate::proofs::Views::base_node))]
pub(crate) fn base_parts(tree: &Tree) -> Option<(u16, &[Tree])>
    ensures found { IfSome result (λ p. tree.now ≡ node (Base p.0) Empty (terms p.1.now)) }
    ensures none { IfNone result ((row : ℕ) (ts : Terms) → tree.now ≢ node (Base row) Empty ts) }
{
    match (tree.sym(), tree.types()) {
        (Some(Sym::Base(row)), Some(Tys::Empty)) => Some((*row, tree.children())),
        _ => None,
    }
}

/// Whether the term is a base symbol alone.
#[tactic(auto, using(crate::proofs::Views::leaves))]
pub(crate) fn is_leaf(tree: &Tree, row: u16) -> bool
    ensures { IsTrue result ↔ (tree.now ≡ node (Base row) Empty nil) }
{
    match base_parts(tree) {
        Some((found, children)) => {
            if found != row {
                return false;
            }
            children.is_empty()
        }
        None => false,
    }
}

/// Whether the term is `true`.
pub fn is_truth(tree: &Tree) -> bool
    ensures { IsTrue result ↔ (tree.now ≡ truth) }
{
    is_leaf(tree, TRUE)
}

/// Whether the term is `false`.
pub fn is_falsity(tree: &Tree) -> bool
    ensures { IsTrue result ↔ (tree.now ≡ falsity) }
{
    is_leaf(tree, FALSE)
}

/// The two children of a node with two.
pub(crate) fn pair_of(children: &[Tree]) -> Option<(&Tree, &Tree)>
    ensures found { IfSome result (λ p. children.now ≡ p.0.now ∷ p.1.now ∷ []) }
    ensures none { IfNone result ((P Q : Term) → children.now ≢ P ∷ Q ∷ []) }
{
    match children {
        [left, right] => Some((left, right)),
        _ => None,
    }
}

/// The two predicates that the connective joins, where the term is such.
#[tactic(auto, using(crate::proofs::Views::pairs))]
pub fn joined_parts(tree: &Tree, connective: Connective) -> Option<(&Tree, &Tree)>
    ensures found { IfSome result (λ p. tree.now ≡ joined connective p.0.now p.1.now) }
    ensures none { IfNone result ((P Q : Term) → tree.now ≢ joined connective P Q) }
{
    let (row, children) = base_parts(tree)?;
    if row != row_of(connective) {
        return None;
    }
    pair_of(children)
}
