//! The facts on literals.
ghost use Rattle.std.specs.Prelude.{◌≡◌, ◌≢◌, ◌↔◌, ◌+◌, ◌*◌, ◌<◌, ◌≤◌, ◌^◌, ℕ, [], ◌∷◌, Some, IsTrue, IfSome, IfNone};
ghost use Rattle.ev_terms.specs.declared.types.Ty.{Int};
ghost use Rattle.ev_terms.specs.declared.types.Tys.{Empty};
ghost use Rattle.ev_terms.specs.declared.types.Sym.TheVariants.{Base};
ghost use Rattle.ev_terms.specs.Term.{Term, lit, node, nil, cons};
ghost use Rattle.ev_forms.specs.Forms.{eq, neg, less, at_most, plus, times};
ghost use Rattle.ev_kernel.specs.Row.{Row, IsCalculated};
ghost use Rattle.ev_kernel.specs.declared.rules.BaseRule.TheVariants.{Calc};

use ev_forms::{Relation, negated_part, node_parts, related_parts};
use ev_terms::symbols::{AT_MOST, LESS, PLUS, TIMES};
use ev_terms::{Sym, Tree, Ty, Tys};
use ev_typing::Sequent;

/// The two children of a node with two.
fn pair_of(children: &[Tree]) -> Option<(&Tree, &Tree)>
    ensures found { IfSome result (λ p. children.now ≡ p.0.now ∷ p.1.now ∷ []) }
    ensures none { IfNone result ((s t : Term) → children.now ≢ s ∷ t ∷ []) }
{
    match children {
        [left, right] => Some((left, right)),
        _ => None,
    }
}

/// The two literals under this base symbol without type arguments.
#[tactic(auto, using(crate::proofs::Calculated::literal_pairs))]
fn literals_of(tree: &Tree, row: u16) -> Option<(u128, u128)>
    ensures found { IfSome result (λ p. tree.now ≡ node (Base row) Empty (cons (lit p.0) (cons (lit p.1) nil))) }
    ensures small { IfSome result (λ p. (p.0 < 2 ^ 127) × (p.1 < 2 ^ 127)) }
    ensures none { IfNone result ((a b : ℕ) → tree.now ≢ node (Base row) Empty (cons (lit a) (cons (lit b) nil))) }
{
    let Some((Sym::Base(found), Tys::Empty, children)) = node_parts(tree) else {
        return None;
    };
    if *found != row {
        return None;
    }
    let (left, right) = pair_of(children)?;
    Some((left.lit()?, right.lit()?))
}

fn is_int(ty: &Ty) -> bool
    ensures { IsTrue result ↔ (ty.now ≡ Int) }
{
    match ty {
        Ty::Int => true,
        _ => false,
    }
}

/// The two sides of an equation between integers, the right one a literal.
fn valued(tree: &Tree) -> Option<(&Tree, u128)>
    ensures found { IfSome result (λ p. tree.now ≡ eq Int p.0.now (lit p.1)) }
    ensures small { IfSome result (λ p. p.1 < 2 ^ 127) }
    ensures none { IfNone result ((t : Term) (n : ℕ) → tree.now ≢ eq Int t (lit n)) }
{
    let (ty, left, right) = related_parts(tree, Relation::Equal)?;
    if !is_int(ty) {
        return None;
    }
    Some((left, right.lit()?))
}

/// Whether the predicate is `a + b = c`, and true.
fn adds(tree: &Tree) -> bool
    ensures { IsTrue result ↔ ((a b : ℕ) × (tree.now ≡ eq Int (plus (lit a) (lit b)) (lit (a + b)))) }
{
    let Some((sum, value)) = valued(tree) else {
        return false;
    };
    match literals_of(sum, PLUS) {
        Some((a, b)) => a + b == value,
        None => false,
    }
}

/// Whether the predicate is `a * b = c`, and true.
fn multiplies(tree: &Tree) -> bool
    ensures { IsTrue result ↔ ((a b : ℕ) × (tree.now ≡ eq Int (times (lit a) (lit b)) (lit (a * b)))) }
{
    let Some((product, value)) = valued(tree) else {
        return false;
    };
    match literals_of(product, TIMES) {
        Some((a, b)) => match a.checked_mul(b) {
            Some(n) => n == value,
            None => false,
        },
        None => false,
    }
}

/// Whether the predicate is `a <= b`, and true.
fn orders(tree: &Tree) -> bool
    ensures { IsTrue result ↔ ((a b : ℕ) × (a ≤ b) × (tree.now ≡ at_most (lit a) (lit b))) }
{
    match literals_of(tree, AT_MOST) {
        Some((a, b)) => a <= b,
        None => false,
    }
}

/// Whether the predicate is `a < b`, and true.
fn orders_strictly(tree: &Tree) -> bool
    ensures { IsTrue result ↔ ((a b : ℕ) × (a < b) × (tree.now ≡ less (lit a) (lit b))) }
{
    match literals_of(tree, LESS) {
        Some((a, b)) => a < b,
        None => false,
    }
}

/// The two literals of an equation.
fn equated_literals(tree: &Tree) -> Option<(u128, u128)>
    ensures found { IfSome result (λ p. tree.now ≡ eq Int (lit p.0) (lit p.1)) }
    ensures none { IfNone result ((a b : ℕ) → tree.now ≢ eq Int (lit a) (lit b)) }
{
    let (left, right) = valued(tree)?;
    Some((left.lit()?, right))
}

/// Whether the predicate is `not a = b`, and true.
fn differs(tree: &Tree) -> bool
    ensures { IsTrue result ↔ ((a b : ℕ) × (a ≢ b) × (tree.now ≡ neg (eq Int (lit a) (lit b)))) }
{
    let Some(equation) = negated_part(tree) else {
        return false;
    };
    match equated_literals(equation) {
        Some((a, b)) => a != b,
        None => false,
    }
}

/// Whether the predicate is a fact on literals.
fn is_calculated(tree: &Tree) -> bool
    ensures { IsTrue result ↔ IsCalculated tree.now }
{
    if adds(tree) {
        return true;
    }
    if multiplies(tree) {
        return true;
    }
    if orders(tree) {
        return true;
    }
    if orders_strictly(tree) {
        return true;
    }
    differs(tree)
}

/// The row of calculation.
pub(crate) fn calculation(sequent: &Sequent) -> bool
    ensures { IsTrue result ↔ Row [] [] Calc sequent.now }
{
    is_calculated(&sequent.goal)
}
