//! Congruence: a body with equal terms put for its variables gives equal terms.
ghost use Rattle.std.specs.Prelude.{List, [], ◌∷◌, ◌≡◌, ◌≤◌, ◌<◌, ◌+◌, ◌^◌, ◌↔◌, Some, None, map, length, slice_set, IfOk, IsTrue};
ghost use Rattle.std.specs.List.{AllByRecursion};
ghost use Rattle.ev_terms.specs.declared.types.Ty.{Ty};
ghost use Rattle.ev_terms.specs.Types.{type_list};
ghost use Rattle.ev_terms.specs.Term.{Term, node, terms, terms as all_of, sym_of};
ghost use Rattle.ev_terms.specs.Measures.{depth, depths, loose, highest};
ghost use Rattle.ev_terms.specs.Substitution.{shift, fill, entry};
ghost use Rattle.ev_typing.specs.declared.typing.Sequent.{Sequent};
ghost use Rattle.ev_typing.specs.Sequents.{◌⊢◌};
ghost use Rattle.ev_typing.specs.Typing.{Typed, AreTyped};
ghost use Rattle.ev_typing.specs.Occurs.{IsPlain};
ghost use Rattle.ev_kernel.specs.Row.{at_children};
ghost use Rattle.ev_kernel.specs.Derivable.{IsDerivation};
ghost use Rattle.ev_congruence.specs.Growing.{Extends};
ghost use Rattle.ev_congruence.specs.Limits.{KeepBetween};
ghost use Rattle.ev_congruence.specs.Settings.{IsBaseContext, AreAlike, FilledAreAlike};
ghost use Rattle.ev_congruence.specs.Equating.{Equates, AreEquatedBy, IsSettled, AreSettled, AreReady, AreSettledFor, IsCongruence};
ghost use Rattle.ev_congruence.specs.inner.Inside.{IsIndex, IsSettledOutside, put, AreAllAlike, IsByCongruence};

use crate::adding::from_lines;
use crate::forming::{at_children, equated_beside, sequent_of, type_of_typed, types_of_node};
use crate::known::Derivation;
use crate::moves::{lengthened, reflexivity};
use ev_forms::node_parts;
use ev_kernel::BaseRule;
use ev_terms::{
    ListOf, NoMemory, Nums, Sym, Tree, Trees, TryCopy, Ty, Tys, binds, loose, make_node, make_var,
    shift,
};
use ev_typing::{Env, Sequent};
use std::alloc::Global;

/// Terms pair by pair, in the context and under the hypotheses of a sequent, with the number of a line that equates the pair; none
/// where the two are one. The goal of the sequent does not count.
#[derive(Drop)]
pub struct Pairs {
    pub at: Sequent,
    pub lefts: Trees,
    pub rights: Trees,
    pub found: ListOf<Option<u128>>,
}

/// Two terms, and the number of a line that equates them; none where they are one.
#[derive(Drop)]
struct Sides {
    left: Tree,
    right: Tree,
    line: Option<u128>,
}

/// A symbol at type arguments on children.
#[derive(Drop)]
pub struct Application<'a> {
    pub sym: &'a Sym,
    pub types: &'a Tys,
    pub children: &'a [Tree],
}

/// One of the terms that a symbol is applied to, by its number from 0, what it is replaced by, and the number of a line that equates
/// the two in the context of the symbol's children.
#[derive(Drop)]
pub struct Change {
    pub place: usize,
    pub new: Tree,
    pub line: u128,
}

/// What congruence asks of both sides holds where the body and the terms are typed.
pub fn filled_terms()
    ensures { FilledAreAlike }
{}

/// Where the premises' lines equate the terms on the left with those on the right, in one context and under one list of hypotheses:
/// appends lines, and answers the number of one that equates the body with the left terms and the body with the right ones. The first
/// term stands for the outermost of the body's innermost variables; its other variables are those of the context.
pub fn congruence_of(
    alloc: Global,
    env: &Env,
    body: &Tree,
    left: &Trees,
    right: &Trees,
    premises: &Nums,
    lines: &mut Derivation,
) -> Result<u128, NoMemory>
    requires derivation { IsDerivation env.now lines.old }
    requires some { 0 < length premises.now }
    requires ready { (S : Sequent) × AreReady env.now lines.old S body.now left.now right.now premises.now }
    ensures line { IfOk result (λ n. IsCongruence env.now lines.old lines.new body.now left.now right.now premises.now n) }
    ensures extends { Extends env.now lines.old lines.new }
    ensures limits { (S : Sequent) → AreEquatedBy lines.old S left.now right.now premises.now → KeepBetween env.now lines.old lines.new S ((fill body.now left.now) ∷ []) ((fill body.now right.now) ∷ []) }
{
    let premises = premises.as_slice();
    let at = sequent_of(lines, premises[0]).try_copy(alloc)?;
    let pairs = Pairs {
        at,
        lefts: left.try_copy(alloc)?,
        rights: right.try_copy(alloc)?,
        found: all_some(alloc, premises)?,
    };
    congruence_beside(alloc, env, lines, body, &pairs)
}

/// The same for pairs of terms of which only those that differ have a line.
pub fn congruence_beside(
    alloc: Global,
    env: &Env,
    lines: &mut Derivation,
    body: &Tree,
    pairs: &Pairs,
) -> Result<u128, NoMemory>
    requires derivation { IsDerivation env.now lines.old }
    requires base { IsBaseContext env.now pairs.now.at }
    requires ready { AreSettledFor env.now lines.old pairs.now.at body.now pairs.now.lefts pairs.now.rights pairs.now.found }
    ensures line { IfOk result (λ n. Equates lines.new pairs.now.at (fill body.now pairs.now.lefts) (fill body.now pairs.now.rights) n) }
    ensures extends { Extends env.now lines.old lines.new }
    ensures limits { KeepBetween env.now lines.old lines.new pairs.now.at (fill body.now pairs.now.lefts ∷ []) (fill body.now pairs.now.rights ∷ []) }
{
    let sides = walk(alloc, env, lines, body, &pairs.at, 0, pairs)?;
    line_for(alloc, env, lines, &pairs.at, &sides.left, &sides.line)
}

/// One symbol on the same terms but for one, which a line equates with another term in the context of the symbol's children.
pub fn congruence_at_child(
    alloc: Global,
    env: &Env,
    lines: &mut Derivation,
    at: &Sequent,
    of: &Application,
    change: &Change,
) -> Result<u128, NoMemory>
    requires derivation { IsDerivation env.now lines.old }
    requires base { IsBaseContext env.now at.now }
    requires within { change.now.place < length of.now.children.now }
    requires room { length (type_list at.now.context) + (depths (terms at.now.hyps) + 1) < 2 ^ 32 }
    requires alike { AreAlike env.now (type_list at.now.context) (node of.now.sym.now of.now.types.now (terms of.now.children.now)) (node of.now.sym.now of.now.types.now (terms (slice_set of.now.children.now change.now.place change.now.new))) }
    requires given { Equates lines.old (at_children at.now of.now.sym.now of.now.types.now) (entry of.now.children.now change.now.place) change.now.new change.now.line }
    ensures line { IfOk result (λ n. Equates lines.new at.now (node of.now.sym.now of.now.types.now (terms of.now.children.now)) (node of.now.sym.now of.now.types.now (terms (slice_set of.now.children.now change.now.place change.now.new))) n) }
    ensures extends { Extends env.now lines.old lines.new }
    ensures limits { KeepBetween env.now lines.old lines.new at.now (node of.now.sym.now of.now.types.now (terms of.now.children.now) ∷ []) (node of.now.sym.now of.now.types.now (terms (slice_set of.now.children.now change.now.place change.now.new)) ∷ []) }
{
    let inner = at_children(alloc, at, of.sym, of.types)?;
    let children = but_one(alloc, &inner, of.children, change)?;
    let sides = joined(alloc, env, lines, at, of, children)?;
    line_for(alloc, env, lines, at, &sides.left, &sides.line)
}

/// The same terms on both sides but for one.
fn but_one(alloc: Global, at: &Sequent, trees: &[Tree], change: &Change) -> Result<Pairs, NoMemory>
    requires { change.now.place < length trees.now }
    ensures at { IfOk result (λ p. p.at ≡ at.now) }
    ensures lefts { IfOk result (λ p. p.lefts ≡ trees.now) }
    ensures rights { IfOk result (λ p. p.rights ≡ slice_set trees.now change.now.place change.now.new) }
    ensures found { IfOk result (λ p. p.found ≡ slice_set (map (λ t. None) trees.now) change.now.place (Some change.now.line)) }
{
    let mut rights = copies(alloc, trees)?;
    rights[change.place] = change.new.try_copy(alloc)?;
    let mut found = nones(alloc, trees)?;
    found[change.place] = Some(change.line);
    Ok(Pairs {
        at: at.try_copy(alloc)?,
        lefts: Trees::from_vec(copies(alloc, trees)?),
        rights: Trees::from_vec(rights),
        found: ListOf::from_vec(found),
    })
}

fn copies(alloc: Global, trees: &[Tree]) -> Result<Vec<Tree>, NoMemory>
    ensures { IfOk result (λ v. v.items ≡ trees.now) }
{
    let mut all = Vec::new(alloc);
    for tree in trees {
        all.push(tree.try_copy(alloc)?)?;
    }
    Ok(all)
}

fn nones(alloc: Global, trees: &[Tree]) -> Result<Vec<Option<u128>>, NoMemory>
    ensures { IfOk result (λ v. v.items ≡ map (λ t. None) trees.now) }
{
    let mut all = Vec::new(alloc);
    for _tree in trees {
        all.push(None)?;
    }
    Ok(all)
}

/// What the body becomes with the terms on the left and on the right, in the context of `at`, which has so many more variables than
/// that of the pairs.
#[cycle(walk)]
fn walk(
    alloc: Global,
    env: &Env,
    lines: &mut Derivation,
    body: &Tree,
    at: &Sequent,
    count: u32,
    pairs: &Pairs,
) -> Result<Sides, NoMemory>
    requires derivation { IsDerivation env.now lines.old }
    requires inside { IsIndex pairs.now.at at.now count }
    requires base { IsBaseContext env.now at.now }
    requires given { AreSettled lines.old pairs.now.at pairs.now.lefts pairs.now.rights pairs.now.found }
    requires room { length (type_list at.now.context) + (depths (terms at.now.hyps) + depth body.now) < 2 ^ 32 }
    requires alike { AreAlike env.now (type_list at.now.context) (put count pairs.now.lefts body.now) (put count pairs.now.rights body.now) }
    ensures left { IfOk result (λ s. s.left ≡ put count pairs.now.lefts body.now) }
    ensures right { IfOk result (λ s. s.right ≡ put count pairs.now.rights body.now) }
    ensures line { IfOk result (λ s. IsSettled lines.new at.now (put count pairs.now.lefts body.now) (put count pairs.now.rights body.now) s.line) }
    ensures extends { Extends env.now lines.old lines.new }
    ensures limits { KeepBetween env.now lines.old lines.new at.now (put count pairs.now.lefts body.now ∷ []) (put count pairs.now.rights body.now ∷ []) }
{
    if loose(body) <= u64::from(count) {
        return unchanged(alloc, body);
    }
    match node_parts(body) {
        None => leaf(alloc, env, lines, body, at, count, pairs),
        Some((sym, types, children)) => {
            let of = Application {
                sym,
                types,
                children,
            };
            apply(alloc, env, lines, &of, at, count, pairs)
        }
    }
}

/// The same of a symbol on children.
#[cycle(walk)]
fn apply(
    alloc: Global,
    env: &Env,
    lines: &mut Derivation,
    of: &Application,
    at: &Sequent,
    count: u32,
    pairs: &Pairs,
) -> Result<Sides, NoMemory>
    requires derivation { IsDerivation env.now lines.old }
    requires inside { IsIndex pairs.now.at at.now count }
    requires base { IsBaseContext env.now at.now }
    requires given { AreSettled lines.old pairs.now.at pairs.now.lefts pairs.now.rights pairs.now.found }
    requires room { length (type_list at.now.context) + (depths (terms at.now.hyps) + (1 + depths (terms of.now.children.now))) < 2 ^ 32 }
    requires alike { AreAlike env.now (type_list at.now.context) (put count pairs.now.lefts (node of.now.sym.now of.now.types.now (terms of.now.children.now))) (put count pairs.now.rights (node of.now.sym.now of.now.types.now (terms of.now.children.now))) }
    ensures left { IfOk result (λ s. s.left ≡ put count pairs.now.lefts (node of.now.sym.now of.now.types.now (terms of.now.children.now))) }
    ensures right { IfOk result (λ s. s.right ≡ put count pairs.now.rights (node of.now.sym.now of.now.types.now (terms of.now.children.now))) }
    ensures line { IfOk result (λ s. IsSettled lines.new at.now (put count pairs.now.lefts (node of.now.sym.now of.now.types.now (terms of.now.children.now))) (put count pairs.now.rights (node of.now.sym.now of.now.types.now (terms of.now.children.now))) s.line) }
    ensures extends { Extends env.now lines.old lines.new }
    ensures limits { KeepBetween env.now lines.old lines.new at.now (put count pairs.now.lefts (node of.now.sym.now of.now.types.now (terms of.now.children.now)) ∷ []) (put count pairs.now.rights (node of.now.sym.now of.now.types.now (terms of.now.children.now)) ∷ []) }
{
    let inner = at_children(alloc, at, of.sym, of.types)?;
    let under = count + binds(of.sym);
    let children = walk_all(alloc, env, lines, of.children, &inner, under, pairs)?;
    joined(alloc, env, lines, at, of, children)
}

/// The same of each of the terms.
#[cycle(walk)]
fn walk_all(
    alloc: Global,
    env: &Env,
    lines: &mut Derivation,
    bodies: &[Tree],
    at: &Sequent,
    count: u32,
    pairs: &Pairs,
) -> Result<Pairs, NoMemory>
    requires derivation { IsDerivation env.now lines.old }
    requires inside { IsIndex pairs.now.at at.now count }
    requires base { IsBaseContext env.now at.now }
    requires given { AreSettled lines.old pairs.now.at pairs.now.lefts pairs.now.rights pairs.now.found }
    requires room { length (type_list at.now.context) + (depths (terms at.now.hyps) + depths (terms bodies.now)) < 2 ^ 32 }
    requires alike { AreAllAlike env.now (type_list at.now.context) (map (put count pairs.now.lefts) bodies.now) (map (put count pairs.now.rights) bodies.now) }
    ensures at { IfOk result (λ p. p.at ≡ at.now) }
    ensures lefts { IfOk result (λ p. p.lefts ≡ map (put count pairs.now.lefts) bodies.now) }
    ensures rights { IfOk result (λ p. p.rights ≡ map (put count pairs.now.rights) bodies.now) }
    ensures lines { IfOk result (λ p. AreSettled lines.new at.now p.lefts p.rights p.found) }
    ensures extends { Extends env.now lines.old lines.new }
    ensures limits { KeepBetween env.now lines.old lines.new at.now (map (put count pairs.now.lefts) bodies.now) (map (put count pairs.now.rights) bodies.now) }
{
    let mut lefts = Trees::new(alloc);
    let mut rights = Trees::new(alloc);
    let mut found = ListOf::new(alloc);
    let inner = at.try_copy(alloc)?;
    for body in bodies {
        let sides = walk(alloc, env, lines, body, at, count, pairs)?;
        lefts.push(alloc, sides.left)?;
        rights.push(alloc, sides.right)?;
        found.push(alloc, sides.line)?;
    }
    Ok(Pairs {
        at: inner,
        lefts,
        rights,
        found,
    })
}

/// A term without a variable past the binders.
fn unchanged(alloc: Global, body: &Tree) -> Result<Sides, NoMemory>
    ensures left { IfOk result (λ s. s.left ≡ body.now) }
    ensures right { IfOk result (λ s. s.right ≡ body.now) }
    ensures line { IfOk result (λ s. s.line ≡ None) }
{
    Ok(Sides {
        left: body.try_copy(alloc)?,
        right: body.try_copy(alloc)?,
        line: None,
    })
}

/// A variable past the binders.
#[tactic(auto, using(ev_kernel::proofs::Comparing::leaves))]
fn leaf(
    alloc: Global,
    env: &Env,
    lines: &mut Derivation,
    body: &Tree,
    at: &Sequent,
    count: u32,
    pairs: &Pairs,
) -> Result<Sides, NoMemory>
    requires leaf { sym_of body.now ≡ None }
    requires past { count < loose body.now }
    requires derivation { IsDerivation env.now lines.old }
    requires inside { IsIndex pairs.now.at at.now count }
    requires base { IsBaseContext env.now at.now }
    requires given { AreSettled lines.old pairs.now.at pairs.now.lefts pairs.now.rights pairs.now.found }
    requires room { length (type_list at.now.context) < 2 ^ 32 }
    requires alike { AreAlike env.now (type_list at.now.context) (put count pairs.now.lefts body.now) (put count pairs.now.rights body.now) }
    ensures left { IfOk result (λ s. s.left ≡ put count pairs.now.lefts body.now) }
    ensures right { IfOk result (λ s. s.right ≡ put count pairs.now.rights body.now) }
    ensures line { IfOk result (λ s. IsSettled lines.new at.now (put count pairs.now.lefts body.now) (put count pairs.now.rights body.now) s.line) }
    ensures extends { Extends env.now lines.old lines.new }
    ensures limits { KeepBetween env.now lines.old lines.new at.now [] [] }
{
    let Some(i) = body.var() else {
        unreachable!();
    };
    let past = (i - count) as usize;
    let terms = pairs.lefts.len();
    if past >= terms {
        let kept = make_var(alloc, i - terms as u32)?;
        return unchanged(alloc, &kept);
    }
    pair_at(alloc, env, lines, terms - 1 - past, at, count, pairs)
}

/// One of the pairs, in a context that has so many more variables.
fn pair_at(
    alloc: Global,
    env: &Env,
    lines: &mut Derivation,
    place: usize,
    at: &Sequent,
    count: u32,
    pairs: &Pairs,
) -> Result<Sides, NoMemory>
    requires within { place < length pairs.now.lefts }
    requires derivation { IsDerivation env.now lines.old }
    requires inside { IsIndex pairs.now.at at.now count }
    requires base { IsBaseContext env.now at.now }
    requires given { AreSettled lines.old pairs.now.at pairs.now.lefts pairs.now.rights pairs.now.found }
    requires room { length (type_list at.now.context) < 2 ^ 32 }
    requires left_low { highest (shift (entry pairs.now.lefts place) 0 count) ≤ 2 ^ 32 }
    requires right_low { highest (shift (entry pairs.now.rights place) 0 count) ≤ 2 ^ 32 }
    ensures left { IfOk result (λ s. s.left ≡ shift (entry pairs.now.lefts place) 0 count) }
    ensures right { IfOk result (λ s. s.right ≡ shift (entry pairs.now.rights place) 0 count) }
    ensures line { IfOk result (λ s. IsSettled lines.new at.now (shift (entry pairs.now.lefts place) 0 count) (shift (entry pairs.now.rights place) 0 count) s.line) }
    ensures extends { Extends env.now lines.old lines.new }
    ensures limits { KeepBetween env.now lines.old lines.new at.now [] [] }
{
    let lefts = pairs.lefts.as_slice();
    let rights = pairs.rights.as_slice();
    let found = pairs.found.as_slice();
    let line = line_inside(alloc, env, lines, at, count, found[place])?;
    Ok(Sides {
        left: shift(alloc, &lefts[place], 0, count)?,
        right: shift(alloc, &rights[place], 0, count)?,
        line,
    })
}

/// The line that equates two terms, or what it becomes in a context that has so many more variables; none where the two are one.
fn line_inside(
    alloc: Global,
    env: &Env,
    lines: &mut Derivation,
    at: &Sequent,
    count: u32,
    found: Option<u128>,
) -> Result<Option<u128>, NoMemory>
    requires derivation { IsDerivation env.now lines.old }
    requires base { IsBaseContext env.now at.now }
    requires outside { IsSettledOutside lines.old at.now count found }
    requires room { length (type_list at.now.context) < 2 ^ 32 }
    ensures line { IfOk result (λ o. (S : Sequent) (l r : Term) → IsIndex S at.now count → IsSettled lines.old S l r found → IsSettled lines.new at.now (shift l 0 count) (shift r 0 count) o) }
    ensures extends { Extends env.now lines.old lines.new }
    ensures limits { KeepBetween env.now lines.old lines.new at.now [] [] }
{
    match found {
        None => Ok(None),
        Some(premise) => number_inside(alloc, env, lines, at, count, premise),
    }
}

fn number_inside(
    alloc: Global,
    env: &Env,
    lines: &mut Derivation,
    at: &Sequent,
    count: u32,
    premise: u128,
) -> Result<Option<u128>, NoMemory>
    requires derivation { IsDerivation env.now lines.old }
    requires base { IsBaseContext env.now at.now }
    requires outside { IsSettledOutside lines.old at.now count (Some premise) }
    requires room { length (type_list at.now.context) < 2 ^ 32 }
    ensures line { IfOk result (λ o. (S : Sequent) (l r : Term) → IsIndex S at.now count → Equates lines.old S l r premise → IsSettled lines.new at.now (shift l 0 count) (shift r 0 count) o) }
    ensures extends { Extends env.now lines.old lines.new }
    ensures limits { KeepBetween env.now lines.old lines.new at.now [] [] }
{
    if count == 0 {
        return Ok(Some(premise));
    }
    let number = brought(alloc, env, lines, at, count, premise)?;
    Ok(Some(number))
}

/// The line that equates two terms, brought into a context that has so many more variables.
fn brought(
    alloc: Global,
    env: &Env,
    lines: &mut Derivation,
    at: &Sequent,
    count: u32,
    premise: u128,
) -> Result<u128, NoMemory>
    requires derivation { IsDerivation env.now lines.old }
    requires base { IsBaseContext env.now at.now }
    requires outside { IsSettledOutside lines.old at.now count (Some premise) }
    requires room { length (type_list at.now.context) < 2 ^ 32 }
    ensures line { IfOk result (λ n. (S : Sequent) (l r : Term) → IsIndex S at.now count → Equates lines.old S l r premise → Equates lines.new at.now (shift l 0 count) (shift r 0 count) n) }
    ensures extends { Extends env.now lines.old lines.new }
    ensures limits { KeepBetween env.now lines.old lines.new at.now [] [] }
{
    let found = sequent_of(lines, premise);
    let goal = shift(alloc, &found.goal, 0, count)?;
    let length = found.context.len() as u32;
    let sequent = Sequent {
        context: at.context.try_copy(alloc)?,
        hyps: at.hyps.try_copy(alloc)?,
        goal,
    };
    lengthened(alloc, env, lines, length, count, sequent, premise)
}

/// The symbol on the left terms and on the right ones.
fn joined(
    alloc: Global,
    env: &Env,
    lines: &mut Derivation,
    at: &Sequent,
    of: &Application,
    children: Pairs,
) -> Result<Sides, NoMemory>
    requires derivation { IsDerivation env.now lines.old }
    requires base { IsBaseContext env.now at.now }
    requires inner { children.at ≡ (at_children at.now of.now.sym.now of.now.types.now ⊢ at.now.goal) }
    requires inner_base { IsBaseContext env.now children.at }
    requires settled { AreSettled lines.old children.at children.lefts children.rights children.found }
    requires alike { AreAlike env.now (type_list at.now.context) (node of.now.sym.now of.now.types.now (terms children.lefts)) (node of.now.sym.now of.now.types.now (terms children.rights)) }
    requires children { AreAllAlike env.now (type_list children.at.context) children.lefts children.rights }
    ensures left { IfOk result (λ s. s.left ≡ node of.now.sym.now of.now.types.now (terms children.lefts)) }
    ensures right { IfOk result (λ s. s.right ≡ node of.now.sym.now of.now.types.now (terms children.rights)) }
    ensures line { IfOk result (λ s. IsSettled lines.new at.now (node of.now.sym.now of.now.types.now (terms children.lefts)) (node of.now.sym.now of.now.types.now (terms children.rights)) s.line) }
    ensures extends { Extends env.now lines.old lines.new }
    ensures limits { KeepBetween env.now lines.old lines.new at.now (node of.now.sym.now of.now.types.now (terms children.lefts) ∷ []) (node of.now.sym.now of.now.types.now (terms children.rights) ∷ []) }
{
    let lefts = children.lefts.as_slice();
    let found = children.found.as_slice();
    if are_none(found) {
        return both(alloc, of, &children);
    }
    let types = types_of_node(alloc, env, of.sym, of.types)?;
    let args = types.args.as_slice();
    let numbers = completed(alloc, env, lines, &children.at, args, lefts, found)?;
    let sides = both(alloc, of, &children)?;
    let line = congruent(alloc, env, lines, at, &types.result, &sides, numbers)?;
    Ok(Sides {
        left: sides.left,
        right: sides.right,
        line: Some(line),
    })
}

/// The symbol on both lists of terms, without a line.
fn both(alloc: Global, of: &Application, children: &Pairs) -> Result<Sides, NoMemory>
    ensures left { IfOk result (λ s. s.left ≡ node of.now.sym.now of.now.types.now (terms children.now.lefts)) }
    ensures right { IfOk result (λ s. s.right ≡ node of.now.sym.now of.now.types.now (terms children.now.rights)) }
    ensures line { IfOk result (λ s. s.line ≡ None) }
{
    Ok(Sides {
        left: applied(alloc, of, &children.lefts)?,
        right: applied(alloc, of, &children.rights)?,
        line: None,
    })
}

/// The symbol on other terms.
fn applied(alloc: Global, of: &Application, terms: &Trees) -> Result<Tree, NoMemory>
    ensures { IfOk result (λ t. t ≡ node of.now.sym.now of.now.types.now (all_of terms.now)) }
{
    let sym = of.sym.try_copy(alloc)?;
    let types = of.types.try_copy(alloc)?;
    make_node(alloc, sym, types, terms.try_copy(alloc)?)
}

/// The line by congruence.
fn congruent(
    alloc: Global,
    env: &Env,
    lines: &mut Derivation,
    at: &Sequent,
    ty: &Ty,
    sides: &Sides,
    numbers: Nums,
) -> Result<u128, NoMemory>
    requires derivation { IsDerivation env.now lines.old }
    requires base { IsBaseContext env.now at.now }
    requires alike { AreAlike env.now (type_list at.now.context) sides.now.left sides.now.right }
    requires typed { Typed env.now (type_list at.now.context) sides.now.left ty.now }
    requires premises { IsByCongruence lines.old at.now sides.now.left sides.now.right numbers }
    ensures line { IfOk result (λ n. Equates lines.new at.now sides.now.left sides.now.right n) }
    ensures extends { Extends env.now lines.old lines.new }
    ensures limits { KeepBetween env.now lines.old lines.new at.now (sides.now.left ∷ []) (sides.now.right ∷ []) }
{
    let _opened = env.count();
    let sequent = equated_beside(alloc, at, ty, &sides.left, &sides.right)?;
    from_lines(alloc, env, lines, sequent, BaseRule::Cong, numbers)
}

/// Whether no line was needed.
fn are_none(found: &[Option<u128>]) -> bool
    ensures { IsTrue result ↔ AllByRecursion (λ o. o ≡ None) found.now }
{
    for line in found {
        if line.is_some() {
            return false;
        }
    }
    true
}

/// A line for each pair, by reflexivity where the two are one.
fn completed(
    alloc: Global,
    env: &Env,
    lines: &mut Derivation,
    at: &Sequent,
    types: &[Ty],
    lefts: &[Tree],
    found: &[Option<u128>],
) -> Result<Nums, NoMemory>
    requires derivation { IsDerivation env.now lines.old }
    requires base { IsBaseContext env.now at.now }
    requires typed { AreTyped env.now (type_list at.now.context) (terms lefts.now) types.now }
    requires given { (rs : List Term) × AreSettled lines.old at.now lefts.now rs found.now × AreAllAlike env.now (type_list at.now.context) lefts.now rs }
    ensures numbers { IfOk result (λ ns. (rs : List Term) → AreSettled lines.old at.now lefts.now rs found.now → AreEquatedBy lines.new at.now lefts.now rs ns) }
    ensures extends { Extends env.now lines.old lines.new }
    ensures limits { KeepBetween env.now lines.old lines.new at.now lefts.now [] }
{
    let mut numbers = Nums::new(alloc);
    for i in 0..lefts.len() {
        let number = line_at(alloc, env, lines, at, &types[i], &lefts[i], &found[i])?;
        numbers.push(alloc, number)?;
    }
    Ok(numbers)
}

/// The line that was found, or one by reflexivity at the type.
fn line_at(
    alloc: Global,
    env: &Env,
    lines: &mut Derivation,
    at: &Sequent,
    ty: &Ty,
    left: &Tree,
    found: &Option<u128>,
) -> Result<u128, NoMemory>
    requires derivation { IsDerivation env.now lines.old }
    requires base { IsBaseContext env.now at.now }
    requires typed { Typed env.now (type_list at.now.context) left.now ty.now }
    requires plain { IsPlain env.now left.now }
    ensures line { IfOk result (λ n. (r : Term) → IsSettled lines.old at.now left.now r found.now → Equates lines.new at.now left.now r n) }
    ensures extends { Extends env.now lines.old lines.new }
    ensures limits { KeepBetween env.now lines.old lines.new at.now (left.now ∷ []) [] }
{
    match found {
        Some(number) => Ok(*number),
        None => reflexivity(alloc, env, lines, at, ty, left),
    }
}

/// The line that was found, or one by reflexivity.
fn line_for(
    alloc: Global,
    env: &Env,
    lines: &mut Derivation,
    at: &Sequent,
    left: &Tree,
    found: &Option<u128>,
) -> Result<u128, NoMemory>
    requires derivation { IsDerivation env.now lines.old }
    requires base { IsBaseContext env.now at.now }
    requires typed { (A : Ty) × Typed env.now (type_list at.now.context) left.now A }
    requires plain { IsPlain env.now left.now }
    ensures line { IfOk result (λ n. (r : Term) → IsSettled lines.old at.now left.now r found.now → Equates lines.new at.now left.now r n) }
    ensures extends { Extends env.now lines.old lines.new }
    ensures limits { KeepBetween env.now lines.old lines.new at.now (left.now ∷ []) [] }
{
    match found {
        Some(number) => Ok(*number),
        None => {
            let ty = type_of_typed(alloc, env, &at.context, left)?;
            reflexivity(alloc, env, lines, at, &ty, left)
        }
    }
}

/// The numbers, each of a line that is there.
fn all_some(alloc: Global, numbers: &[u128]) -> Result<ListOf<Option<u128>>, NoMemory>
    ensures { IfOk result (λ l. l ≡ map (λ n. Some n) numbers.now) }
{
    let mut all = ListOf::new(alloc);
    for number in numbers {
        all.push(alloc, Some(*number))?;
    }
    Ok(all)
}
