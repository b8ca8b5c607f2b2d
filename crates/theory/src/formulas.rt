ghost use Rattle.std.specs.Prelude.{◌≡◌, ◌≢◌, ◌+◌, ◌<◌, ◌≤◌, ℕ, List, [], ◌∷◌, drop, length, IfNone, IfOk, IfSome, IsTrue, false};
ghost use Rattle.ev_terms.specs.Term.{Term};
ghost use Rattle.ev_terms.specs.Measures.{size, depth};
ghost use Rattle.ev_forms.specs.Connectives.{joined};
ghost use Rattle.ev_forms.specs.declared.connectives.Connective.{Connective};
ghost use Rattle.theory.specs.declared.marks.Mark.{Mark};
ghost use Rattle.theory.specs.declared.marks.Mark.TheVariants.{Open};
ghost use Rattle.theory.specs.Formulas.{mark_of, IsChained, IsSingle, Chain, Literal, IsFormula};
ghost use Rattle.theory.specs.inner.Parsing.{StopsBefore, EndsConjunction, Reads, ExtendsToConjunction, ExtendsToPredicate, Extends, Gives};

use crate::marks::{Mark, marks_of};
use ev_forms::{Connective, make_falsity, make_joined, make_negation, make_truth};
use ev_terms::limits::{NESTING_LIMIT, SIZE_LIMIT};
use ev_terms::{NoMemory, Tree, extent};
use std::alloc::Global;

/// A kind of formula that a reader looks for.
#[derive(Debug, Clone, Copy, PartialEq, Eq)]
pub enum Want {
    Literal,
    Conjunction,
    Predicate,
}

/// A formula that was read, and the place of the mark behind it.
#[derive(Drop)]
pub struct Found {
    pub term: Tree,
    pub end: usize,
}

/// The connective at a place.
fn connective_at(marks: &[Mark], at: usize) -> Option<Connective>
    ensures found { IfSome result (λ c. (at < length marks.now) × (drop at marks.now ≡ mark_of c ∷ drop (at + 1) marks.now)) }
    ensures none { IfNone result ((c : Connective) → StopsBefore c (drop at marks.now)) }
{
    match marks.get(at) {
        Some(Mark::And) => Some(Connective::And),
        Some(Mark::Or) => Some(Connective::Or),
        Some(Mark::Implies) => Some(Connective::Implies),
        Some(Mark::Iff) => Some(Connective::Iff),
        _ => None,
    }
}

/// Whether the mark stands at the place.
fn has_mark(marks: &[Mark], at: usize, mark: Mark) -> bool
    ensures yes { IsTrue result → (at < length marks.now) × (drop at marks.now ≡ mark ∷ drop (at + 1) marks.now) }
    ensures no { result ≡ false → (us : List Mark) → drop at marks.now ≢ mark ∷ us }
{
    match marks.get(at) {
        Some(other) => *other == mark,
        None => false,
    }
}

/// The mark of a connective.
fn mark_of(connective: Connective) -> Mark
    ensures { result ≡ mark_of connective }
{
    match connective {
        Connective::And => Mark::And,
        Connective::Or => Mark::Or,
        Connective::Implies => Mark::Implies,
        Connective::Iff => Mark::Iff,
    }
}

/// The connective at a place, where it may stand several times in a row.
fn chained_at(marks: &[Mark], at: usize) -> Option<Connective>
    ensures found { IfSome result (λ c. IsChained c × (at < length marks.now) × (drop at marks.now ≡ mark_of c ∷ drop (at + 1) marks.now)) }
    ensures none { IfNone result (EndsConjunction (drop at marks.now)) }
{
    match connective_at(marks, at) {
        Some(Connective::And) => Some(Connective::And),
        Some(Connective::Or) => Some(Connective::Or),
        Some(Connective::Implies) => None,
        Some(Connective::Iff) => None,
        None => None,
    }
}

/// How many opening parentheses stand one after the other.
fn count_opens(marks: &[Mark], from: usize) -> usize
    requires { from ≤ length marks.now }
    ensures within { from + result ≤ length marks.now }
    ensures opens { (k : ℕ) → k < result → drop (from + k) marks.now ≡ Open ∷ drop (from + k + 1) marks.now }
    ensures no_more { (us : List Mark) → drop (from + result) marks.now ≢ Open ∷ us }
{
    let mut opens = 0;
    while has_mark(marks, from + opens, Mark::Open) {
        opens += 1;
    }
    opens
}

/// Two predicates with a connective between them, where this nests at most so deep.
fn joined_within(
    alloc: Global,
    connective: Connective,
    left: Tree,
    right: Tree,
    levels: u32,
) -> Result<Option<Tree>, NoMemory>
    ensures found { IfOk result (λ o. IfSome o (λ t. (t ≡ joined connective left right) × (depth t ≤ levels))) }
    ensures none { IfOk result (λ o. IfNone o (levels < depth (joined connective left right))) }
{
    let tree = make_joined(alloc, connective, left, right)?;
    if extent(&tree).depth > u64::from(levels) {
        return Ok(None);
    }
    Ok(Some(tree))
}

/// Goes on with a chain of literals as far as it goes.
#[cycle(read)]
fn climb(
    alloc: Global,
    marks: &[Mark],
    connective: Connective,
    first: Found,
    levels: u32,
) -> Result<Option<Found>, NoMemory>
    requires deep { 1 ≤ levels }
    requires within { first.end ≤ length marks.now }
    requires shallow { depth first.term ≤ levels }
    ensures gives { IfOk result (Gives (λ R rest. Chain connective first.term (drop first.end marks.now) R rest × StopsBefore connective rest) levels marks.now) }
    ensures advances { IfOk result (λ o. IfSome o (λ f. first.end ≤ f.end)) }
{
    let mark = mark_of(connective);
    let mut found = first;
    'chain: while has_mark(marks, found.end, mark) {
        let Some(right) = read(alloc, marks, found.end + 1, Want::Literal, levels - 1)? else {
            return Ok(None);
        };
        let Some(term) = joined_within(alloc, connective, found.term, right.term, levels)? else {
            return Ok(None);
        };
        found = Found {
            term,
            end: right.end,
        };
    }
    Ok(Some(found))
}

/// A conjunction or disjunction that begins with the literal.
#[cycle(read)]
fn conjunction(
    alloc: Global,
    marks: &[Mark],
    first: Found,
    levels: u32,
) -> Result<Option<Found>, NoMemory>
    requires deep { 1 ≤ levels }
    requires within { first.end ≤ length marks.now }
    requires shallow { depth first.term ≤ levels }
    ensures gives { IfOk result (Gives (ExtendsToConjunction first.term (drop first.end marks.now)) levels marks.now) }
    ensures advances { IfOk result (λ o. IfSome o (λ f. first.end ≤ f.end)) }
{
    let Some(connective) = chained_at(marks, first.end) else {
        return Ok(Some(first));
    };
    let Some(chain) = climb(alloc, marks, connective, first, levels)? else {
        return Ok(None);
    };
    match chained_at(marks, chain.end) {
        Some(_) => Ok(None),
        None => Ok(Some(chain)),
    }
}

/// A predicate that begins with the literal.
#[cycle(read)]
fn predicate(
    alloc: Global,
    marks: &[Mark],
    first: Found,
    levels: u32,
) -> Result<Option<Found>, NoMemory>
    requires deep { 1 ≤ levels }
    requires within { first.end ≤ length marks.now }
    requires shallow { depth first.term ≤ levels }
    ensures gives { IfOk result (Gives (ExtendsToPredicate first.term (drop first.end marks.now)) levels marks.now) }
    ensures advances { IfOk result (λ o. IfSome o (λ f. first.end ≤ f.end)) }
{
    let Some(left) = conjunction(alloc, marks, first, levels)? else {
        return Ok(None);
    };
    let Some(connective) = connective_at(marks, left.end) else {
        return Ok(Some(left));
    };
    let Some(right) = read(alloc, marks, left.end + 1, Want::Conjunction, levels - 1)? else {
        return Ok(None);
    };
    if connective_at(marks, right.end).is_some() {
        return Ok(None);
    }
    let Some(term) = joined_within(alloc, connective, left.term, right.term, levels)? else {
        return Ok(None);
    };
    Ok(Some(Found {
        term,
        end: right.end,
    }))
}

/// The formula of the kind that begins with the literal.
#[cycle(read)]
fn extend(
    alloc: Global,
    marks: &[Mark],
    first: Found,
    want: Want,
    levels: u32,
) -> Result<Option<Found>, NoMemory>
    requires deep { 1 ≤ levels }
    requires within { first.end ≤ length marks.now }
    requires shallow { depth first.term ≤ levels }
    ensures gives { IfOk result (Gives (Extends want first.term (drop first.end marks.now)) levels marks.now) }
    ensures advances { IfOk result (λ o. IfSome o (λ f. first.end ≤ f.end)) }
{
    match want {
        Want::Literal => Ok(Some(first)),
        Want::Conjunction => conjunction(alloc, marks, first, levels),
        Want::Predicate => predicate(alloc, marks, first, levels),
    }
}

/// The literal at a place where no parenthesis opens.
#[cycle(read)]
fn primary(alloc: Global, marks: &[Mark], at: usize, levels: u32) -> Result<Option<Found>, NoMemory>
    requires deep { 1 ≤ levels }
    requires closed { (us : List Mark) → drop at marks.now ≢ Open ∷ us }
    ensures gives { IfOk result (Gives (λ R rest. Literal R (drop at marks.now) rest) levels marks.now) }
    ensures advances { IfOk result (λ o. IfSome o (λ f. at < f.end)) }
{
    if has_mark(marks, at, Mark::True) {
        let term = make_truth(alloc)?;
        return Ok(Some(Found { term, end: at + 1 }));
    }
    if has_mark(marks, at, Mark::False) {
        let term = make_falsity(alloc)?;
        return Ok(Some(Found { term, end: at + 1 }));
    }
    if !has_mark(marks, at, Mark::Not) {
        return Ok(None);
    }
    let Some(negated) = read(alloc, marks, at + 1, Want::Literal, levels - 1)? else {
        return Ok(None);
    };
    let term = make_negation(alloc, negated.term)?;
    Ok(Some(Found {
        term,
        end: negated.end,
    }))
}

/// The formula of the kind that stands at a place, of at most so many levels. Parentheses are no levels: those at the front are
/// counted, so that no number of them makes the recursion deep.
#[cycle(read)]
fn read(
    alloc: Global,
    marks: &[Mark],
    from: usize,
    want: Want,
    levels: u32,
) -> Result<Option<Found>, NoMemory>
    requires { from ≤ length marks.now }
    ensures gives { IfOk result (Gives (λ R rest. Reads want R (drop from marks.now) rest) levels marks.now) }
    ensures advances { IfOk result (λ o. IfSome o (λ f. from < f.end)) }
{
    if levels == 0 {
        return Ok(None);
    }
    let opens = count_opens(marks, from);
    let Some(first) = primary(alloc, marks, from + opens, levels)? else {
        return Ok(None);
    };
    let mut found = first;
    let mut open = opens;
    'closing: while open > 0 {
        let Some(inner) = predicate(alloc, marks, found, levels)? else {
            return Ok(None);
        };
        if !has_mark(marks, inner.end, Mark::Close) {
            return Ok(None);
        }
        found = Found {
            term: inner.term,
            end: inner.end + 1,
        };
        open -= 1;
    }
    extend(alloc, marks, found, want, levels)
}

/// The formula that a text is, within the limits, or `None` where it is none.
pub fn formula_of(alloc: Global, text: &[u8]) -> Result<Option<Tree>, NoMemory>
    ensures found { IfOk result (λ o. IfSome o (λ t. IsFormula text.now t)) }
    ensures none { IfOk result (λ o. IfNone o ((P : Term) → ¬ IsFormula text.now P)) }
{
    let Some(marks) = marks_of(alloc, text)? else {
        return Ok(None);
    };
    let Some(found) = read(alloc, marks.as_slice(), 0, Want::Predicate, NESTING_LIMIT)? else {
        return Ok(None);
    };
    if found.end != marks.len() {
        return Ok(None);
    }
    if extent(&found.term).size > SIZE_LIMIT {
        return Ok(None);
    }
    Ok(Some(found.term))
}
