//! The reader of a step.
ghost use Rattle.std.specs.Prelude.{◌≡◌, IfOk, option_map};
ghost use Rattle.ev_proof.specs.Steps.{ReadsStep};
ghost use Rattle.ev_proof.specs.Depths.{step_deep};
ghost use Rattle.ev_proof.specs.declared.words.StepWord.TheVariants.{Lone, Predicate, Cited, Placed, Weak as weak_word, AllE as alle_word, ExI as exi_word, Trans as trans_word, Axiom as axiom_word, Dis as dis_word, Rewrite as rewrite_word, Cases as cases_word, Fold as fold_word};
ghost use Rattle.ev_proof.specs.inner.Words.{made, OfWord};
ghost use Rattle.ev_parse.specs.inner.Taking.{Took, AtEnd, both};

use crate::cites::{read_cite, read_ref};
use crate::numbers::{read_numbers, read_place};
use crate::steps::{Cite, Ref, Step};
use crate::words::{CitedWord, LoneWord, PlacedWord, PredicateWord, StepWord, word_of};
use ev_parse::cursor::Cursor;
use ev_syntax::mark_names::COMMA;
use ev_syntax::{Raw, Sort};
use ev_terms::{Name, NoMemory, Nums};
use std::alloc::Global;

/// The step that a word alone is.
fn lone_step(word: LoneWord) -> Step
    ensures { result ≡ made (Lone word) tt }
{
    match word {
        LoneWord::Hyp => Step::Hyp,
        LoneWord::TrueI => Step::TrueI,
        LoneWord::Em => Step::Em,
        LoneWord::Refl => Step::Refl,
        LoneWord::SetMem => Step::SetMem,
        LoneWord::BoolMem => Step::BoolMem,
        LoneWord::Calc => Step::Calc,
        LoneWord::FalseE => Step::FalseE,
        LoneWord::NotI => Step::NotI,
        LoneWord::AndI => Step::AndI,
        LoneWord::OrI1 => Step::OrI1,
        LoneWord::OrI2 => Step::OrI2,
        LoneWord::ImpI => Step::ImpI,
        LoneWord::IffI => Step::IffI,
        LoneWord::AllI => Step::AllI,
        LoneWord::Sym => Step::Sym,
        LoneWord::Cong => Step::Cong,
        LoneWord::Induct => Step::Induct,
        LoneWord::Open => Step::Open,
    }
}

/// Nothing stands behind the word.
fn read_lone(cursor: &Cursor<'_>, word: LoneWord) -> Option<Step>
    ensures { Took (OfWord (Lone word)) AtEnd step_deep cursor.now result cursor.now }
{
    Some(lone_step(word))
}

fn weak(numbers: Option<Nums>) -> Option<Step>
    ensures { result ≡ option_map (made weak_word) numbers }
{
    Some(Step::Weak(numbers?))
}

fn read_weak(cursor: &mut Cursor<'_>, alloc: Global) -> Result<Option<Step>, NoMemory>
    ensures { IfOk result (λ v. Took (OfWord weak_word) AtEnd step_deep cursor.old v cursor.new) }
{
    let numbers = read_numbers(cursor, alloc)?;
    Ok(weak(numbers))
}

/// The step of a word and a predicate.
fn predicate_step(word: PredicateWord, predicate: Option<Raw>) -> Option<Step>
    ensures { result ≡ option_map (made (Predicate word)) predicate }
{
    let predicate = predicate?;
    Some(match word {
        PredicateWord::Cut => Step::Cut(predicate),
        PredicateWord::Note => Step::Note(predicate),
        PredicateWord::AndE1 => Step::AndE1(predicate),
        PredicateWord::AndE2 => Step::AndE2(predicate),
        PredicateWord::OrE => Step::OrE(predicate),
        PredicateWord::ImpE => Step::ImpE(predicate),
        PredicateWord::IffE1 => Step::IffE1(predicate),
        PredicateWord::IffE2 => Step::IffE2(predicate),
        PredicateWord::ExE => Step::ExE(predicate),
    })
}

fn read_predicate(
    cursor: &mut Cursor<'_>,
    alloc: Global,
    word: PredicateWord,
) -> Result<Option<Step>, NoMemory>
    ensures { IfOk result (λ v. Took (OfWord (Predicate word)) AtEnd step_deep cursor.old v cursor.new) }
{
    let predicate = cursor.formula(alloc, Sort::Pred)?;
    Ok(predicate_step(word, predicate))
}

fn all_e(universal: Option<Raw>, term: Option<Raw>) -> Option<Step>
    ensures { result ≡ option_map (made alle_word) (both universal term) }
{
    Some(Step::AllE(universal?, term?))
}

fn read_all_e(cursor: &mut Cursor<'_>, alloc: Global) -> Result<Option<Step>, NoMemory>
    ensures { IfOk result (λ v. Took (OfWord alle_word) AtEnd step_deep cursor.old v cursor.new) }
{
    let universal = cursor.formula(alloc, Sort::Pred)?;
    cursor.mark(COMMA);
    let term = cursor.formula(alloc, Sort::Expr)?;
    Ok(all_e(universal, term))
}

fn ex_i(witness: Option<Raw>) -> Option<Step>
    ensures { result ≡ option_map (made exi_word) witness }
{
    Some(Step::ExI(witness?))
}

fn read_ex_i(cursor: &mut Cursor<'_>, alloc: Global) -> Result<Option<Step>, NoMemory>
    ensures { IfOk result (λ v. Took (OfWord exi_word) AtEnd step_deep cursor.old v cursor.new) }
{
    let witness = cursor.formula(alloc, Sort::Expr)?;
    Ok(ex_i(witness))
}

fn trans(middle: Option<Raw>) -> Option<Step>
    ensures { result ≡ option_map (made trans_word) middle }
{
    Some(Step::Trans(middle?))
}

fn read_trans(cursor: &mut Cursor<'_>, alloc: Global) -> Result<Option<Step>, NoMemory>
    ensures { IfOk result (λ v. Took (OfWord trans_word) AtEnd step_deep cursor.old v cursor.new) }
{
    let middle = cursor.formula(alloc, Sort::Either)?;
    Ok(trans(middle))
}

fn axiom(row: Option<u128>, cite: Option<Cite>) -> Option<Step>
    ensures { result ≡ option_map (made axiom_word) (both row cite) }
{
    Some(Step::Axiom(row?, cite?))
}

fn read_axiom(cursor: &mut Cursor<'_>, alloc: Global) -> Result<Option<Step>, NoMemory>
    ensures { IfOk result (λ v. Took (OfWord axiom_word) AtEnd step_deep cursor.old v cursor.new) }
{
    let row = cursor.number();
    let cite = read_cite(cursor, alloc)?;
    Ok(axiom(row, cite))
}

/// The step of a word, a label and a citation.
fn cited_step(word: CitedWord, label: Option<Ref>, cite: Option<Cite>) -> Option<Step>
    ensures { result ≡ option_map (made (Cited word)) (both label cite) }
{
    let label = label?;
    let cite = cite?;
    Some(match word {
        CitedWord::Theorem => Step::Theorem(label, cite),
        CitedWord::Assume => Step::Assume(label, cite),
        CitedWord::Infer => Step::Infer(label, cite),
    })
}

fn read_cited(
    cursor: &mut Cursor<'_>,
    alloc: Global,
    word: CitedWord,
) -> Result<Option<Step>, NoMemory>
    ensures { IfOk result (λ v. Took (OfWord (Cited word)) AtEnd step_deep cursor.old v cursor.new) }
{
    let label = read_ref(cursor, alloc)?;
    let cite = read_cite(cursor, alloc)?;
    Ok(cited_step(word, label, cite))
}

fn dis(left: Option<Name>, right: Option<Name>, cite: Option<Cite>) -> Option<Step>
    ensures { result ≡ option_map (made dis_word) (both left (both right cite)) }
{
    Some(Step::Dis(left?, right?, cite?))
}

fn read_dis(cursor: &mut Cursor<'_>, alloc: Global) -> Result<Option<Step>, NoMemory>
    ensures { IfOk result (λ v. Took (OfWord dis_word) AtEnd step_deep cursor.old v cursor.new) }
{
    let left = cursor.name(alloc)?;
    let right = cursor.name(alloc)?;
    let cite = read_cite(cursor, alloc)?;
    Ok(dis(left, right, cite))
}

fn rewrite(
    label: Option<Ref>,
    branch: Option<u128>,
    place: Option<Nums>,
    cite: Option<Cite>,
) -> Option<Step>
    ensures { result ≡ option_map (made rewrite_word) (both label (both branch (both place cite))) }
{
    Some(Step::Rewrite(label?, branch?, place?, cite?))
}

fn read_rewrite(cursor: &mut Cursor<'_>, alloc: Global) -> Result<Option<Step>, NoMemory>
    ensures { IfOk result (λ v. Took (OfWord rewrite_word) AtEnd step_deep cursor.old v cursor.new) }
{
    let label = read_ref(cursor, alloc)?;
    let branch = cursor.number();
    let place = read_place(cursor, alloc)?;
    let cite = read_cite(cursor, alloc)?;
    Ok(rewrite(label, branch, place, cite))
}

fn cases(label: Option<Ref>, place: Option<Nums>, cite: Option<Cite>) -> Option<Step>
    ensures { result ≡ option_map (made cases_word) (both label (both place cite)) }
{
    Some(Step::Cases(label?, place?, cite?))
}

fn read_cases(cursor: &mut Cursor<'_>, alloc: Global) -> Result<Option<Step>, NoMemory>
    ensures { IfOk result (λ v. Took (OfWord cases_word) AtEnd step_deep cursor.old v cursor.new) }
{
    let label = read_ref(cursor, alloc)?;
    let place = read_place(cursor, alloc)?;
    let cite = read_cite(cursor, alloc)?;
    Ok(cases(label, place, cite))
}

/// The step of a word and a place.
fn placed_step(word: PlacedWord, place: Option<Nums>) -> Option<Step>
    ensures { result ≡ option_map (made (Placed word)) place }
{
    let place = place?;
    Some(match word {
        PlacedWord::Unfold => Step::Unfold(place),
        PlacedWord::Recur => Step::Recur(place),
        PlacedWord::Con => Step::Con(place),
    })
}

fn read_placed(
    cursor: &mut Cursor<'_>,
    alloc: Global,
    word: PlacedWord,
) -> Result<Option<Step>, NoMemory>
    ensures { IfOk result (λ v. Took (OfWord (Placed word)) AtEnd step_deep cursor.old v cursor.new) }
{
    let place = read_place(cursor, alloc)?;
    Ok(placed_step(word, place))
}

fn fold(name: Option<Name>, place: Option<Nums>, cite: Option<Cite>) -> Option<Step>
    ensures { result ≡ option_map (made fold_word) (both name (both place cite)) }
{
    Some(Step::Fold(name?, place?, cite?))
}

fn read_fold(cursor: &mut Cursor<'_>, alloc: Global) -> Result<Option<Step>, NoMemory>
    ensures { IfOk result (λ v. Took (OfWord fold_word) AtEnd step_deep cursor.old v cursor.new) }
{
    let name = cursor.name(alloc)?;
    let place = read_place(cursor, alloc)?;
    let cite = read_cite(cursor, alloc)?;
    Ok(fold(name, place, cite))
}

/// Reads what stands behind a word.
fn read_behind(
    cursor: &mut Cursor<'_>,
    alloc: Global,
    word: StepWord,
) -> Result<Option<Step>, NoMemory>
    ensures { IfOk result (λ v. Took (OfWord word) AtEnd step_deep cursor.old v cursor.new) }
{
    match word {
        StepWord::Lone(word) => Ok(read_lone(cursor, word)),
        StepWord::Weak => read_weak(cursor, alloc),
        StepWord::Predicate(word) => read_predicate(cursor, alloc, word),
        StepWord::AllE => read_all_e(cursor, alloc),
        StepWord::ExI => read_ex_i(cursor, alloc),
        StepWord::Trans => read_trans(cursor, alloc),
        StepWord::Axiom => read_axiom(cursor, alloc),
        StepWord::Cited(word) => read_cited(cursor, alloc, word),
        StepWord::Dis => read_dis(cursor, alloc),
        StepWord::Rewrite => read_rewrite(cursor, alloc),
        StepWord::Cases => read_cases(cursor, alloc),
        StepWord::Placed(word) => read_placed(cursor, alloc, word),
        StepWord::Fold => read_fold(cursor, alloc),
    }
}

/// Reads the step that the tokens are, by the word that begins it.
pub fn read_step(cursor: &mut Cursor<'_>, alloc: Global) -> Result<Option<Step>, NoMemory>
    ensures { IfOk result (λ v. Took ReadsStep AtEnd step_deep cursor.old v cursor.new) }
{
    let Some(name) = cursor.name(alloc)? else {
        return Ok(None);
    };
    let Some(word) = word_of(name.as_slice()) else {
        cursor.refuse();
        return Ok(None);
    };
    read_behind(cursor, alloc, word)
}
