ghost use Rattle.std.specs.Prelude.{◌≡◌, ◌==◌, [], ◌∷◌, ◌+◌, ◌<◌, ◌≤◌, ◌↔◌, false, true, List, None, Some, IfNone, IfOk, IfSome, IsTrue, length, take, drop, slice_range};
ghost use Rattle.std.specs.List.{list_all, slice_split};
ghost use Rattle.theory.specs.Words.{are_blanks, lines_of};
ghost use Rattle.theory.specs.inner.Pieces.{piece, texts};
ghost use Rattle.theory.specs.Scripts.{proof_head, head_of, head_of_words, is_end, body_of, unit_front, IsProof, IsTheory, AreProofs, AreScript, IsScript};
ghost use Rattle.theory.specs.inner.Scripts.{BlankSoFar, IsUnitAt, PutsNothing};
ghost use Rattle.theory.specs.declared.script.StoredProof.{StoredProof};
ghost use Rattle.theory.specs.declared.script.Script.{Script};
ghost use Rattle.theory.specs.declared.script.Theory.{Theory};

use crate::steps::{Steps, steps_of};
use crate::theorems::{Theorems, theorems_of};
use crate::words::{are_blanks, drop_last_blanks, is_name, lines_of, same_text, trimmed, words_of};
use ev_terms::{ListOf, Name, NoMemory};
use std::alloc::{AllocError, Global};

/// The head of a unit: a theory text, or a proof of the theorem with a label in a theory.
#[derive(Drop)]
pub enum Head {
    Put(Name),
    Proof(Name, Name),
}

/// A theory with its theorems in order.
#[derive(Drop)]
pub struct Theory {
    pub name: Name,
    pub theorems: Theorems,
}

/// A proof that is stored under a theory's name and a label, whether or not there is such a theorem.
#[derive(Drop)]
pub struct StoredProof {
    pub theory: Name,
    pub label: Name,
    pub steps: Steps,
}

pub type StoredProofs = ListOf<StoredProof>;

/// A script: a theory, where it puts one, and the proofs in the order in which they stand.
#[derive(Drop)]
pub struct Script {
    pub theory: Option<Theory>,
    pub proofs: StoredProofs,
}

/// The unit with which some lines begin: its body is from `start` up to `end`, where the line stands that ends it.
#[derive(Drop)]
struct UnitSpan {
    head: Head,
    start: usize,
    end: usize,
}

fn split_slashes(alloc: Global, word: &[u8]) -> Result<Vec<&[u8]>, AllocError>
    ensures { IfOk result (λ parts. texts parts.items ≡ slice_split (λ c. c == 47) word.now) }
{
    word.split(|byte| *byte == b'/').collect(alloc)
}

fn proof_head(alloc: Global, parts: &[&[u8]]) -> Result<Option<Head>, NoMemory>
    ensures { IfOk result (λ o. o ≡ proof_head (texts parts.now)) }
{
    match parts {
        [theory, label, kind] => {
            if !is_name(theory) || !is_name(label) || !same_text(kind, "THM") {
                return Ok(None);
            }
            let theory = Name::from_slice(alloc, theory)?;
            let label = Name::from_slice(alloc, label)?;
            Ok(Some(Head::Proof(theory, label)))
        }
        [] => Ok(None),
        [_] => Ok(None),
        [_, _] => Ok(None),
        [_, _, _, _, ..] => Ok(None),
    }
}

/// The head that a line is, or `None` where it is none.
fn head_of(alloc: Global, line: &[u8]) -> Result<Option<Head>, NoMemory>
    ensures { IfOk result (λ o. o ≡ head_of line.now) }
{
    let words = words_of(alloc, trimmed(line))?;
    match words.as_slice() {
        [keyword, word] => head_of_two(alloc, keyword, word),
        [] => Ok(None),
        [_] => Ok(None),
        [_, _, _, ..] => Ok(None),
    }
}

fn head_of_two(alloc: Global, keyword: &[u8], word: &[u8]) -> Result<Option<Head>, NoMemory>
    ensures { IfOk result (λ o. o ≡ head_of_words (keyword.now ∷ word.now ∷ [])) }
{
    if same_text(keyword, "PUT") {
        if !is_name(word) {
            return Ok(None);
        }
        return Ok(Some(Head::Put(Name::from_slice(alloc, word)?)));
    }
    if same_text(keyword, "PROOF") {
        let parts = split_slashes(alloc, word)?;
        return proof_head(alloc, parts.as_slice());
    }
    Ok(None)
}

fn is_end(line: &[u8]) -> bool
    ensures { result ≡ is_end line.now }
{
    same_text(drop_last_blanks(line), "END")
}

/// The place of the line that ends a body.
fn end_of(lines: &[&[u8]]) -> Option<usize>
    ensures found { IfSome result (λ i. (i < length lines.now) × (body_of (texts lines.now) ≡ Some (record { lines = texts (take i lines.now); after = texts (drop (i + 1) lines.now) }))) }
    ensures none { IfNone result (body_of (texts lines.now) ≡ None) }
{
    for i in 0..lines.len() {
        if is_end(lines[i]) {
            return Some(i);
        }
    }
    None
}

/// How many blank lines stand at the front.
fn blank_count(lines: &[&[u8]]) -> usize
    ensures so_far { BlankSoFar lines.now result }
    ensures next { result < length lines.now → are_blanks (piece lines.now result) ≡ false }
{
    for i in 0..lines.len() {
        if !are_blanks(lines[i]) {
            return i;
        }
    }
    lines.len()
}

/// The unit with which the lines begin, or `None` where they begin with none.
fn unit_front(alloc: Global, lines: &[&[u8]]) -> Result<Option<UnitSpan>, NoMemory>
    ensures found { IfOk result (λ o. IfSome o (λ s. IsUnitAt lines.now s.head s.start s.end)) }
    ensures none { IfOk result (λ o. IfNone o (unit_front (texts lines.now) ≡ None)) }
{
    let blank = blank_count(lines);
    if blank == lines.len() {
        return Ok(None);
    }
    let Some(head) = head_of(alloc, lines[blank])? else {
        return Ok(None);
    };
    let start = blank + 1;
    let Some(len) = end_of(&lines[start..]) else {
        return Ok(None);
    };
    Ok(Some(UnitSpan {
        head,
        start,
        end: start + len,
    }))
}

/// The lines from one place up to another.
fn lines_between<'a, 'b>(lines: &'a [&'b [u8]], start: usize, end: usize) -> &'a [&'b [u8]]
    requires ordered { start ≤ end }
    requires within { end < length lines.now }
    ensures { result.now ≡ slice_range lines.now start end }
{
    &lines[start..end]
}

/// The lines behind a place.
fn lines_behind<'a, 'b>(lines: &'a [&'b [u8]], at: usize) -> &'a [&'b [u8]]
    requires { at < length lines.now }
    ensures { result.now ≡ drop (at + 1) lines.now }
{
    &lines[at + 1..]
}

/// The proof that a unit is, or `None` where it is none.
fn proof_of(alloc: Global, head: Head, body: &[&[u8]]) -> Result<Option<StoredProof>, NoMemory>
    ensures found { IfOk result (λ o. IfSome o (λ p. IsProof (record { head = head; body = texts body.now }) p)) }
    ensures none { IfOk result (λ o. IfNone o ((p : StoredProof) → ¬ IsProof (record { head = head; body = texts body.now }) p)) }
{
    match head {
        Head::Proof(theory, label) => {
            let Some(steps) = steps_of(alloc, body)? else {
                return Ok(None);
            };
            Ok(Some(StoredProof {
                theory,
                label,
                steps,
            }))
        }
        Head::Put(_) => Ok(None),
    }
}

/// The proofs that the lines are, or `None` where they are not units that are proofs.
fn proofs_of(alloc: Global, lines: &[&[u8]]) -> Result<Option<StoredProofs>, NoMemory>
    ensures found { IfOk result (λ o. IfSome o (λ ps. AreProofs (texts lines.now) ps)) }
    ensures none { IfOk result (λ o. IfNone o ((ps : List StoredProof) → ¬ AreProofs (texts lines.now) ps)) }
{
    let mut proofs = StoredProofs::new(alloc);
    let mut rest = lines;
    'units: while blank_count(rest) < rest.len() {
        let Some(unit) = unit_front(alloc, rest)? else {
            return Ok(None);
        };
        let body = lines_between(rest, unit.start, unit.end);
        let Some(proof) = proof_of(alloc, unit.head, body)? else {
            return Ok(None);
        };
        proofs.push(alloc, proof)?;
        rest = lines_behind(rest, unit.end);
    }
    Ok(Some(proofs))
}

/// The script that some bytes are, or `None` where they are none.
pub fn read_script(alloc: Global, bytes: &[u8]) -> Result<Option<Script>, NoMemory>
    ensures found { IfOk result (λ o. IfSome o (λ s. IsScript bytes.now s)) }
    ensures none { IfOk result (λ o. IfNone o ((s : Script) → ¬ IsScript bytes.now s)) }
{
    let lines = lines_of(alloc, bytes)?;
    script_of(alloc, lines.as_slice())
}

/// The script that the lines are, where they begin with a unit that puts a theory of this name.
fn script_with(
    alloc: Global,
    name: Name,
    lines: &[&[u8]],
    start: usize,
    end: usize,
) -> Result<Option<Script>, NoMemory>
    requires { IsUnitAt lines.now (Head.Put name) start end }
    ensures found { IfOk result (λ o. IfSome o (λ s. AreScript (texts lines.now) s.theory s.proofs)) }
    ensures none { IfOk result (λ o. IfNone o ((s : Script) → ¬ AreScript (texts lines.now) s.theory s.proofs)) }
{
    let Some(theorems) = theorems_of(alloc, lines_between(lines, start, end))? else {
        return Ok(None);
    };
    let Some(proofs) = proofs_of(alloc, lines_behind(lines, end))? else {
        return Ok(None);
    };
    let theory = Some(Theory { name, theorems });
    Ok(Some(Script { theory, proofs }))
}

/// The script that the lines are, where they begin with no unit that puts a theory.
fn script_without(alloc: Global, lines: &[&[u8]]) -> Result<Option<Script>, NoMemory>
    requires { PutsNothing (texts lines.now) }
    ensures found { IfOk result (λ o. IfSome o (λ s. AreScript (texts lines.now) s.theory s.proofs)) }
    ensures none { IfOk result (λ o. IfNone o ((s : Script) → ¬ AreScript (texts lines.now) s.theory s.proofs)) }
{
    let Some(proofs) = proofs_of(alloc, lines)? else {
        return Ok(None);
    };
    Ok(Some(Script {
        theory: None,
        proofs,
    }))
}

/// The script that the lines are, or `None` where they are none.
fn script_of(alloc: Global, lines: &[&[u8]]) -> Result<Option<Script>, NoMemory>
    ensures found { IfOk result (λ o. IfSome o (λ s. AreScript (texts lines.now) s.theory s.proofs)) }
    ensures none { IfOk result (λ o. IfNone o ((s : Script) → ¬ AreScript (texts lines.now) s.theory s.proofs)) }
{
    let Some(unit) = unit_front(alloc, lines)? else {
        return script_without(alloc, lines);
    };
    let UnitSpan { head, start, end } = unit;
    match head {
        Head::Put(name) => script_with(alloc, name, lines, start, end),
        Head::Proof(_, _) => script_without(alloc, lines),
    }
}
