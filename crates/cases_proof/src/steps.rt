//! Steps as texts.
use crate::parts::{
    put, put_cite, put_formula, put_name, put_number, put_numbers, put_place, put_ref,
};
use ev_proof::{Cite, Ref, Step};
use ev_syntax::Raw;
use ev_terms::{Name, NoMemory, Nums};
use std::alloc::Global;

fn put_stated(line: &mut String, alloc: Global, word: &str, formula: &Raw) -> Result<(), NoMemory> {
    put(line, word)?;
    put(line, " ")?;
    put_formula(line, alloc, formula)
}

fn put_cited(
    line: &mut String,
    alloc: Global,
    word: &str,
    label: &Ref,
    cite: &Cite,
) -> Result<(), NoMemory> {
    put(line, word)?;
    put(line, " ")?;
    put_ref(line, label)?;
    put_cite(line, alloc, cite)
}

fn put_placed(line: &mut String, alloc: Global, word: &str, place: &Nums) -> Result<(), NoMemory> {
    put(line, word)?;
    put_place(line, alloc, place)
}

fn put_two_names(line: &mut String, left: &Name, right: &Name) -> Result<(), NoMemory> {
    put_name(line, left)?;
    put(line, " ")?;
    put_name(line, right)
}

/// A step that is a word alone.
fn word_of(step: &Step) -> &'static str {
    match step {
        Step::Hyp => "hyp",
        Step::TrueI => "truei",
        Step::Em => "em",
        Step::Refl => "refl",
        Step::SetMem => "setmem",
        Step::BoolMem => "boolmem",
        Step::Calc => "calc",
        Step::FalseE => "falsee",
        Step::NotI => "noti",
        Step::AndI => "andi",
        Step::OrI1 => "ori1",
        Step::OrI2 => "ori2",
        Step::ImpI => "impi",
        Step::IffI => "iffi",
        Step::AllI => "alli",
        Step::Sym => "sym",
        Step::Cong => "cong",
        Step::Induct => "induct",
        Step::Open => "open",
        _ => "no word",
    }
}

fn put_by_formula(line: &mut String, alloc: Global, step: &Step) -> Result<(), NoMemory> {
    match step {
        Step::Cut(p) => put_stated(line, alloc, "cut", p),
        Step::Note(p) => put_stated(line, alloc, "note", p),
        Step::AndE1(p) => put_stated(line, alloc, "ande1", p),
        Step::AndE2(p) => put_stated(line, alloc, "ande2", p),
        Step::OrE(p) => put_stated(line, alloc, "ore", p),
        Step::ImpE(p) => put_stated(line, alloc, "impe", p),
        Step::IffE1(p) => put_stated(line, alloc, "iffe1", p),
        Step::IffE2(p) => put_stated(line, alloc, "iffe2", p),
        Step::ExE(p) => put_stated(line, alloc, "exe", p),
        Step::ExI(t) => put_stated(line, alloc, "exi", t),
        Step::Trans(t) => put_stated(line, alloc, "trans", t),
        Step::AllE(p, t) => {
            put_stated(line, alloc, "alle", p)?;
            put(line, " , ")?;
            put_formula(line, alloc, t)
        }
        other => put(line, word_of(other)),
    }
}

fn put_by_label(line: &mut String, alloc: Global, step: &Step) -> Result<(), NoMemory> {
    match step {
        Step::Theorem(label, cite) => put_cited(line, alloc, "theorem", label, cite),
        Step::Assume(label, cite) => put_cited(line, alloc, "assume", label, cite),
        Step::Infer(label, cite) => put_cited(line, alloc, "infer", label, cite),
        Step::Rewrite(label, branch, place, cite) => {
            put(line, "rewrite ")?;
            put_ref(line, label)?;
            put(line, " ")?;
            put_number(line, alloc, *branch)?;
            put_place(line, alloc, place)?;
            put_cite(line, alloc, cite)
        }
        Step::Cases(label, place, cite) => {
            put(line, "cases ")?;
            put_ref(line, label)?;
            put_place(line, alloc, place)?;
            put_cite(line, alloc, cite)
        }
        other => put_by_formula(line, alloc, other),
    }
}

fn put_step(line: &mut String, alloc: Global, step: &Step) -> Result<(), NoMemory> {
    match step {
        Step::Weak(numbers) => {
            put(line, "weak")?;
            put_numbers(line, alloc, numbers)
        }
        Step::Axiom(row, cite) => {
            put(line, "axiom ")?;
            put_number(line, alloc, *row)?;
            put_cite(line, alloc, cite)
        }
        Step::Dis(left, right, cite) => {
            put(line, "dis ")?;
            put_two_names(line, left, right)?;
            put_cite(line, alloc, cite)
        }
        Step::Unfold(place) => put_placed(line, alloc, "unfold", place),
        Step::Recur(place) => put_placed(line, alloc, "recur", place),
        Step::Con(place) => put_placed(line, alloc, "con", place),
        Step::Fold(name, place, cite) => {
            put(line, "fold ")?;
            put_name(line, name)?;
            put_place(line, alloc, place)?;
            put_cite(line, alloc, cite)
        }
        other => put_by_label(line, alloc, other),
    }
}

/// An entry: its step, or `none`.
pub fn put_entry(line: &mut String, alloc: Global, entry: &Option<Step>) -> Result<(), NoMemory> {
    match entry {
        Some(step) => put_step(line, alloc, step),
        None => put(line, "none"),
    }
}
