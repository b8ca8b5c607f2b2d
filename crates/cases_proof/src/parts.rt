//! The parts of steps as texts. Of a formula and of a type the outermost form is shown.
use ev_proof::{Cite, Ref, Step};
use ev_syntax::{FormulaForm, Raw, RawType, RawTypeForm, all_spellings};
use ev_terms::{Name, NoMemory, Nums};
use std::alloc::Global;

pub fn put(line: &mut String, text: &str) -> Result<(), NoMemory> {
    Ok(line.push_str(text)?)
}

pub fn put_name(line: &mut String, name: &Name) -> Result<(), NoMemory> {
    put(
        line,
        std::str::from_utf8(name.as_slice()).unwrap_or("no text"),
    )
}

pub fn put_number(line: &mut String, alloc: Global, number: u128) -> Result<(), NoMemory> {
    let digits = format!(in alloc; "{number}")?;
    put(line, digits.as_str())
}

fn put_mark(line: &mut String, mark: u16) -> Result<(), NoMemory> {
    let spelling = all_spellings().get(mark).unwrap_or(b"no mark");
    put(line, std::str::from_utf8(spelling).unwrap_or("no text"))
}

fn put_called(line: &mut String, alloc: Global, name: &Name, args: usize) -> Result<(), NoMemory> {
    put_name(line, name)?;
    put(line, "(")?;
    put_number(line, alloc, args as u128)?;
    put(line, ")")
}

fn put_type(line: &mut String, alloc: Global, written: &RawType) -> Result<(), NoMemory> {
    match written.form() {
        RawTypeForm::Int => put(line, "INT"),
        RawTypeForm::Bool => put(line, "BOOL"),
        RawTypeForm::Param(_) => put(line, "?"),
        RawTypeForm::Named(name, types) => put_called(line, alloc, name, types.len()),
        RawTypeForm::Pow(_) => put(line, "POW"),
        RawTypeForm::Prod(_, _) => put(line, "**"),
    }
}

pub fn put_formula(line: &mut String, alloc: Global, formula: &Raw) -> Result<(), NoMemory> {
    match formula.form() {
        FormulaForm::Word(mark) => put_mark(line, *mark),
        FormulaForm::Literal(number) => put_number(line, alloc, *number),
        FormulaForm::Call(name, args) => put_called(line, alloc, name, args.len()),
        FormulaForm::Binary(mark, _, _) => put_mark(line, *mark),
        FormulaForm::Unary(mark, _) => put_mark(line, *mark),
        FormulaForm::Quantified(mark, _, _) => put_mark(line, *mark),
        _ => put(line, ".."),
    }
}

pub fn put_ref(line: &mut String, label: &Ref) -> Result<(), NoMemory> {
    put_name(line, &label.theory)?;
    put(line, "/")?;
    put_name(line, &label.label)
}

pub fn put_numbers(line: &mut String, alloc: Global, numbers: &Nums) -> Result<(), NoMemory> {
    for number in numbers.as_slice() {
        put(line, " ")?;
        put_number(line, alloc, *number)?;
    }
    Ok(())
}

pub fn put_place(line: &mut String, alloc: Global, place: &Nums) -> Result<(), NoMemory> {
    put(line, " at")?;
    put_numbers(line, alloc, place)
}

/// The types, then `of` and the terms.
pub fn put_cite(line: &mut String, alloc: Global, cite: &Cite) -> Result<(), NoMemory> {
    put(line, " [")?;
    for written in cite.types.as_slice() {
        put(line, " ")?;
        put_type(line, alloc, written)?;
    }
    put(line, " ] of")?;
    for term in cite.terms.as_slice() {
        put(line, " ")?;
        put_formula(line, alloc, term)?;
    }
    Ok(())
}

fn cite_of(step: &Step) -> Option<&Cite> {
    match step {
        Step::Axiom(_, cite) => Some(cite),
        Step::Theorem(_, cite) => Some(cite),
        Step::Rewrite(_, _, _, cite) => Some(cite),
        _ => None,
    }
}

/// How many types and terms the citation of an axiom, a theorem or a rewrite rule has, if it has some.
pub fn put_cite_size(
    line: &mut String,
    alloc: Global,
    entry: &Option<Step>,
) -> Result<(), NoMemory> {
    let Some(step) = entry else {
        return Ok(());
    };
    let Some(cite) = cite_of(step) else {
        return Ok(());
    };
    put(line, " ")?;
    put_number(line, alloc, cite.types.len() as u128)?;
    put(line, "+")?;
    put_number(line, alloc, cite.terms.len() as u128)
}
