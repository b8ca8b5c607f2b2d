//! The parts of elements as texts. Of a formula and of a type the outermost form is shown.
use ev_syntax::{FormulaForm, Raw, RawType, RawTypeForm, all_spellings};
use ev_terms::{Names, NoMemory};
use ev_theory_text::{RawArgs, RawBody, RawBranch, RawCase, RawCon, RawHead, RawResult};
use std::alloc::Global;

pub fn put(line: &mut Vec<u8>, text: &[u8]) -> Result<(), NoMemory> {
    line.extend_from_slice(text)?;
    Ok(())
}

fn put_mark(line: &mut Vec<u8>, mark: u16) -> Result<(), NoMemory> {
    put(line, all_spellings().get(mark).unwrap_or(b"no mark"))
}

pub fn put_number(line: &mut Vec<u8>, alloc: Global, number: u128) -> Result<(), NoMemory> {
    let digits = format!(in alloc; "{number}")?;
    put(line, digits.as_bytes())
}

fn put_called(line: &mut Vec<u8>, alloc: Global, name: &[u8], args: usize) -> Result<(), NoMemory> {
    put(line, name)?;
    put(line, b"/")?;
    put_number(line, alloc, args as u128)
}

fn put_type(line: &mut Vec<u8>, alloc: Global, written: &RawType) -> Result<(), NoMemory> {
    match written.form() {
        RawTypeForm::Int => put(line, b"INT"),
        RawTypeForm::Bool => put(line, b"BOOL"),
        RawTypeForm::Param(_) => put(line, b"?"),
        RawTypeForm::Named(name, types) => put_called(line, alloc, name.as_slice(), types.len()),
        RawTypeForm::Pow(_) => put(line, b"POW"),
        RawTypeForm::Prod(_, _) => put(line, b"**"),
    }
}

pub fn put_formula(line: &mut Vec<u8>, alloc: Global, formula: &Raw) -> Result<(), NoMemory> {
    match formula.form() {
        FormulaForm::Word(mark) => put_mark(line, *mark),
        FormulaForm::Literal(number) => put_number(line, alloc, *number),
        FormulaForm::Call(name, args) => put_called(line, alloc, name.as_slice(), args.len()),
        FormulaForm::Binary(mark, _, _) => put_mark(line, *mark),
        FormulaForm::Unary(mark, _) => put_mark(line, *mark),
        FormulaForm::Quantified(mark, _, _) => put_mark(line, *mark),
        _ => put(line, b".."),
    }
}

pub fn put_names(line: &mut Vec<u8>, names: &Names) -> Result<(), NoMemory> {
    for name in names.as_slice() {
        put(line, b" ")?;
        put(line, name.as_slice())?;
    }
    Ok(())
}

pub fn put_args(line: &mut Vec<u8>, alloc: Global, args: &RawArgs) -> Result<(), NoMemory> {
    for arg in args.as_slice() {
        put(line, b" ")?;
        put(line, arg.name.as_slice())?;
        put(line, b":")?;
        put_type(line, alloc, &arg.written)?;
    }
    Ok(())
}

pub fn put_con(line: &mut Vec<u8>, alloc: Global, con: &RawCon) -> Result<(), NoMemory> {
    put(line, b" | ")?;
    put(line, con.name.as_slice())?;
    put_args(line, alloc, &con.args)
}

pub fn put_head(line: &mut Vec<u8>, alloc: Global, head: &RawHead) -> Result<(), NoMemory> {
    put(line, head.name.as_slice())?;
    put_args(line, alloc, &head.args)?;
    put(line, b" : ")?;
    match &head.gives {
        RawResult::Predicate => put(line, b"PRED"),
        RawResult::Typed(written) => put_type(line, alloc, written),
    }
}

pub fn put_condition(
    line: &mut Vec<u8>,
    alloc: Global,
    condition: &Option<Raw>,
) -> Result<(), NoMemory> {
    match condition {
        Some(formula) => {
            put(line, b" if ")?;
            put_formula(line, alloc, formula)
        }
        None => Ok(()),
    }
}

fn put_case(line: &mut Vec<u8>, alloc: Global, case: &RawCase) -> Result<(), NoMemory> {
    put(line, b" | ")?;
    put(line, case.con.as_slice())?;
    put_names(line, &case.vars)?;
    put(line, b" = ")?;
    put_formula(line, alloc, &case.body)
}

pub fn put_body(line: &mut Vec<u8>, alloc: Global, body: &RawBody) -> Result<(), NoMemory> {
    match body {
        RawBody::Direct(formula) => {
            put(line, b" = ")?;
            put_formula(line, alloc, formula)
        }
        RawBody::Recursive(name, cases) => {
            put(line, b" by ")?;
            put(line, name.as_slice())?;
            for case in cases.as_slice() {
                put_case(line, alloc, case)?;
            }
            Ok(())
        }
    }
}

pub fn put_branch(line: &mut Vec<u8>, alloc: Global, branch: &RawBranch) -> Result<(), NoMemory> {
    put(line, b" ->")?;
    put_condition(line, alloc, &branch.condition)?;
    put(line, b" ")?;
    put_formula(line, alloc, &branch.right)
}
