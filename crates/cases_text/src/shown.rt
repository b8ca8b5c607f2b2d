//! Raw trees as texts: what a form is, and after that its parts, in parentheses. A form without parts has none. What is no sign, no
//! reserved word and no name of the text begins with `@`, as no name does.
use crate::texts::{put, put_number};
use crate::types_shown::{DEPTH, put_binder, put_binders, put_param, put_pattern, put_type};
use crate::words::put_mark;
use ev_syntax::{Binder, FormulaForm, Raw};
use ev_terms::NoMemory;
use std::alloc::Global;

/// `! x y:T .`
fn put_binding(
    alloc: Global,
    out: &mut Vec<u8>,
    mark: u16,
    binders: &[Binder],
) -> Result<(), NoMemory> {
    put_mark(out, mark)?;
    put_binders(alloc, out, binders)?;
    put(out, b" .")
}

/// What a form is that binds names or has a type, with these.
fn put_binding_head(alloc: Global, out: &mut Vec<u8>, form: &FormulaForm) -> Result<(), NoMemory> {
    match form {
        FormulaForm::Quantified(mark, names, _) => put_binding(alloc, out, *mark, names.as_slice()),
        FormulaForm::Collected(mark, names, _, _) => put_binding(
            alloc,
            out,
            *mark,
            names.as_slice(),
        ),
        FormulaForm::SetOf(binder, _) => {
            put(out, b"@set ")?;
            put_binder(alloc, out, binder)
        }
        FormulaForm::Lambda(pattern, _, _) => {
            put(out, b"% ")?;
            put_pattern(alloc, out, pattern)
        }
        FormulaForm::TypeSet(ty) => {
            put(out, b"TYPE ")?;
            put_type(alloc, out, ty)
        }
        FormulaForm::OfType(_, ty) => {
            put(out, b"oftype ")?;
            put_type(alloc, out, ty)
        }
        FormulaForm::Written(ty) => {
            put(out, b"@type ")?;
            put_type(alloc, out, ty)
        }
        _ => Ok(()),
    }
}

/// What a form is.
fn put_head(alloc: Global, out: &mut Vec<u8>, form: &FormulaForm) -> Result<(), NoMemory> {
    match form {
        FormulaForm::Word(mark) => put_mark(out, *mark),
        FormulaForm::Around(mark, _) => put_mark(out, *mark),
        FormulaForm::Unary(mark, _) => put_mark(out, *mark),
        FormulaForm::Binary(mark, _, _) => put_mark(out, *mark),
        FormulaForm::Literal(number) => put_number(alloc, out, *number),
        FormulaForm::Param(number) => put_param(alloc, out, *number),
        FormulaForm::Call(name, _) => put(out, name.as_slice()),
        FormulaForm::Inverse(_) => put(out, b"~"),
        FormulaForm::Apply(_, _) => put(out, b"@apply"),
        FormulaForm::Image(_, _) => put(out, b"@image"),
        FormulaForm::Members(_) => put(out, b"@members"),
        other => put_binding_head(alloc, out, other),
    }
}

/// The parts of a form.
enum Parts<'a> {
    One(&'a Raw),
    Two(&'a Raw, &'a Raw),
    All(&'a [Raw]),
}

fn parts_of(form: &FormulaForm) -> Parts<'_> {
    match form {
        FormulaForm::Call(_, args) => Parts::All(args.as_slice()),
        FormulaForm::Members(members) => Parts::All(members.as_slice()),
        FormulaForm::Around(_, part) => Parts::One(part),
        FormulaForm::Unary(_, part) => Parts::One(part),
        FormulaForm::Inverse(part) => Parts::One(part),
        FormulaForm::OfType(part, _) => Parts::One(part),
        FormulaForm::Quantified(_, _, part) => Parts::One(part),
        FormulaForm::SetOf(_, part) => Parts::One(part),
        FormulaForm::Binary(_, first, second) => Parts::Two(first, second),
        FormulaForm::Apply(first, second) => Parts::Two(first, second),
        FormulaForm::Image(first, second) => Parts::Two(first, second),
        FormulaForm::Collected(_, _, first, second) => Parts::Two(first, second),
        FormulaForm::Lambda(_, first, second) => Parts::Two(first, second),
        _ => Parts::All(&[]),
    }
}

/// Whether a form stands without parentheses.
fn is_bare(form: &FormulaForm) -> bool {
    match form {
        FormulaForm::Word(_) => true,
        FormulaForm::Literal(_) => true,
        FormulaForm::Param(_) => true,
        FormulaForm::Call(_, args) => args.is_empty(),
        _ => false,
    }
}

/// `x`, `(+ a b)`, `(f a b)`, `(! x y:T . P)`, `(% [x y] P e)`, `(@set x P)`, `({ x . P e)`, `(oftype T e)`, `(@apply f e)`
fn put_nested(alloc: Global, out: &mut Vec<u8>, raw: &Raw, depth: u32) -> Result<(), NoMemory> {
    let form = raw.form();
    if is_bare(form) {
        return put_head(alloc, out, form);
    }
    if depth == 0 {
        return put(out, b"..");
    }
    put(out, b"(")?;
    put_head(alloc, out, form)?;
    match parts_of(form) {
        Parts::One(part) => {
            put(out, b" ")?;
            put_nested(alloc, out, part, depth - 1)?;
        }
        Parts::Two(first, second) => {
            put(out, b" ")?;
            put_nested(alloc, out, first, depth - 1)?;
            put(out, b" ")?;
            put_nested(alloc, out, second, depth - 1)?;
        }
        Parts::All(parts) => {
            for part in parts {
                put(out, b" ")?;
                put_nested(alloc, out, part, depth - 1)?;
            }
        }
    }
    put(out, b")")
}

fn count_of(form: &FormulaForm) -> usize {
    match parts_of(form) {
        Parts::One(_) => 1,
        Parts::Two(_, _) => 2,
        Parts::All(parts) => parts.len(),
    }
}

/// What a tree is, and how many parts it has.
pub(crate) fn put_counted(alloc: Global, out: &mut Vec<u8>, raw: &Raw) -> Result<(), NoMemory> {
    let form = raw.form();
    put_head(alloc, out, form)?;
    put(out, b" of ")?;
    put_number(alloc, out, count_of(form) as u128)
}

pub(crate) fn put_raw(alloc: Global, out: &mut Vec<u8>, raw: &Raw) -> Result<(), NoMemory> {
    put_nested(alloc, out, raw, DEPTH)
}
